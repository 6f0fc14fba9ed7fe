// What a book holds.
ghost use Rattle.std.specs.Prelude.{◌≡◌, length, slice_get};
ghost use Rattle.std.specs.Option.{option_map};
ghost use Rattle.rules.specs.Sound.{Sound};

use crate::book::Book;
use crate::fields::{RECORD_SIZE, Record};
use buffer::store::Store;

impl Book {
    pub fn len(&self) -> usize
        ensures value { result ≡ length self.now.nodes }
        ensures sound { Sound self.now }
    {
        self.nodes.len()
    }

    // The record of a node, if there is one of that number.
    pub(crate) fn own_record(&self, number: usize) -> Option<&Record>
        ensures sound { Sound self.now }
        ensures value { option_map (λ x. x.now) result
            ≡ option_map (λ n. n.«record») (slice_get self.now.nodes number) }
    {
        Some(&self.nodes.get(number)?.record)
    }

    pub fn record(&self, number: usize) -> Option<&[u8; RECORD_SIZE]>
        ensures value { option_map (λ x. x.now) result
            ≡ option_map (λ n. n.«record») (slice_get self.now.nodes number) }
        ensures sound { Sound self.now }
    {
        Some(self.own_record(number)?.bytes())
    }

    pub fn children(&self, number: usize) -> Option<&[u16]>
        ensures value { option_map (λ x. x.now) result
            ≡ option_map (λ n. n.children) (slice_get self.now.nodes number) }
        ensures sound { Sound self.now }
    {
        let node = self.nodes.get(number)?;
        let first = usize::from(node.first);
        let end = first + usize::from(node.count);
        // A node's children are a part of one list, since a list for each would need memory.
        Some(&self.kids.as_slice()[first..end])
    }

    // The notes that its records name.
    pub fn store(&self) -> &Store
        ensures value { result.now ≡ self.now.notes }
        ensures sound { Sound self.now }
    {
        &self.store
    }
}
