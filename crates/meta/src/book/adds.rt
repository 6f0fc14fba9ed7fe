// Making a book, and adding to it.
ghost use Rattle.std.specs.Prelude.{None, ◌≡◌, ◌+◌, ◌-◌, ◌≤◌, ◌++◌, length, take, drop, IfOk, Ok, vec_len, vec_capacity};
ghost use Rattle.rules.specs.Plain.{new as blank, add_rule, added, grown};
ghost use Rattle.rules.specs.Sound.{Sound};
ghost use Rattle.meta.specs.Rejections.{answer_of, by_rule};
ghost use Rattle.meta.specs.Admitted.{row_of};
ghost use Rattle.meta.specs.Examined.{Takes};

use crate::book::{Book, Node};
use crate::fields::Record;
use crate::rejection::{Fault, Rejection};
use buffer::store::Store;
use std::alloc::{AllocError, Global};

impl Book {
    // Takes all the memory that the book will ever use. Marks and text come apart, as callers have them.
    pub fn new(heap: Global, places: usize, marks: &[u8], text: &[u8]) -> Result<Book, AllocError>
        ensures value { IfOk result (λ b. b ≡ blank places marks.now text.now) }
        ensures sound { IfOk result (λ b. Sound b) }
    {
        let used = places.min(Book::MOST);
        let store = Store::open(heap, marks, text)?;
        let nodes = Vec::with_capacity(heap, used)?;
        let kids = Vec::with_capacity(heap, used)?;
        let unplaced = Vec::with_capacity(heap, used)?;
        Ok(Book {
            nodes,
            kids,
            unplaced,
            store,
            places,
        })
    }

    // Adds a node over the last unplaced ones, as many as its record takes, and answers its number.
    pub fn add(&mut self, record: &[u8]) -> Result<u16, Rejection>
        ensures value { answer_of result
            ≡ by_rule (add_rule self.old «record».now) (length self.old.nodes) }
        ensures after { self.new ≡ added self.old «record».now }
        ensures sound { Sound self.new }
    {
        let number = self.nodes.len();
        self.try_add(record)
            .map_err(|fault| Rejection::of(fault, number))
    }

    // The same, with the fault alone.
    fn try_add(&mut self, record: &[u8]) -> Result<u16, Fault>
        ensures rule { row_of self.old result ≡ add_rule self.old «record».now }
        ensures number { IfOk result (λ n. n ≡ length self.old.nodes) }
        ensures after { self.new ≡ added self.old «record».now }
    {
        let record = Record::new(record).ok_or(Fault::Size)?;
        if self.nodes.len() >= self.places.min(Book::MOST) {
            return Err(Fault::Full);
        }
        let takes = record.examine(self.store.len(), self.unplaced.len())?;
        Ok(self.place(record, takes))
    }

    // Adds a node over the last `takes` unplaced ones, and answers its number.
    fn place(&mut self, record: Record, takes: usize) -> u16
        requires rule { add_rule self.old «record» ≡ None }
        requires takes { Takes «record» (Ok takes) }
        ensures number { result ≡ length self.old.nodes }
        ensures after { self.new ≡ grown self.old «record» }
    {
        // A book has at most 256 nodes and no more children, so all three numbers fit.
        let number = self.nodes.len() as u16;
        let node = Node {
            record,
            first: self.kids.len() as u16,
            count: takes as u16,
        };
        move_last(&mut self.unplaced, &mut self.kids, takes);
        self.nodes.push_reserved(node);
        self.unplaced.push_reserved(number);
        number
    }
}

// Moves the last `n` of `from` to the end of `to`, in their order.
fn move_last(from: &mut Vec<u16>, to: &mut Vec<u16>, n: usize)
    requires enough { n ≤ vec_len from.old }
    requires room { vec_len to.old + n ≤ vec_capacity to.old }
    ensures items { (from.new.items ≡ take (vec_len from.old - n) from.old.items)
        × (to.new.items ≡ to.old.items ++ drop (vec_len from.old - n) from.old.items) }
    ensures len { (vec_len from.new + n ≡ vec_len from.old) × (vec_len to.new ≡ vec_len to.old + n) }
    ensures capacity { (vec_capacity from.new ≡ vec_capacity from.old) × (vec_capacity to.old ≤ vec_capacity to.new) }
{
    let start = from.len() - n;
    // There is memory for all of them, so it does not fail.
    let _ = to.extend_from_slice(&from.as_slice()[start..]);
    from.truncate(start);
}
