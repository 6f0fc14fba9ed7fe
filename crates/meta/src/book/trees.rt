// The nodes of a book as those of a tree.
ghost use Rattle.std.specs.Prelude.{◌≡◌, length, ◌==◌};
ghost use Rattle.rules.specs.Sound.{Sound};
ghost use Rattle.meta.specs.Items.{word_at, note_numbered};
ghost use Rattle.meta.specs.Reads.{Reads};

use crate::book::Book;
use crate::item::{Meta, Word};

impl Book {
    // What a node says, if there is one of that number.
    pub fn meta(&self, number: u16) -> Option<Meta<'_>>
        ensures value { Reads self.now number result }
        ensures sound { Sound self.now }
    {
        let record = self.own_record(usize::from(number))?;
        let children = self.children(usize::from(number))?;
        Some(record.decode(number, children))
    }

    // The text of a word; of a node that is not there it is empty.
    pub fn word(&self, place: Word) -> &[u8]
        ensures value { result.now ≡ word_at self.now place }
        ensures sound { Sound self.now }
    {
        match self.own_record(usize::from(place.node)) {
            Some(record) => record.word(place.part),
            // A public call asks nothing of its caller, so the word of an absent node is an empty text.
            None => &[],
        }
    }

    // Whether a note has no marks, as one that is not there has none.
    pub fn is_blank(&self, note: u16) -> bool
        ensures value { result ≡ (length (note_numbered self.now note).tokens == 0) }
        ensures sound { Sound self.now }
    {
        self.store()
            .note(usize::from(note))
            .is_none_or(|note| note.is_blank())
    }
}
