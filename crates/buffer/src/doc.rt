// How a note is written.
ghost use Rattle.std.specs.Prelude.{unwrap_or, slice_get};
ghost use Rattle.rules.specs.Content as C;
ghost use Rattle.rules.specs.Tree.{no_note};
ghost use Rattle.buffer.specs.Contents.{IsSound, Wrote};

use crate::sheet::{Full, Sheet};
use crate::store::Store;
use terms::text::Block;

impl Sheet {
    // A note of a store, as it is, in a block of its own; one that is not there is empty.
    pub fn doc(&mut self, store: &Store, number: usize) -> Result<(), Full>
        ensures wrote { Wrote self.old (C.doc (unwrap_or (slice_get store.now number) no_note))
            self.new result }
        ensures sound { IsSound self.new }
    {
        self.block_start(Block::InlineBlock)?;
        self.raw(store.tokens(number), store.text(number))?;
        self.block_end(Block::InlineBlock)
    }
}
