// The line of a tree, from its nodes.
ghost use Rattle.std.specs.Prelude.{◌≡◌, true, [], ◌∷◌, OnOk};
ghost use Rattle.terms.specs.declared.text.Block.TheVariants as B;
ghost use Rattle.terms.specs.declared.text.Token.TheVariants.{BlockStart};
ghost use Rattle.rules.specs.Tree.{Meta};
ghost use Rattle.rules.specs.Reading.{reading};
ghost use Rattle.rules.specs.Content.{tok, line_ops, fits};
ghost use Rattle.buffer.specs.Contents.{IsSound};
ghost use Rattle.usage.specs.Standing.{IsTree};
ghost use Rattle.usage.specs.Left.{Anew};

use crate::write::write_meta;
use buffer::sheet::{Full, Sheet};
use meta::book::Book;
use normal::bench::Normal;
use terms::text::Block;

// Writes the line of the tree that the nodes are, in place of what stands on the sheet.
pub(crate) fn write_line(book: &Book, tree: &[Normal], sheet: &mut Sheet) -> Result<(), Full>
    requires { (t : Meta) × IsTree book.now tree.now t }
    ensures line { (t : Meta) → IsTree book.now tree.now t
        → Anew sheet.old (line_ops (reading t)) sheet.new result }
    ensures bound { OnOk result (fits sheet.new.limits sheet.new.content ≡ true) }
    ensures sound { OnOk result (IsSound sheet.new) }
{
    begin(sheet)?;
    write_meta(book, tree, sheet)?;
    sheet.block_end(Block::Mono)
}

// Empties the sheet and begins a line on it.
fn begin(sheet: &mut Sheet) -> Result<(), Full>
    ensures { Anew sheet.old (tok (BlockStart B.Mono) ∷ []) sheet.new result }
{
    sheet.clear();
    sheet.block_start(Block::Mono)
}
