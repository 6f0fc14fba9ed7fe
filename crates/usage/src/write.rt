// How a normal form is written, from its nodes. Book and sheet are passed beside each other: of a struct that
// borrows both, each method would have to promise besides that it leaves the same book and sheet in it.
ghost use Rattle.std.specs.Prelude.{◌≡◌, ◌-◌, ◌≤◌, ◌++◌, length, take};
ghost use Rattle.rules.specs.Tree.{Meta, Metas};
ghost use Rattle.rules.specs.Reading.{reading, joined};
ghost use Rattle.rules.specs.Content.{spell};
ghost use Rattle.buffer.specs.Contents.{Wrote};
ghost use Rattle.usage.specs.Standing.{IsTree, IsRow};
ghost use Rattle.usage.specs.Signs.{element_of, open_ops, close_ops};

use crate::signs::{Bracket, Join, write_dashes};
use crate::words::write_item;
use buffer::sheet::{Full, Sheet};
use meta::book::Book;
use normal::bench::{Form, Normal};
use terms::text::Style;

// Writes the tree that the nodes are: its top is the last.
#[cycle(write)]
pub(crate) fn write_meta(book: &Book, tree: &[Normal], sheet: &mut Sheet) -> Result<(), Full>
    requires { (t : Meta) × IsTree book.now tree.now t }
    ensures { (t : Meta) → IsTree book.now tree.now t
        → Wrote sheet.old (spell (reading t)) sheet.new result }
{
    // A tree has at least one node.
    let (top, below) = tree.split_last().unwrap();
    match top.form {
        Form::Skip => Ok(()),
        Form::Item { item, .. } => write_item(sheet, book, item),
        Form::CustomUsage(note) => sheet.doc(book.store(), usize::from(note)),
        Form::And(_) => write_row(book, below, Join::Space, sheet),
        Form::Or(_) => write_row(book, below, Join::Bar, sheet),
        Form::Required => write_enclosed(book, below, Bracket::Round, sheet),
        Form::Optional => write_enclosed(book, below, Bracket::Square, sheet),
        Form::Many => {
            write_meta(book, below, sheet)?;
            sheet.write_str(b"...", Style::Text)
        }
        Form::Strict => {
            write_dashes(sheet)?;
            write_meta(book, below, sheet)
        }
    }
}

// Writes a tree in a bracket.
#[cycle(write)]
fn write_enclosed(
    book: &Book,
    tree: &[Normal],
    bracket: Bracket,
    sheet: &mut Sheet,
) -> Result<(), Full>
    requires { (t : Meta) × IsTree book.now tree.now t }
    ensures { (t : Meta) → IsTree book.now tree.now t
        → Wrote sheet.old (open_ops bracket ++ (spell (reading t) ++ close_ops bracket)) sheet.new result }
{
    sheet.write_str(bracket.open(), Style::Text)?;
    write_meta(book, tree, sheet)?;
    sheet.write_str(bracket.close(), Style::Text)
}

// Writes the trees that the nodes are, one behind another. The last node is the top of the last tree, and tells how
// many nodes that tree has.
#[cycle(write)]
fn write_row(book: &Book, row: &[Normal], join: Join, sheet: &mut Sheet) -> Result<(), Full>
    requires { (ts : Metas) × IsRow book.now row.now ts }
    ensures { (ts : Metas) → IsRow book.now row.now ts
        → Wrote sheet.old (spell (joined (element_of join) ts)) sheet.new result }
{
    let Some((top, _)) = row.split_last() else {
        return Ok(());
    };
    let front = before_last(row, usize::from(top.size));
    let last = &row[front.len()..];
    if !front.is_empty() {
        write_row(book, front, join, sheet)?;
        sheet.write_str(join.text(), Style::Text)?;
    }
    write_meta(book, last, sheet)
}

// What stands in a row before its last tree, which has `size` nodes.
fn before_last(row: &[Normal], size: usize) -> &[Normal]
    requires { size ≤ length row.now }
    ensures { result.now ≡ take (length row.now - size) row.now }
{
    &row[..row.len() - size]
}
