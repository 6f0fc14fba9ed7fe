// How names and items are written.
ghost use Rattle.rules.specs.Tree.{Short, Long};
ghost use Rattle.rules.specs.Reading.{item_reading};
ghost use Rattle.rules.specs.Content.{short_long, element_ops};
ghost use Rattle.buffer.specs.Contents.{Wrote};
ghost use Rattle.meta.specs.Items.{name_in, item_of};

use buffer::sheet::{Full, Sheet};
use meta::book::Book;
use meta::item::{Item, ShortLong};
use terms::text::Style;

// A short behind one dash, or else the long behind two.
pub(crate) fn write_shortlong(sheet: &mut Sheet, book: &Book, name: ShortLong) -> Result<(), Full>
    ensures { Wrote sheet.old (short_long (name_in book.now name)) sheet.new result }
{
    match name {
        ShortLong::Short(short) => write_short(sheet, short),
        ShortLong::Long(long) | ShortLong::Both(_, long) => write_long(sheet, book.word(long)),
    }
}

// Two writes, as the next has: one function of both texts would be no shorter.
fn write_short(sheet: &mut Sheet, short: u8) -> Result<(), Full>
    ensures { Wrote sheet.old (short_long (Short short)) sheet.new result }
{
    sheet.write_str(b"-", Style::Literal)?;
    sheet.write_str(&[short], Style::Literal)
}

fn write_long(sheet: &mut Sheet, long: &[u8]) -> Result<(), Full>
    ensures { Wrote sheet.old (short_long (Long long.now)) sheet.new result }
{
    sheet.write_str(b"--", Style::Literal)?;
    sheet.write_str(long, Style::Literal)
}

// An item as a usage line has it: a command is not named.
pub(crate) fn write_item(sheet: &mut Sheet, book: &Book, item: Item) -> Result<(), Full>
    ensures { Wrote sheet.old (element_ops (item_reading (item_of book.now item))) sheet.new result }
{
    match item {
        Item::Any { metavar, .. } => sheet.doc(book.store(), usize::from(metavar)),
        Item::Positional { metavar, .. } => sheet.metavar(book.word(metavar.0)),
        Item::Command { .. } => sheet.write_str(b"COMMAND ...", Style::Metavar),
        Item::Flag { name, .. } => write_shortlong(sheet, book, name),
        Item::Argument { name, metavar, .. } => {
            write_shortlong(sheet, book, name)?;
            sheet.write_str(b"=", Style::Text)?;
            sheet.metavar(book.word(metavar.0))
        }
    }
}
