// The usage line of a root of a book.
ghost use Rattle.std.specs.Prelude.{◌≡◌, OnOk};
ghost use Rattle.rules.specs.Sound.{Sound};
ghost use Rattle.rules.specs.Reading.{reading_of};
ghost use Rattle.rules.specs.Content.{blank, line};
ghost use Rattle.rules.specs.Rejection.{reject, sheet as sheet_layer};
ghost use Rattle.buffer.specs.Contents.{IsSound};
ghost use Rattle.meta.specs.Rejections.{answer_of, by_rule, rejection_of};
ghost use Rattle.usage.specs.Calls.{usage_rule};
ghost use Rattle.usage.specs.Left.{left_by};
ghost use Rattle.usage.specs.Lossless.{Lossless};

use crate::line::write_line;
use buffer::sheet::Sheet;
use meta::book::Book;
use meta::rejection::{Fault, Rejection};
use normal::bench::Bench;
use normal::normalise::normalise;

// Writes the usage line of a root, in place of what stands on the sheet.
pub fn usage(
    book: &Book,
    root: usize,
    bench: &mut Bench,
    sheet: &mut Sheet,
) -> Result<(), Rejection>
    ensures value { answer_of result
        ≡ by_rule (usage_rule bench.old.places sheet.old.limits book.now root) tt }
    ensures after { sheet.new.content
        ≡ left_by result sheet.old.content (line (reading_of book.now root)) }
    ensures law { OnOk result (Lossless book.now root sheet.new.content) }
    ensures same { (sheet.new.limits ≡ sheet.old.limits) × (bench.new.places ≡ bench.old.places) }
    ensures memory { bench.new.capacity ≡ bench.old.capacity }
    ensures sound { Sound book.now }
    ensures written { OnOk result (IsSound sheet.new) }
    ensures sheet { IsSound sheet.old → IsSound sheet.new }
{
    normalise(book, root, true, bench)?;
    // By a match: with `map_err` the closure holds the sheet, and the check does not prove what it leaves there.
    match write_line(book, bench.nodes(), sheet) {
        Ok(()) => Ok(()),
        Err(_) => Err(refuse(root, sheet)),
    }
}

// Empties the sheet, which a line does not fit, and says so.
fn refuse(root: usize, sheet: &mut Sheet) -> Rejection
    ensures value { rejection_of result ≡ reject 32 sheet_layer root }
    ensures after { sheet.new.content ≡ blank }
    ensures same { sheet.new.limits ≡ sheet.old.limits }
    ensures sound { IsSound sheet.new }
{
    sheet.clear();
    Rejection::of(Fault::Long, root)
}
