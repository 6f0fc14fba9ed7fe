// Filling a book from the bytes of a file.
ghost use Rattle.std.specs.Prelude.{◌≡◌};
ghost use Rattle.meta.specs.Rejections.{answer_of, by_rule};
ghost use Rattle.jobs.specs.Jobs.{records_in, filled};

use meta::book::Book;
use meta::fields::RECORD_SIZE;
use meta::rejection::Rejection;

// Adds the records in the bytes one behind another, until one is rejected; a broken tail is one more.
pub fn fill(book: &mut Book, records: &[u8]) -> Result<(), Rejection>
    ensures value { answer_of result ≡ by_rule (filled book.old (records_in records.now)).rejected tt }
    ensures after { book.new ≡ (filled book.old (records_in records.now)).left }
{
    for record in records.chunks(RECORD_SIZE) {
        book.add(record)?;
    }
    Ok(())
}
