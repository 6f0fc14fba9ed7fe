// The usage line of the last record of a book.
ghost use Rattle.std.specs.Prelude.{◌≡◌, IfOk, IfSome};
ghost use Rattle.buffer.specs.Contents.{IsSound};
ghost use Rattle.jobs.specs.declared.line.LineError.TheVariants.{Refused, NoMemory};
ghost use Rattle.jobs.specs.Jobs.{line_job, seen};
ghost use Rattle.jobs.specs.Printed.{shown_answer};

use crate::fill::fill;
use crate::print::{print_rejection, print_sheet};
use buffer::sheet::{MOST_BYTES, MOST_TOKENS, Sheet};
use meta::book::Book;
use meta::rejection::Rejection;
use normal::bench::Bench;
use std::alloc::{AllocError, Global};
use usage::usage::usage;

// Why there is no usage line.
#[derive(Clone, Copy, Debug, PartialEq, Eq)]
pub enum LineError {
    Refused(Rejection),
    NoMemory(AllocError),
}

impl From<Rejection> for LineError {
    ghost from_gives = { λ r e. e ≡ Refused r };

    fn from(reason: Rejection) -> LineError {
        LineError::Refused(reason)
    }
}

impl From<AllocError> for LineError {
    ghost from_gives = { λ reason e. e ≡ NoMemory reason };

    fn from(reason: AllocError) -> LineError {
        LineError::NoMemory(reason)
    }
}

// The line that the records in the bytes lead to, over the store of marks and text, which come apart, as callers have
// them.
pub fn usage_line(
    heap: Global,
    records: &[u8],
    marks: &[u8],
    text: &[u8],
) -> Result<Sheet, LineError>
    ensures made { IfSome (seen result) (λ x. x ≡ line_job marks.now text.now records.now) }
    ensures sound { IfOk result (λ sheet. IsSound sheet) }
{
    let mut book = Book::new(heap, Book::MOST, marks, text)?;
    let mut bench = Bench::new(heap, Bench::MOST)?;
    let mut sheet = Sheet::new(heap, MOST_TOKENS, MOST_BYTES)?;
    fill(&mut book, records)?;
    let root = book.len().saturating_sub(1);
    usage(&book, root, &mut bench, &mut sheet)?;
    Ok(sheet)
}

// The printout of that line, or of why there is none.
pub fn printed_line(
    heap: Global,
    records: &[u8],
    marks: &[u8],
    text: &[u8],
) -> Result<Vec<u8>, AllocError>
    ensures made { IfOk result
        (λ v. v.items ≡ shown_answer (line_job marks.now text.now records.now)) }
{
    // Each way prints another thing, so each has its arm.
    match usage_line(heap, records, marks, text) {
        Ok(sheet) => print_sheet(heap, &sheet),
        Err(LineError::Refused(rejection)) => Ok(print_rejection(heap, rejection)?.into_bytes()),
        Err(LineError::NoMemory(reason)) => Err(reason),
    }
}
