// The printouts of a sheet and of a rejection.
ghost use Rattle.std.specs.Prelude.{◌≡◌, IfOk, string_bytes};
ghost use Rattle.meta.specs.Rejections.{rejection_of};
ghost use Rattle.jobs.specs.Printed.{head, shown_tokens, shown_content, shown_rejection};

use buffer::sheet::Sheet;
use meta::rejection::Rejection;
use std::alloc::{AllocError, Global};
use terms::text::Token;

// A rejection in one line.
pub fn print_rejection(heap: Global, e: Rejection) -> Result<String, AllocError>
    ensures made { IfOk result (λ s. string_bytes s ≡ shown_rejection (rejection_of e)) }
{
    format!(in heap; "{e}\n")
}

// A sheet with a line for each token.
pub fn print_sheet(heap: Global, sheet: &Sheet) -> Result<Vec<u8>, AllocError>
    ensures made { IfOk result (λ v. v.items ≡ shown_content sheet.now.content) }
{
    print_tokens(heap, sheet.tokens(), sheet.bytes())
}

// A line for each token, with its text from the bytes: no `Display`, since a sheet's bytes need be no text.
fn print_tokens(heap: Global, tokens: &[Token], bytes: &[u8]) -> Result<Vec<u8>, AllocError>
    ensures made { IfOk result (λ v. v.items ≡ shown_tokens tokens.now bytes.now) }
{
    let mut out = Vec::new(heap);
    // Cut in turn, since a token knows only how many bytes are its own.
    let mut rest = bytes;
    for token in tokens {
        let (text, more) = rest.split_at(token.len().min(rest.len()));
        let head = head(heap, *token)?;
        out.extend_from_slice(head.as_bytes())?;
        out.extend_from_slice(text)?;
        out.push(b'\n')?;
        rest = more;
    }
    Ok(out)
}

// The line of a token up to its text.
fn head(heap: Global, token: Token) -> Result<String, AllocError>
    ensures made { IfOk result (λ s. string_bytes s ≡ head token) }
{
    match token {
        Token::Text { style, bytes } => format!(in heap; "{style} {bytes} "),
        Token::BlockStart(block) => format!(in heap; "+{block}"),
        Token::BlockEnd(block) => format!(in heap; "-{block}"),
    }
}
