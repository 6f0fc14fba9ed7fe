// The marks of a store's bytes, and how they are read.
ghost use Rattle.std.specs.Prelude.{◌≡◌, if◌then◌else◌, slice_get, None, ◌==◌};
ghost use Rattle.terms.specs.Block.{blocks};
ghost use Rattle.buffer.specs.Marks.{mark_in};

use terms::text::{Block, Mark, Style, Token};

// How many bytes a mark has.
pub(crate) const MARK_SIZE: usize = 4;

// The mark of four bytes: its class, its style or block, and a length, the lower byte first.
pub(crate) fn read_mark(bytes: &[u8; MARK_SIZE]) -> Option<Mark>
    ensures { result ≡ mark_in bytes.now }
{
    let [class, kind, low, high] = *bytes;
    // The classes are matched as the bytes that they are: an enum of them would only be matched here again.
    let length = u16::from_le_bytes([low, high]);
    match class {
        0 => {
            let style = Style::try_from(kind).ok()?;
            Some(Mark::Token(Token::Text {
                style,
                bytes: length,
            }))
        }
        1 => Some(Mark::Token(Token::BlockStart(edge(kind, length)?))),
        2 => Some(Mark::Token(Token::BlockEnd(edge(kind, length)?))),
        3 if kind == 0 && length == 0 => Some(Mark::Stop),
        _ => None,
    }
}

// The block that a mark starts or ends, which has no length; both come as the bytes that were read.
fn edge(kind: u8, length: u16) -> Option<Block>
    ensures { result ≡ (if length == 0 then slice_get blocks kind else None) }
{
    (length == 0).then_some(Block::try_from(kind).ok()?)
}
