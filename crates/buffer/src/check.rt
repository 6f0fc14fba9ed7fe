// Whether marks and text bytes make a lawful store.
ghost use Rattle.std.specs.Prelude.{◌≡◌, ◌+◌, ◌<◌, ◌≤◌, length};
ghost use Rattle.std.specs.List.{list_all};
ghost use Rattle.arrayvec.specs.ArrayVec.{array_vec_len};
ghost use Rattle.rules.specs.Notes.{text_byte, is_store};
ghost use Rattle.buffer.specs.Marks.{marks_in, agreeing};
ghost use Rattle.buffer.specs.Walks.{Takes};
ghost use Rattle.buffer.specs.declared.check.TheConstants.{MOST_MARKS, MOST_TEXT};

use crate::mark::{MARK_SIZE, read_mark};
use arrayvec::ArrayVec;
use terms::text::{Block, Mark, Token};

// The most marks that a store has.
const MOST_MARKS: usize = 2048;

// The most bytes that the text of a store has.
const MOST_TEXT: usize = 16384;

// What the marks that are read so far ask of those behind them.
#[derive(Drop)]
struct Walk {
    // The blocks that are open, the inmost of them last.
    open: ArrayVec<Block, MOST_MARKS>,
    // Whether the last mark, if any, ended a note.
    ended: bool,
    // How many bytes of the text are left.
    left: usize,
}

impl Walk {
    // Whether a mark may come next; the walk is then behind it.
    fn take(&mut self, mark: Mark) -> bool
        requires { array_vec_len self.old.open < MOST_MARKS }
        ensures value { Takes self.old mark self.new result }
        ensures bound { array_vec_len self.new.open ≤ array_vec_len self.old.open + 1 }
    {
        let Mark::Token(token) = mark else {
            self.ended = true;
            return self.open.is_empty();
        };
        self.ended = false;
        match token {
            Token::Text { bytes, .. } => {
                let Some(left) = self.left.checked_sub(usize::from(bytes)) else {
                    return false;
                };
                self.left = left;
                true
            }
            Token::BlockStart(block) => {
                self.open.push(block);
                true
            }
            Token::BlockEnd(block) => self.open.pop() == Some(block),
        }
    }
}

// Whether there are marks that nest, end and add up as they must over a text of that length.
fn agrees(marks: &[[u8; MARK_SIZE]], text_len: usize) -> bool
    requires { length marks.now ≤ MOST_MARKS }
    ensures { result ≡ agreeing text_len (marks_in marks.now) }
{
    let mut walk = Walk {
        open: ArrayVec::new(),
        ended: true,
        left: text_len,
    };
    for bytes in marks {
        let Some(mark) = read_mark(bytes) else {
            return false;
        };
        if !walk.take(mark) {
            return false;
        }
    }
    walk.ended && walk.left == 0
}

// The same: without a mark no block opens, and the stack of a walk need not be made.
fn match_text(marks: &[[u8; MARK_SIZE]], text_len: usize) -> bool
    requires { length marks.now ≤ MOST_MARKS }
    ensures { result ≡ agreeing text_len (marks_in marks.now) }
{
    if marks.is_empty() {
        text_len == 0
    } else {
        agrees(marks, text_len)
    }
}

fn is_text(text: &[u8]) -> bool
    ensures { result ≡ list_all text_byte text.now }
{
    text.iter().all(|byte| matches!(byte, b'\n' | b' '..=b'~'))
}

// Whether the bytes are those of a lawful store; marks and text come apart, as callers have them.
pub fn is_lawful(marks: &[u8], text: &[u8]) -> bool
    ensures { result ≡ is_store marks.now text.now }
{
    let (marks, rest) = marks.as_chunks::<MARK_SIZE>();
    if !rest.is_empty() || marks.len() > MOST_MARKS || text.len() > MOST_TEXT {
        return false;
    }
    is_text(text) && match_text(marks, text.len())
}
