// A store: the notes that its marks and its text are cut into.
ghost use Rattle.std.specs.Prelude.{◌≡◌, ◌-◌, ◌<◌, ◌≤◌, true, length, IfOk, slice_get, unwrap_or};
ghost use Rattle.std.specs.List.{list_all};
ghost use Rattle.terms.specs.Token.{sizes};
ghost use Rattle.rules.specs.Notes.{is_store, notes_of};
ghost use Rattle.rules.specs.Sound.{whole};
ghost use Rattle.rules.specs.Tree.{no_note};

use crate::check::is_lawful;
use crate::mark::{MARK_SIZE, read_mark};
use crate::note::Note;
use std::alloc::{AllocError, Global};
use std::marker::Model;
use terms::text::{Mark, Token};

// So many elements of a list, from the first of them on.
#[derive(Clone, Copy)]
struct Span {
    first: u16,
    count: u16,
}

impl Span {
    // The elements from `first` up to `end`.
    fn between(first: usize, end: usize) -> Span
        requires order { first ≤ end }
        requires end { end < 65536 }
        ensures first { result.first ≡ first }
        ensures count { result.count ≡ end - first }
    {
        Span {
            first: first as u16,
            count: (end - first) as u16,
        }
    }
}

// Where a note's tokens and text stand.
#[derive(Clone, Copy)]
struct Place {
    tokens: Span,
    text: Span,
}

#[derive(Drop)]
pub struct Store {
    // The tokens of all notes, one note behind another.
    tokens: Vec<Token>,
    text: Vec<u8>,
    places: Vec<Place>,
}

impl Model for Store {
    ghost use Rattle.std.specs.Prelude.{List};
    ghost use Rattle.rules.specs.Notes as N;

    ghost Value = { List N.Note };

    ghost use Rattle.buffer.specs.Stores.{notes_in, IsCut};

    ghost view = { notes_in };

    ghost invariant = { IsCut };
}

impl Store {
    // Bytes that are not those of a lawful store open with no notes. Marks and text come apart, as callers have them.
    pub fn open(heap: Global, marks: &[u8], text: &[u8]) -> Result<Store, AllocError>
        ensures { IfOk result (λ s. s ≡ notes_of marks.now text.now) }
    {
        if is_lawful(marks, text) {
            cut(heap, marks, text)
        } else {
            Ok(Store {
                tokens: Vec::new(heap),
                text: Vec::new(heap),
                places: Vec::new(heap),
            })
        }
    }

    pub fn len(&self) -> usize
        ensures value { result ≡ length self.now }
        ensures whole { list_all whole self.now ≡ true }
    {
        self.places.len()
    }

    // The note of a number, if there is one.
    pub fn note(&self, number: usize) -> Option<Note<'_>>
        ensures value { result ≡ slice_get self.now number }
        ensures whole { list_all whole self.now ≡ true }
    {
        if number < self.len() {
            Some(Note {
                tokens: self.tokens(number),
                text: self.text(number),
            })
        } else {
            None
        }
    }

    // The tokens of a note, of which there are none where there is no such note.
    pub fn tokens(&self, note: usize) -> &[Token]
        ensures value { result.now ≡ (unwrap_or (slice_get self.now note) no_note).tokens }
        ensures len { sizes result.now ≡ length (unwrap_or (slice_get self.now note) no_note).bytes }
        ensures whole { list_all whole self.now ≡ true }
    {
        if note < self.places.len() {
            let span = self.places[note].tokens;
            let first = usize::from(span.first);
            let end = first + usize::from(span.count);
            &self.tokens.as_slice()[first..end]
        } else {
            &[]
        }
    }

    // The text of a note, which is empty where there is no such note.
    pub fn text(&self, note: usize) -> &[u8]
        ensures value { result.now ≡ (unwrap_or (slice_get self.now note) no_note).bytes }
        ensures len { length result.now ≡ sizes (unwrap_or (slice_get self.now note) no_note).tokens }
        ensures whole { list_all whole self.now ≡ true }
    {
        if note < self.places.len() {
            let span = self.places[note].text;
            let first = usize::from(span.first);
            let end = first + usize::from(span.count);
            &self.text.as_slice()[first..end]
        } else {
            &[]
        }
    }
}

// The store that the marks of a lawful store cut its text into.
fn cut(heap: Global, marks: &[u8], text: &[u8]) -> Result<Store, AllocError>
    requires { is_store marks.now text.now ≡ true }
    ensures { IfOk result (λ s. s ≡ notes_of marks.now text.now) }
{
    let mut tokens = Vec::new(heap);
    let mut places = Vec::new(heap);
    // Where the tokens and the text of the next note begin, and where its text ends so far.
    let mut first = 0;
    let mut start = 0;
    let mut end = 0;
    let (marks, _) = marks.as_chunks::<MARK_SIZE>();
    for bytes in marks {
        let Some(mark) = read_mark(bytes) else {
            // Not in a lawful store, of which each four bytes are a mark.
            continue;
        };
        match mark {
            Mark::Token(token) => {
                end += token.len();
                tokens.push(token)?;
            }
            Mark::Stop => {
                let place = Place {
                    tokens: Span::between(first, tokens.len()),
                    text: Span::between(start, end),
                };
                places.push(place)?;
                first = tokens.len();
                start = end;
            }
        }
    }
    let text = Vec::from_slice(heap, text)?;
    Ok(Store {
        tokens,
        text,
        places,
    })
}
