// The signs of a line: what stands between, before and around its words.
ghost use Rattle.std.specs.Prelude.{◌≡◌, [], ◌∷◌};
ghost use Rattle.terms.specs.declared.text.Style.TheVariants as S;
ghost use Rattle.rules.specs.Reading as R;
ghost use Rattle.rules.specs.Content.{str, element_ops};
ghost use Rattle.buffer.specs.Contents.{Wrote};
ghost use Rattle.usage.specs.Signs.{element_of, open_ops, close_ops};

use buffer::sheet::{Full, Sheet};
use terms::text::Style;

// What stands between the children of an And, or of an Or.
#[derive(Clone, Copy, Debug, PartialEq, Eq)]
pub enum Join {
    Space,
    Bar,
}

// What stands around what is required, or optional.
#[derive(Clone, Copy, Debug, PartialEq, Eq)]
pub enum Bracket {
    Round,
    Square,
}

impl Join {
    pub(crate) fn text(self) -> &'static [u8]
        ensures { element_ops (element_of self) ≡ str S.Text result.now ∷ [] }
    {
        match self {
            Join::Space => b" ",
            Join::Bar => b" | ",
        }
    }
}

impl Bracket {
    pub(crate) fn open(self) -> &'static [u8]
        ensures { open_ops self ≡ str S.Text result.now ∷ [] }
    {
        match self {
            Bracket::Round => b"(",
            Bracket::Square => b"[",
        }
    }

    pub(crate) fn close(self) -> &'static [u8]
        ensures { close_ops self ≡ str S.Text result.now ∷ [] }
    {
        match self {
            Bracket::Round => b")",
            Bracket::Square => b"]",
        }
    }
}

// What stands before a tree that is strict: two writes, since they are of different styles.
pub(crate) fn write_dashes(sheet: &mut Sheet) -> Result<(), Full>
    ensures { Wrote sheet.old (element_ops R.dashes) sheet.new result }
{
    sheet.write_str(b"--", Style::Literal)?;
    sheet.write_str(b" ", Style::Text)
}
