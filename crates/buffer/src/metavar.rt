// How a metavar is written.
ghost use Rattle.std.specs.Prelude.{◌≡◌, [], ◌∷◌, ◌++◌, codes};
ghost use Rattle.std.specs.List.{list_all};
ghost use Rattle.terms.specs.declared.text.Style.TheVariants as S;
ghost use Rattle.rules.specs.Content as C;
ghost use Rattle.buffer.specs.Contents.{IsSound, Wrote};

use crate::sheet::{Full, Sheet};
use terms::text::Style;

impl Sheet {
    // A metavar of capitals, digits, - and _ stands as it is, any other between < and >.
    pub fn metavar(&mut self, m: &[u8]) -> Result<(), Full>
        ensures wrote { Wrote self.old (C.metavar m.now) self.new result }
        ensures sound { IsSound self.new }
    {
        if is_bare(m) {
            self.write_str(m, Style::Metavar)
        } else {
            self.enclosed(m)
        }
    }

    fn enclosed(&mut self, m: &[u8]) -> Result<(), Full>
        ensures wrote { Wrote self.old (C.str S.Metavar (codes "<" ++ (m.now ++ codes ">")) ∷ [])
            self.new result }
        ensures sound { IsSound self.new }
    {
        self.write_str(b"<", Style::Metavar)?;
        self.write_str(m, Style::Metavar)?;
        self.write_str(b">", Style::Metavar)
    }
}

fn is_bare(m: &[u8]) -> bool
    ensures { result ≡ list_all C.bare_byte m.now }
{
    m.iter()
        .all(|b| matches!(b, b'A'..=b'Z' | b'0'..=b'9' | b'-' | b'_'))
}
