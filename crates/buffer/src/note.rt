// A note that its store lends, which is whole.
ghost use Rattle.std.specs.Prelude.{◌≡◌, true, length, ◌==◌};
ghost use Rattle.rules.specs.Sound.{whole};

use std::marker::Model;
use terms::text::Token;

#[derive(Drop)]
pub struct Note<'a> {
    pub(crate) tokens: &'a [Token],
    pub(crate) text: &'a [u8],
}

impl<'a> Model for Note<'a> {
    ghost use Rattle.std.specs.Prelude.{◌≡◌, true};
    ghost use Rattle.rules.specs.Notes as N;
    ghost use Rattle.rules.specs.Sound.{whole};

    ghost Value = { N.Note };

    ghost view = { λ n. record { tokens = n.tokens.now; bytes = n.text.now } };

    ghost invariant = { λ n. whole (record { tokens = n.tokens.now; bytes = n.text.now }) ≡ true };
}

impl<'a> Note<'a> {
    pub fn tokens(&self) -> &'a [Token]
        ensures value { result.now ≡ self.now.tokens }
        ensures whole { whole self.now ≡ true }
    {
        self.tokens
    }

    pub fn text(&self) -> &'a [u8]
        ensures value { result.now ≡ self.now.bytes }
        ensures whole { whole self.now ≡ true }
    {
        self.text
    }

    // Whether it has no marks.
    pub fn is_blank(&self) -> bool
        ensures { result ≡ (length self.now.tokens == 0) }
    {
        self.tokens.is_empty()
    }
}
