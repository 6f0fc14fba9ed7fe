// Words: the bytes that may stand in one, and where it ends.
ghost use Rattle.std.specs.Prelude.{◌≡◌, ℕ, ◌≤◌, ◌==◌, ◌&&◌, not, Bool, length};
ghost use Rattle.std.specs.List.{list_all, position_from};
ghost use Rattle.rules.specs.Lists.{zeros};
ghost use Rattle.rules.specs.Records.{name_byte, word_of, is_word, is_short};
ghost use Rattle.meta.specs.Words.{allowed, Tells};

use crate::item::Part;

// The bytes of the longest word.
pub const WORD_LIMIT: usize = 31;

// A printable byte other than a space.
fn is_visible(byte: u8) -> bool
    ensures { result ≡ name_byte byte }
{
    matches!(byte, b'!'..=b'~')
}

// A byte that a short may be.
pub(crate) fn is_letter(byte: u8) -> bool
    ensures { result ≡ not (byte == 0) && is_short byte }
{
    is_visible(byte) && byte != b'-'
}

impl Part {
    pub(crate) fn allows(self, byte: u8) -> bool
        ensures { result ≡ allowed self byte }
    {
        match self {
            Part::Name => is_visible(byte),
            Part::Metavar => byte == b' ' || is_visible(byte),
            Part::Variable => is_visible(byte) && byte != b'=',
        }
    }
}

pub(crate) fn are_zeros(bytes: &[u8]) -> bool
    ensures { result ≡ zeros bytes.now }
{
    bytes.iter().all(|byte| *byte == 0)
}

// Where the first zero stands.
fn first_zero(bytes: &[u8]) -> Option<usize>
    ensures { result ≡ position_from (λ b. b == 0) 0 bytes.now }
{
    bytes.iter().position(|byte| *byte == 0)
}

// What stands before the first zero.
pub(crate) fn word_of(bytes: &[u8]) -> &[u8]
    ensures value { result.now ≡ word_of bytes.now }
    ensures bound { length result.now ≤ length bytes.now }
{
    &bytes[..first_zero(bytes).unwrap_or(bytes.len())]
}

fn all_pass<F: Fn(u8) -> bool>(bytes: &[u8], allowed: F) -> bool
    requires { F.IsAlwaysCallable allowed }
    ensures { (ok : ℕ → Bool) → Tells (F.post allowed) ok → result ≡ list_all ok bytes.now }
{
    bytes.iter().all(|byte| allowed(*byte))
}

// A word of allowed bytes, with zeros behind it.
pub(crate) fn is_word<F: Fn(u8) -> bool>(bytes: &[u8], allowed: F) -> bool
    requires { F.IsAlwaysCallable allowed }
    ensures { (ok : ℕ → Bool) → Tells (F.post allowed) ok → result ≡ is_word ok bytes.now }
{
    let word = word_of(bytes);
    all_pass(word, allowed) && word.len() <= WORD_LIMIT && are_zeros(&bytes[word.len()..])
}
