// The fields of a record: where they stand, and what is in them.
ghost use Rattle.std.specs.Prelude.{◌≡◌, length, slice_index};
ghost use Rattle.std.specs.List.{between};
ghost use Rattle.std.specs.Option.{SomeIff};
ghost use Rattle.terms.specs.Kind.{kinds};
ghost use Rattle.terms.specs.Numbers.{IsNumbered};
ghost use Rattle.rules.specs.Lists.{zeros};
ghost use Rattle.rules.specs.Records.{bytes_of, number_of, value_of};
ghost use Rattle.rules.specs.Tree.{short_of, word as word_in};
ghost use Rattle.meta.specs.Items.{field_of};

use crate::item::Part;
use crate::words::{are_zeros, word_of};
use std::marker::Model;
use terms::kind::{Field, Kind};
use terms::number::UnknownNumber;

// The bytes of a record.
pub const RECORD_SIZE: usize = 128;

// The bytes of one record.
#[derive(Clone, Copy, Debug, PartialEq, Eq)]
pub(crate) struct Record {
    bytes: [u8; RECORD_SIZE],
}

impl Model for Record {
    ghost use Rattle.std.specs.Prelude.{List, ℕ};

    ghost Value = { List ℕ };

    ghost view = { λ r. r.bytes };

    ghost inverse = { λ bytes. record { bytes = bytes } };
}

// A number of at most two bytes, the lower first.
fn number_in(bytes: &[u8]) -> u16
    ensures { result ≡ number_of bytes.now }
{
    match bytes {
        [] => 0,
        [low] => u16::from(*low),
        [low, high, ..] => u16::from_le_bytes([*low, *high]),
    }
}

impl Part {
    // The field that a word stands in: a method, since `From` would not say what the field is to the word.
    pub(crate) fn field(self) -> Field
        ensures { result ≡ field_of self }
    {
        match self {
            Part::Name => Field::Name,
            Part::Metavar => Field::Metavar,
            Part::Variable => Field::Variable,
        }
    }
}

impl Record {
    // The bytes as a record, if there are as many as a record has.
    pub(crate) fn new(bytes: &[u8]) -> Option<Record>
        ensures { SomeIff result (length bytes.now ≡ RECORD_SIZE) bytes.now }
    {
        let bytes = *bytes.as_array()?;
        Some(Record { bytes })
    }

    pub(crate) fn bytes(&self) -> &[u8; RECORD_SIZE]
        ensures { result.now ≡ self.now }
    {
        &self.bytes
    }

    pub(crate) fn kind(&self) -> Result<Kind, UnknownNumber>
        ensures { IsNumbered kinds (slice_index self.now 0) result }
    {
        Kind::try_from(self.bytes[0])
    }

    pub(crate) fn field(&self, field: Field) -> &[u8]
        ensures { result.now ≡ bytes_of field self.now }
    {
        // The layout of a record behind its kind.
        let bytes = &self.bytes;
        match field {
            Field::Anywhere => &bytes[1..2],
            Field::Count => &bytes[2..4],
            Field::Note => &bytes[4..6],
            Field::MetavarNote => &bytes[6..8],
            Field::Short => &bytes[8..9],
            Field::Name => &bytes[32..64],
            Field::Metavar => &bytes[64..96],
            Field::Variable => &bytes[96..RECORD_SIZE],
        }
    }

    // The bytes that are in no field, 9 to 31.
    pub(crate) fn rest(&self) -> &[u8]
        ensures { result.now ≡ between 9 32 self.now }
    {
        let bytes = &self.bytes;
        &bytes[9..32]
    }

    // The number in the field.
    pub(crate) fn value(&self, field: Field) -> u16
        ensures { result ≡ value_of field self.now }
    {
        number_in(self.field(field))
    }

    // Every byte of the field is 0.
    pub(crate) fn is_blank(&self, field: Field) -> bool
        ensures { result ≡ zeros (bytes_of field self.now) }
    {
        are_zeros(self.field(field))
    }

    // A word, without the zeros behind it.
    pub(crate) fn word(&self, part: Part) -> &[u8]
        ensures { result.now ≡ word_in (field_of part) self.now }
    {
        word_of(self.field(part.field()))
    }

    pub(crate) fn short(&self) -> Option<u8>
        ensures { result ≡ short_of self.now }
    {
        // The one byte of Field::Short, by its place: from its slice the check did not find that there is one.
        match self.bytes[8] {
            0 => None,
            letter => Some(letter),
        }
    }
}
