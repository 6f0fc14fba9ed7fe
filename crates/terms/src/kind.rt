// The kinds of records, and the fields that a record has behind its kind.
ghost use Rattle.std.specs.Prelude.{◌≡◌};
ghost use Rattle.terms.specs.Numbers.{IsNumbered};

use crate::number::{UnknownNumber, numbered};

#[derive(Clone, Copy, Debug, PartialEq, Eq)]
pub enum Kind {
    // Nothing, neither on a line nor on a page.
    Skip,
    // All of its children.
    And,
    // One of its children.
    Or,
    Optional,
    Required,
    // The parts stand next to each other.
    Adjacent,
    // May be repeated.
    Many,
    // A group with a heading.
    Subsection,
    // A note behind its child.
    Suffix,
    // A note in the place of its child's usage.
    CustomUsage,
    // Only behind a `--`.
    Strict,
    Any,
    Positional,
    Command,
    Flag,
    Argument,
}

// A field of a record, behind its kind.
#[derive(Clone, Copy, Debug, PartialEq, Eq)]
pub enum Field {
    // 1 for an Any that is taken wherever it stands.
    Anywhere,
    // How many children an And or an Or has.
    Count,
    // The number of a note plus one, or 0 for none.
    Note,
    MetavarNote,
    // One byte, or 0 for none.
    Short,
    Name,
    Metavar,
    Variable,
}

impl Kind {
    // The kinds, numbered from 0 in this order.
    pub const ALL: [Kind; 16] = [
        Kind::Skip,
        Kind::And,
        Kind::Or,
        Kind::Optional,
        Kind::Required,
        Kind::Adjacent,
        Kind::Many,
        Kind::Subsection,
        Kind::Suffix,
        Kind::CustomUsage,
        Kind::Strict,
        Kind::Any,
        Kind::Positional,
        Kind::Command,
        Kind::Flag,
        Kind::Argument,
    ];
}

impl TryFrom<u8> for Kind {
    ghost use Rattle.terms.specs.Kind.{kinds};

    type Error = UnknownNumber;

    ghost try_from_gives = { IsNumbered kinds };

    fn try_from(number: u8) -> Result<Kind, UnknownNumber> {
        numbered(&Kind::ALL, number)
    }
}

impl Kind {
    ghost use Rattle.std.specs.Prelude.{◌||◌};
    ghost use Rattle.terms.specs.Kind.{same_kind, uses, needs};
    ghost use Rattle.terms.specs.Field.{is_in};
    ghost use Rattle.terms.specs.declared.kind.Kind.TheVariants as K;

    // The fields that a record of this kind may fill.
    fn used(self) -> &'static [Field]
        ensures { result.now ≡ uses self }
    {
        match self {
            Kind::And | Kind::Or => &[Field::Count],
            Kind::Subsection | Kind::Suffix | Kind::CustomUsage => &[Field::Note],
            Kind::Any => &[Field::Anywhere, Field::Note, Field::MetavarNote],
            Kind::Positional => &[Field::Note, Field::Metavar],
            Kind::Command => &[Field::Note, Field::Short, Field::Name],
            Kind::Flag => &[Field::Note, Field::Short, Field::Name, Field::Variable],
            Kind::Argument => &[
                Field::Note,
                Field::Short,
                Field::Name,
                Field::Metavar,
                Field::Variable,
            ],
            _ => &[],
        }
    }

    // The fields that a record of this kind fills, besides a short or a name for a Flag or an Argument.
    fn needed(self) -> &'static [Field]
        ensures { result.now ≡ needs self }
    {
        match self {
            Kind::Subsection | Kind::Suffix | Kind::CustomUsage => &[Field::Note],
            Kind::Any => &[Field::MetavarNote],
            Kind::Positional | Kind::Argument => &[Field::Metavar],
            Kind::Command => &[Field::Name],
            _ => &[],
        }
    }

    // Whether a record of this kind may fill a field.
    pub fn uses(self, field: Field) -> bool
        ensures { result ≡ is_in field (uses self) }
    {
        self.used().contains(&field)
    }

    // Whether a record of this kind has to fill a field.
    pub fn needs(self, field: Field) -> bool
        ensures { result ≡ is_in field (needs self) }
    {
        self.needed().contains(&field)
    }

    // An And or an Or, which counts its children. This and the next are one line each under names of their own.
    pub fn is_row(self) -> bool
        ensures { result ≡ (same_kind self K.And || same_kind self K.Or) }
    {
        matches!(self, Kind::And | Kind::Or)
    }

    // A Flag or an Argument, which has a short or a name.
    pub fn is_named(self) -> bool
        ensures { result ≡ (same_kind self K.Flag || same_kind self K.Argument) }
    {
        matches!(self, Kind::Flag | Kind::Argument)
    }
}

impl Field {
    pub const ALL: [Field; 8] = [
        Field::Anywhere,
        Field::Count,
        Field::Note,
        Field::MetavarNote,
        Field::Short,
        Field::Name,
        Field::Metavar,
        Field::Variable,
    ];
}
