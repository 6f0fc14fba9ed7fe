// What a node says, from its record and its children.
ghost use Rattle.std.specs.Prelude.{◌≡◌, ℕ, ◌<◌, true, [], ◌∷◌, Some};
ghost use Rattle.std.specs.Option.{option_map};
ghost use Rattle.terms.specs.declared.kind.Kind.TheVariants as K;
ghost use Rattle.terms.specs.declared.kind.Field.TheVariants as F;
ghost use Rattle.rules.specs.Plain.{Plain};
ghost use Rattle.rules.specs.Records.{value_of, kind_of};
ghost use Rattle.rules.specs.Tree.{name_of, help_of, note_of, maybe, word as word_in};
ghost use Rattle.meta.specs.Items.{record_at, word_at, name_in, maybe_note, note_numbered, field_of};
ghost use Rattle.meta.specs.Decoded.{readable, readable_as, Decodes, AllBelow, Below};

use crate::fields::Record;
use crate::item::{Item, Meta, Metavar, Part, ShortLong, Word};
use terms::kind::{Field, Kind};

// A record knows no number, so where a word's place is asked for, the number of its node comes beside it. Each kind of
// item has a function of its own, since each fills other fields; each says that what it names is below, as the walk over
// nodes goes down by their numbers.
impl Record {
    // A field holds a note's number plus one, and 0 for none: that is the format of records.
    fn help(&self) -> Option<u16>
        ensures { (p : Plain) → maybe_note p result ≡ help_of p.notes self.now }
    {
        self.value(Field::Note).checked_sub(1)
    }

    fn needed_note(&self, field: Field) -> u16
        requires { 0 < value_of field self.now }
        ensures { (p : Plain) → note_numbered p result ≡ note_of p.notes field self.now }
    {
        self.value(field) - 1
    }

    fn maybe_word(&self, number: u16, part: Part) -> Option<Word>
        ensures { (p : Plain) → record_at p number ≡ self.now
            → option_map (word_at p) result ≡ maybe (word_in (field_of part) self.now) }
    {
        (!self.word(part).is_empty()).then_some(Word { node: number, part })
    }

    // A record with neither a short nor a name has an empty long name.
    fn name(&self, number: u16) -> ShortLong
        ensures { (p : Plain) → record_at p number ≡ self.now → name_in p result ≡ name_of self.now }
    {
        match (self.short(), self.maybe_word(number, Part::Name)) {
            (None, _) => ShortLong::Long(Word {
                node: number,
                part: Part::Name,
            }),
            (Some(short), None) => ShortLong::Short(short),
            (Some(short), Some(long)) => ShortLong::Both(short, long),
        }
    }

    fn any(&self) -> Item
        requires { 0 < value_of F.MetavarNote self.now }
        ensures value { (n : ℕ) → Decodes n self.now [] (Some K.Any) (Meta.Item result) }
        ensures bound { (n : ℕ) → Below n (Meta.Item result) }
    {
        Item::Any {
            metavar: self.needed_note(Field::MetavarNote),
            anywhere: self.value(Field::Anywhere) == 1,
            help: self.help(),
        }
    }

    fn positional(&self, number: u16) -> Item
        ensures value { Decodes number self.now [] (Some K.Positional) (Meta.Item result) }
        ensures bound { Below number (Meta.Item result) }
    {
        Item::Positional {
            metavar: Metavar(Word {
                node: number,
                part: Part::Metavar,
            }),
            help: self.help(),
        }
    }

    fn command(&self, number: u16, body: u16) -> Item
        ensures value { Decodes number self.now (body ∷ []) (Some K.Command) (Meta.Item result) }
        ensures bound { body < number → Below number (Meta.Item result) }
    {
        Item::Command {
            name: Word {
                node: number,
                part: Part::Name,
            },
            short: self.short(),
            help: self.help(),
            meta: body,
        }
    }

    fn flag(&self, number: u16) -> Item
        ensures value { Decodes number self.now [] (Some K.Flag) (Meta.Item result) }
        ensures bound { Below number (Meta.Item result) }
    {
        Item::Flag {
            name: self.name(number),
            env: self.maybe_word(number, Part::Variable),
            help: self.help(),
        }
    }

    fn argument(&self, number: u16) -> Item
        ensures value { Decodes number self.now [] (Some K.Argument) (Meta.Item result) }
        ensures bound { Below number (Meta.Item result) }
    {
        Item::Argument {
            name: self.name(number),
            metavar: Metavar(Word {
                node: number,
                part: Part::Metavar,
            }),
            env: self.maybe_word(number, Part::Variable),
            help: self.help(),
        }
    }

    // A row for each kind.
    fn of_kind<'a>(&self, kind: Kind, number: u16, kids: &'a [u16]) -> Meta<'a>
        requires { readable_as self.now kids.now (Some kind) ≡ true }
        ensures value { Decodes number self.now kids.now (Some kind) result }
        ensures bound { AllBelow number kids.now → Below number result }
    {
        match kind {
            Kind::Skip => Meta::Skip,
            Kind::And => Meta::And(kids),
            Kind::Or => Meta::Or(kids),
            Kind::Optional => Meta::Optional(kids[0]),
            Kind::Required => Meta::Required(kids[0]),
            Kind::Adjacent => Meta::Adjacent(kids[0]),
            Kind::Many => Meta::Many(kids[0]),
            Kind::Subsection => Meta::Subsection(kids[0], self.needed_note(Field::Note)),
            Kind::Suffix => Meta::Suffix(kids[0], self.needed_note(Field::Note)),
            Kind::CustomUsage => Meta::CustomUsage(kids[0], self.needed_note(Field::Note)),
            Kind::Strict => Meta::Strict(kids[0]),
            Kind::Any => Meta::Item(self.any()),
            Kind::Positional => Meta::Item(self.positional(number)),
            Kind::Command => Meta::Item(self.command(number, kids[0])),
            Kind::Flag => Meta::Item(self.flag(number)),
            Kind::Argument => Meta::Item(self.argument(number)),
        }
    }

    // The children are below the node where all of `kids` are.
    pub(crate) fn decode<'a>(&self, number: u16, kids: &'a [u16]) -> Meta<'a>
        requires { readable self.now kids.now ≡ true }
        ensures value { Decodes number self.now kids.now (kind_of self.now) result }
        ensures bound { AllBelow number kids.now → Below number result }
    {
        match self.kind() {
            Ok(kind) => self.of_kind(kind, number, kids),
            // As the rules build a record of no kind; a book has none.
            Err(_) => Meta::Skip,
        }
    }
}
