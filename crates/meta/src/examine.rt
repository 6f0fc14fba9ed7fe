// The rules that one record keeps, whatever the book.
ghost use Rattle.std.specs.Prelude.{◌≡◌};
ghost use Rattle.std.specs.List.{list_any};
ghost use Rattle.terms.specs.Field.{fields};
ghost use Rattle.rules.specs.Records.{bytes_of, is_word, stray, tidy, met, named, worded, noted, childed, takes};
ghost use Rattle.meta.specs.Items.{field_of};
ghost use Rattle.meta.specs.Words.{allowed};
ghost use Rattle.meta.specs.Examined.{ByRows, Takes};

use crate::fields::Record;
use crate::item::Part;
use crate::rejection::Fault;
use crate::words::{are_zeros, is_letter, is_word};
use terms::kind::{Field, Kind};

// The kind comes beside the record, in which it is a byte that may be no kind's.
impl Record {
    // A word keeps its rule.
    fn keeps_word(&self, part: Part) -> bool
        ensures { result ≡ is_word (allowed part) (bytes_of (field_of part) self.now) }
    {
        is_word(self.field(part.field()), |byte| part.allows(byte))
    }

    // A field is set though the kind does not use it. This and `is_met` are one line each, under names of their own.
    fn is_stray(&self, kind: Kind, field: Field) -> bool
        ensures { result ≡ stray kind self.now field }
    {
        !kind.uses(field) && !self.is_blank(field)
    }

    fn has_stray(&self, kind: Kind) -> bool
        ensures { result ≡ list_any (stray kind self.now) fields }
    {
        Field::ALL.iter().any(|field| self.is_stray(kind, *field))
    }

    // No byte is set that the kind does not use, and anywhere is 0 or 1.
    fn is_tidy(&self, kind: Kind) -> bool
        ensures { result ≡ tidy kind self.now }
    {
        are_zeros(self.rest()) && !self.has_stray(kind) && self.value(Field::Anywhere) <= 1
    }

    // A field is there, if the kind needs it.
    fn is_met(&self, kind: Kind, field: Field) -> bool
        ensures { result ≡ met kind self.now field }
    {
        !kind.needs(field) || !self.is_blank(field)
    }

    // A Flag and an Argument have a short or a name.
    fn has_name(&self, kind: Kind) -> bool
        ensures { result ≡ named kind self.now }
    {
        !kind.is_named() || !self.is_blank(Field::Short) || !self.is_blank(Field::Name)
    }

    // The words and the short keep their rules, and those that the kind needs are there.
    fn is_worded(&self, kind: Kind) -> bool
        ensures { result ≡ worded kind self.now }
    {
        self.keeps_word(Part::Name)
            && self.keeps_word(Part::Metavar)
            && self.keeps_word(Part::Variable)
            && self.short().is_none_or(is_letter)
            && self.is_met(kind, Field::Name)
            && self.is_met(kind, Field::Metavar)
            && self.has_name(kind)
    }

    // The notes are among so many, and those that the kind needs are there.
    fn is_noted(&self, kind: Kind, notes: usize) -> bool
        ensures { result ≡ noted kind self.now notes }
    {
        usize::from(self.value(Field::Note)) <= notes
            && usize::from(self.value(Field::MetavarNote)) <= notes
            && self.is_met(kind, Field::Note)
            && self.is_met(kind, Field::MetavarNote)
    }

    // An And or an Or counts at least one child.
    fn is_childed(&self, kind: Kind) -> bool
        ensures { result ≡ childed kind self.now }
    {
        !(kind.is_row() && self.value(Field::Count) == 0)
    }

    // How many unplaced nodes the record takes for its children.
    fn child_count(&self, kind: Kind) -> usize
        ensures { result ≡ takes kind self.now }
    {
        match kind {
            Kind::And | Kind::Or => usize::from(self.value(Field::Count)),
            Kind::Skip | Kind::Any | Kind::Positional | Kind::Flag | Kind::Argument => 0,
            _ => 1,
        }
    }

    // The fault of the first rule that the record breaks over so many notes and unplaced nodes, or how
    // many of these it takes.
    pub(crate) fn examine(&self, notes: usize, waiting: usize) -> Result<usize, Fault>
        ensures rule { ByRows self.now notes waiting result }
        ensures takes { Takes self.now result }
    {
        // By `let`: with `map_err` and `?` the check's search for the rule gave up.
        let Ok(kind) = self.kind() else {
            return Err(Fault::Kind);
        };
        if !self.is_tidy(kind) {
            return Err(Fault::Unused);
        }
        if !self.is_worded(kind) {
            return Err(Fault::Word);
        }
        if !self.is_noted(kind, notes) {
            return Err(Fault::Note);
        }
        if !self.is_childed(kind) {
            return Err(Fault::Childless);
        }
        let takes = self.child_count(kind);
        if waiting < takes {
            return Err(Fault::Unplaced);
        }
        Ok(takes)
    }
}
