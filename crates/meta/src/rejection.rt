// Why a call is refused.
ghost use Rattle.std.specs.Prelude.{◌≡◌};
ghost use Rattle.rules.specs.Rejection.{shown, reject};
ghost use Rattle.meta.specs.Rejections.{fault_number, layer_of, layer_letter, rejection_of};

use std::fmt;

// The layer that refuses: the book, the tree in it, or the sheet with its bench.
#[derive(Clone, Copy, Debug, PartialEq, Eq)]
pub enum Layer {
    Book,
    Tree,
    Sheet,
}

#[derive(Clone, Copy, Debug, PartialEq, Eq)]
pub enum Fault {
    // The record is not 128 bytes long.
    Size,
    // The book has no free place.
    Full,
    // There is no such kind.
    Kind,
    // A field that the kind does not use is not zero, or anywhere is above 1.
    Unused,
    // A word that the kind needs is empty, or a word breaks its rule.
    Word,
    // A note is outside the store, or one that the kind needs is absent.
    Note,
    // An And or an Or counts no child.
    Childless,
    // There are fewer unplaced nodes than the kind takes.
    Unplaced,
    // The root is no node.
    NoNode,
    // The bench is too small for the book.
    Bench,
    // The line does not fit the sheet.
    Long,
}

// A refused call: the fault, its layer, the record that it is about, and the command around that. The four fields, and
// 65535 for none, are how a rejection is shown.
#[derive(Clone, Copy, Debug, PartialEq, Eq)]
pub struct Rejection {
    pub fault: Fault,
    pub layer: Layer,
    pub record: u16,
    pub within: u16,
}

impl Fault {
    // The number that a fault is known by; no other place of the code has it.
    pub fn number(self) -> u8
        ensures { result ≡ fault_number self }
    {
        match self {
            Fault::Size => 10,
            Fault::Full => 11,
            Fault::Kind => 12,
            Fault::Unused => 13,
            Fault::Word => 14,
            Fault::Note => 15,
            Fault::Childless => 16,
            Fault::Unplaced => 17,
            Fault::NoNode => 20,
            Fault::Bench => 30,
            Fault::Long => 32,
        }
    }

    // The layer that finds the fault.
    pub fn layer(self) -> Layer
        ensures { result ≡ layer_of self }
    {
        match self {
            Fault::Size
            | Fault::Full
            | Fault::Kind
            | Fault::Unused
            | Fault::Word
            | Fault::Note
            | Fault::Childless
            | Fault::Unplaced => Layer::Book,
            Fault::NoNode => Layer::Tree,
            Fault::Bench | Fault::Long => Layer::Sheet,
        }
    }
}

impl Layer {
    // The letter that a layer is known by; no other place of the code has it.
    pub fn letter(self) -> char
        ensures { result ≡ layer_letter self }
    {
        match self {
            Layer::Book => 'B',
            Layer::Tree => 'T',
            Layer::Sheet => 'S',
        }
    }
}

// A number as a rejection shows it: none for one that is too large. The limit is spelled out, as the rules give it.
fn shown_number(n: usize) -> u16
    ensures { result ≡ shown n }
{
    if n <= 65534 {
        n as u16
    } else {
        Rejection::NONE
    }
}

impl Rejection {
    // Stands for no record, and for one whose number is too large to be shown.
    pub const NONE: u16 = 65535;

    // A rejection about a record, with no command around it.
    pub fn new(fault: Fault, layer: Layer, record: usize) -> Rejection
        ensures { rejection_of result ≡ reject (fault_number fault) (layer_letter layer) «record» }
    {
        Rejection {
            fault,
            layer,
            record: shown_number(record),
            within: Rejection::NONE,
        }
    }

    // The same, by the layer that finds the fault.
    pub fn of(fault: Fault, record: usize) -> Rejection
        ensures { rejection_of result ≡ reject (fault_number fault) (layer_letter (layer_of fault)) «record» }
    {
        Rejection::new(fault, fault.layer(), record)
    }
}

impl fmt::Display for Rejection {
    ghost use Rattle.std.specs.Prelude.{Some};
    ghost use Rattle.meta.specs.Rejections.{rejection_of, rejection_text};

    ghost output = { λ e. Some (rejection_text (rejection_of e)) };

    fn fmt<W: fmt::Write>(&self, f: &mut fmt::Formatter<W>) -> fmt::Result {
        let number = self.fault.number();
        let layer = self.layer.letter();
        let record = self.record;
        let within = self.within;
        write!(f, "refused {number} {layer} {record} {within}")
    }
}
