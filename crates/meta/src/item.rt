// What a node of a command tree says.

// A word of a record: fewer than its fields, since only these hold words.
#[derive(Clone, Copy, Debug, PartialEq, Eq)]
pub enum Part {
    Name,
    Metavar,
    Variable,
}

// Where a word stands: in which node's record, and as which of its words.
#[derive(Clone, Copy, Debug, PartialEq, Eq)]
pub struct Word {
    pub node: u16,
    pub part: Part,
}

// The word that a value is called by.
#[derive(Clone, Copy, Debug, PartialEq, Eq)]
pub struct Metavar(pub Word);

// The name of a flag or an argument.
#[derive(Clone, Copy, Debug, PartialEq, Eq)]
pub enum ShortLong {
    Short(u8),
    Long(Word),
    Both(u8, Word),
}

// Notes and nodes go by their numbers.
#[derive(Clone, Copy, Debug, PartialEq, Eq)]
pub enum Item {
    Any {
        metavar: u16,
        // Taken wherever it stands, and not by position.
        anywhere: bool,
        help: Option<u16>,
    },
    // Consumed from the front of the arguments.
    Positional {
        metavar: Metavar,
        help: Option<u16>,
    },
    Command {
        name: Word,
        short: Option<u8>,
        help: Option<u16>,
        // The node of its body.
        meta: u16,
    },
    // A short or a long name, consumed anywhere.
    Flag {
        name: ShortLong,
        env: Option<Word>,
        help: Option<u16>,
    },
    // A short or a long name followed by a value, consumed anywhere.
    Argument {
        name: ShortLong,
        metavar: Metavar,
        env: Option<Word>,
        help: Option<u16>,
    },
}

// A node of a command tree; its children go by their numbers. It is more than a kind, since it has children and notes.
#[derive(Clone, Copy, Debug, PartialEq, Eq)]
pub enum Meta<'a> {
    Skip,
    And(&'a [u16]),
    Or(&'a [u16]),
    Optional(u16),
    Required(u16),
    Adjacent(u16),
    Many(u16),
    // A child and the note of the group's heading.
    Subsection(u16, u16),
    // A child and the note behind it.
    Suffix(u16, u16),
    // A child and the note that its usage reads as.
    CustomUsage(u16, u16),
    Strict(u16),
    Item(Item),
}
