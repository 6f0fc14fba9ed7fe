// The styles, blocks and tokens that a text is made of.
ghost use Rattle.std.specs.Prelude.{◌≡◌};
ghost use Rattle.terms.specs.Numbers.{IsNumbered};

use crate::number::{UnknownNumber, numbered};
use std::fmt;

// How a stretch of text is shown.
#[derive(Clone, Copy, Debug, PartialEq, Eq)]
pub enum Style {
    Text,
    // Words such as "Usage" and "Available options".
    Emphasis,
    // What is typed as it stands.
    Literal,
    // What is typed in another's place.
    Metavar,
    // What should not have been typed.
    Invalid,
}

// A part of a text that a reader sets apart.
#[derive(Clone, Copy, Debug, Default, PartialEq, Eq)]
pub enum Block {
    // The default, which fills the unused places of a stack of blocks.
    #[default]
    Header,
    Section2,
    Section3,
    // As Section3, with no header of its own.
    Section4,
    ItemTerm,
    ItemBody,
    DefinitionList,
    Block,
    // One text inside another.
    InlineBlock,
    TermRef,
    Meta,
    // Around a usage line.
    Mono,
}

#[derive(Clone, Copy, Debug, PartialEq, Eq)]
pub enum Token {
    Text { style: Style, bytes: u16 },
    BlockStart(Block),
    BlockEnd(Block),
}

impl Token {
    ghost use Rattle.terms.specs.Token.{size, len_in};

    // How many bytes of text it stands for.
    pub fn len(self) -> usize
        ensures { result ≡ size self }
    {
        match self {
            Token::Text { bytes, .. } => usize::from(bytes),
            Token::BlockStart(_) | Token::BlockEnd(_) => 0,
        }
    }

    // The same of a text in that style.
    pub fn len_in(self, style: Style) -> Option<u16>
        ensures { result ≡ len_in self style }
    {
        match self {
            Token::Text { style: own, bytes } if own == style => Some(bytes),
            _ => None,
        }
    }
}

// What a store is read as: the tokens of its notes, each note with a stop behind it. As an `Option` it would not say
// what `None` is.
#[derive(Clone, Copy, Debug, PartialEq, Eq)]
pub enum Mark {
    Token(Token),
    Stop,
}

impl Style {
    // The styles, numbered from 0 in this order.
    pub const ALL: [Style; 5] = [
        Style::Text,
        Style::Emphasis,
        Style::Literal,
        Style::Metavar,
        Style::Invalid,
    ];
}

impl TryFrom<u8> for Style {
    ghost use Rattle.terms.specs.Style.{styles};

    type Error = UnknownNumber;

    ghost try_from_gives = { IsNumbered styles };

    fn try_from(number: u8) -> Result<Style, UnknownNumber> {
        numbered(&Style::ALL, number)
    }
}

// A style is printed as the first letter of its name.
impl fmt::Display for Style {
    ghost use Rattle.std.specs.Prelude.{Some};
    ghost use Rattle.terms.specs.Names.{style_letter};

    ghost output = { λ s. Some (style_letter s) };

    fn fmt<W: fmt::Write>(&self, f: &mut fmt::Formatter<W>) -> fmt::Result {
        f.write_str(match self {
            Style::Text => "T",
            Style::Emphasis => "E",
            Style::Literal => "L",
            Style::Metavar => "M",
            Style::Invalid => "I",
        })
    }
}

impl Block {
    // The blocks, numbered from 0 in this order.
    pub const ALL: [Block; 12] = [
        Block::Header,
        Block::Section2,
        Block::Section3,
        Block::Section4,
        Block::ItemTerm,
        Block::ItemBody,
        Block::DefinitionList,
        Block::Block,
        Block::InlineBlock,
        Block::TermRef,
        Block::Meta,
        Block::Mono,
    ];
}

impl TryFrom<u8> for Block {
    ghost use Rattle.terms.specs.Block.{blocks};

    type Error = UnknownNumber;

    ghost try_from_gives = { IsNumbered blocks };

    fn try_from(number: u8) -> Result<Block, UnknownNumber> {
        numbered(&Block::ALL, number)
    }
}

// A block is printed as its name.
impl fmt::Display for Block {
    ghost use Rattle.std.specs.Prelude.{Some};
    ghost use Rattle.terms.specs.Names.{block_name};

    ghost output = { λ b. Some (block_name b) };

    fn fmt<W: fmt::Write>(&self, f: &mut fmt::Formatter<W>) -> fmt::Result {
        f.write_str(match self {
            Block::Header => "Header",
            Block::Section2 => "Section2",
            Block::Section3 => "Section3",
            Block::Section4 => "Section4",
            Block::ItemTerm => "ItemTerm",
            Block::ItemBody => "ItemBody",
            Block::DefinitionList => "DefinitionList",
            Block::Block => "Block",
            Block::InlineBlock => "InlineBlock",
            Block::TermRef => "TermRef",
            Block::Meta => "Meta",
            Block::Mono => "Mono",
        })
    }
}
