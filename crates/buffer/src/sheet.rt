// A sheet: the tokens and bytes that are written on it, within its limits, with memory reserved for them.
use std::marker::Model;
use terms::text::Token;

// No sheet takes more tokens than this.
pub const MOST_TOKENS: usize = 4096;

// No sheet takes more bytes than this.
pub const MOST_BYTES: usize = 32768;

// All memory is taken when it is made, so that no write asks for any; the limits are what its caller gave.
#[derive(Drop)]
pub struct Sheet {
    pub(crate) tokens: Vec<Token>,
    pub(crate) bytes: Vec<u8>,
    pub(crate) max_tokens: usize,
    pub(crate) max_bytes: usize,
}

impl Model for Sheet {
    ghost use Rattle.buffer.specs.Contents.{SheetState};

    ghost Value = { SheetState };

    ghost use Rattle.buffer.specs.Sheets.{state_of, IsHeld};

    ghost view = { state_of };

    ghost invariant = { IsHeld };
}

// A write does not fit within the limits.
#[derive(Clone, Copy, Debug, PartialEq, Eq)]
pub struct Full;
