// Styled text: tokens, the store of notes, and the sheet that lines and pages are written on.
#![tactic(auto)]

pub mod check;
mod doc;
mod mark;
mod metavar;
pub mod note;
pub mod sheet;
pub mod store;
mod write;
