// Command trees: records, items, and the book that holds them.
#![tactic(auto)]

pub mod book;
mod decode;
mod examine;
pub mod fields;
pub mod item;
pub mod rejection;
mod words;
