// What the programs share: the printout of a book's usage line, and of why there is none.
#![tactic(auto)]

pub mod error;
pub mod show;
