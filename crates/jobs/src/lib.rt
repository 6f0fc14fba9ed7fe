// What the programs do with the bytes of their files.
#![tactic(auto)]

pub mod fill;
pub mod line;
pub mod print;
