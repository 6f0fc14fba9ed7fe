// The words that the code and the rules share.
#![tactic(auto)]

pub mod kind;
pub mod number;
pub mod strict;
pub mod text;
