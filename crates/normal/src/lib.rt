// The normal form of a command tree, on a bench.
#![tactic(auto)]

pub mod bench;
mod name;
pub mod normalise;
mod row;
mod walk;
