// The usage line of a root: its normal form, written on a sheet.
#![tactic(auto)]

mod line;
mod signs;
pub mod usage;
mod words;
mod write;
