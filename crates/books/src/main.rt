// Prints the usage line, or the refusal, of the book in each folder that is named.
#![tactic(auto)]

use show::error::ShowError;
use show::show::{ended, show};
use std::env;
use std::process::ExitCode;

fn main(rt: HostRuntime) -> ExitCode {
    ended(&rt, "books", run(&rt))
}

fn run(rt: &HostRuntime) -> Result<(), ShowError> {
    for folder in env::args(rt)?.skip(1) {
        println!(rt; "# {folder}")?;
        show(rt, Some(folder.as_str()))?;
    }
    Ok(())
}
