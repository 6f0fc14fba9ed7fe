// Prints the usage line of the book in the current folder, or why it is refused.
#![tactic(auto)]

use show::show::{ended, show};
use std::process::ExitCode;

fn main(rt: HostRuntime) -> ExitCode {
    ended(&rt, "line", show(&rt, None))
}
