// Printing the usage line of the book in a folder.
ghost use Rattle.std.specs.Prelude.{◌≡◌, OnOk, OnErr, IfErr, option_copied};
ghost use Rattle.show.specs.Files.{path_of, Names, NamesFile};
ghost use Rattle.std.specs.Process.{exit_status};

use crate::error::ShowError;
use jobs::line::printed_line;
use std::io::Write;
use std::process::ExitCode;
use std::rt::Files;
use std::{fmt, fs, io};

// The most bytes that are said of an error: of a longer text the end is cut off, for which `...` stands.
const MOST_SAID: usize = 120;

// Prints the usage line of the book in a folder, or in the current one, or why it is refused.
pub fn show<R: Files + Print + AllocGlobal>(rt: &R, folder: Option<&str>) -> Result<(), ShowError>
    ensures { IfErr result (NamesFile (option_copied folder.entry)) }
{
    let book = read(rt, folder, "book")?;
    let marks = read(rt, folder, "marks")?;
    let text = read(rt, folder, "bytes")?;
    let printed = printed_line(
        rt.alloc(),
        book.as_slice(),
        marks.as_slice(),
        text.as_slice(),
    )?;
    io::writer(rt).write_all(printed.as_slice())?;
    Ok(())
}

fn read<R: Files + AllocGlobal>(
    rt: &R,
    folder: Option<&str>,
    name: &str,
) -> Result<Vec<u8>, ShowError>
    ensures { IfErr result (Names (path_of (option_copied folder.entry) name.now)) }
{
    let path = match folder {
        Some(folder) => format!(in rt.alloc(); "{folder}/{name}")?,
        None => format!(in rt.alloc(); "{name}")?,
    };
    fs::read(rt, path.as_str()).map_err(|reason| ShowError::Unreadable { path, reason })
}

// Says on standard error why a program ended early, and gives its exit status.
pub fn ended(rt: &impl Eprint, program: &str, outcome: Result<(), ShowError>) -> ExitCode
    ensures ok { OnOk outcome (exit_status result ≡ 0) }
    ensures err { OnErr outcome (exit_status result ≡ 1) }
{
    match outcome {
        Ok(()) => ExitCode::SUCCESS,
        Err(error) => {
            let said = fmt::InlineText::<MOST_SAID>::of(error);
            let said = said.as_str();
            // Where standard error cannot be written there is no other place to say it.
            let _ = eprintln!(rt; "{program}: {said}");
            ExitCode::FAILURE
        }
    }
}
