// Why a program ends early.
ghost use Rattle.std.specs.Prelude.{◌≡◌};
ghost use Rattle.show.specs.declared.error.ShowError.TheVariants.{Io, Memory};

use std::alloc::AllocError;
use std::{fmt, io};

#[derive(Drop)]
pub enum ShowError {
    // The file at a path cannot be read.
    Unreadable { path: String, reason: io::Error },
    // The arguments cannot be read, or standard output cannot be written.
    Io(io::Error),
    Memory(AllocError),
}

impl fmt::Display for ShowError {
    fn fmt<W: fmt::Write>(&self, f: &mut fmt::Formatter<W>) -> fmt::Result {
        match self {
            ShowError::Unreadable { path, reason } => write!(f, "cannot read {path}: {reason}"),
            ShowError::Io(reason) => write!(f, "{reason}"),
            ShowError::Memory(reason) => write!(f, "{reason}"),
        }
    }
}

impl From<io::Error> for ShowError {
    ghost from_gives = { λ reason e. e ≡ Io reason };

    fn from(reason: io::Error) -> ShowError {
        Self::Io(reason)
    }
}

impl From<AllocError> for ShowError {
    ghost from_gives = { λ reason e. e ≡ Memory reason };

    fn from(reason: AllocError) -> ShowError {
        Self::Memory(reason)
    }
}
