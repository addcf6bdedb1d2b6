//! Why words are no command line.

ghost use Rattle.std.specs.Prelude.{◌≡◌};
ghost use Rattle.command_words.specs.Fault.{IsOfKind};

use clap::Command;
use clap::error::ErrorKind;
use std::alloc::{AllocError, AllocFailed};
use thiserror::Error;

/// Why words are no command line. As an error it is one line; the text of `clap` is printed by `print`.
#[derive(Debug, Drop, Error)]
pub enum LineFault {
    /// `clap` refuses them, or they ask for its help or the version.
    #[error("{why}", why = .0.kind().as_str().unwrap_or("help or the version is asked for"))]
    Words(clap::Error),
    /// A growth was refused.
    #[error("out of memory")]
    NoMemory,
}

impl From<AllocError> for LineFault {
    ghost use Rattle.command_words.specs.declared.line_fault.LineFault.TheVariants.{NoMemory as RefusedMemory};

    ghost from_gives = { λ _ fault. fault ≡ RefusedMemory };

    fn from(_refused: AllocError) -> LineFault {
        LineFault::NoMemory
    }
}

impl<T: Drop> From<AllocFailed<T>> for LineFault {
    ghost use Rattle.command_words.specs.declared.line_fault.LineFault.TheVariants.{NoMemory as RefusedMemory};

    ghost from_gives = { λ _ fault. fault ≡ RefusedMemory };

    fn from(_refused: AllocFailed<T>) -> LineFault {
        LineFault::NoMemory
    }
}

impl From<clap::Error> for LineFault {
    ghost use Rattle.command_words.specs.Fault.{line_fault_of};

    ghost from_gives = { λ error fault. fault ≡ line_fault_of error };

    fn from(error: clap::Error) -> LineFault {
        match error.kind() {
            ErrorKind::OutOfMemory => LineFault::NoMemory,
            _ => LineFault::Words(error),
        }
    }
}

impl LineFault {
    ghost use Rattle.command_words.specs.Fault.{IsLineStatus, IsPrintedStatus};

    /// The exit status: 64, or 0 where help or the version was asked for, or 4 where memory ran out.
    pub fn status(&self) -> u8
        ensures { IsLineStatus self.now result }
    {
        match self {
            LineFault::Words(error) if error.use_stderr() => 64,
            LineFault::Words(_) => 0,
            LineFault::NoMemory => 4,
        }
    }

    /// Prints the text of `clap`, help and the version on the standard output, and returns the status, or 3 where help or
    /// the version could not be printed.
    pub fn print<R: Print + Eprint>(&self, rt: &R) -> u8
        ensures { IsPrintedStatus self.now result }
    {
        match self {
            LineFault::Words(error) if error.print(rt).is_err() && !error.use_stderr() => 3,
            _ => self.status(),
        }
    }
}

/// A fault of words that the program finds itself, of this kind and for this reason, with the usage of its command.
pub fn fault_of_kind(
    command: Result<Command<'_>, AllocError>,
    kind: ErrorKind,
    why: &str,
) -> LineFault
    ensures { IsOfKind kind result }
{
    match command {
        Ok(mut command) => match command.error(kind, why) {
            Ok(error) => LineFault::from(error),
            Err(_) => LineFault::NoMemory,
        },
        Err(_) => LineFault::NoMemory,
    }
}
