//! Why the program stops, and the lines that say so.

ghost use Rattle.std.specs.Prelude.{◌≡◌};

use crate::Unwanted;
use octets::NoMemory;
use program::PrintedPath;
use std::alloc::AllocError;
use std::io::Write;
use types::Refusal;

/// Why the program stops at a file.
#[derive(Clone, Copy, Debug, PartialEq, Eq)]
pub enum Fault {
    /// Octets of the file are refused.
    Refused(Refusal),
    /// The file cannot be opened or read.
    CannotRead,
    /// The text is not hexadecimal, or too long.
    NotHexadecimal,
    /// The output failed, or its reader is gone.
    Output,
    /// There are fewer values than the number of the one that is asked for.
    NoValue,
    /// A file cannot be made or written.
    CannotWrite,
    /// A growth was refused.
    NoMemory,
}

impl From<AllocError> for Fault {
    fn from(_refused: AllocError) -> Fault {
        Fault::NoMemory
    }
}

impl From<NoMemory> for Fault {
    fn from(_refused: NoMemory) -> Fault {
        Fault::NoMemory
    }
}

impl From<Unwanted> for Fault {
    fn from(unwanted: Unwanted) -> Fault {
        match unwanted {
            Unwanted::Output => Fault::Output,
            Unwanted::NoMemory => Fault::NoMemory,
        }
    }
}

impl Fault {
    ghost use Rattle.view_faults.specs.Status.{IsEnd, status_of};

    /// Prints the line of a fault of the file. Of refused octets the line says more, and is printed where that is
    /// known; of an output that is gone there is none.
    pub fn print<E: Write>(self, path: &str, err: &mut E) {
        let words = match self {
            Fault::CannotRead => "cannot be read",
            Fault::CannotWrite => "cannot be written",
            Fault::NotHexadecimal => "is not hexadecimal text, or has more than 4,194,304 octets",
            Fault::NoValue => "has fewer values",
            Fault::NoMemory => "out of memory",
            Fault::Refused(_) | Fault::Output => return,
        };
        let path = PrintedPath(path);
        let _ = writeln!(err, "{path}: {words}");
    }

    /// The exit status that goes with the fault.
    pub fn status(self) -> u8
        ensures end { IsEnd result }
        ensures value { result ≡ status_of self }
    {
        match self {
            Fault::Refused(Refusal::NoMemory) | Fault::NoMemory => 4,
            Fault::Refused(_) | Fault::NotHexadecimal | Fault::NoValue => 1,
            Fault::CannotRead | Fault::CannotWrite => 3,
            Fault::Output => 0,
        }
    }
}

/// Prints that there is no more memory for the file, and returns the exit status.
pub fn print_no_memory<E: Write>(path: &str, err: &mut E) -> u8
    ensures { result ≡ 4 }
{
    Fault::NoMemory.print(path, err);
    Fault::NoMemory.status()
}
