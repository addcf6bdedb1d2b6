//! What the words of a program's call are made into.

ghost use Rattle.std.specs.Prelude.{ℕ, List, Result};
ghost use Rattle.std.specs.declared.io.Error as io;
ghost use denote.Bor.{Bor};

use crate::LineFault;
use std::alloc::Global;
use std::io;

/// What the words of a program's call are made into.
pub trait CommandLine: Drop + Sized {
    ghost use Rattle.command_words.specs.declared.line_fault.LineFault.{LineFault};

    // What may come of words.
    ghost made_of: { List (Bor (List ℕ)) → Result Self LineFault → Type 0 };

    // Why the words may be missing, by the error of the system.
    ghost missing_by: { io.Error → LineFault → Type 0 };

    /// The command line that words are, the program's own name first, or why they are none.
    fn from_words(alloc: Global, words: &[&str]) -> Result<Self, LineFault>
        ensures { made_of words.now result };

    /// Why the system gives the program no words.
    fn no_words(alloc: Global, error: &io::Error) -> LineFault
        ensures { missing_by error.now result };
}
