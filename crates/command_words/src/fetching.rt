//! Fetches the words that the program was called with.

ghost use Rattle.std.specs.Prelude.{MatchResult};
ghost use Rattle.std.specs.Fn.{FnOnceReturnsAt};
ghost use Rattle.command_words.specs.Fault.{IsPrintedStatus};
ghost use Rattle.command_words.specs.Status.{IsMade};

use crate::{CommandLine, LineFault};
use std::env::{self, Env};

/// The exit status of a whole program: that of `run` of the command line that its words are, its own name first, or
/// that of why they are none, which is printed.
pub fn status<R, L, F>(rt: &R, run: F) -> u8
where
    R: Env + AllocGlobal + Print + Eprint,
    L: CommandLine,
    F: FnOnce(&L) -> u8,
    requires { F.IsAlwaysCallable run }
    ensures { (made : _) × IsMade L.made_of L.missing_by made × MatchResult made (λ line. FnOnceReturnsAt F.FnOnce run line result) (λ fault. IsPrintedStatus fault result) }
{
    match line_of_words(rt) {
        Ok(line) => run(&line),
        Err(fault) => fault.print(rt),
    }
}

// The command line that the program was called with.
fn line_of_words<R: Env + AllocGlobal, L: CommandLine>(rt: &R) -> Result<L, LineFault>
    ensures { IsMade L.made_of L.missing_by result }
{
    let words = match env::args(rt) {
        Ok(words) => words,
        Err(error) => return Err(L::no_words(rt.alloc(), &error)),
    };
    let words: Vec<String> = words.collect(rt.alloc())?;
    let words: Vec<&str> = words.iter().map(|word| word.as_str()).collect(rt.alloc())?;
    L::from_words(rt.alloc(), words.as_slice())
}
