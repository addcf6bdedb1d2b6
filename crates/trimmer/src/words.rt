//! Judges the program's words.

ghost use Rattle.std.specs.Prelude.{⊤};

use crate::command::command;
use crate::{Line, LineFault};
use clap::ArgMatches;
use clap::error::ErrorKind as WordsFault;
use command_words::{CommandLine, fault_of_kind};
use std::alloc::Global;
use std::io::{self, ErrorKind};
use trimming::{Given, Request, given_of, with_module};

/// The deepest that a type is written out.
const MAX_UNROLL: u8 = 60;

impl CommandLine for Line {
    ghost made_of = { λ _ _. ⊤ };

    ghost missing_by = { λ _ _. ⊤ };

    // `clap` judges the words: `--help` and `--version` are its faults too.
    fn from_words(alloc: Global, words: &[&str]) -> Result<Line, LineFault> {
        let matches = command(alloc)?.try_get_matches_from(words)?;
        line_of(alloc, &matches)
    }

    // Out of memory, or a word is not UTF-8.
    fn no_words(alloc: Global, error: &io::Error) -> LineFault {
        match error.kind() {
            ErrorKind::OutOfMemory => LineFault::NoMemory,
            _ => fault_of_kind(command(alloc), WordsFault::Io, "a word is not UTF-8"),
        }
    }
}

// The command line that `clap` has judged.
fn line_of(alloc: Global, matches: &ArgMatches<'_>) -> Result<Line, LineFault> {
    let Some(words) = matches.get_strs("WORDS") else {
        return Err(wrong(alloc, "no files"));
    };
    let Some((ty, paths)) = words.split_last() else {
        return Err(wrong(alloc, "no type"));
    };
    let mut files = Vec::new(alloc);
    for path in paths {
        files.push(String::from_str(alloc, path)?)?;
    }
    let request = request_of(alloc, matches, ty)?;
    Ok(Line { files, request })
}

// What is asked for, the type being named by this word.
fn request_of(alloc: Global, matches: &ArgMatches<'_>, ty: &str) -> Result<Request, LineFault> {
    let (module, name) = with_module(ty);
    Ok(Request {
        module: match module {
            Some(module) => Some(String::from_str(alloc, module)?),
            None => None,
        },
        name: String::from_str(alloc, name)?,
        given: givens_of(alloc, matches)?,
        narrow: matches.get_flag("narrow"),
        unroll: unroll_of(alloc, matches)?,
        verbose: matches.get_flag("verbose"),
    })
}

// The types of open types.
fn givens_of(alloc: Global, matches: &ArgMatches<'_>) -> Result<Vec<Given>, LineFault> {
    let mut givens = Vec::new(alloc);
    if let Some(words) = matches.get_strs("as") {
        for word in words {
            match given_of(alloc, word)? {
                Some(given) => givens.push(given)?,
                None => return Err(wrong(alloc, "--as wants TYPE.COMPONENT=TYPE")),
            }
        }
    }
    Ok(givens)
}

// How deep a type that refers to itself is written out.
fn unroll_of(alloc: Global, matches: &ArgMatches<'_>) -> Result<usize, LineFault> {
    let word = matches.get_str("unroll").unwrap_or("0");
    match word.parse::<u8>() {
        Ok(depth) if depth <= MAX_UNROLL => Ok(usize::from(depth)),
        _ => Err(wrong(alloc, "--unroll wants a number from 0 to 60")),
    }
}

// Words that are no command line, for this reason.
fn wrong(alloc: Global, why: &str) -> LineFault {
    fault_of_kind(command(alloc), WordsFault::ValueValidation, why)
}
