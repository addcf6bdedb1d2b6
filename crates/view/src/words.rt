//! Judges the program's words.

ghost use Rattle.std.specs.Prelude.{◌≡◌, ⊤};
ghost use Rattle.std.specs.IoError.{error_kind};

use crate::commands::program;
use crate::{Form, Line, LineFault, Reading, Task, Wanted};
use clap::ArgMatches;
use clap::error::ErrorKind as WordsFault;
use command_words::{CommandLine, fault_of_kind};
use engine::Rule;
use std::alloc::{AllocError, Global};
use std::io::{self, ErrorKind};

impl CommandLine for Line {
    ghost use Rattle.std.specs.declared.io.ErrorKind.TheVariants.{OutOfMemory};
    ghost use Rattle.command_words.specs.declared.line_fault.LineFault.TheVariants.{NoMemory};

    ghost made_of = { λ _ _. ⊤ };

    ghost missing_by = { λ error fault. error_kind error ≡ OutOfMemory → fault ≡ NoMemory };

    // `clap` judges the words: `--help` and `--version` are its faults too.
    fn from_words(alloc: Global, words: &[&str]) -> Result<Line, LineFault> {
        let matches = program(alloc)?.try_get_matches_from(words)?;
        let task = match matches.subcommand() {
            Some((name, matches)) => task_of(alloc, name, matches)?,
            None => return Err(not_a_line(alloc, "no command")),
        };
        Ok(Line { task })
    }

    // Out of memory, or a word is not UTF-8.
    fn no_words(alloc: Global, error: &io::Error) -> LineFault {
        match error.kind() {
            ErrorKind::OutOfMemory => LineFault::NoMemory,
            _ => not_a_line(alloc, "a word is not UTF-8"),
        }
    }
}

// What a command asks.
fn task_of(alloc: Global, name: &str, matches: &ArgMatches<'_>) -> Result<Task, LineFault> {
    match name {
        "octets" => octets_task(alloc, matches),
        "json" => {
            let indented = matches.get_flag("indent");
            Ok(Task::Show(reading_of(alloc, matches)?, Form::Json { indented }))
        }
        "types" => Ok(Task::Types {
            module: owned(alloc, matches, "MODULE")?,
            name: match matches.get_str("NAME") {
                Some(name) => Some(String::from_str(alloc, name)?),
                None => None,
            },
        }),
        "module" => Ok(Task::Module(owned(alloc, matches, "MODULE")?)),
        "refusal" => Ok(Task::Refusal(number(alloc, matches, "NUMBER", "NUMBER")?)),
        _ => Ok(Task::Cut {
            input: owned(alloc, matches, "INPUT")?,
            least: number(alloc, matches, "octets", "--octets")?,
            prefix: owned(alloc, matches, "into")?,
        }),
    }
}

fn not_a_line(alloc: Global, message: &'static str) -> LineFault {
    fault_of_kind(program(alloc), WordsFault::Io, message)
}

fn octets_task(alloc: Global, matches: &ArgMatches<'_>) -> Result<Task, LineFault> {
    let value = match matches.get_str("value") {
        Some(_) => Some(number(alloc, matches, "value", "--value")?),
        None => None,
    };
    let wanted = Wanted {
        value,
        only_refused: matches.get_flag("only-refused"),
        wide: matches.get_flag("wide"),
    };
    Ok(Task::Show(reading_of(alloc, matches)?, Form::Octets(wanted)))
}

// The number from 1 on that an argument has, which people know by this word.
fn number(
    alloc: Global,
    matches: &ArgMatches<'_>,
    name: &str,
    word: &str,
) -> Result<u64, LineFault> {
    match matches.get_str(name).unwrap_or("").parse::<u64>() {
        Ok(number) if number > 0 => Ok(number),
        _ => {
            let why = format!(in alloc; "{word} wants a number from 1 on")?;
            Err(wrong(alloc, why.as_str()))
        }
    }
}

// Words that are no command line, since an argument has a value that it cannot have.
fn wrong(alloc: Global, why: &str) -> LineFault {
    fault_of_kind(program(alloc), WordsFault::ValueValidation, why)
}

// How values are read.
fn reading_of(alloc: Global, matches: &ArgMatches<'_>) -> Result<Reading, LineFault> {
    let reading = read_words(alloc, matches)?;
    if has_shared_input(&reading) {
        let why = "only one of MODULE and INPUT can be standard input";
        return Err(wrong(alloc, why));
    }
    Ok(reading)
}

// Whether two files are the standard input, of which the second would find nothing.
fn has_shared_input(reading: &Reading) -> bool {
    let mut is_taken = reading.module.as_str() == "-";
    for path in &reading.inputs {
        if path.as_str() == "-" {
            if is_taken {
                return true;
            }
            is_taken = true;
        }
    }
    false
}

// What the words say, whichever files are the standard input.
fn read_words(alloc: Global, matches: &ArgMatches<'_>) -> Result<Reading, AllocError> {
    let mut inputs = Vec::new(alloc);
    for path in matches.get_strs("INPUT").unwrap_or(&[]) {
        inputs.push(String::from_str(alloc, path)?)?;
    }
    Ok(Reading {
        module: owned(alloc, matches, "MODULE")?,
        name: owned(alloc, matches, "TYPE")?,
        inputs,
        from: rule_of(matches.get_str("from").unwrap_or("ber")),
        hex: matches.get_flag("hex"),
    })
}

// The word that an argument has.
fn owned(alloc: Global, matches: &ArgMatches<'_>, name: &str) -> Result<String, AllocError> {
    String::from_str(alloc, matches.get_str(name).unwrap_or(""))
}

// The rule to read by that a word names.
fn rule_of(word: &str) -> Rule {
    match word {
        "cer" => Rule::Cer,
        "der" => Rule::Der,
        _ => Rule::Ber,
    }
}
