//! Judges the program's words.

ghost use Rattle.std.specs.Prelude.{◌≡◌, ◌↔◌, IfOk, IfErr, IsSome, Some, codes};
ghost use Rattle.std.specs.IoError.{error_kind};
ghost use Rattle.clap.specs.Words.{first_value, found_of};
ghost use Rattle.program.specs.CommandLine.{texts_of, word_of_canonical, word_of_rule, word_of_verb};
ghost use Rattle.program.specs.Entries.{HasEntries, HasWords, IsLineOf};
ghost use Rattle.program.specs.Fault.{IsNotText, IsRefusalOf};
ghost use Rattle.program.specs.Line.{IsVerbWithRule};

use crate::commands::program;
use crate::{Line, LineFault, Verb};
use clap::ArgMatches;
use clap::error::ErrorKind as WordsFault;
use command_words::{CommandLine, fault_of_kind};
use convert::{Canonical, Rule};
use std::alloc::Global;
use std::io::{self, ErrorKind};

/// The command line that the program's words are, its own name first. `clap` judges them: `--help` and
/// `--version` are its faults too.
pub fn line(alloc: Global, words: &[&str]) -> Result<Line, LineFault>
    ensures value { IfOk result (IsLineOf (texts_of words.now)) }
    ensures to { IfOk result IsVerbWithRule }
    ensures refused { IfErr result (IsRefusalOf (texts_of words.now)) }
{
    let matches = program(alloc)?.try_get_matches_from(words)?;
    let (name, matches) = matches.subcommand().unwrap();
    line_of(alloc, verb_of(name), matches)
}

impl CommandLine for Line {
    ghost use Rattle.std.specs.declared.io.ErrorKind.TheVariants.{OutOfMemory};
    ghost use Rattle.command_words.specs.declared.line_fault.LineFault.TheVariants.{NoMemory};

    ghost made_of = { λ words made. IfOk made (IsLineOf (texts_of words)) × IfOk made IsVerbWithRule × IfErr made (IsRefusalOf (texts_of words)) };

    ghost missing_by = { λ error fault. (error_kind error ≡ OutOfMemory → fault ≡ NoMemory) × IsNotText fault };

    fn from_words(alloc: Global, words: &[&str]) -> Result<Line, LineFault> {
        line(alloc, words)
    }

    // Out of memory, or a word is not UTF-8.
    fn no_words(alloc: Global, error: &io::Error) -> LineFault
        ensures memory { error_kind error.now ≡ ErrorKind.OutOfMemory → result ≡ LineFault.NoMemory }
        ensures text { IsNotText result }
    {
        match error.kind() {
            ErrorKind::OutOfMemory => LineFault::NoMemory,
            _ => fault_of_kind(program(alloc), WordsFault::Io, "a word is not UTF-8"),
        }
    }
}

// The command line of a subcommand.
fn line_of(alloc: Global, verb: Verb, matches: &ArgMatches<'_>) -> Result<Line, LineFault>
    requires { HasWords verb matches.now }
    ensures entries { IfOk result (HasEntries matches.now) }
    ensures verb { IfOk result (λ line. line.verb ≡ verb) }
    ensures to { IfOk result IsVerbWithRule }
    ensures refused { IfErr result (λ fault. fault ≡ LineFault.NoMemory) }
{
    Ok(Line {
        verb,
        module: String::from_str(alloc, matches.get_str("MODULE").unwrap())?,
        name: String::from_str(alloc, matches.get_str("TYPE").unwrap())?,
        input: String::from_str(alloc, matches.get_str("INPUT").unwrap())?,
        from: rule_of(matches.get_str("from").unwrap()),
        to: to_of(verb, matches),
        hex: matches.get_flag("hex"),
    })
}

// The rule to write by, where the values are to be converted.
fn to_of(verb: Verb, matches: &ArgMatches<'_>) -> Option<Canonical>
    requires { HasWords verb matches.now }
    ensures value { (rule : Canonical) → result ≡ Some rule → first_value (found_of matches.now) (codes "to") ≡ Some (word_of_canonical rule) }
    ensures exact { IsSome result ↔ (verb ≡ Verb.Convert) }
{
    match verb {
        Verb::Show | Verb::Check => None,
        Verb::Convert => Some(canonical_of(matches.get_str("to").unwrap())),
    }
}

// What a word asks for that is one of the three subcommands.
fn verb_of(word: &str) -> Verb
    requires { (verb : Verb) × (word.now ≡ word_of_verb verb) }
    ensures { word.now ≡ word_of_verb result }
{
    match word {
        "show" => Verb::Show,
        "check" => Verb::Check,
        _ => Verb::Convert,
    }
}

// The rule to write by that a word names.
fn canonical_of(word: &str) -> Canonical
    requires { (rule : Canonical) × (word.now ≡ word_of_canonical rule) }
    ensures { word.now ≡ word_of_canonical result }
{
    match word {
        "cer" => Canonical::Cer,
        _ => Canonical::Der,
    }
}

// The rule to read by that a word names.
fn rule_of(word: &str) -> Rule
    requires { (rule : Rule) × (word.now ≡ word_of_rule rule) }
    ensures { word.now ≡ word_of_rule result }
{
    if word == "ber" {
        return Rule::Ber;
    }
    match canonical_of(word) {
        Canonical::Cer => Rule::Cer,
        Canonical::Der => Rule::Der,
    }
}
