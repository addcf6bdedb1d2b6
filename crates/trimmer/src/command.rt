//! The program's own command, by which `clap` judges its words.

use clap::{Arg, ArgAction, Command};
use std::alloc::{AllocError, Global};

// What help says behind the options.
const EXAMPLE: &str =
    "For example, the certificates of RFC 5280, with keys whose algorithm has no parameters or NULL:

  asn1x-trim rfc5280.txt Certificate --narrow --as AlgorithmIdentifier.parameters=NULL \\
      --as AttributeValue=DirectoryString > certificates.asn

Exit status: 0 written, 1 refused, 3 a file cannot be read, 4 no memory, 64 wrong words.";

/// The program's own command.
pub fn command<'a>(alloc: Global) -> Result<Command<'a>, AllocError> {
    let words = Arg::new(alloc, "WORDS")
        .required(true)
        .num_args(2..)
        .value_names(WORDS.as_slice())
        .help("Files with ASN.1 modules, and behind them the type that is asked for");
    let command = Command::new(alloc, "asn1x-trim")
        .version("1.0.0")
        .about("Writes an ASN.1 module that asn1x takes, for a type of published modules")
        .override_usage("asn1x-trim [OPTIONS] FILE.. [MODULE.]TYPE")
        .after_help(EXAMPLE);
    let command = command.arg(words)?;
    let command = command.arg(given(alloc))?;
    let command = command.arg(flag(alloc, "narrow", NARROW))?;
    let command = command.arg(unroll(alloc))?;
    command.arg(flag(alloc, "verbose", "Tell what is dropped without effect, too"))
}

// What help calls the words.
static WORDS: [&str; 2] = ["FILE", "[MODULE.]TYPE"];

// What help says of `--narrow`.
const NARROW: &str =
    "Leave out components and alternatives that asn1x does not take, where values may do without";

// `--as TYPE.COMPONENT=TYPE`.
fn given<'a>(alloc: Global) -> Arg<'a> {
    Arg::new(alloc, "as")
        .long("as")
        .value_name("TYPE.COMPONENT=TYPE")
        .action(ArgAction::Append)
        .help("The type of an open type")
}

// `--unroll N`.
fn unroll<'a>(alloc: Global) -> Arg<'a> {
    Arg::new(alloc, "unroll")
        .long("unroll")
        .value_name("N")
        .default_value("0")
        .help("Write a type that refers to itself N deep, 60 at most")
}

// An option without a value.
fn flag<'a>(alloc: Global, name: &'a str, help: &'a str) -> Arg<'a> {
    Arg::new(alloc, name)
        .long(name)
        .action(ArgAction::SetTrue)
        .help(help)
}
