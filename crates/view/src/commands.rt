//! The program's commands, by which `clap` judges its words.

use clap::{Arg, ArgAction, Command};
use std::alloc::{AllocError, Global};

// The rules to read by, as words.
static RULES: [&str; 3] = ["ber", "cer", "der"];

/// The program's own command, with those of what it can do.
pub fn program<'a>(alloc: Global) -> Result<Command<'a>, AllocError> {
    with_other_commands(alloc, with_shows(alloc, named(alloc))?)
}

// What is said of the program itself.
fn named<'a>(alloc: Global) -> Command<'a> {
    Command::new(alloc, "asn1x-view")
        .version("1.0.0")
        .about(
            "Shows encodings of an ASN.1 type to people: where each part stands, and why one is refused",
        )
        .after_help("Example: asn1x-view octets calls.asn Call calls.ber --from der")
        .subcommand_required(true)
}

// With the commands that show values and types.
fn with_shows<'a>(alloc: Global, command: Command<'a>) -> Result<Command<'a>, AllocError> {
    command
        .subcommand(octets_command(alloc)?)?
        .subcommand(json_command(alloc)?)?
        .subcommand(types_command(alloc)?)
}

// With the commands that are about faults, and that which cuts a stream.
fn with_other_commands<'a>(alloc: Global, command: Command<'a>) -> Result<Command<'a>, AllocError> {
    command
        .subcommand(module_command(alloc)?)?
        .subcommand(refusal_command(alloc)?)?
        .subcommand(cut_command(alloc)?)
}

// A line for each encoding.
fn octets_command<'a>(alloc: Global) -> Result<Command<'a>, AllocError> {
    let value = Arg::new(alloc, "value")
        .long("value")
        .value_name("N")
        .help("Show the N-th value alone");
    with_reading(
        alloc,
        Command::new(alloc, "octets").about(
            "Print a line for each identifier, and why octets are refused",
        ),
    )?
    .arg(value)?
    .arg(flag(alloc, "only-refused").help("Print why octets are refused, and nothing else"))?
    .arg(flag(alloc, "wide").help("Show long values whole"))
}

// A line of JSON for each value.
fn json_command<'a>(alloc: Global) -> Result<Command<'a>, AllocError> {
    let command = Command::new(alloc, "json").about("Print each value as a line of JSON");
    with_reading(alloc, command)?.arg(flag(alloc, "indent").help("Print a line for each member"))
}

// The names and the types of a module.
fn types_command<'a>(alloc: Global) -> Result<Command<'a>, AllocError> {
    Command::new(alloc, "types")
        .about("Print the names of a module, or the type that one means, with all tags")
        .arg(word(alloc, "MODULE").help("The file of an ASN.1 module"))?
        .arg(Arg::new(alloc, "NAME").help("The name of a type in it"))
}

// The faults of a module.
fn module_command<'a>(alloc: Global) -> Result<Command<'a>, AllocError> {
    Command::new(alloc, "module")
        .about("Print all faults of a module, and what to do")
        .arg(word(alloc, "MODULE").help("The file of an ASN.1 module"))
}

// What a number says.
fn refusal_command<'a>(alloc: Global) -> Result<Command<'a>, AllocError> {
    Command::new(alloc, "refusal")
        .about("Print what the number of a refusal says")
        .arg(word(alloc, "NUMBER").help("1 to 17 for octets, 21 to 33 for modules"))
}

// A stream in files.
fn cut_command<'a>(alloc: Global) -> Result<Command<'a>, AllocError> {
    let octets = Arg::new(alloc, "octets")
        .long("octets")
        .value_name("N")
        .required(true)
        .help("End a file at the first value with which it has so many octets");
    let into = Arg::new(alloc, "into")
        .long("into")
        .value_name("PREFIX")
        .required(true)
        .help("Name the files PREFIX0001, PREFIX0002 and so on");
    Command::new(alloc, "cut")
        .about("Cut a stream of values of any type into files, its octets unchanged")
        .arg(word(alloc, "INPUT").help("The file of the values; - is the standard input"))?
        .arg(octets)?
        .arg(into)
}

// A command that reads values.
fn with_reading<'a>(alloc: Global, command: Command<'a>) -> Result<Command<'a>, AllocError> {
    let inputs = word(alloc, "INPUT")
        .num_args(1..)
        .help("The files of the values; - is the standard input");
    let from = Arg::new(alloc, "from")
        .long("from")
        .value_name("RULES")
        .value_parser(RULES.as_slice())
        .default_value("ber")
        .help("The rules to read by");
    command
        .arg(word(alloc, "MODULE").help("The file of an ASN.1 module, or @builtin"))?
        .arg(word(alloc, "TYPE").help("The name of a type in it"))?
        .arg(inputs)?
        .arg(from)?
        .arg(flag(alloc, "hex").help("Read hexadecimal text"))
}

// A word that must be there.
fn word<'a>(alloc: Global, id: &'a str) -> Arg<'a> {
    Arg::new(alloc, id).required(true)
}

// An option without a value.
fn flag<'a>(alloc: Global, id: &'a str) -> Arg<'a> {
    Arg::new(alloc, id).long(id).action(ArgAction::SetTrue)
}
