//! The program's commands, by which `clap` judges its words.

ghost use Rattle.std.specs.Prelude.{◌≡◌, IfOk, codes, false};
ghost use Rattle.clap.specs.Words.{app_of, new_app, rule_of};
ghost use Rattle.clap.specs.declared.builder.command.Command.TheViews.{out-Command};
ghost use Rattle.clap.specs.declared.builder.value_parser.ValueParser.TheVariants.{Names};
ghost use Rattle.program.specs.Program.{IsProgram, TakesInput, TakesInputAndRules, needed, own_app, rules_option};

use clap::{Arg, ArgAction, Command};
use std::alloc::{AllocError, Global};

// What `--hex` does.
static READ_HEX: &str = "Read the values as hexadecimal text";

static READ_AND_WRITE_HEX: &str = "Read the values as hexadecimal text, and write hexadecimal text";

// What stands below the help of a subcommand with this example.
macro_rules! help_with {
    ($example:literal) => {
        concat!(
            "Example: ",
            $example,
            "\n\nExit status: 0 all values done, 1 octets refused, 2 module refused,\n",
            "3 a file or device failed, 4 out of memory, 64 wrong words.\n",
            "A refusal prints its number, its name and how many values came before it.\n",
            "At most 1,048,576 octets an encoding, 64 levels, 262,144 octets of module.\n",
            "More: man asn1x"
        )
    };
}

// The rules to read by, as words.
static RULES: [&str; 3] = ["ber", "cer", "der"];

// The rules to write by.
static CANONICAL_RULES: [&str; 2] = ["cer", "der"];

/// The program's own command, with those of what it can do.
pub fn program<'a>(alloc: Global) -> Result<Command<'a>, AllocError>
    ensures { IfOk result (λ program. IsProgram (app_of program)) }
{
    let show = reading_command(
        alloc,
        "show",
        "Print a line of text for each value",
        help_with!("asn1x show calls.asn Call calls.ber"),
    )?;
    let check = reading_command(
        alloc,
        "check",
        "Count the values",
        help_with!("asn1x check calls.asn Call calls.der --from der"),
    )?;
    let convert = convert_command(alloc)?;
    let program = own_command(alloc).subcommand(show)?;
    let program = program.subcommand(check)?;
    program.subcommand(convert)
}

// The program's own command.
fn own_command<'a>(alloc: Global) -> Command<'a>
    ensures { app_of result ≡ own_app }
{
    Command::new(alloc, "asn1x")
        .version("1.0.0")
        .about("Reads values of an ASN.1 type in BER, CER or DER")
        .after_help("Example: asn1x show certificates.asn Certificate certificate.der")
        .subcommand_required(true)
}

// A command of this name that reads values and prints text.
fn reading_command<'a>(
    alloc: Global,
    name: &'a str,
    about: &'a str,
    help: &'a str,
) -> Result<Command<'a>, AllocError>
    ensures { IfOk result (TakesInput (new_app name.entry.now)) }
{
    let command = Command::new(alloc, name).about(about).after_help(help);
    with_input(alloc, command, READ_HEX)
}

// Converts values.
fn convert_command<'a>(alloc: Global) -> Result<Command<'a>, AllocError>
    ensures { IfOk result (TakesInputAndRules (new_app (codes "convert"))) }
{
    let to = rules_arg(alloc, "to", CANONICAL_RULES.as_slice())
        .help("Write the encodings by these rules")
        .required(true);
    let command = Command::new(alloc, "convert")
        .about("Write the canonical encoding of each value")
        .after_help(help_with!("asn1x convert calls.asn Call calls.ber --to der >calls.der"));
    let command = with_input(alloc, command, READ_AND_WRITE_HEX)?;
    command.arg(to)
}

// A command that reads values, and says this of hexadecimal text.
fn with_input<'a>(
    alloc: Global,
    command: Command<'a>,
    hex_help: &'a str,
) -> Result<Command<'a>, AllocError>
    requires { (out-Command command).has_globals ≡ false }
    ensures { IfOk result (TakesInput (app_of command.entry)) }
{
    let module = Arg::new(alloc, "MODULE").required(true).help(
        "The file of an ASN.1 module, - for standard input, or @builtin",
    );
    let name = Arg::new(alloc, "TYPE").required(true).help(
        "The name of a type in it; of @builtin BOOLEAN, INTEGER, NULL or 'OCTET STRING'",
    );
    let input = Arg::new(alloc, "INPUT").required(true).help(
        "The file of the values, one behind another, or - for standard input",
    );
    let from = rules_arg(alloc, "from", RULES.as_slice())
        .help("Read the values by these rules; cer and der take canonical encodings alone")
        .default_value("ber");
    let hex = Arg::new(alloc, "hex")
        .long("hex")
        .action(ArgAction::SetTrue)
        .help(hex_help);
    let command = command.arg(module)?;
    let command = command.arg(name)?;
    let command = command.arg(input)?;
    let command = command.arg(from)?;
    command.arg(hex)
}

// An option whose value is one of these names of rules.
fn rules_arg<'a>(alloc: Global, id: &'a str, names: &'a [&'a str]) -> Arg<'a>
    ensures rule { rule_of result ≡ rules_option id.entry.now (Names names.entry) }
    ensures local { result.global ≡ false }
{
    Arg::new(alloc, id)
        .long(id)
        .value_name("RULES")
        .value_parser(names)
}
