//! Why the program stops, and the lines that say so.

ghost use Rattle.std.specs.Prelude.{◌≡◌};
ghost use Rattle.program.specs.Fault.{fault_status, refusal_status, module_status, fault_of_text, fault_of_refusal, fault_of_stopped};

use command_words::PrintedPath;
use convert::{HexFault, Stopped};
use std::alloc::{AllocError, Global};
use std::io::Write;
use thiserror::Error;
use types::Refusal;

/// Why the program stops.
#[derive(Debug, Drop, Error)]
pub enum Fault<'a> {
    /// Octets, a device or a growth was refused.
    #[error("asn1x: refused {refusal} after {done} values")]
    Refused {
        /// The refusal.
        refusal: Refusal,
        /// How many values were done before.
        done: u64,
    },
    /// The text is not hexadecimal.
    #[error("asn1x: not hexadecimal")]
    NotHexadecimal,
    /// The text is longer than it may be.
    #[error("asn1x: hexadecimal text too long")]
    TextTooLong,
    /// A file cannot be opened or read.
    #[error("asn1x: cannot read {path}", path = PrintedPath(.0))]
    CannotRead(&'a str),
    /// The octets of a module's file are refused.
    #[error("asn1x: module refused {0}")]
    Module(notation::Fault),
    /// No built-in type has the name.
    #[error("asn1x: no such built-in type")]
    NoSuchType,
    /// The module and the values are both to come from the standard input.
    #[error("asn1x: MODULE and INPUT cannot both be standard input")]
    SharedInput,
}

impl From<Refusal> for Fault<'_> {
    ghost from_gives = { λ refusal fault. fault ≡ fault_of_refusal refusal };

    // What is refused before any value is done.
    fn from(refusal: Refusal) -> Self {
        Fault::Refused { refusal, done: 0 }
    }
}

impl From<Stopped> for Fault<'_> {
    ghost from_gives = { λ stopped fault. fault ≡ fault_of_stopped stopped };

    fn from(stopped: Stopped) -> Self {
        let Stopped { done, refusal } = stopped;
        Fault::Refused { refusal, done }
    }
}

impl From<AllocError> for Fault<'_> {
    ghost use Rattle.types.specs.declared.refusal.Refusal.TheVariants.{NoMemory as RefusedMemory};

    ghost from_gives = { λ _ fault. fault ≡ fault_of_refusal RefusedMemory };

    fn from(_refused: AllocError) -> Self {
        Fault::from(Refusal::NoMemory)
    }
}

impl From<HexFault> for Fault<'_> {
    ghost from_gives = { λ refused fault. fault ≡ fault_of_text refused };

    fn from(refused: HexFault) -> Self {
        match refused {
            HexFault::NotHex => Fault::NotHexadecimal,
            HexFault::TooLong => Fault::TextTooLong,
            HexFault::NoMemory => Fault::from(Refusal::NoMemory),
        }
    }
}

impl Fault<'_> {
    /// The exit status that goes with the line.
    pub fn status(&self) -> u8
        ensures { result ≡ fault_status self.now }
    {
        match self {
            Fault::Refused { refusal, .. } => status_of(*refusal),
            Fault::NotHexadecimal | Fault::TextTooLong => 1,
            Fault::CannotRead(_) => 3,
            Fault::Module(fault) => status_of_module(fault.number),
            Fault::NoSuchType | Fault::SharedInput => 64,
        }
    }
}

/// Prints a fault's line and returns its status. A failed write changes nothing else. The line is written at once, so
/// that programs which share an output do not tear it, unless memory runs out.
pub fn print_fault<E: Write>(alloc: Global, fault: &Fault<'_>, err: &mut E) -> u8
    ensures { result ≡ fault_status fault.now }
{
    let _ = match format!(in alloc; "{fault}\n") {
        Ok(line) => err.write_all(line.as_bytes()),
        Err(_) => writeln!(err, "{fault}"),
    };
    fault.status()
}

// 1 where octets are refused, 3 where a device failed, 4 where memory ran out.
fn status_of(refusal: Refusal) -> u8
    ensures { result ≡ refusal_status refusal }
{
    match refusal {
        Refusal::NoMemory => 4,
        Refusal::SourceFault | Refusal::SinkFault => 3,
        _ => 1,
    }
}

// 2 where a module is refused, 4 where memory ran out.
fn status_of_module(number: u32) -> u8
    ensures { result ≡ module_status number }
{
    if number == 33 { 4 } else { 2 }
}
