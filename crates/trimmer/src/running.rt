//! Runs a command line over files.

ghost use Rattle.std.specs.Prelude.{◌≡◌, ◌≢◌, ◌⊎◌, IfOk, OnErr, string_bytes};
ghost use Rattle.std.specs.Io.KnownBytes.{Appends};
ghost use Rattle.trimmer.specs.Status.{IsStatus, status_of};
ghost use Rattle.trimmer.specs.Trimmed.{HasWritten};

use crate::checking::trim;
use crate::command_line::Line;
use crate::lines::{print_fault, print_line, print_message};
use crate::reading::Files;
use command_words::PrintedPath;
use published::{Fault, Module, read};
use std::alloc::{AllocError, Global};
use std::io::{ErrorKind, Write};
use trimming::{Message, Refusal, Stop, Trimmed};

/// Reads the files of a command line, and prints the module that it asks for. Returns the exit status: 0
/// where it is written, 1 where it is refused, 3 where a file cannot be read or the module not be written, 4
/// where memory ran out. Each fault and each note is a line of `err`.
pub fn run<F: Files, W: Write, E: Write>(
    alloc: Global,
    line: &Line,
    files: &mut F,
    out: &mut W,
    err: &mut E,
) -> u8
    ensures status { IsStatus result }
    ensures written { (result ≡ 0) → HasWritten (W.contents out.old) (W.contents out.new) }
    ensures quiet { (result ≡ 1) ⊎ (result ≡ 4) → W.contents out.new ≡ W.contents out.old }
{
    match run_over(alloc, line, files, out, err) {
        Ok(end) => status_of(end),
        Err(_) => {
            let _ = err.write_all(b"asn1x-trim: out of memory\n");
            4
        }
    }
}

/// How a run ends that memory sufficed for.
#[derive(Clone, Copy)]
enum End {
    /// The module is written.
    Written,
    /// It is refused.
    Refused,
    /// A file cannot be read, or the module not be written.
    Failed,
}

fn status_of(end: End) -> u8
    ensures status { IsStatus result }
    ensures value { result ≡ status_of end }
{
    match end {
        End::Written => 0,
        End::Refused => 1,
        End::Failed => 3,
    }
}

/// What the files have.
#[derive(Drop)]
struct Library {
    /// Their modules.
    modules: Vec<Module>,
    /// What is no ASN.1 in them.
    faults: Vec<Fault>,
}

// Reads the files, trims and prints.
fn run_over<F: Files, W: Write, E: Write>(
    alloc: Global,
    line: &Line,
    files: &mut F,
    out: &mut W,
    err: &mut E,
) -> Result<End, AllocError>
    ensures written { IfOk result (λ end. status_of end ≡ 0 → HasWritten (W.contents out.old) (W.contents out.new)) }
    ensures refused { IfOk result (λ end. status_of end ≡ 1 → W.contents out.new ≡ W.contents out.old) }
    ensures unchanged { OnErr result (W.contents out.new ≡ W.contents out.old) }
{
    let mut library = Library {
        modules: Vec::new(alloc),
        faults: Vec::new(alloc),
    };
    if !read_all(alloc, line, files, &mut library, err)? {
        return Ok(End::Failed);
    }
    match trim(alloc, library.modules.as_slice(), &line.request) {
        Ok(trimmed) => print_trimmed(alloc, line, &trimmed, out, err),
        Err(Stop::Refused(refusal)) => {
            print_refusal(alloc, line, &library, &refusal, err)?;
            Ok(End::Refused)
        }
        Err(Stop::NoMemory) => Err(AllocError),
    }
}

// Reads each file. Whether all were read.
fn read_all<F: Files, E: Write>(
    alloc: Global,
    line: &Line,
    files: &mut F,
    library: &mut Library,
    err: &mut E,
) -> Result<bool, AllocError> {
    for (place, path) in line.files.iter().enumerate() {
        let octets = match files.octets(alloc, path.as_str()) {
            Ok(octets) => octets,
            Err(error) if error.kind() == ErrorKind::OutOfMemory => return Err(AllocError),
            Err(_) => {
                let path = PrintedPath(path.as_str());
                print_line(&format!(in alloc; "asn1x-trim: cannot read {path}\n")?, err);
                return Ok(false);
            }
        };
        let number = u32::try_from(place).unwrap_or(u32::MAX);
        library.add(alloc, number, octets.as_slice())?;
    }
    Ok(true)
}

impl Library {
    // Adds what a file has.
    fn add(&mut self, alloc: Global, file: u32, octets: &[u8]) -> Result<(), AllocError> {
        let mut published = read(alloc, file, octets)?;
        self.modules.append(&mut published.modules)?;
        self.faults.extend_from_slice(published.faults.as_slice())
    }
}

// Prints the module, and what is told of it.
fn print_trimmed<W: Write, E: Write>(
    alloc: Global,
    line: &Line,
    trimmed: &Trimmed,
    out: &mut W,
    err: &mut E,
) -> Result<End, AllocError>
    ensures written { IfOk result (λ end. status_of end ≡ 0 → Appends (W.contents out.old) (W.contents out.new) (string_bytes trimmed.now.text)) }
    ensures taken { IfOk result (λ end. status_of end ≢ 1) }
    ensures unchanged { OnErr result (W.contents out.new ≡ W.contents out.old) }
{
    print_messages(alloc, line, trimmed.messages.as_slice(), err)?;
    match out.write_all(trimmed.text.as_bytes()) {
        Ok(()) => Ok(End::Written),
        Err(_) => {
            let _ = err.write_all(b"asn1x-trim: cannot write the module\n");
            Ok(End::Failed)
        }
    }
}

// Prints all that is refused, and where a name is missing what of the files is no ASN.1.
fn print_refusal<E: Write>(
    alloc: Global,
    line: &Line,
    library: &Library,
    refusal: &Refusal,
    err: &mut E,
) -> Result<(), AllocError> {
    print_messages(alloc, line, refusal.messages.as_slice(), err)?;
    if refusal.is_name_missing {
        for fault in &library.faults {
            print_fault(alloc, line.files.as_slice(), fault, err)?;
        }
    }
    Ok(())
}

fn print_messages<E: Write>(
    alloc: Global,
    line: &Line,
    messages: &[Message],
    err: &mut E,
) -> Result<(), AllocError> {
    for message in messages {
        print_message(alloc, line.files.as_slice(), message, err)?;
    }
    Ok(())
}
