//! Why there is no type, and the lines that say so.

ghost use Rattle.std.specs.Prelude.{◌≡◌};
ghost use Rattle.view_faults.specs.Status.{IsStatus, status_of_number, status_without};

use crate::words_of_fault;
use lexis::{Fault, fault_name};
use program::PrintedPath;
use std::io::{self, ErrorKind, Write};

/// Why there is no type.
#[derive(Debug, Drop)]
pub enum NoType {
    /// The file cannot be opened or read.
    CannotRead(io::Error),
    /// The module is refused, or the name in it.
    Module(Fault),
    /// The name is not assigned, and these names are near it.
    NotAssigned(Fault, Vec<String>),
    /// No built-in type has the name.
    NotBuiltIn,
}

/// Prints why there is no type, and returns the exit status.
pub fn print_no_type<E: Write>(path: &str, name: &str, fault: &NoType, err: &mut E) -> u8
    ensures end { IsStatus result }
    ensures value { result ≡ status_without fault.now }
{
    let path = PrintedPath(path);
    match fault {
        NoType::CannotRead(error) if error.kind() == ErrorKind::OutOfMemory => {
            let _ = writeln!(err, "{path}: out of memory");
            4
        }
        NoType::CannotRead(_) => {
            let _ = writeln!(err, "{path}: cannot be read");
            3
        }
        NoType::NotBuiltIn => {
            let name = PrintedPath(name);
            let _ = writeln!(
                err,
                "{path}: {name} is none of BOOLEAN, INTEGER, NULL and OCTET STRING"
            );
            64
        }
        NoType::Module(fault) => print_module_fault(path, name, fault, err),
        NoType::NotAssigned(fault, names) => {
            let status = print_module_fault(path, name, fault, err);
            let name = PrintedPath(name);
            for near in names {
                let _ = writeln!(err, "{name} is near {near}");
            }
            status
        }
    }
}

// Prints the line of a module's fault, and returns the exit status.
fn print_module_fault<E: Write>(path: PrintedPath<'_>, name: &str, fault: &Fault, err: &mut E) -> u8
    ensures end { IsStatus result }
    ensures value { result ≡ status_of_number fault.now.number }
{
    let (line, column, number) = (fault.line, fault.column, fault.number);
    let word = fault_name(number);
    let words = words_of_fault(number);
    let colon = if name.is_empty() { "" } else { ": " };
    let name = PrintedPath(name);
    let _ = writeln!(
        err,
        "{path}:{line}:{column}: {name}{colon}refused {number} {word}: {words}"
    );
    if number == 33 { 4 } else { 2 }
}
