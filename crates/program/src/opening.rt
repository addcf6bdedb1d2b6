//! Files that cannot be opened, read or shared.

ghost use Rattle.std.specs.Prelude.{◌≡◌, ◌↔◌, ◌⊎◌};
ghost use Rattle.std.specs.IoError.{error_kind};

use crate::fault::{Fault, print_fault};
use std::alloc::Global;
use std::io::{self, ErrorKind, Write};

/// Prints the line of a file that cannot be opened, and returns the exit status.
pub fn cannot_open<E: Write>(alloc: Global, path: &str, err: &mut E) -> u8
    ensures { result ≡ 3 }
{
    print_fault(alloc, &Fault::CannotRead(path), err)
}

/// Prints the line of a module's file that cannot be opened or read, and returns the exit status: 3, or 4
/// where memory ran out.
pub fn cannot_read_module<E: Write>(alloc: Global, path: &str, error: &io::Error, err: &mut E) -> u8
    ensures status { (result ≡ 3) ⊎ (result ≡ 4) }
    ensures memory { (result ≡ 4) ↔ (error_kind error.now ≡ ErrorKind.OutOfMemory) }
{
    let fault = match error.kind() {
        ErrorKind::OutOfMemory => Fault::Module(no_memory()),
        _ => Fault::CannotRead(path),
    };
    print_fault(alloc, &fault, err)
}

/// Prints that the module and the values cannot both come from the standard input, and returns the exit status.
pub fn cannot_share_input<E: Write>(alloc: Global, err: &mut E) -> u8
    ensures { result ≡ 64 }
{
    print_fault(alloc, &Fault::SharedInput, err)
}

// That memory ran out before a module was read.
fn no_memory() -> notation::Fault
    ensures { result.number ≡ 33 }
{
    notation::Fault {
        number: 33,
        line: 1,
        column: 1,
    }
}
