//! `cut`: a stream of values in files of a process.

ghost use Rattle.std.specs.Prelude.{None};
ghost use Rattle.view_faults.specs.Status.{IsEnd};

use crate::FileSystem;
use crate::files::read_piece;
use cutting::{CutFault, Cutter, Outputs};
use devices::Failed;
use program::PrintedPath;
use std::alloc::Global;
use std::io::{Read, Write};
use std::string::String;
use types::Refusal;
use view_faults::Fault;

// How many octets of the input are read at once.
const PIECE: usize = 262_144;

// The greatest numbers of four digits and more.
const NINES: [u32; 6] = [9_999, 99_999, 999_999, 9_999_999, 99_999_999, 999_999_999];

// The files PREFIX0001, PREFIX0002 and so on.
#[derive(Drop)]
struct NumberedFiles<'a, D: FileSystem> {
    alloc: Global,
    file_system: &'a D,
    prefix: &'a str,
    // how many there are
    count: u32,
    file: Option<D::Output>,
}

impl<D: FileSystem> NumberedFiles<'_, D> {
    // Makes the next file.
    fn begin_file(&mut self) -> Result<(), Failed> {
        self.count = self.count.saturating_add(1);
        let Ok(name) = file_name(self.alloc, self.prefix, self.count) else {
            return Err(Failed);
        };
        match self.file_system.create(name.as_str()) {
            Ok(file) => {
                self.file = Some(file);
                Ok(())
            }
            Err(_) => Err(Failed),
        }
    }
}

impl<D: FileSystem> Outputs for NumberedFiles<'_, D> {
    // What files have is not told.
    ghost taken = { λ _. None };

    fn end_file(&mut self) -> Result<(), Failed> {
        self.file = None;
        Ok(())
    }

    fn write(&mut self, octets: &[u8]) -> Result<(), Failed> {
        if octets.is_empty() {
            return Ok(());
        }
        if self.file.is_none() {
            self.begin_file()?;
        }
        match &mut self.file {
            Some(file) => match file.write_all(octets) {
                Ok(()) => Ok(()),
                Err(_) => Err(Failed),
            },
            None => Err(Failed),
        }
    }
}

/// Cuts an input into files of at least so many octets, and returns the exit status.
pub fn cut<D: FileSystem, E: Write>(
    alloc: Global,
    file_system: &D,
    path: &str,
    least: u64,
    prefix: &str,
    err: &mut E,
) -> u8
    ensures { IsEnd result }
{
    let Ok(mut input) = file_system.open(path) else {
        Fault::CannotRead.print(path, err);
        return Fault::CannotRead.status();
    };
    let files = NumberedFiles {
        alloc,
        file_system,
        prefix,
        count: 0,
        file: None,
    };
    let mut cutter = Cutter::new(files, least);
    match cut_pieces(alloc, &mut cutter, &mut input) {
        Ok(()) => 0,
        Err(fault) => {
            match fault {
                Fault::Refused(Refusal::Truncated) => print_cut(path, cutter.ended(), err),
                Fault::Refused(refusal) => print_refused(path, refusal, cutter.passed(), err),
                _ => print_fault(alloc, path, fault, prefix, cutter.outputs.count, err),
            }
            fault.status()
        }
    }
}

// Cuts an input that is read to its end.
fn cut_pieces<K: Outputs, R: Read>(
    alloc: Global,
    cutter: &mut Cutter<K>,
    input: &mut R,
) -> Result<(), Fault> {
    let mut room = vec![in alloc; 0u8; PIECE]?;
    for _ in 0..u64::MAX {
        let count = read_piece(input, room.as_mut_slice())?;
        if count == 0 {
            break;
        }
        let taken = cutter.take(room.get(..count).unwrap_or(&[]));
        fault_of(taken)?;
    }
    fault_of(cutter.finish())
}

fn fault_of(cut: Result<(), CutFault>) -> Result<(), Fault> {
    match cut {
        Ok(()) => Ok(()),
        Err(CutFault::Refused(refusal)) => Err(Fault::Refused(refusal)),
        Err(CutFault::Output) => Err(Fault::CannotWrite),
    }
}

// Prints that the encoding that begins behind so many octets is not whole.
fn print_cut<E: Write>(path: &str, at: u64, err: &mut E) {
    let path = PrintedPath(path);
    let refusal = Refusal::Truncated;
    let _ = writeln!(
        err,
        "{path}: octet {at}: refused {refusal}: the encoding that begins here is not whole"
    );
}

// Prints that the head behind so many octets is refused.
fn print_refused<E: Write>(path: &str, refusal: Refusal, at: u64, err: &mut E) {
    let path = PrintedPath(path);
    let _ = writeln!(
        err,
        "{path}: octet {at}: refused {refusal}: no encoding stands here, or none that ends"
    );
}

// Prints why a file is not read or written.
fn print_fault<E: Write>(
    alloc: Global,
    path: &str,
    fault: Fault,
    prefix: &str,
    count: u32,
    err: &mut E,
) {
    match fault {
        Fault::CannotWrite => match file_name(alloc, prefix, count) {
            Ok(name) => fault.print(name.as_str(), err),
            Err(_) => fault.print(prefix, err),
        },
        other => other.print(path, err),
    }
}

// The name of a file. Names sort as the files were made: before a number of more than four digits stand the greatest
// numbers of fewer, so PREFIX999910000 comes behind PREFIX9999.
fn file_name(alloc: Global, prefix: &str, count: u32) -> Result<String, Fault> {
    let mut name = String::from_str(alloc, prefix)?;
    for greatest in NINES {
        if count > greatest {
            write!(name, "{greatest}")?;
        }
    }
    write!(name, "{count:04}")?;
    Ok(name)
}
