//! The lines that the program prints.

use command_words::PrintedPath;
use published::{Fault, Place};
use std::alloc::{AllocError, Global};
use std::io::Write;
use trimming::Message;

/// Prints a line for a message: where, what kind, what.
pub fn print_message<E: Write>(
    alloc: Global,
    files: &[String],
    message: &Message,
    err: &mut E,
) -> Result<(), AllocError> {
    let kind = message.kind.as_str();
    let text = message.text.as_str();
    let line = match message.place {
        Some(place) => {
            let place = written_place(alloc, files, place)?;
            format!(in alloc; "{place}: {kind}: {text}\n")?
        }
        None => format!(in alloc; "asn1x-trim: {kind}: {text}\n")?,
    };
    print_line(&line, err);
    Ok(())
}

/// Prints a line for a part of a file that is no ASN.1.
pub fn print_fault<E: Write>(
    alloc: Global,
    files: &[String],
    fault: &Fault,
    err: &mut E,
) -> Result<(), AllocError> {
    let place = written_place(alloc, files, fault.place)?;
    let why = fault.reason.as_str();
    print_line(&format!(in alloc; "{place}: refused: {why}\n")?, err);
    Ok(())
}

/// Prints a line. A failed write changes nothing else.
pub fn print_line<E: Write>(line: &String, err: &mut E) {
    let _ = err.write_all(line.as_bytes());
}

// The file, the line and the column.
fn written_place(alloc: Global, files: &[String], place: Place) -> Result<String, AllocError> {
    let line = place.line;
    let column = place.column;
    let file = PrintedPath(match files.get(place.file as usize) {
        Some(file) => file.as_str(),
        None => "",
    });
    format!(in alloc; "{file}:{line}:{column}")
}
