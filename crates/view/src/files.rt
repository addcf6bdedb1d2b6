//! The files of the program, read from their beginnings to their ends.

use crate::values::{Ended, Values, Visit};
use convert::{HexFault, MAX_HEX_TEXT, unhex};
use std::alloc::Global;
use std::io::{ErrorKind, Read};
use view_faults::{Fault, Unwanted};

// How many octets of a file are read at once.
const PIECE: usize = 65_536;

/// Reads the values of an input to its end, and hands each to the visitor.
pub fn read_values<R: Read, V: Visit>(
    alloc: Global,
    input: &mut R,
    hex: bool,
    values: &mut Values<'_>,
    visit: &mut V,
) -> Result<(), Fault> {
    if hex {
        let octets = read_text(alloc, input)?;
        take(values, octets.as_slice(), visit)?;
    } else {
        read_pieces(alloc, input, values, visit)?;
    }
    match values.finish() {
        Ok(()) => Ok(()),
        Err(ended) => Err(fault_of(ended)),
    }
}

// Hands each piece on as it is read: a stream may be longer than memory.
fn read_pieces<R: Read, V: Visit>(
    alloc: Global,
    input: &mut R,
    values: &mut Values<'_>,
    visit: &mut V,
) -> Result<(), Fault> {
    let mut room = vec![in alloc; 0u8; PIECE]?;
    for _ in 0..u64::MAX {
        let count = read_piece(input, room.as_mut_slice())?;
        if count == 0 {
            return Ok(());
        }
        take(values, room.get(..count).unwrap_or(&[]), visit)?;
    }
    Ok(())
}

/// Reads the next piece of an input into the room, and returns how many octets it has: none at the input's end.
pub fn read_piece<R: Read>(input: &mut R, room: &mut [u8]) -> Result<usize, Fault> {
    for _ in 0..u64::MAX {
        match input.read(room) {
            Ok(count) => return Ok(count),
            Err(error) if error.kind() == ErrorKind::Interrupted => {}
            Err(_) => return Err(Fault::CannotRead),
        }
    }
    Ok(0)
}

fn take<V: Visit>(values: &mut Values<'_>, piece: &[u8], visit: &mut V) -> Result<(), Fault> {
    match values.take(piece, visit) {
        Ok(()) => Ok(()),
        Err(ended) => Err(fault_of(ended)),
    }
}

fn fault_of(ended: Ended) -> Fault {
    match ended {
        Ended::Refused(refusal) => Fault::Refused(refusal),
        Ended::Unwanted(Unwanted::Output) => Fault::Output,
        Ended::Unwanted(Unwanted::NoMemory) => Fault::NoMemory,
    }
}

// The octets that a file of hexadecimal text spells.
fn read_text<R: Read>(alloc: Global, input: &mut R) -> Result<Vec<u8>, Fault> {
    let mut text = Vec::new(alloc);
    match input.take(MAX_HEX_TEXT as u64 + 1).read_to_end(&mut text) {
        Ok(_) => {}
        Err(error) if error.kind() == ErrorKind::OutOfMemory => return Err(Fault::NoMemory),
        Err(_) => return Err(Fault::CannotRead),
    }
    match unhex(alloc, text.as_slice()) {
        Ok(octets) => Ok(octets),
        Err(HexFault::NoMemory) => Err(Fault::NoMemory),
        Err(_) => Err(Fault::NotHexadecimal),
    }
}
