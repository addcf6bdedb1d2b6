//! Texts of contents octets.

use judging::value_of;
use octets::NoMemory;
use primitives::read_integer;
use std::alloc::Global;
use std::string::String;
use texts::{put_bits_before, put_integer, put_octets, put_readable, put_text, put_value};
use types::{Refusal, Ty};

/// Appends the text of the value of contents octets, as `texts::show` prints it: nothing where they have no value, but
/// of a string what `put_string` does, and of an INTEGER the octets.
pub fn put_contents(
    alloc: Global,
    node: &Ty,
    contents: &[u8],
    out: &mut String,
) -> Result<(), NoMemory> {
    match node {
        Ty::Integer(_) => match read_integer(contents) {
            Some(number) => put_integer(number, out),
            None => put_octets(contents, out),
        },
        Ty::Bits(_) | Ty::Octets(_) | Ty::Text(_, _) | Ty::Time(_, _) => {
            put_string(node, contents, out)
        }
        _ => match value_of(alloc, node, contents) {
            Ok(value) => put_value(node, &value, out),
            Err((Refusal::NoMemory, _, _)) => Err(NoMemory),
            Err(_) => Ok(()),
        },
    }
}

/// Appends the text of the contents octets of a string or a segment: of bits all, and of characters or a time what need
/// not be a whole one.
pub fn put_string(node: &Ty, contents: &[u8], out: &mut String) -> Result<(), NoMemory> {
    match node {
        Ty::Bits(_) | Ty::NamedBits(_, _) => match contents.split_first() {
            Some((unused, octets)) if *unused <= 7 => put_bits_before(octets, *unused, out),
            _ => Ok(()),
        },
        Ty::Text(_, kind) => put_text(*kind, contents, out),
        Ty::Time(_, _) => put_readable(contents, out),
        _ => put_octets(contents, out),
    }
}
