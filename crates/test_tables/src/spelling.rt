//! Columns that spell octets and arcs. A part that ends with `*` and a number stands there as many times.

use std::alloc::{AllocError, Global};
use std::str::from_utf8;
use std::test::Fail;

/// The octets that a column spells: parts with commas between them, each of hexadecimal digits, or of the characters
/// between `'`, where `''` are none.
pub fn octets_of(alloc: Global, column: &str) -> Result<Vec<u8>, Fail> {
    let mut octets = Vec::new(alloc);
    for part in column.split(',') {
        let (once, times) = part_of(part.trim())?;
        let once = spelt(alloc, once)?;
        put_times(&mut octets, once.as_slice(), times)?;
    }
    Ok(octets)
}

// A part, of which the characters may have a `*` too, and how many times it stands there.
fn part_of(part: &str) -> Result<(&str, usize), Fail> {
    if part.ends_with('\'') {
        return Ok((part, 1));
    }
    times_of(part)
}

/// What stands before the last `*` of a word, and how many times.
pub fn times_of(word: &str) -> Result<(&str, usize), Fail> {
    let (once, times) = word.rsplit_once('*').unwrap_or((word, "1"));
    Ok((once, times.parse::<usize>()?))
}

// Appends octets as many times.
fn put_times(octets: &mut Vec<u8>, once: &[u8], times: usize) -> Result<(), AllocError> {
    for _ in 0..times {
        octets.extend_from_slice(once)?;
    }
    Ok(())
}

// The octets of the characters between `'`, or those that digits spell.
fn spelt(alloc: Global, once: &str) -> Result<Vec<u8>, Fail> {
    if let Some(text) = once.strip_prefix('\'') {
        let text = text.strip_suffix('\'').ok_or("characters without an end")?;
        return Ok(Vec::from_slice(alloc, text.as_bytes())?);
    }
    let mut octets = Vec::new(alloc);
    for digits in once.split(' ') {
        put_octets(&mut octets, digits)?;
    }
    Ok(octets)
}

// Appends the octets that pairs of digits spell, of which there are some.
fn put_octets(octets: &mut Vec<u8>, digits: &str) -> Result<(), Fail> {
    if digits.is_empty() {
        return Err("no digits".into());
    }
    for pair in digits.as_bytes().chunks(2) {
        octets.push(octet_of(pair)?)?;
    }
    Ok(())
}

// The octet of two digits; `unhex` is itself tested, and does not read the tables.
fn octet_of(pair: &[u8]) -> Result<u8, Fail> {
    if pair.len() != 2 {
        return Err("a digit without another".into());
    }
    Ok(u8::from_str_radix(from_utf8(pair)?, 16)?)
}

/// The arcs that a column spells, with points between them, or `none`.
pub fn arcs_of(alloc: Global, column: &str) -> Result<Vec<u128>, Fail> {
    let mut arcs = Vec::new(alloc);
    if column == "none" {
        return Ok(arcs);
    }
    for word in column.split('.') {
        let (arc, times) = times_of(word)?;
        let arc = arc.parse::<u128>()?;
        for _ in 0..times {
            arcs.push(arc)?;
        }
    }
    Ok(arcs)
}
