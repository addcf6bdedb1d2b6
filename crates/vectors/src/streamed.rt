//! Streams of the octets of a row: what `convert`, `check` and `list` make of them.

use crate::answers::{Streamed, check_parted, check_stream, convert_stream, list_stream, text_of};
use crate::checks::expect;
use crate::rows::Row;
use convert::{Canonical, Rule, Stopped, Value};
use std::alloc::{AllocError, Global};
use std::test::Fail;

/// Checks that a row's octets, twice one after another, become two encodings.
pub fn check_converted_twice(
    alloc: Global,
    row: &Row,
    to: Canonical,
    written: &[u8],
) -> Result<(), Fail> {
    let octets = twice(alloc, row.octets.as_slice())?;
    let found = convert_stream(alloc, (Rule::Ber, to), row.ty, octets.as_slice());
    let want = twice(alloc, written)?;
    expect(is_whole(&found, want.as_slice()), "a stream converted", row)
}

/// Checks that a row's octets, twice one after another, are two values that are counted and listed, and that their
/// text is what the row says.
pub fn check_listed_twice(alloc: Global, row: &Row, value: &Value) -> Result<(), Fail> {
    let mut line = text_of(alloc, row.ty, value)?;
    let is_said = row.text.is_empty() || row.text == line.as_str();
    expect(is_said, "shown", row)?;
    line.push_str("\n")?;
    let octets = twice(alloc, row.octets.as_slice())?;
    check_listed(alloc, row, octets.as_slice(), line.as_bytes())
}

// Checks that octets are two values that are counted, and listed by this line each.
fn check_listed(alloc: Global, row: &Row, octets: &[u8], line: &[u8]) -> Result<(), Fail> {
    let counted = check_stream(alloc, row.ty, octets);
    expect(told(&counted) == (2, 0), "a stream checked", row)?;
    let want = twice(alloc, line)?;
    let found = list_stream(alloc, row.ty, octets);
    expect(is_whole(&found, want.as_slice()), "a stream listed", row)
}

/// Checks that nothing is written of a stream that is refused before a value is done; one of no octets is not.
pub fn check_stopped(alloc: Global, row: &Row, number: u8) -> Result<(), Fail> {
    let octets = row.octets.as_slice();
    let number = if octets.is_empty() { 0 } else { number };
    for to in [Canonical::Cer, Canonical::Der] {
        check_unwritten(alloc, row, to, number)?;
    }
    let found = list_stream(alloc, row.ty, octets);
    expect(is_stopped(&found, number), "a stream listed", row)?;
    let counted = check_stream(alloc, row.ty, octets);
    expect(told(&counted) == (0, number), "a stream checked", row)
}

/// Checks that a stream by a strict rule names this number, in whatever pieces its octets come.
pub fn check_one_number(alloc: Global, row: &Row, rule: Rule, number: u8) -> Result<(), Fail> {
    let octets = row.octets.as_slice();
    let number = if octets.is_empty() { 0 } else { number };
    let sizes: &[usize] = if row.is_long() {
        &[4_096, 997]
    } else {
        &[4_096, 997, 1]
    };
    for size in sizes {
        let counted = check_parted(alloc, row.ty, rule, octets, *size);
        expect(told(&counted) == (0, number), "a strict stream", row)?;
    }
    Ok(())
}

/// Checks that nothing is written of a stream whose value a rule cannot write.
pub fn check_unwritten(alloc: Global, row: &Row, to: Canonical, number: u8) -> Result<(), Fail> {
    let found = convert_stream(alloc, (Rule::Ber, to), row.ty, row.octets.as_slice());
    expect(is_stopped(&found, number), "a stream converted", row)
}

fn twice(alloc: Global, octets: &[u8]) -> Result<Vec<u8>, AllocError> {
    let mut both = Vec::from_slice(alloc, octets)?;
    both.extend_from_slice(octets)?;
    Ok(both)
}

// Whether two values were done, and this was written.
fn is_whole((written, counted): &Streamed, want: &[u8]) -> bool {
    told(counted) == (2, 0) && written.as_slice() == want
}

// Whether no value was done, nothing was written, and the refusal has this number.
fn is_stopped((written, counted): &Streamed, number: u8) -> bool {
    told(counted) == (0, number) && written.is_empty()
}

// How many values are done, and the refusal's number, or 0.
fn told(counted: &Result<u64, Stopped>) -> (u64, u8) {
    match counted {
        Ok(done) => (*done, 0),
        Err(stopped) => (stopped.done, stopped.refusal.number()),
    }
}
