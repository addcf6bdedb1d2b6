//! The strict readers beside a plain way to decide what they take: read under BER, write the value again, compare. Each
//! row is looked at as it stands, and with one octet changed, left out or doubled, and cut there.

ghost use Rattle.std.specs.Prelude.{◌<◌, length};

use crate::answers::{read_by, write_by};
use crate::checks::{expect, expect_strict};
use crate::rows::Row;
use convert::{Canonical, Refusal, Rule, Value};
use std::alloc::{AllocError, Global};
use std::mem::drop;
use std::test::Fail;

// Rows of more octets are looked at as they stand alone.
const MOST: usize = 150;

// What an octet is changed to.
const OTHERS: [u8; 5] = [0x00, 0x01, 0x7F, 0x80, 0xFF];

/// Checks that the strict readers take what the plain way takes, and else name its number or, of the octets that BER
/// refuses, 12.
pub fn check_changed(alloc: Global, row: &Row) -> Result<(), Fail> {
    let octets = row.octets.as_slice();
    check_plainly(alloc, row, octets)?;
    if octets.len() > MOST {
        return Ok(());
    }
    for place in 0..octets.len() {
        check_changed_at(alloc, row, octets, place)?;
    }
    Ok(())
}

fn check_changed_at(alloc: Global, row: &Row, octets: &[u8], place: usize) -> Result<(), Fail>
    requires { place < length octets.now }
{
    for other in OTHERS {
        check_spliced(alloc, row, octets, place, &[other])?;
    }
    check_spliced(alloc, row, octets, place, &[])?;
    check_spliced(alloc, row, octets, place, &[octets[place], octets[place]])?;
    check_plainly(alloc, row, &octets[..place])
}

fn check_spliced(
    alloc: Global,
    row: &Row,
    octets: &[u8],
    place: usize,
    others: &[u8],
) -> Result<(), Fail>
    requires { place < length octets.now }
{
    let changed = spliced(alloc, octets, place, others)?;
    check_plainly(alloc, row, changed.as_slice())
}

// The octets, with these in place of the one at the place.
fn spliced(alloc: Global, octets: &[u8], place: usize, others: &[u8]) -> Result<Vec<u8>, AllocError>
    requires { place < length octets.now }
{
    let mut all = Vec::from_slice(alloc, &octets[..place])?;
    all.extend_from_slice(others)?;
    all.extend_from_slice(&octets[place + 1..])?;
    Ok(all)
}

fn check_plainly(alloc: Global, row: &Row, octets: &[u8]) -> Result<(), Fail> {
    check_plainly_by(alloc, row, octets, (Rule::Cer, Canonical::Cer))?;
    check_plainly_by(alloc, row, octets, (Rule::Der, Canonical::Der))
}

fn check_plainly_by(
    alloc: Global,
    row: &Row,
    octets: &[u8],
    (rule, to): (Rule, Canonical),
) -> Result<(), Fail> {
    let plain = read_plainly(alloc, to, row, octets);
    let strict = read_by(alloc, rule, row.ty, octets);
    check_same(row, &plain, &strict)
}

type Read = Result<(Value, usize), Refusal>;

fn check_same(row: &Row, plain: &Read, strict: &Read) -> Result<(), Fail> {
    match (plain, strict) {
        (Ok(_), _) => expect(strict == plain, "the plain way takes more", row),
        (Err(refusal), Ok(_)) => check_number(row, *refusal, None),
        (Err(refusal), Err(strict)) => check_number(row, *refusal, Some(strict.number())),
    }
}

fn check_number(row: &Row, plain: Refusal, strict: Option<u8>) -> Result<(), Fail> {
    if is_an_end_begun(plain, strict) {
        return Ok(());
    }
    expect_strict(strict, plain.number(), "the plain way refuses", row)
}

// Whether the octets end in a 00 where an identifier must stand: BER waits for a second one before it is refused.
fn is_an_end_begun(plain: Refusal, strict: Option<u8>) -> bool {
    plain == Refusal::Truncated && strict == Some(5)
}

// The value, where its encoding by the rule is the octets that BER reads it from.
fn read_plainly(alloc: Global, to: Canonical, row: &Row, octets: &[u8]) -> Read {
    let (value, used) = read_by(alloc, Rule::Ber, row.ty, octets)?;
    match is_written(alloc, to, row, &value, (octets, used)) {
        Ok(true) => Ok((value, used)),
        Ok(false) => {
            drop(value);
            Err(Refusal::NotCanonical)
        }
        Err(refusal) => {
            drop(value);
            Err(refusal)
        }
    }
}

// Whether a value's encoding by the rule is so many octets, the first of these.
fn is_written(
    alloc: Global,
    to: Canonical,
    row: &Row,
    value: &Value,
    (octets, used): (&[u8], usize),
) -> Result<bool, Refusal> {
    match write_by(alloc, to, row.ty, value) {
        Ok(written) => Ok(written.len() == used && octets.starts_with(written.as_slice())),
        Err(Refusal::OutputTooLong) => Ok(false),
        Err(refusal) => Err(refusal),
    }
}
