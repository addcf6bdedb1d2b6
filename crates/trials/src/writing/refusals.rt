//! Encodings at the limit of 1,048,576 octets and past it.

use crate::value_notation::{OfValues, ValuesTable};
use canon::{Canon, Cer, Der};
use std::alloc::Global;
use std::test::Fail;
use test_tables::{check, two};
use types::{Refusal, Value, WellTyped, conforms};

// type | value | how many octets DER writes, or `refused` past the limit | how many CER writes
const ROWS: &str = "\
OCTETS | octets:00*1044392 | 1044397 | 1048576
OCTETS | octets:00*1044393 | 1044398 | refused
OCTETS | octets:00*1048571 | 1048576 | refused
OCTETS | octets:00*1048572 | refused | refused
SEQUENCE-OF{ OCTETS } | items( octets:00*1048566 ) | 1048576 | refused
SEQUENCE-OF{ OCTETS } | items( octets:00*1048567 ) | refused | refused
[0]{ OCTETS } | octets:00*1044388 | 1044398 | 1048576
[0]{ OCTETS } | octets:00*1044389 | 1044399 | refused
[0]{ OCTETS } | octets:00*1048566 | 1048576 | refused
[0]{ OCTETS } | octets:00*1048567 | refused | refused";

// Whether so many octets were appended to one that was there, or the vector is as before.
fn is_appended(answer: Result<(), Refusal>, out: &[u8], want: &str) -> Result<bool, Fail> {
    match answer {
        Ok(()) => {
            let count = want.parse::<usize>()?;
            Ok(out.starts_with(&[0x07]) && out.len() == count.saturating_add(1))
        }
        Err(refusal) => {
            Ok(want == "refused" && refusal.number() == 14 && out == [0x07].as_slice())
        }
    }
}

fn is_written_by<C: Canon>(
    alloc: Global,
    canon: &C,
    ty: &WellTyped,
    value: &Value,
    want: &str,
) -> Result<bool, Fail> {
    if !conforms(ty.as_type(), value) {
        return Ok(false);
    }
    let mut out = Vec::from_slice(alloc, &[0x07])?;
    let answer = canon.put(alloc, ty, value, &mut out);
    is_appended(answer, out.as_slice(), want)
}

struct Longest;

impl ValuesTable for Longest {
    fn holds(
        &self,
        alloc: Global,
        ty: &WellTyped,
        value: &Value,
        others: &str,
    ) -> Result<bool, Fail> {
        let (der, cer) = two(others)?;
        Ok(
            is_written_by(alloc, &Der, ty, value, der)?
                && is_written_by(alloc, &Cer, ty, value, cer)?,
        )
    }
}

#[test]
fn the_longest_is_written_and_no_longer_one(rt: HostRuntime) -> Result<(), Fail> {
    check(rt.alloc(), &OfValues(Longest), ROWS)
}
