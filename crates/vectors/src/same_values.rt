//! When two encodings are of the same value: exactly then DER and CER give them the same octets.

use crate::answers::{convert_by, read_by};
use crate::tables::{TypedTable, check_typed};
use canon::{order, same};
use convert::{Canonical, Rule, Value, WellTyped, conforms};
use std::alloc::Global;
use std::test::Fail;
use test_tables::{octets_of, two};

// octets | octets | whether their values are the same
const PAIRS: &str = "
BOOLEAN:
01 01 01                       | 01 81 01 FF                    | same
01 01 00                       | 01 01 01                       | other
BIT STRING:
03 02 04 F0                    | 23 80 03 02 04 FF 00 00        | same
03 02 04 F0                    | 03 02 03 F0                    | other
OCTET STRING:
04 02 41 42                    | 24 06 04 01 41 04 01 42        | same
04 02 41 42                    | 04 03 41 42 00                 | other
SEQUENCE { a INTEGER DEFAULT 1, b [0] BOOLEAN OPTIONAL }:
30 00                          | 30 80 02 01 01 00 00           | same
30 00                          | 30 03 02 01 00                 | other
30 03 80 01 FF                 | 30 06 02 01 01 80 01 01        | same
30 03 80 01 FF                 | 30 00                          | other
SEQUENCE OF INTEGER:
30 06 02 01 01 02 01 02        | 30 80 02 01 01 02 01 02 00 00  | same
30 06 02 01 01 02 01 02        | 30 06 02 01 02 02 01 01        | other
30 03 02 01 01                 | 30 06 02 01 01 02 01 01        | other
SET { a INTEGER, b BOOLEAN }:
31 06 01 01 FF 02 01 05        | 31 06 02 01 05 01 01 01        | same
31 06 01 01 FF 02 01 05        | 31 06 02 01 05 01 01 00        | other
SET OF INTEGER:
31 09 02 01 05 02 01 03 02 01 05 | 31 09 02 01 03 02 01 05 02 01 05 | same
31 09 02 01 03 02 01 05 02 01 05 | 31 09 02 01 03 02 01 03 02 01 05 | other
31 03 02 01 03                 | 31 06 02 01 03 02 01 03        | other
31 00                          | 31 80 00 00                    | same
SET OF SET OF INTEGER:
31 0D 31 06 02 01 01 02 01 02 31 03 02 01 03 | 31 0D 31 03 02 01 03 31 06 02 01 02 02 01 01 | same
31 0D 31 06 02 01 01 02 01 02 31 03 02 01 03 | 31 0D 31 03 02 01 02 31 06 02 01 03 02 01 01 | other
SET OF SEQUENCE OF INTEGER:
31 08 30 06 02 01 01 02 01 02  | 31 08 30 06 02 01 02 02 01 01  | other
CHOICE { a [0] INTEGER, b [1] INTEGER, c [2] EXPLICIT SET OF NULL }:
80 01 05                       | 80 81 01 05                    | same
80 01 05                       | 81 01 05                       | other
A2 02 31 00                    | A2 80 31 80 00 00 00 00        | same
A2 02 31 00                    | A2 04 31 02 05 00              | other
";

// Whether two values that conform are the same, and whether they are equal once they are in order.
fn compared(
    alloc: Global,
    ty: &WellTyped,
    first: &Value,
    second: &Value,
) -> Result<(bool, bool), Fail> {
    if !conforms(ty.as_type(), first) || !conforms(ty.as_type(), second) {
        return Err(Fail::new("no values of the type"));
    }
    let same = same(alloc, ty, first, second)?;
    let first = order(alloc, ty, first)?;
    Ok((same, first == order(alloc, ty, second)?))
}

// Whether two encodings are the same under a rule.
fn converted(
    alloc: Global,
    to: Canonical,
    ty: &WellTyped,
    (first, second): (&[u8], &[u8]),
) -> Result<bool, Fail> {
    let first = convert_by(alloc, (Rule::Ber, to), ty, first)?;
    let second = convert_by(alloc, (Rule::Ber, to), ty, second)?;
    Ok(first.as_slice() == second.as_slice())
}

// Whether two encodings are read as the same value, as these two say.
fn read_alike(
    alloc: Global,
    ty: &WellTyped,
    (first, second): (&[u8], &[u8]),
) -> Result<(bool, bool), Fail> {
    let (first, _) = read_by(alloc, Rule::Ber, ty, first)?;
    let (second, _) = read_by(alloc, Rule::Ber, ty, second)?;
    compared(alloc, ty, &first, &second)
}

// Whether this is what all ways say of two encodings: that they are of the same value, or not.
fn is_said(
    alloc: Global,
    ty: &WellTyped,
    octets: (&[u8], &[u8]),
    same: bool,
) -> Result<bool, Fail> {
    Ok(
        converted(alloc, Canonical::Der, ty, octets)? == same
            && converted(alloc, Canonical::Cer, ty, octets)? == same
            && read_alike(alloc, ty, octets)? == (same, same),
    )
}

struct SameOrOther;

impl TypedTable for SameOrOther {
    fn holds(&self, alloc: Global, ty: &WellTyped, row: &str) -> Result<bool, Fail> {
        let (first, others) = two(row)?;
        let (second, want) = two(others)?;
        let first = octets_of(alloc, first)?;
        let second = octets_of(alloc, second)?;
        let octets = (first.as_slice(), second.as_slice());
        is_said(alloc, ty, octets, want == "same")
    }
}

#[test]
fn pairs(rt: HostRuntime) -> Result<(), Fail> {
    check_typed(rt.alloc(), &SameOrOther, PAIRS)
}
