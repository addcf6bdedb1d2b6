//! What the strict readers return for octets behind a value, and for octets that BER alone allows.

use crate::type_notation::{OctetsTable, OfOctets};
use crate::value_notation::comes_to;
use std::alloc::Global;
use std::test::Fail;
use strict::{read_cer, read_der};
use test_tables::{check, two};
use types::WellTyped;

// type | octets | rules | how many octets are read and their value, or the refusal
const READ: &str = "\
OCTETS                                   | 04 01 41 00                   | both | 3 octets:41
OCTETS                                   | 04 81 01 41                   | both | refused 12
OCTETS                                   | 24 03 04 01 41                | both | refused 12
// what BER refuses keeps its number
BOOLEAN                                  | ''                            | both | refused 1
BOOLEAN                                  | 01 01                         | both | refused 1
BOOLEAN                                  | 02 01 00                      | both | refused 2
BOOLEAN                                  | 21 03 01 01 FF                | both | refused 3
BOOLEAN                                  | 01 80                         | both | refused 3
BOOLEAN                                  | 01 FF                         | both | refused 4
BOOLEAN                                  | 00 00                         | both | refused 5
BOOLEAN                                  | 01 02 00 00                   | both | refused 6
INTEGER                                  | 02 02 00 7F                   | both | refused 6
VisibleString                            | 1A 01 7F                      | both | refused 7
SEQUENCE{ BOOLEAN }                      | 30 00                         | DER  | refused 8
SEQUENCE{ BOOLEAN }                      | 30 80 00 00                   | CER  | refused 8
SET{ NULL BOOLEAN }                      | 31 04 05 00 05 00             | DER  | refused 9
SET{ NULL BOOLEAN }                      | 31 80 05 00 05 00             | CER  | refused 9
OCTETS                                   | 04 83 10 00 00                | DER  | refused 11
// refused for good by DER, where BER waits for the rest
SEQUENCE{ INTEGER SEQUENCE{ BOOLEAN } OCTETS } | 30 15 02 01 05 30 03 01 01 02 | DER | refused 12";

struct Strict;

impl OctetsTable for Strict {
    fn holds(
        &self,
        alloc: Global,
        ty: &WellTyped,
        octets: &[u8],
        others: &str,
    ) -> Result<bool, Fail> {
        let (rules, want) = two(others)?;
        match rules {
            "DER" => is_by_der(alloc, ty, octets, want),
            "CER" => is_by_cer(alloc, ty, octets, want),
            "both" => {
                Ok(is_by_der(alloc, ty, octets, want)? && is_by_cer(alloc, ty, octets, want)?)
            }
            _ => Err("a rule without a name".into()),
        }
    }
}

fn is_by_der(alloc: Global, ty: &WellTyped, octets: &[u8], want: &str) -> Result<bool, Fail> {
    comes_to(alloc, &read_der(alloc, ty, octets), want)
}

fn is_by_cer(alloc: Global, ty: &WellTyped, octets: &[u8], want: &str) -> Result<bool, Fail> {
    comes_to(alloc, &read_cer(alloc, ty, octets), want)
}

#[test]
fn octets_behind_a_value_and_octets_of_ber(rt: HostRuntime) -> Result<(), Fail> {
    check(rt.alloc(), &OfOctets(Strict), READ)
}
