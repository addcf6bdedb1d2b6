//! Levels and lengths of strings in segments: at most 64 constructed encodings nest, and the outermost has at
//! most 1,048,576 octets, which are this project's own limits (`docs/PROFILE.md`, "Own: limits").

use crate::answers::convert_by;
use crate::checks::check_table;
use crate::tables::{TypedTable, check_typed};
use convert::{Canonical, Refusal, Rule, WellTyped};
use std::alloc::Global;
use std::test::Fail;
use test_tables::{is_refused, octets_of, two};

// octets | under DER | under CER | text
const ROWS: &str = "
OCTET STRING:
24 80, 04 01 AA, 00 00                    | 04 01 AA | 04 01 AA | 'AA'H
24 80*63, 04 01 AA, 00 00*63              | 04 01 AA | 04 01 AA | 'AA'H
24 80*64, 04 01 AA, 00 00*64              | 04 01 AA | 04 01 AA | 'AA'H
24 80*65, 04 01 AA, 00 00*65              | refused 10
24 80*64                                  | refused 1
24 80*64, 24                              | refused 10
24 80*64, 24 FF                           | refused 10
24 80*64, 24 00, 00 00*64                 | refused 10
// 65 encodings beside each other in one
24 80, 24 80 00 00*65, 00 00              | 04 00 | 04 00 | ''H
// 63 levels, of 127 contents octets down to 3, by themselves and in others
OCTET STRING:
24 7F 24 7D 24 7B 24 79 24 77 24 75 24 73 24 71 24 6F 24 6D 24 6B 24 69 24 67 24 65 24 63 24 61 24 5F 24 5D 24 5B 24 59 24 57 24 55 24 53 24 51 24 4F 24 4D 24 4B 24 49 24 47 24 45 24 43 24 41 24 3F 24 3D 24 3B 24 39 24 37 24 35 24 33 24 31 24 2F 24 2D 24 2B 24 29 24 27 24 25 24 23 24 21 24 1F 24 1D 24 1B 24 19 24 17 24 15 24 13 24 11 24 0F 24 0D 24 0B 24 09 24 07 24 05 24 03 04 01 AA | 04 01 AA | 04 01 AA | 'AA'H
24 81 81 24 7F 24 7D 24 7B 24 79 24 77 24 75 24 73 24 71 24 6F 24 6D 24 6B 24 69 24 67 24 65 24 63 24 61 24 5F 24 5D 24 5B 24 59 24 57 24 55 24 53 24 51 24 4F 24 4D 24 4B 24 49 24 47 24 45 24 43 24 41 24 3F 24 3D 24 3B 24 39 24 37 24 35 24 33 24 31 24 2F 24 2D 24 2B 24 29 24 27 24 25 24 23 24 21 24 1F 24 1D 24 1B 24 19 24 17 24 15 24 13 24 11 24 0F 24 0D 24 0B 24 09 24 07 24 05 24 03 04 01 AA | 04 01 AA | 04 01 AA | 'AA'H
24 80 24 81 81 24 7F 24 7D 24 7B 24 79 24 77 24 75 24 73 24 71 24 6F 24 6D 24 6B 24 69 24 67 24 65 24 63 24 61 24 5F 24 5D 24 5B 24 59 24 57 24 55 24 53 24 51 24 4F 24 4D 24 4B 24 49 24 47 24 45 24 43 24 41 24 3F 24 3D 24 3B 24 39 24 37 24 35 24 33 24 31 24 2F 24 2D 24 2B 24 29 24 27 24 25 24 23 24 21 24 1F 24 1D 24 1B 24 19 24 17 24 15 24 13 24 11 24 0F 24 0D 24 0B 24 09 24 07 24 05 24 03 04 01 AA | refused 10
24 81 84 24 81 81 24 7F 24 7D 24 7B 24 79 24 77 24 75 24 73 24 71 24 6F 24 6D 24 6B 24 69 24 67 24 65 24 63 24 61 24 5F 24 5D 24 5B 24 59 24 57 24 55 24 53 24 51 24 4F 24 4D 24 4B 24 49 24 47 24 45 24 43 24 41 24 3F 24 3D 24 3B 24 39 24 37 24 35 24 33 24 31 24 2F 24 2D 24 2B 24 29 24 27 24 25 24 23 24 21 24 1F 24 1D 24 1B 24 19 24 17 24 15 24 13 24 11 24 0F 24 0D 24 0B 24 09 24 07 24 05 24 03 04 01 AA | refused 10
// 64 types around one another, of which the value has one encoding alone
[0] IMPLICIT [0] IMPLICIT [0] IMPLICIT [0] IMPLICIT [0] IMPLICIT [0] IMPLICIT [0] IMPLICIT [0] IMPLICIT [0] IMPLICIT [0] IMPLICIT [0] IMPLICIT [0] IMPLICIT [0] IMPLICIT [0] IMPLICIT [0] IMPLICIT [0] IMPLICIT [0] IMPLICIT [0] IMPLICIT [0] IMPLICIT [0] IMPLICIT [0] IMPLICIT [0] IMPLICIT [0] IMPLICIT [0] IMPLICIT [0] IMPLICIT [0] IMPLICIT [0] IMPLICIT [0] IMPLICIT [0] IMPLICIT [0] IMPLICIT [0] IMPLICIT [0] IMPLICIT [0] IMPLICIT [0] IMPLICIT [0] IMPLICIT [0] IMPLICIT [0] IMPLICIT [0] IMPLICIT [0] IMPLICIT [0] IMPLICIT [0] IMPLICIT [0] IMPLICIT [0] IMPLICIT [0] IMPLICIT [0] IMPLICIT [0] IMPLICIT [0] IMPLICIT [0] IMPLICIT [0] IMPLICIT [0] IMPLICIT [0] IMPLICIT [0] IMPLICIT [0] IMPLICIT [0] IMPLICIT [0] IMPLICIT [0] IMPLICIT [0] IMPLICIT [0] IMPLICIT [0] IMPLICIT [0] IMPLICIT [0] IMPLICIT [0] IMPLICIT [0] IMPLICIT [0] IMPLICIT NULL:
80 00 | 80 00 | 80 00 | NULL
// lengths
OCTET STRING:
// 126 digits, of which the first 125 are 00: outside, inside, and both
04 FE, 00*125, 01 AA                      | 04 01 AA | 04 01 AA | 'AA'H
24 FE, 00*125, 03 04 01 AA                | 04 01 AA | 04 01 AA | 'AA'H
24 80 04 FE, 00*125, 01 AA 00 00          | 04 01 AA | 04 01 AA | 'AA'H
24 FE, 00*125, 81 04 FE, 00*125, 01 AA    | 04 01 AA | 04 01 AA | 'AA'H
24 FF, 00*126, 03 04 01 AA                | refused 4
24 80 04 FF, 00*126, 01 AA 00 00          | refused 4
24 83 10 00 01                            | refused 4
24 80 04 83 10 00 01                      | refused 4
24 80 24 83 10 00 01                      | refused 4
24 83 10 00 00                            | refused 11
24 83 0F FF FB                            | refused 1
24 80 24 83 0F FF FA                      | refused 11
24 83 0F FF FC                            | refused 11
24 80 04 83 0F FF FA                      | refused 11
// no room for end-of-contents octets, within the limit or a definite encoding
24 80 04 83 0F FF F7                      | refused 1
24 80 04 83 0F FF F8                      | refused 11
24 80 24 80 04 83 0F FF F4                | refused 11
24 83 0F FF FB 04 83 0F FF F8             | refused 4
";

#[test]
fn encodings(rt: HostRuntime) -> Result<(), Fail> {
    check_table(rt.alloc(), ROWS)
}

// the segment behind 255 of 4,096 octets 41 | what all of them become under DER
const LAST_SEGMENTS: &str = "\
OCTET STRING:
04 82 0B FB, 41*3067     | 04 83 0F FB FB, 41*1047547
04 82 0B FC, 41*3068     | 04 83 0F FB FC, 41*1047548
04 82 0B FD, 41*3069     | refused 11
04 83 00 0B FC, 41*3068  | refused 11
";

struct LastSegments;

impl TypedTable for LastSegments {
    fn holds(&self, alloc: Global, ty: &WellTyped, row: &str) -> Result<bool, Fail> {
        let (last, becomes) = two(row)?;
        let octets = segments_before(alloc, last)?;
        let rules = (Rule::Ber, Canonical::Der);
        is_what(
            alloc,
            convert_by(alloc, rules, ty, octets.as_slice()),
            becomes,
        )
    }
}

fn segments_before(alloc: Global, last: &str) -> Result<Vec<u8>, Fail> {
    let segments = ", 04 82 10 00, 41*4096".repeat(alloc, 255)?;
    let octets = format!(in alloc; "24 80{segments}, {last}, 00 00")?;
    octets_of(alloc, octets.as_str())
}

fn is_what(alloc: Global, found: Result<Vec<u8>, Refusal>, becomes: &str) -> Result<bool, Fail> {
    match found {
        Ok(octets) => Ok(octets == octets_of(alloc, becomes)?),
        Err(refusal) => is_refused(refusal.number(), becomes),
    }
}

#[test]
fn longest_strings(rt: HostRuntime) -> Result<(), Fail> {
    check_typed(rt.alloc(), &LastSegments, LAST_SEGMENTS)
}
