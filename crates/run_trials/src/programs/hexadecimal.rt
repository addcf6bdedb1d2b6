//! Hexadecimal text.

use convert::unhex;
use std::alloc::Global;
use std::test::Fail;
use test_tables::{Table, check, octets_of, prints, two};

// a text | the octets that it spells, or its fault
const TEXTS: &str = "\
''                          | ''
'00'                        | 00
'0123456789'                | 01 23 45 67 89
'abcdef'                    | AB CD EF
'ABCDEF'                    | AB CD EF
'aBfF'                      | AB FF
' 0 1\t0\r', 0A, '1 2a', 0A | 01 01 2A
' \t\r', 0A                 | ''
'0'                         | NotHex
'05 0'                      | NotHex
'0g'                        | NotHex
'01', 0B, '01'              | NotHex
'01', 0C, '01'              | NotHex
'0x01'                      | NotHex
'01', 00                    | NotHex
// long texts
' '*4194304      | ''
' '*4194305      | TooLong
' '*4194305, 'x' | TooLong";

struct Texts;

impl Table for Texts {
    fn holds(&self, alloc: Global, row: &str) -> Result<bool, Fail> {
        let (text, want) = two(row)?;
        let text = octets_of(alloc, text)?;
        match unhex(alloc, text.as_slice()) {
            Ok(octets) => Ok(octets == octets_of(alloc, want)?),
            Err(fault) => prints(alloc, &fault, want),
        }
    }
}

#[test]
fn hexadecimal_text(rt: HostRuntime) -> Result<(), Fail> {
    check(rt.alloc(), &Texts, TEXTS)
}
