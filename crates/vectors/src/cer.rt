//! What CER writes (X.690 clause 9): strings of more than 1,000 contents octets in segments (9.2), and all else
//! as under DER.

use crate::checks::check_table;
use crate::types_by_name::type_of;
use convert::{Canonical, Rule, transcode};
use std::alloc::Global;
use std::test::Fail;
use test_tables::octets_of;

// octets | under DER | under CER | text
const ROWS: &str = "
// short encodings
BOOLEAN:
01 01 2A                         | 01 01 FF | 01 01 FF | TRUE
INTEGER:
02 81 02 FF 7F                   | 02 02 FF 7F | 02 02 FF 7F | -129
NULL:
05 81 00                         | 05 00 | 05 00 | NULL
OBJECT IDENTIFIER:
06 81 03 81 34 03                | 06 03 81 34 03 | 06 03 81 34 03 | 2.100.3
RELATIVE-OID:
0D 81 02 81 34                   | 0D 02 81 34 | 0D 02 81 34 | 180
BIT STRING:
03 02 07 FF                      | 03 02 07 80 | 03 02 07 80 | '1'B
03 01 00                         | kept        | kept        | ''B
OCTET STRING:
04 00                            | kept        | kept        | ''H
24 06 04 01 41 04 01 41          | 04 02 41 41 | 04 02 41 41 | '4141'H
UTF8String:
0C 81 02 C3 A9                   | 0C 02 C3 A9 | 0C 02 C3 A9 | 'C3A9'H
UTCTime:
17 81 0D, '240229120000Z'        | 17 0D, '240229120000Z' | 17 0D, '240229120000Z' | \"240229120000Z\"
// strings that are cut
OCTET STRING:
04 82 03 E8, 41*1000             | kept                  | kept
04 82 03 E9, 41*1001             | kept                  | 24 80, 04 82 03 E8, 41*1000, 04 01 41, 00 00
04 82 07 D0, 41*2000             | kept                  | 24 80, 04 82 03 E8, 41*1000, 04 82 03 E8, 41*1000, 00 00
04 82 08 50, 41*2128             | kept                  | 24 80, 04 82 03 E8, 41*1000, 04 82 03 E8, 41*1000, 04 81 80, 41*128, 00 00
24 80, 04 82 01 F4, 41*500, 24 80, 04 82 01 F5, 41*501, 00 00*2 | 04 82 03 E9, 41*1001 | 24 80, 04 82 03 E8, 41*1000, 04 01 41, 00 00
UTF8String:
0C 82 03 E8, 41*1000             | kept | kept
0C 82 03 E9, 41*1001             | kept | 2C 80, 04 82 03 E8, 41*1000, 04 01 41, 00 00
// The cut is between octets, here those of one character.
0C 82 03 E9, 41*999, C3 A9       | kept | 2C 80, 04 82 03 E8, 41*999, C3, 04 01 A9, 00 00
[0] OCTET STRING:
80 82 03 E9, 41*1001             | kept | A0 80, 04 82 03 E8, 41*1000, 04 01 41, 00 00
// bit strings that are cut
BIT STRING:
03 82 03 E8 00, 41*999           | kept | kept
03 82 03 E9 00, 41*1000          | kept | 23 80, 03 82 03 E8 00, 41*999, 03 02 00 41, 00 00
03 82 07 CF 00, 41*1998          | kept | 23 80, 03 82 03 E8 00, 41*999, 03 82 03 E8 00, 41*999, 00 00
// 7,993 bits, the last 1.
03 82 03 E9 07, 41*999, 80       | kept                        | 23 80, 03 82 03 E8 00, 41*999, 03 02 07 80, 00 00
03 82 03 E9 07, 41*999, FF       | 03 82 03 E9 07, 41*999, 80  | 23 80, 03 82 03 E8 00, 41*999, 03 02 07 80, 00 00
23 82 03 F5, 03 82 01 F5 00, 41*500, 03 82 01 F4 00, 41*499, 03 02 07 FF | 03 82 03 E9 07, 41*999, 80 | 23 80, 03 82 03 E8 00, 41*999, 03 02 07 80, 00 00
[0] BIT STRING:
80 82 03 E9 00, 41*1000          | kept | A0 80, 03 82 03 E8 00, 41*999, 03 02 00 41, 00 00
// strings in segments
OCTET STRING:
24 80, 04 82 03 E8, 41*1000, 04 01 41, 00 00 | 04 82 03 E9, 41*1001 | kept
24 80, 04 82 03 E7, 41*999, 04 02 41 41, 00 00 | 04 82 03 E9, 41*1001 | 24 80, 04 82 03 E8, 41*1000, 04 01 41, 00 00
24 80 04 01 AA 00 00              | 04 01 AA | 04 01 AA | 'AA'H
BIT STRING:
23 80, 03 82 03 E8 00, 41*999, 03 02 00 41, 00 00 | 03 82 03 E9 00, 41*1000 | kept
// one octet more than is written by CER
OCTET STRING:
04 83 0F EF A9, 41*1044393 | kept | refused 14
";

#[test]
fn encodings(rt: HostRuntime) -> Result<(), Fail> {
    check_table(rt.alloc(), ROWS)
}

// How many octets CER makes of an OCTET STRING.
fn cer_length(alloc: Global, octets: &str) -> Result<usize, Fail> {
    let ty = type_of(alloc, "OCTET STRING")?;
    let octets = octets_of(alloc, octets)?;
    let written = transcode(alloc, &ty, Rule::Ber, Canonical::Cer, octets.as_slice())?;
    Ok(written.len())
}

#[test]
fn length_of_the_longest_octet_string(rt: HostRuntime) -> Result<(), Fail> {
    // 1,044 full segments of 1,004 octets, and 396 octets for the last.
    let length = cer_length(rt.alloc(), "04 83 0F EF A8, 41*1044392")?;
    assert_eq!(rt; length, 1_048_576);
    Ok(())
}
