//! INTEGER past 128 bits (X.690 8.3), to 1,024 contents octets.

use crate::checks::check_table;
use std::test::Fail;

// octets | under DER | under CER | text
const ROWS: &str = "
INTEGER:
02 11 00 80, 00*15        | kept | kept | '0080000000000000000000000000000000'H
02 11 FF 7F, FF*15        | kept | kept | 'FF7FFFFFFFFFFFFFFFFFFFFFFFFFFFFFFF'H
02 14 5A, C3*19           | kept | kept | '5AC3C3C3C3C3C3C3C3C3C3C3C3C3C3C3C3C3C3C3'H
02 82 00 11 00 80, 00*15  | 02 11 00 80, 00*15 | 02 11 00 80, 00*15 | '0080000000000000000000000000000000'H
02 82 03 FF 01, 00*1022   | kept | kept
02 82 04 00 01, 00*1023   | kept | kept
02 82 04 00 80, 00*1023   | kept | kept
02 82 04 01 01, 00*1024   | refused 6
02 82 04 00               | refused 1
02 11 00 7F, FF*15        | refused 6
02 11 FF 80, 00*15        | refused 6
02 82 04 00 00 7F, 00*1022 | refused 6
22 82 04 00               | refused 3
// within 128 bits, as before
02 10 80, 00*15           | kept | kept | -170141183460469231731687303715884105728
02 10 7F, FF*15           | kept | kept | 170141183460469231731687303715884105727
ENUMERATED { a }:
0A 11 00 80, 00*15        | refused 6
SEQUENCE { a [0] INTEGER DEFAULT 5, b BOOLEAN }:
30 16 80 11 00 80, 00*15, 01 01 FF  | kept | 30 80 80 11 00 80, 00*15, 01 01 FF 00 00 | { a '0080000000000000000000000000000000'H, b TRUE }
SET OF INTEGER:
31 16 02 11 00 80, 00*15, 02 01 05  | 31 16 02 01 05 02 11 00 80, 00*15 | 31 80 02 01 05 02 11 00 80, 00*15, 00 00 | { 5, '0080000000000000000000000000000000'H }
";

#[test]
fn encodings(rt: HostRuntime) -> Result<(), Fail> {
    check_table(rt.alloc(), ROWS)
}
