//! SET and SET OF (X.690 8.11 and 8.12), whose parts CER and DER put in order (X.690 9.3, 10.3 and 11.6).

use crate::checks::check_table;
use std::test::Fail;

// octets | under DER | under CER | text
const ROWS: &str = "
SET { a INTEGER, b BOOLEAN }:
31 06 01 01 FF 02 01 05        | kept                    | 31 80 01 01 FF 02 01 05 00 00 | { a 5, b TRUE }
31 06 02 01 05 01 01 01        | 31 06 01 01 FF 02 01 05 | 31 80 01 01 FF 02 01 05 00 00 | { a 5, b TRUE }
31 06 02 01 05 02 01 05        | refused 9
31 09 01 01 FF 02 01 05 01 01 FF | refused 9
31 03 02 01 05                 | refused 8
31 80 01 01 FF 00 00           | refused 8
31 02 05 00                    | refused 2
30 06 01 01 FF 02 01 05        | refused 2
SET { a INTEGER DEFAULT 1, b BOOLEAN OPTIONAL }:
31 03 02 01 01                 | 31 00          | 31 80 00 00          | { }
31 00                          | kept           | 31 80 00 00          | { }
31 06 01 01 FF 02 01 01        | 31 03 01 01 FF | 31 80 01 01 FF 00 00 | { b TRUE }
31 06 02 01 01 02 01 01        | refused 9
31 06 02 01 01 02 01 02        | refused 9
31 06 02 01 02 02 01 01        | refused 9
EXPLICIT TAGS SET { a INTEGER, b CHOICE { x [5] IMPLICIT NULL, y BOOLEAN } }:
31 05 02 01 07 85 00           | kept                       | 31 80 85 00 02 01 07 00 00 | { a 7, b x : NULL }
31 80 85 00 02 01 07 00 00     | 31 05 02 01 07 85 00 | kept | { a 7, b x : NULL }
31 06 02 01 07 01 01 01        | 31 06 01 01 FF 02 01 07    | 31 80 01 01 FF 02 01 07 00 00 | { a 7, b y : TRUE }
31 07 85 00 02 01 07 85 00     | refused 9
31 07 85 00 01 01 FF 85 00     | refused 9
31 02 85 00                    | refused 8
// the least tag of the alternatives counts under CER, at whatever depth, and the one that stands under DER
SET { a [1] INTEGER, b CHOICE { c [2] INTEGER, d CHOICE { e [3] INTEGER, f [0] INTEGER } } }:
31 06 81 01 01 83 01 02        | kept                    | 31 80 83 01 02 81 01 01 00 00 | { a 1, b d : e : 2 }
31 06 81 01 01 80 01 02        | 31 06 80 01 02 81 01 01 | 31 80 80 01 02 81 01 01 00 00 | { a 1, b d : f : 2 }
31 06 82 01 02 81 01 01        | 31 06 81 01 01 82 01 02 | 31 80 82 01 02 81 01 01 00 00 | { a 1, b c : 2 }
// a tag around a CHOICE is its own
SET { a [1] INTEGER, b [2] EXPLICIT CHOICE { c [0] INTEGER, d [3] INTEGER } }:
31 08 A2 03 80 01 02 81 01 01  | 31 08 81 01 01 A2 03 80 01 02 | 31 80 81 01 01 A2 80 80 01 02 00 00 00 00 | { a 1, b c : 2 }
// by class and then by number
SET { a [PRIVATE 0] NULL, b [0] NULL, c [APPLICATION 31] NULL, d NULL, e [31] NULL, f [128] NULL }:
31 10 9F 81 00 00 9F 1F 00 C0 00 80 00 5F 1F 00 05 00 | 31 10 05 00 5F 1F 00 80 00 9F 1F 00 9F 81 00 00 C0 00 | 31 80 05 00 5F 1F 00 80 00 9F 1F 00 9F 81 00 00 C0 00 00 00 | { a NULL, b NULL, c NULL, d NULL, e NULL, f NULL }
SET { }:
31 00                          | kept  | 31 80 00 00 | { }
31 80 00 00                    | 31 00 | kept        | { }
31 02 05 00                    | refused 2
SET { a INTEGER, b BOOLEAN OPTIONAL, c [0] INTEGER DEFAULT 5 }:
31 03 02 01 07                 | kept                       | 31 80 02 01 07 00 00 | { a 7 }
31 09 80 01 06 01 01 00 02 01 07 | 31 09 01 01 00 02 01 07 80 01 06 | 31 80 01 01 00 02 01 07 80 01 06 00 00 | { a 7, b FALSE, c 6 }
31 80 80 01 05 02 01 07 00 00  | 31 03 02 01 07             | 31 80 02 01 07 00 00 | { a 7 }
31 06 01 01 FF 02 01 07        | kept                       | 31 80 01 01 FF 02 01 07 00 00 | { a 7, b TRUE }
31 06 02 01 07 04 01 07        | refused 2
31 00                          | refused 8
31 03 01 01 FF                 | refused 8
31 06 02 01 07 02 01 07        | refused 9
// items
SET OF INTEGER:
31 09 02 01 05 02 01 03 02 01 05 | 31 09 02 01 03 02 01 05 02 01 05 | 31 80 02 01 03 02 01 05 02 01 05 00 00 | { 3, 5, 5 }
31 80 02 01 05 02 01 03 02 01 05 00 00 | 31 09 02 01 03 02 01 05 02 01 05 | 31 80 02 01 03 02 01 05 02 01 05 00 00 | { 3, 5, 5 }
31 00                          | kept                             | 31 80 00 00                            | { }
31 06 02 01 01 02 01 01        | kept                             | 31 80 02 01 01 02 01 01 00 00          | { 1, 1 }
31 80 00 00                    | 31 00                      | kept | { }
31 06 02 01 02 02 01 02        | kept                       | 31 80 02 01 02 02 01 02 00 00 | { 2, 2 }
// 256, -1 and 1
31 0A 02 02 01 00 02 01 FF 02 01 01 | 31 0A 02 01 01 02 01 FF 02 02 01 00 | 31 80 02 01 01 02 01 FF 02 02 01 00 00 00 | { 1, -1, 256 }
31 06 02 01 01 04 01 01        | refused 2
M DEFINITIONS ::= BEGIN T ::= SET OF INTEGER END:
31 09 02 01 05 02 01 03 02 01 05 | 31 09 02 01 03 02 01 05 02 01 05 | 31 80 02 01 03 02 01 05 02 01 05 00 00 | { 3, 5, 5 }
SET OF OCTET STRING:
31 07 04 02 00 00 04 01 FF     | 31 07 04 01 FF 04 02 00 00 | 31 80 04 01 FF 04 02 00 00 00 00 | { 'FF'H, '0000'H }
31 09 04 02 00 00 24 03 04 01 FF | 31 07 04 01 FF 04 02 00 00 | 31 80 04 01 FF 04 02 00 00 00 00             | { 'FF'H, '0000'H }
31 0B 04 02 00 00 04 00 04 01 00 04 00 | 31 0B 04 00 04 00 04 01 00 04 02 00 00 | 31 80 04 00 04 00 04 01 00 04 02 00 00 00 00 | { ''H, ''H, '00'H, '0000'H }
SET OF CHOICE { a OCTET STRING, b NULL }:
31 05 04 01 41 05 00           | kept                 | 31 80 04 01 41 05 00 00 00 | { a : '41'H, b : NULL }
31 05 05 00 04 01 41           | 31 05 04 01 41 05 00 | 31 80 04 01 41 05 00 00 00 | { a : '41'H, b : NULL }
SET OF SET OF INTEGER:
// by the length octets under DER, and by the first items under CER
31 0D 31 06 02 01 03 02 01 01 31 03 02 01 02 | 31 0D 31 03 02 01 02 31 06 02 01 01 02 01 03 | 31 80 31 80 02 01 01 02 01 03 00 00 31 80 02 01 02 00 00 00 00 | { { 2 }, { 1, 3 } }
31 07 31 03 02 01 02 31 00     | 31 07 31 00 31 03 02 01 02 | 31 80 31 80 00 00 31 80 02 01 02 00 00 00 00 | { { }, { 2 } }
SET OF UTCTime:
// a length that passes a definite end, and else one that no UTCTime has
31 03 17 05 00                 | refused 4
31 06 17 05 00                 | refused 4
31 07 17 05 00                 | refused 7
31 80 17 05 00                 | refused 7
SET OF SEQUENCE { a INTEGER DEFAULT 0, b NULL OPTIONAL }:
31 09 30 02 05 00 30 03 02 01 00 | 31 06 30 00 30 02 05 00 | 31 80 30 80 00 00 30 80 05 00 00 00 00 00 | { { }, { b NULL } }
";

#[test]
fn encodings(rt: HostRuntime) -> Result<(), Fail> {
    check_table(rt.alloc(), ROWS)
}
