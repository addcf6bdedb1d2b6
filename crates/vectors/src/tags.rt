//! Types under tags other than the universal ones (X.680 8, X.690 8.14).

use crate::checks::check_table;
use std::test::Fail;

// octets | under DER | under CER | text
const ROWS: &str = "
[30] NULL:
9E 00                    | kept | kept | NULL
// another class, another number, more identifier octets than needed, constructed, and end of contents
05 00                    | refused 2
1E 00                    | refused 2
5E 00                    | refused 2
DE 00                    | refused 2
9D 00                    | refused 2
9F 1E 00                 | refused 2
BE 00                    | refused 3
00 00                    | refused 5
[APPLICATION 5] NULL:
45 00                    | kept | kept | NULL
[PRIVATE 0] NULL:
C0 00                    | kept | kept | NULL
[30] BOOLEAN:
9E 01 2A                 | 9E 01 FF | 9E 01 FF | TRUE
[APPLICATION 5] INTEGER:
45 01 80                 | kept | kept | -128
[PRIVATE 0] OCTET STRING:
C0 81 01 41              | C0 01 41 | C0 01 41 | '41'H
EXPLICIT TAGS [APPLICATION 31] IMPLICIT NULL:
5F 1F 00                 | kept | kept | NULL
5F 80 1F 00              | refused 2
5F 20 00                 | refused 2
[APPLICATION 30] NULL:
5F 1E 00                 | refused 2
[127] NULL:
9F 7F 00                 | kept | kept | NULL
[128] NULL:
9F 81 00 00              | kept | kept | NULL
[PRIVATE 268435455] NULL:
DF FF FF FF 7F 81 00     | DF FF FF FF 7F 00 | DF FF FF FF 7F 00 | NULL
// written and automatic tags
M DEFINITIONS ::= BEGIN T ::= [1] NULL END:
A1 02 05 00              | kept | A1 80 05 00 00 00 | NULL
81 00                    | refused 3
EXPLICIT TAGS [1] NULL:
A1 02 05 00              | kept | A1 80 05 00 00 00 | NULL
IMPLICIT TAGS [1] NULL:
81 00                    | kept | kept | NULL
AUTOMATIC TAGS SEQUENCE { a [5] NULL, b NULL }:
30 04 85 00 05 00        | kept | 30 80 85 00 05 00 00 00 | { a NULL, b NULL }
AUTOMATIC TAGS SEQUENCE { a U, b NULL } U ::= [5] NULL:
30 04 80 00 81 00        | kept | 30 80 80 00 81 00 00 00 | { a NULL, b NULL }
30 04 85 00 81 00        | refused 2
AUTOMATIC TAGS SEQUENCE { a U, b NULL } U ::= [5] EXPLICIT NULL:
30 06 A0 02 05 00 81 00  | kept | 30 80 A0 80 05 00 00 00 81 00 00 00 | { a NULL, b NULL }
// a CHOICE has no tag that an implicit one could stand for
IMPLICIT TAGS [1] U U ::= CHOICE { a NULL }:
A1 02 05 00              | kept | A1 80 05 00 00 00 | a : NULL
81 00                    | refused 3
";

#[test]
fn encodings(rt: HostRuntime) -> Result<(), Fail> {
    check_table(rt.alloc(), ROWS)
}
