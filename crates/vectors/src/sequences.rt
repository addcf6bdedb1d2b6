//! SEQUENCE, SEQUENCE OF, CHOICE and explicit tags (X.690 8.9, 8.10, 8.13 and 8.14), with components that may be
//! absent (X.690 11.5).

use crate::checks::check_table;
use std::test::Fail;

// octets | under DER | under CER | text
const ROWS: &str = "
SEQUENCE { }:
30 00                          | kept                       | 30 80 00 00 | { }
30 80 00 00                    | 30 00 | kept        | { }
30 82 00 00                    | 30 00 | 30 80 00 00 | { }
SEQUENCE { a INTEGER OPTIONAL, b BOOLEAN }:
30 03 01 01 FF                 | kept                    | 30 80 01 01 FF 00 00          | { b TRUE }
30 06 02 01 05 01 01 01        | 30 06 02 01 05 01 01 FF | 30 80 02 01 05 01 01 FF 00 00 | { a 5, b TRUE }
30 80 02 01 05 01 01 00 00 00  | 30 06 02 01 05 01 01 00 | kept                          | { a 5, b FALSE }
30 03 02 01 05                 | refused 8
30 80 02 01 05 00 00           | refused 8
30 06 01 01 FF 02 01 05        | refused 2
30 06 01 01 FF 01 01 FF        | refused 2
30 06 02 01 05 02 01 05        | refused 2
30 05 01 01 FF 00 00           | refused 2
SEQUENCE { a INTEGER OPTIONAL, b BOOLEAN OPTIONAL, c NULL OPTIONAL }:
30 00                          | kept | 30 80 00 00                         | { }
30 02 05 00                    | kept | 30 80 05 00 00 00                   | { c NULL }
30 05 02 01 00 05 00           | kept | 30 80 02 01 00 05 00 00 00          | { a 0, c NULL }
30 08 02 01 00 01 01 00 05 00  | kept | 30 80 02 01 00 01 01 00 05 00 00 00 | { a 0, b FALSE, c NULL }
30 05 05 00 02 01 00           | refused 2
30 04 05 00 05 00              | refused 2
[APPLICATION 40] SEQUENCE { a [1] SEQUENCE { b NULL }, c [2] SEQUENCE { } OPTIONAL }:
7F 28 04 A1 02 05 00           | kept                       | 7F 28 80 A1 80 05 00 00 00 00 00 | { a { b NULL } }
7F 28 80 A1 80 05 00 00 00 A2 80 00 00 00 00 | 7F 28 06 A1 02 05 00 A2 00 | kept                             | { a { b NULL }, c { } }
7F 28 02 A2 00                 | refused 8
7F 28 02 A1 00                 | refused 8
30 04 A1 02 05 00              | refused 2
// defaults
AUTOMATIC TAGS SEQUENCE { a INTEGER DEFAULT 1, b BOOLEAN }:
30 03 81 01 FF                 | kept | 30 80 81 01 FF 00 00 | { b TRUE }
30 06 80 01 01 81 01 FF        | 30 03 81 01 FF             | 30 80 81 01 FF 00 00 | { b TRUE }
30 07 80 81 01 01 81 01 2A     | 30 03 81 01 FF | 30 80 81 01 FF 00 00 | { b TRUE }
30 06 80 01 02 81 01 00        | kept                       | 30 80 80 01 02 81 01 00 00 00 | { a 2, b FALSE }
30 06 80 01 01 80 01 01        | refused 2
30 03 80 01 01                 | refused 8
30 07 80 02 00 01 81 01 FF     | refused 6
SEQUENCE { a BOOLEAN DEFAULT TRUE, b OCTET STRING DEFAULT '4142'H }:
30 00                          | kept        | 30 80 00 00          | { }
30 03 01 01 01                 | 30 00       | 30 80 00 00          | { }
30 03 01 01 00                 | kept        | 30 80 01 01 00 00 00 | { a FALSE }
30 04 04 02 41 42              | 30 00       | 30 80 00 00          | { }
30 0A 24 80 04 01 41 04 01 42 00 00 | 30 00       | 30 80 00 00          | { }
30 0B 01 01 FF 24 06 04 01 41 04 01 42 | 30 00       | 30 80 00 00          | { }
30 04 24 02 04 00              | 30 02 04 00 | 30 80 04 00 00 00    | { b ''H }
30 03 04 01 41                 | kept        | 30 80 04 01 41 00 00 | { b '41'H }
SEQUENCE { a [0] EXPLICIT INTEGER DEFAULT -1, b [1] EXPLICIT INTEGER OPTIONAL }:
30 05 A0 03 02 01 FF           | 30 00 | 30 80 00 00                      | { }
30 80 A0 80 02 81 01 FF 00 00 00 00 | 30 00 | 30 80 00 00                      | { }
30 05 A1 03 02 01 FF           | kept  | 30 80 A1 80 02 01 FF 00 00 00 00 | { b -1 }
30 05 A0 03 02 01 01           | kept  | 30 80 A0 80 02 01 01 00 00 00 00 | { a 1 }
SEQUENCE { a INTEGER, b BOOLEAN OPTIONAL, c [0] INTEGER DEFAULT 5 }:
30 03 02 01 07                 | kept                       | 30 80 02 01 07 00 00 | { a 7 }
30 80 02 01 07 01 01 01 00 00  | 30 06 02 01 07 01 01 FF    | 30 80 02 01 07 01 01 FF 00 00 | { a 7, b TRUE }
30 06 02 01 07 80 01 05        | 30 03 02 01 07             | 30 80 02 01 07 00 00 | { a 7 }
30 81 06 02 01 07 80 01 06     | 30 06 02 01 07 80 01 06    | 30 80 02 01 07 80 01 06 00 00 | { a 7, c 6 }
''                             | refused 1
30 80 02 01                    | refused 1
31 00                          | refused 2
30 03 04 01 00                 | refused 2
30 06 02 01 07 02 01 07        | refused 2
30 0B 02 01 07 01 01 FF 80 01 06 00 00 | refused 2
10 03 02 01 07                 | refused 3
30 03 22 01 07                 | refused 3
30 02 02 01 07                 | refused 4
30 01 02 01 07                 | refused 4
30 83 10 00 01                 | refused 4
30 FF                          | refused 4
00 00                          | refused 5
30 02 00 00                    | refused 5
30 80 00 01                    | refused 5
30 80 02 01 07 00 01           | refused 5
30 02 02 00                    | refused 6
30 00                          | refused 8
30 80 00 00                    | refused 8
30 03 01 01 FF                 | refused 8
30 83 0F FF FC                 | refused 11
// items
SEQUENCE OF NULL:
30 04 05 00 05 00              | kept        | 30 80 05 00 05 00 00 00 | { NULL, NULL }
30 80 05 81 00 00 00           | 30 02 05 00 | 30 80 05 00 00 00       | { NULL }
30 00                          | kept        | 30 80 00 00             | { }
30 02 00 00                    | refused 5
SEQUENCE OF INTEGER:
30 09 02 01 05 02 01 03 02 01 05 | kept | 30 80 02 01 05 02 01 03 02 01 05 00 00 | { 5, 3, 5 }
30 06 02 01 05 01 01 05        | refused 2
30 0D 02 01 01 02 01 02 02 02 00 01 02 01 04 | refused 6
30 03 02 02 05 00              | refused 4
30 05 02 01 05                 | refused 1
// a length that passes a definite end, and else one that no INTEGER has
30 02 02 11                    | refused 4
30 03 02 11 00                 | refused 4
30 12 02 11 00                 | refused 4
30 13 02 11 00                 | refused 1
30 04 02 82 04 01              | refused 4
30 82 04 04 02 82 04 01 00     | refused 4
30 82 04 05 02 82 04 01 00     | refused 6
30 80 02 82 04 01 00           | refused 6
30 80 02 83 0F FF FF           | refused 6
30 80 02 83 10 00 01           | refused 4
30 00                          | kept                       | 30 80 00 00 | { }
30 80 02 01 02 02 01 01 00 00  | 30 06 02 01 02 02 01 01    | kept | { 2, 1 }
30 03 01 01 FF                 | refused 2
30 02 00 00                    | refused 5
SEQUENCE OF SEQUENCE OF INTEGER:
30 80 30 80 00 00 30 03 02 01 01 00 00 | 30 07 30 00 30 03 02 01 01 | 30 80 30 80 00 00 30 80 02 01 01 00 00 00 00 | { { }, { 1 } }
30 04 30 80 00 00              | 30 02 30 00                | 30 80 30 80 00 00 00 00                      | { { } }
30 04 30 80 02 01              | refused 4
30 02 30 80                    | refused 4
30 07 30 80 02 11 00 00 00     | refused 4
30 80 30 05 02 82 04 01 00     | refused 4
// items behind the end of the list inside, and one that passes it
30 0B 30 06 02 01 01 02 01 02 02 01 03 | refused 2
30 80 30 80 02 01 01 00 00 02 01 03 00 00 | refused 2
30 0B 30 05 02 01 01 02 02 02 01 03 00 | refused 4
30 80 30 80 02 01 01 02 01 02 02 01 03 00 00 30 06 02 01 04 02 01 05 30 00 00 00 | 30 15 30 09 02 01 01 02 01 02 02 01 03 30 06 02 01 04 02 01 05 30 00 | 30 80 30 80 02 01 01 02 01 02 02 01 03 00 00 30 80 02 01 04 02 01 05 00 00 30 80 00 00 00 00 | { { 1, 2, 3 }, { 4, 5 }, { } }
SEQUENCE OF SEQUENCE OF OCTET STRING:
30 80 30 80 04 01 41 24 80 04 01 42 00 00 04 01 43 00 00 30 03 04 01 44 00 00 | 30 10 30 09 04 01 41 04 01 42 04 01 43 30 03 04 01 44 | 30 80 30 80 04 01 41 04 01 42 04 01 43 00 00 30 80 04 01 44 00 00 00 00 | { { '41'H, '42'H, '43'H }, { '44'H } }
30 15 30 03 04 01 40 30 0B 04 01 41 24 03 04 01 42 04 01 43 30 01 04 | refused 4
SEQUENCE OF OCTET STRING:
30 80 04 83 0F FF FF           | refused 11
30 80 24 80 04 01 41 00 00 04 00 00 00 | 30 05 04 01 41 04 00 | 30 80 04 01 41 04 00 00 00 | { '41'H, ''H }
30 04 24 80 04 00              | refused 4
SEQUENCE OF SEQUENCE { a INTEGER OPTIONAL, b CHOICE { c NULL, d SEQUENCE OF BOOLEAN } }:
30 0D 30 02 05 00 30 80 02 01 07 30 00 00 00 | 30 0B 30 02 05 00 30 05 02 01 07 30 00 | 30 80 30 80 05 00 00 00 30 80 02 01 07 30 80 00 00 00 00 00 00 | { { b c : NULL }, { a 7, b d : { } } }
30 80 30 80 30 80 01 01 01 00 00 00 00 00 00 | 30 07 30 05 30 03 01 01 FF | 30 80 30 80 30 80 01 01 FF 00 00 00 00 00 00 | { { b d : { TRUE } } }
30 04 30 02 30 00              | kept                       | 30 80 30 80 30 80 00 00 00 00 00 00          | { { b d : { } } }
30 05 30 03 02 01 07           | refused 8
// choices and explicit tags
CHOICE { x [0] NULL, y [1] BOOLEAN }:
80 00                          | kept     | 80 00    | x : NULL
81 01 01                       | 81 01 FF | 81 01 FF | y : TRUE
82 00                          | refused 2
A0 00                          | refused 3
CHOICE { a INTEGER, b CHOICE { c BOOLEAN, d SEQUENCE OF INTEGER } }:
02 01 03                       | kept                       | 02 01 03 | a : 3
01 01 2A                       | 01 01 FF | 01 01 FF | b : c : TRUE
30 80 02 01 04 00 00           | 30 03 02 01 04             | kept | b : d : { 4 }
31 00                          | refused 2
05 00                          | refused 2
30 04 02 02 00 00              | refused 6
AUTOMATIC TAGS SEQUENCE { a CHOICE { x NULL, y BOOLEAN }, b INTEGER }:
30 07 A0 02 80 00 81 01 05     | kept                       | 30 80 A0 80 80 00 00 00 81 01 05 00 00 | { a x : NULL, b 5 }
30 80 A0 80 80 00 00 00 81 01 05 00 00 | 30 07 A0 02 80 00 81 01 05    | kept                                      | { a x : NULL, b 5 }
30 08 A0 03 81 01 2A 81 01 05  | 30 08 A0 03 81 01 FF 81 01 05 | 30 80 A0 80 81 01 FF 00 00 81 01 05 00 00 | { a y : TRUE, b 5 }
30 05 A0 00 81 01 05           | refused 4
30 09 A0 04 80 00 80 00 81 01 05 | refused 2
[1] EXPLICIT INTEGER:
A1 03 02 01 05                 | kept | A1 80 02 01 05 00 00 | 5
A1 80 02 01 05 00 00           | A1 03 02 01 05             | kept | 5
A1 06 02 01 05 02 01 05        | refused 2
A1 05 02 01 05 00 00           | refused 2
A1 80 02 01 05 02 01 05 00 00  | refused 2
A1 00                          | refused 4
A1 80 00 00                    | refused 5
A1 02 00 00                    | refused 5
A1 03 01 01 05                 | refused 2
81 01 05                       | refused 3
[0] EXPLICIT [1] EXPLICIT BOOLEAN:
A0 05 A1 03 01 01 01           | A0 05 A1 03 01 01 FF | A0 80 A1 80 01 01 FF 00 00 00 00 | TRUE
A0 80 A1 03 01 01 FF 00 00     | A0 05 A1 03 01 01 FF | A0 80 A1 80 01 01 FF 00 00 00 00 | TRUE
A0 03 A1 01 01                 | refused 4
A0 04 A1 02 01 00              | refused 6
[0] EXPLICIT CHOICE { a [0] EXPLICIT NULL, b [1] OCTET STRING }:
A0 04 A0 02 05 00              | kept           | A0 80 A0 80 05 00 00 00 00 00 | a : NULL
A0 05 A1 03 04 01 41           | A0 03 81 01 41 | A0 80 81 01 41 00 00          | b : '41'H
A0 02 05 00                    | refused 2
";

#[test]
fn encodings(rt: HostRuntime) -> Result<(), Fail> {
    check_table(rt.alloc(), ROWS)
}
