//! BIT STRING with named bits (X.680 clause 22), whose bits 0 at the end mean nothing (X.690 11.2.2).

use crate::checks::check_table;
use std::test::Fail;

// octets | under DER | under CER | text
const ROWS: &str = "
BIT STRING { a(0), b(7) }:
03 02 05 A0              | kept        | kept        | '101'B
03 02 04 A0              | 03 02 05 A0 | 03 02 05 A0 | '101'B
03 02 04 AF              | 03 02 05 A0 | 03 02 05 A0 | '101'B
03 81 02 05 A0           | 03 02 05 A0 | 03 02 05 A0 | '101'B
03 02 00 01              | kept        | kept        | '00000001'B
03 02 07 80              | kept        | kept        | '1'B
03 03 00 80 00           | 03 02 07 80 | 03 02 07 80 | '1'B
03 04 06 80 00 3F        | 03 02 07 80 | 03 02 07 80 | '1'B
03 03 06 80 40           | kept        | kept        | '1000000001'B
// a bit that no name is given to
03 03 05 80 20           | kept        | kept        | '10000000001'B
// no bit, or none but bits 0
03 01 00                 | kept        | kept        | ''B
03 02 00 00              | 03 01 00    | 03 01 00    | ''B
03 02 07 7F              | 03 01 00    | 03 01 00    | ''B
03 04 03 00 00 07        | 03 01 00    | 03 01 00    | ''B
// the bits of all segments are joined before those at the end are dropped
23 08 03 02 00 A0 03 02 00 00          | 03 02 05 A0    | 03 02 05 A0    | '101'B
23 08 03 02 00 00 03 02 05 A0          | 03 03 05 00 A0 | 03 03 05 00 A0 | '00000000101'B
23 80 23 80 03 02 00 A0 00 00 03 02 04 00 00 00 | 03 02 05 A0 | 03 02 05 A0 | '101'B
23 00                    | 03 01 00    | 03 01 00    | ''B
23 80 03 01 00 00 00     | 03 01 00    | 03 01 00    | ''B
''                       | refused 1
03 02 05                 | refused 1
23 06 03 02 00 A0        | refused 1
04 01 00                 | refused 2
23 04 04 02 00 A0        | refused 2
03 80                    | refused 3
03 00                    | refused 6
03 01 01                 | refused 6
03 02 08 00              | refused 6
23 09 03 03 04 AA B0 03 02 00 F0 | refused 6
// without a list each bit counts
BIT STRING:
23 08 03 02 00 A0 03 02 00 00 | 03 03 00 A0 00 | 03 03 00 A0 00 | '1010000000000000'B
03 03 00 80 00           | kept        | kept        | '1000000000000000'B
// through a reference, and under tags
U U ::= BIT STRING { a(0) }:
03 02 00 80              | 03 02 07 80 | 03 02 07 80 | '1'B
[5] U U ::= BIT STRING { a(0) }:
85 02 00 80              | 85 02 07 80 | 85 02 07 80 | '1'B
03 02 07 80              | refused 2
EXPLICIT TAGS [5] BIT STRING { a(0) }:
A5 04 03 02 00 80        | A5 04 03 02 07 80 | A5 80 03 02 07 80 00 00 | '1'B
// a set is ordered by the encodings of its trimmed elements
SET OF BIT STRING { a(0) }:
31 09 03 02 07 80 03 03 00 40 00 | 31 08 03 02 06 40 03 02 07 80 | 31 80 03 02 06 40 03 02 07 80 00 00 | { '01'B, '1'B }
// defaults
AUTOMATIC TAGS SEQUENCE { f BIT STRING { a(0) } DEFAULT '100'B }:
30 00                    | kept                 | 30 80 00 00                | { }
30 04 80 02 07 80        | 30 00                | 30 80 00 00                | { }
30 04 80 02 00 80        | 30 00                | 30 80 00 00                | { }
30 08 A0 06 03 01 00 03 01 00 | 30 03 80 01 00  | 30 80 80 01 00 00 00       | { f ''B }
30 08 A0 06 03 02 00 80 03 00 | refused 6
30 0A A0 08 03 02 00 80 03 02 00 00 | 30 00     | 30 80 00 00                | { }
30 04 80 02 05 A0        | kept                 | 30 80 80 02 05 A0 00 00    | { f '101'B }
30 08 80 02 00 80 80 02 00 80 | refused 2
// the same default in other words, through references and a tag
AUTOMATIC TAGS SEQUENCE { f U DEFAULT '8000'H } U ::= [3] V V ::= BIT STRING { a(0) }:
30 04 80 02 00 80        | 30 00                | 30 80 00 00                | { }
30 04 80 02 06 40        | kept                 | 30 80 80 02 06 40 00 00    | { f '01'B }
// a default of no bits
AUTOMATIC TAGS SEQUENCE { f BIT STRING { a(0) } DEFAULT '00'B }:
30 03 80 01 00           | 30 00                | 30 80 00 00                | { }
30 05 80 03 00 00 00     | 30 00                | 30 80 00 00                | { }
30 04 80 02 07 80        | kept                 | 30 80 80 02 07 80 00 00    | { f '1'B }
// without a list the bits 0 at the end count
AUTOMATIC TAGS SEQUENCE { f BIT STRING DEFAULT '100'B }:
30 04 80 02 05 80        | 30 00                | 30 80 00 00                | { }
30 04 80 02 07 80        | kept                 | 30 80 80 02 07 80 00 00    | { f '1'B }
// cut by CER
BIT STRING { a(0) }:
03 82 03 E8 00, 41*999          | kept                    | kept
03 82 03 E9 00, 41*999, 00      | 03 82 03 E8 00, 41*999  | 03 82 03 E8 00, 41*999
03 82 03 E9 00, 41*1000         | kept                    | 23 80, 03 82 03 E8 00, 41*999, 03 02 00 41, 00 00
03 82 03 EA 00, 41*1000, 00     | 03 82 03 E9 00, 41*1000 | 23 80, 03 82 03 E8 00, 41*999, 03 02 00 41, 00 00
03 82 03 EA 00, 41*999, 80, 00  | 03 82 03 E9 07, 41*999, 80 | 23 80, 03 82 03 E8 00, 41*999, 03 02 07 80, 00 00
03 82 07 D1 00, 80, 00*1999     | 03 02 07 80             | 03 02 07 80
";

#[test]
fn encodings(rt: HostRuntime) -> Result<(), Fail> {
    check_table(rt.alloc(), ROWS)
}
