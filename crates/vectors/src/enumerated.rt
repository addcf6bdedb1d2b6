//! ENUMERATED (X.690 8.4), whose contents octets are those of an item's number.

use crate::checks::check_table;
use std::test::Fail;

// octets | under DER | under CER | text
const ROWS: &str = "
ENUMERATED { a, b(300) }:
0A 02 01 2C              | kept        | kept | b
0A 81 02 01 2C           | 0A 02 01 2C | 0A 02 01 2C | b
ENUMERATED { a(1), b, c(0), d }:
0A 01 02                 | kept        | kept | b
0A 81 01 03              | 0A 01 03    | 0A 01 03 | d
0A 01 00                 | kept        | kept | c
''                       | refused 1
02 01 02                 | refused 2
2A 03 0A 01 02           | refused 3
0A 01 04                 | refused 6
0A 01 FF                 | refused 6
0A 02 00 01              | refused 6
0A 00                    | refused 6
M DEFINITIONS ::= BEGIN T ::= ENUMERATED { a(1), b, c(0), d } END:
0A 01 02                 | kept        | kept        | b
0A 01 03                 | kept        | kept        | d
0A 01 04                 | refused 6
";

#[test]
fn encodings(rt: HostRuntime) -> Result<(), Fail> {
    check_table(rt.alloc(), ROWS)
}
