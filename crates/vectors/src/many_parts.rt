//! Encodings with many levels, with many parts, and of the most octets.

use crate::checks::{check_line, check_table};
use crate::types_by_name::type_of;
use std::alloc::{AllocError, Global};
use std::test::Fail;

// octets | under DER | under CER | text
const ROWS: &str = "
SEQUENCE OF OCTET STRING:
// 1,048,576 octets, whose definite form has one more, and the longest that has it
30 80 04 83 0F FF F7, 00*1048567, 00 00  | refused 14 | refused 14
30 80 04 83 0F FF F6, 00*1048566, 00 00  | 30 83 0F FF FB 04 83 0F FF F6, 00*1048566 | refused 14
30 80 04 83 0F FF F8           | refused 11
30 83 0F FF FC                 | refused 11
30 83 0F FF FB 04 83 0F FF F7  | refused 4
// many items
SEQUENCE OF BOOLEAN:
30 82 75 30, 01 01 01*10000    | 30 82 75 30, 01 01 FF*10000 | 30 80, 01 01 FF*10000, 00 00
30 80, 01 01 01*3000, 01 02 00 00 | refused 6
30 80, 01 01 FF*50, 00 00      | 30 81 96, 01 01 FF*50 | kept | { TRUE, TRUE, TRUE, TRUE, TRUE, TRUE, TRUE, TRUE, TRUE, TRUE, TRUE, TRUE, TRUE, TRUE, TRUE, TRUE, TRUE, TRUE, TRUE, TRUE, TRUE, TRUE, TRUE, TRUE, TRUE, TRUE, TRUE, TRUE, TRUE, TRUE, TRUE, TRUE, TRUE, TRUE, TRUE, TRUE, TRUE, TRUE, TRUE, TRUE, TRUE, TRUE, TRUE, TRUE, TRUE, TRUE, TRUE, TRUE, TRUE, TRUE }
SEQUENCE OF OCTET STRING:
30 80, 04 01 41 24 80 04 01 42 00 00*1000, 00 00 | 30 82 17 70, 04 01 41 04 01 42*1000 | 30 80, 04 01 41 04 01 42*1000, 00 00
SEQUENCE OF SEQUENCE OF NULL:
30 80, 30 80 05 00 05 00 05 00 00 00 30 02 05 00*500, 00 00  | 30 82 17 70, 30 06 05 00 05 00 05 00 30 02 05 00*500 | 30 80, 30 80 05 00 05 00 05 00 00 00 30 80 05 00 00 00*500, 00 00
SET OF NULL:
31 80, 05 00*100, 00 00       | 31 81 C8, 05 00*100 | kept   | { NULL, NULL, NULL, NULL, NULL, NULL, NULL, NULL, NULL, NULL, NULL, NULL, NULL, NULL, NULL, NULL, NULL, NULL, NULL, NULL, NULL, NULL, NULL, NULL, NULL, NULL, NULL, NULL, NULL, NULL, NULL, NULL, NULL, NULL, NULL, NULL, NULL, NULL, NULL, NULL, NULL, NULL, NULL, NULL, NULL, NULL, NULL, NULL, NULL, NULL, NULL, NULL, NULL, NULL, NULL, NULL, NULL, NULL, NULL, NULL, NULL, NULL, NULL, NULL, NULL, NULL, NULL, NULL, NULL, NULL, NULL, NULL, NULL, NULL, NULL, NULL, NULL, NULL, NULL, NULL, NULL, NULL, NULL, NULL, NULL, NULL, NULL, NULL, NULL, NULL, NULL, NULL, NULL, NULL, NULL, NULL, NULL, NULL, NULL, NULL }
// sixty tags; no word on tags: they are explicit
M DEFINITIONS ::= BEGIN T ::= [0] [0] [0] [0] [0] [0] [0] [0] [0] [0] [0] [0] [0] [0] [0] [0] [0] [0] [0] [0] [0] [0] [0] [0] [0] [0] [0] [0] [0] [0] [0] [0] [0] [0] [0] [0] [0] [0] [0] [0] [0] [0] [0] [0] [0] [0] [0] [0] [0] [0] [0] [0] [0] [0] [0] [0] [0] [0] [0] [0] OCTET STRING END:
A0 80*60, 04 01 AA, 00 00*60 | A0 79 A0 77 A0 75 A0 73 A0 71 A0 6F A0 6D A0 6B A0 69 A0 67 A0 65 A0 63 A0 61 A0 5F A0 5D A0 5B A0 59 A0 57 A0 55 A0 53 A0 51 A0 4F A0 4D A0 4B A0 49 A0 47 A0 45 A0 43 A0 41 A0 3F A0 3D A0 3B A0 39 A0 37 A0 35 A0 33 A0 31 A0 2F A0 2D A0 2B A0 29 A0 27 A0 25 A0 23 A0 21 A0 1F A0 1D A0 1B A0 19 A0 17 A0 15 A0 13 A0 11 A0 0F A0 0D A0 0B A0 09 A0 07 A0 05 A0 03 04 01 AA | A0 80*60, 04 01 AA, 00 00*60 | 'AA'H
A0 80*60, 24 80*4, 04 01 AA, 00 00*4, 00 00*60     | A0 79 A0 77 A0 75 A0 73 A0 71 A0 6F A0 6D A0 6B A0 69 A0 67 A0 65 A0 63 A0 61 A0 5F A0 5D A0 5B A0 59 A0 57 A0 55 A0 53 A0 51 A0 4F A0 4D A0 4B A0 49 A0 47 A0 45 A0 43 A0 41 A0 3F A0 3D A0 3B A0 39 A0 37 A0 35 A0 33 A0 31 A0 2F A0 2D A0 2B A0 29 A0 27 A0 25 A0 23 A0 21 A0 1F A0 1D A0 1B A0 19 A0 17 A0 15 A0 13 A0 11 A0 0F A0 0D A0 0B A0 09 A0 07 A0 05 A0 03 04 01 AA | A0 80*60, 04 01 AA, 00 00*60 | 'AA'H
A0 80*60, 24 80*5, 04 01 AA, 00 00*5, 00 00*60     | refused 10
";

#[test]
fn encodings(rt: HostRuntime) -> Result<(), Fail> {
    check_table(rt.alloc(), ROWS)
}

// The encodings of the INTEGERs from 0 to 9,999, one after another: from the first on, or the last one first.
fn ten_thousand(alloc: Global, is_ascending: bool) -> Result<String, AllocError> {
    let mut all = String::new(alloc);
    for place in 0..10_000u16 {
        put_integer(&mut all, if is_ascending { place } else { 9_999 - place })?;
    }
    Ok(all)
}

fn put_integer(all: &mut String, number: u16) -> Result<(), AllocError> {
    match number {
        0..128 => write!(all, "0201{number:02x}"),
        _ => write!(all, "0202{number:04x}"),
    }
}

// Checks that the items of a SET OF INTEGER become these others.
fn check_ordered(alloc: Global, items: &str, ascending: &str) -> Result<(), Fail> {
    let line = format!(in alloc; "31829BC0{items} | 31829BC0{ascending} | 3180{ascending}0000")?;
    check_line(alloc, &type_of(alloc, "SET OF INTEGER")?, line.as_str())
}

// The first two items exchanged.
fn exchanged(alloc: Global, ascending: &str) -> Result<String, Fail> {
    let others = ascending.strip_prefix("020100020101");
    let others = others.ok_or("other items first")?;
    Ok(format!(in alloc; "020101020100{others}")?)
}

#[test]
fn ten_thousand_items_of_a_set_of(rt: HostRuntime) -> Result<(), Fail> {
    let ascending = ten_thousand(rt.alloc(), true)?;
    let descending = ten_thousand(rt.alloc(), false)?;
    check_ordered(rt.alloc(), descending.as_str(), ascending.as_str())?;
    let exchanged = exchanged(rt.alloc(), ascending.as_str())?;
    check_ordered(rt.alloc(), exchanged.as_str(), ascending.as_str())
}
