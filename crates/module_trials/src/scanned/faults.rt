//! What no token is, and where it is told.

use super::Texts;
use crate::telling::{placed, spelled, text_and_last};
use lexis::fault_at;
use std::alloc::{AllocError, Global};
use std::test::Fail;
use test_tables::{Table, check};

// text | number, line and column of its fault
const FAULTS: &str = "\
\0 | 21 at 1:1
\u{8} | 21 at 1:1
\u{E} | 21 at 1:1
\u{1C} | 21 at 1:1
\u{1F} | 21 at 1:1
\u{7F} | 21 at 1:1
\u{FEFF}T | 21 at 1:1
T\u{85} | 21 at 1:2
T \u{A0} | 21 at 1:3
T\\n\u{2028} | 21 at 2:1
a\u{E9} | 21 at 1:2
A\\n # | 21 at 2:2
A\r # | 21 at 1:4
-- \u{E9} -- # | 21 at 1:10
! | 21 at 1:1
$ | 21 at 1:1
& | 21 at 1:1
* | 21 at 1:1
*/ | 21 at 1:1
+ | 21 at 1:1
/ | 21 at 1:1
/ * | 21 at 1:1
< | 21 at 1:1
:= | 21 at 1:2
::-= | 21 at 1:4
= | 21 at 1:1
> | 21 at 1:1
? | 21 at 1:1
@ | 21 at 1:1
\\ | 21 at 1:1
^ | 21 at 1:1
_a | 21 at 1:1
a_b | 21 at 1:2
` | 21 at 1:1
~ | 21 at 1:1
a /* b | 21 at 1:3
/* a /* b */ T | 21 at 1:1
\\n/*/ | 21 at 2:1
00 | 21 at 1:1
07 | 21 at 1:1
T 01 | 21 at 1:3
7 00x | 21 at 1:3
170141183460469231731687303715884105729 | 31 at 1:1
a\\n 999999999999999999999999999999999999999999999 | 31 at 2:2
T \"a | 21 at 1:3
\"a\\nb\" | 21 at 1:1
\"a\u{B}b\" | 21 at 1:1
\"a\"\"b\\n\" | 21 at 1:4
\" | 21 at 1:1
\"\"\" | 21 at 1:3
'01 | 21 at 1:1
T '01' B | 21 at 1:3
' | 21 at 1:1";

#[test]
fn faults(rt: HostRuntime) -> Result<(), Fail> {
    check(rt.alloc(), &Texts, FAULTS)
}

// text | number, line and column of its fault
const NO_STRINGS_OF_DIGITS: &str = "\
'01' | 21 at 1:1
'0a'H | 21 at 1:1
'0 1'B | 21 at 1:1
'02'B | 21 at 1:1
'ab'H | 21 at 1:1
'A'B | 21 at 1:1
'G'H | 21 at 1:1
'0'b | 21 at 1:1
'0'h | 21 at 1:1
'0\\n1'H | 21 at 1:1
'\u{E9}'H | 21 at 1:1
'-1'H | 21 at 1:1";

#[test]
fn strings_of_digits_that_are_none(rt: HostRuntime) -> Result<(), Fail> {
    check(rt.alloc(), &Texts, NO_STRINGS_OF_DIGITS)
}

// text with two faults | number, line and column of the first
const TWO_FAULTS: &str = "\
# 00 | 21 at 1:1
00 /* | 21 at 1:1
170141183460469231731687303715884105729 # | 31 at 1:1";

#[test]
fn the_first_fault_is_named(rt: HostRuntime) -> Result<(), Fail> {
    check(rt.alloc(), &Texts, TWO_FAULTS)
}

// A text | an offset | fault 22 there.
struct Offsets;

impl Table for Offsets {
    fn holds(&self, alloc: Global, row: &str) -> Result<bool, Fail> {
        let (columns, wanted) = text_and_last(row)?;
        let (text, offset) = text_and_last(columns)?;
        Ok(told_at(alloc, text, offset.parse::<usize>()?)?.as_str() == wanted)
    }
}

fn told_at(alloc: Global, text: &str, offset: usize) -> Result<String, AllocError> {
    let text = spelled(alloc, text)?;
    placed(alloc, fault_at(22, text.as_str(), offset))
}

// text | offset | number that is given, line and column
const PLACES: &str = " | 0 | 22 at 1:1
ab | 1 | 22 at 1:2
ab | 2 | 22 at 1:3
a\\nb | 1 | 22 at 1:2
a\\nb | 2 | 22 at 2:1
a\\nb | 3 | 22 at 2:2
\\n\\n | 2 | 22 at 3:1
\r\u{B}\u{C}\u{85} | 5 | 22 at 1:6
ab | 9 | 22 at 1:3";

#[test]
fn places(rt: HostRuntime) -> Result<(), Fail> {
    check(rt.alloc(), &Offsets, PLACES)
}
