//! Where tokens begin and end, and what stands between them.

use super::{Scanned, Texts};
use crate::telling::{Built, is_told_of_comments};
use lexis::tokens;
use std::alloc::{AllocError, Global};
use std::test::Fail;
use test_tables::check;

// text | where its tokens begin and end
const SPANS: &str = " | []
 \t\\n\u{B}\u{C}\r | []
-- no token | []
-- | []
---- | []
--> | []
/**/ | []
T ::= NULL -- x -- | [(0, 1), (2, 5), (6, 10)]
a--b--c | [(0, 1), (6, 7)]
a-- | [(0, 1)]
a-->b | [(0, 1)]
a---b | [(0, 1)]
a--b\\nc | [(0, 1), (5, 6)]
a--b\u{B}c | [(0, 1), (5, 6)]
a--b\u{C}c | [(0, 1), (5, 6)]
a--b\rc | [(0, 1), (5, 6)]
a--b\tc | [(0, 1)]
/* a /* b */ c */ T | [(18, 19)]
/* -- */ T | [(9, 10)]
-- /*\\nT | [(6, 7)]
/* \" */T | [(7, 8)]
/***/T | [(5, 6)]
a/**/b | [(0, 1), (5, 6)]
-- \u{E9} -- /* \u{FEFF} */ \"\u{E9}\u{85}\u{2028}\0\" | [(19, 29)]
a- | [(0, 1), (1, 2)]
a- b | [(0, 1), (1, 2), (3, 4)]
a-b A-1 | [(0, 3), (4, 7)]
A--1 | [(0, 1)]
ab 10 SEQUENCEOF | [(0, 2), (3, 5), (6, 16)]
0 7 | [(0, 1), (2, 3)]
1a | [(0, 1), (1, 2)]
-0 | [(0, 1), (1, 2)]
.... | [(0, 3), (3, 4)]
...... | [(0, 3), (3, 6)]
.. . . | [(0, 2), (3, 4), (5, 6)]
: : | [(0, 1), (2, 3)]
::= : ::::= | [(0, 3), (4, 5), (6, 7), (7, 8), (8, 11)]
\"\" \"a\"\"b\" \"\"\"\" | [(0, 2), (3, 9), (10, 14)]
'01'B'0A'H''H''B | [(0, 5), (5, 10), (10, 13), (13, 16)]
'0'BB | [(0, 4), (4, 5)]";

#[test]
fn spans(rt: HostRuntime) -> Result<(), Fail> {
    check(rt.alloc(), &Texts, SPANS)
}

// Whether the octet stands apart what is written on both sides of it.
fn parts(alloc: Global, octet: u8) -> Result<bool, AllocError> {
    let mut text = String::from_str(alloc, "a")?;
    text.push(char::from(octet))?;
    text.push_str("b")?;
    match tokens(alloc, text.as_str()) {
        Ok(found) => Ok(found.len() == 2),
        Err(_) => Ok(false),
    }
}

// Whether the octet does so exactly where it is white space.
fn parts_as_it_should(alloc: Global, octet: u8) -> Result<bool, AllocError> {
    Ok(parts(alloc, octet)? == matches!(octet, 9..=13 | 32))
}

#[test]
fn white_space(rt: HostRuntime) -> Result<(), Fail> {
    for octet in 0u8..=127 {
        assert!(rt; parts_as_it_should(rt.alloc(), octet)?, "octet {octet}");
    }
    Ok(())
}

// what stands in front, and what is repeated, between `'` | how often | what stands behind | what is told of that
const LONG: &str = "\
'' | ' '  | 262144 | '' | []
'' | ' '  | 262145 | '' | 31 at 1:1
'' | ' '  | 262145 | #  | 31 at 1:1
'' | '/*' | 65536  | '' | 21 at 1:1";

#[test]
fn long_texts(rt: HostRuntime) -> Result<(), Fail> {
    check(rt.alloc(), &Built(Scanned), LONG)
}

#[test]
fn comments_in_comments(rt: HostRuntime) -> Result<(), Fail> {
    assert!(rt; is_told_of_comments(rt.alloc(), &Scanned, "[]")?);
    Ok(())
}
