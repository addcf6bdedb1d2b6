//! What one token is and stands for.

use super::told;
use crate::telling::text_and_last;
use lexis::{Kind, lexeme_of, symbol_of, tokens};
use std::alloc::Global;
use std::test::Fail;
use test_tables::{Table, check, prints};

// A text | the kind of its one token.
struct FirstKinds;

impl Table for FirstKinds {
    fn holds(&self, alloc: Global, row: &str) -> Result<bool, Fail> {
        let (text, wanted) = text_and_last(row)?;
        prints(alloc, &first_kind(alloc, text), wanted)
    }
}

// The kind of the first token of a text that has one.
fn first_kind(alloc: Global, text: &str) -> Option<Kind> {
    match tokens(alloc, text) {
        Ok(found) => Some(found.first()?.kind),
        Err(_) => None,
    }
}

const KINDS: &str = "\
BOOLEAN | Some(Reserved)
RELATIVE-OID-IRI | Some(Reserved)
T61String | Some(Reserved)
BOOLEANS | Some(TypeName)
Boolean | Some(TypeName)
RELATIVE-OIDs | Some(TypeName)
H | Some(TypeName)
A-1 | Some(TypeName)
boolean | Some(Identifier)
x-Y9-z | Some(Identifier)
0 | Some(Number(0))
10 | Some(Number(10))
170141183460469231731687303715884105728 | Some(Number(170141183460469231731687303715884105728))
''B | Some(Binary)
'01'B | Some(Binary)
''H | Some(Hex)
'01'H | Some(Hex)
'0123456789ABCDEF'H | Some(Hex)
\"\" | Some(Chars)
\"'0'B -- /* 00\" | Some(Chars)
| | Some(Symbol)";

#[test]
fn kinds(rt: HostRuntime) -> Result<(), Fail> {
    check(rt.alloc(), &FirstKinds, KINDS)
}

// A spelling | its symbol, and whether that stands in the profile | where it begins and ends.
struct Spellings;

impl Table for Spellings {
    fn holds(&self, alloc: Global, row: &str) -> Result<bool, Fail> {
        let (columns, span) = text_and_last(row)?;
        let (spelling, wanted) = text_and_last(columns)?;
        Ok(is_symbol(alloc, spelling, wanted)? && told(alloc, spelling)?.as_str() == span)
    }
}

// Whether `Debug` prints the symbol that is spelled so, and whether it stands in the profile, as this text.
fn is_symbol(alloc: Global, spelling: &str, wanted: &str) -> Result<bool, Fail> {
    match symbol_of(spelling.as_bytes()) {
        Some(symbol) if symbol.text() == spelling => {
            prints(alloc, &(symbol, symbol.is_of_profile()), wanted)
        }
        _ => Ok(false),
    }
}

const SYMBOLS: &str = "\
::= | (Assignment, true) | [(0, 3)]
{ | (OpenBrace, true) | [(0, 1)]
} | (CloseBrace, true) | [(0, 1)]
[ | (OpenBracket, true) | [(0, 1)]
] | (CloseBracket, true) | [(0, 1)]
( | (OpenParenthesis, true) | [(0, 1)]
) | (CloseParenthesis, true) | [(0, 1)]
, | (Comma, true) | [(0, 1)]
- | (Hyphen, true) | [(0, 1)]
... | (Ellipsis, false) | [(0, 3)]
.. | (Range, false) | [(0, 2)]
. | (FullStop, false) | [(0, 1)]
: | (Colon, false) | [(0, 1)]
; | (Semicolon, false) | [(0, 1)]
| | (VerticalBar, false) | [(0, 1)]";

#[test]
fn symbols(rt: HostRuntime) -> Result<(), Fail> {
    check(rt.alloc(), &Spellings, SYMBOLS)
}

#[test]
fn no_symbols(rt: HostRuntime) {
    assert!(rt; symbol_of(b"=").is_none());
    assert!(rt; symbol_of(b"").is_none());
}

// A text | what its first token stands for.
struct FirstLexemes;

impl Table for FirstLexemes {
    fn holds(&self, alloc: Global, row: &str) -> Result<bool, Fail> {
        let (text, wanted) = text_and_last(row)?;
        is_first(alloc, text, wanted)
    }
}

fn is_first(alloc: Global, text: &str, wanted: &str) -> Result<bool, Fail> {
    match tokens(alloc, text) {
        Ok(found) => match found.first() {
            Some(token) => prints(alloc, &lexeme_of(text, *token), wanted),
            None => Ok(false),
        },
        Err(_) => Ok(false),
    }
}

const LEXEMES: &str = r#"SEQUENCE{ | Word(Sequence)
{a | Symbol(OpenBrace)
Ab c | TypeName("Ab")
ab c | Identifier("ab")
12 3 | Number(12)
'1'B 2 | Binary("'1'B")
'1'H 2 | Hex("'1'H")
"a""b" 2 | Chars("\"a\"\"b\"")"#;

#[test]
fn lexemes(rt: HostRuntime) -> Result<(), Fail> {
    check(rt.alloc(), &FirstLexemes, LEXEMES)
}
