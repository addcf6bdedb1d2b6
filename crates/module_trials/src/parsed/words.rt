//! Reserved words where a name must stand.

use super::told;
use crate::telling::{between, text_and_last};
use std::alloc::{AllocError, Global};
use std::test::Fail;
use test_tables::{Table, check};

// All but `END`, which may stand where an assignment may.
const OF_PROFILE: &str =
    "APPLICATION AUTOMATIC BEGIN BIT BMPString BOOLEAN CHOICE DEFAULT DEFINITIONS ENUMERATED EXPLICIT FALSE GeneralizedTime IA5String IDENTIFIER IMPLICIT INTEGER NULL NumericString OBJECT OCTET OF OPTIONAL PRIVATE PrintableString RELATIVE-OID SEQUENCE SET STRING TAGS TRUE UTCTime UTF8String VisibleString";

const LEFT_OUT: &str =
    "ABSENT ALL ANY CHARACTER CLASS COMPONENT COMPONENTS CONSTRAINED CONTAINING DATE DATE-TIME DURATION EMBEDDED ENCODED EXCEPT EXPORTS EXTENSIBILITY EXTERNAL FROM GeneralString GraphicString IMPLIED IMPORTS INCLUDES INSTANCE INTERSECTION ISO646String MAX MIN MINUS-INFINITY OID-IRI ObjectDescriptor PATTERN PDV PLUS-INFINITY PRESENT REAL RELATIVE-OID-IRI SIZE SYNTAX T61String TIME TIME-OF-DAY TeletexString UNION UNIQUE UNIVERSAL UniversalString VideotexString WITH";

// a module, in which `_` stands for a name | its column
const PLACES: &str = "\
_ DEFINITIONS ::= BEGIN END | 1
M DEFINITIONS ::= BEGIN _ ::= NULL END | 25
M DEFINITIONS ::= BEGIN T ::= NULL _ ::= NULL END | 36
M DEFINITIONS ::= BEGIN T ::= SEQUENCE { _ NULL } END | 42
M DEFINITIONS ::= BEGIN T ::= SEQUENCE { a NULL, _ NULL } END | 50
M DEFINITIONS ::= BEGIN T ::= CHOICE { _ NULL } END | 40
M DEFINITIONS ::= BEGIN T ::= CHOICE { a NULL, _ NULL } END | 48
M DEFINITIONS ::= BEGIN T ::= ENUMERATED { _ } END | 44
M DEFINITIONS ::= BEGIN T ::= BIT STRING { _(0) } END | 44";

// A module, in whose place for a name each of these words is refused with this number | the column.
#[derive(Clone, Copy)]
struct Words<'a> {
    words: &'a str,
    number: &'a str,
}

impl<'a> Table for Words<'a> {
    fn holds(&self, alloc: Global, row: &str) -> Result<bool, Fail> {
        let (place, column) = text_and_last(row)?;
        let wanted = between(alloc, self.number, " at 1:", column)?;
        for word in self.words.split(' ') {
            if !is_told(alloc, place, word, wanted.as_str())? {
                return Err(Fail::new(word));
            }
        }
        Ok(true)
    }
}

// Whether this is told where the word stands in the place of the name.
fn is_told(alloc: Global, place: &str, word: &str, wanted: &str) -> Result<bool, AllocError> {
    let text = place.replace(alloc, "_", word)?;
    Ok(told(alloc, text.as_str())?.as_str() == wanted)
}

#[test]
fn words_of_the_profile(rt: HostRuntime) -> Result<(), Fail> {
    let words = Words {
        words: OF_PROFILE,
        number: "23",
    };
    check(rt.alloc(), &words, PLACES)
}

#[test]
fn words_that_are_left_out(rt: HostRuntime) -> Result<(), Fail> {
    let words = Words {
        words: LEFT_OUT,
        number: "32",
    };
    check(rt.alloc(), &words, PLACES)
}
