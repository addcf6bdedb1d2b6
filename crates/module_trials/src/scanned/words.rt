//! Reserved words.

use crate::telling::text_and_last;
use lexis::{Kind, Token, tokens, word_of};
use std::alloc::Global;
use std::test::Fail;
use test_tables::{Table, check};

// words | whether they stand in the profile | how many they are
const RESERVED: &str = "\
APPLICATION AUTOMATIC BEGIN BIT BMPString BOOLEAN CHOICE DEFAULT DEFINITIONS END ENUMERATED EXPLICIT FALSE GeneralizedTime IA5String IDENTIFIER IMPLICIT INTEGER NULL NumericString OBJECT OCTET OF OPTIONAL PRIVATE PrintableString RELATIVE-OID SEQUENCE SET STRING TAGS TRUE UTCTime UTF8String VisibleString | of the profile | 35
ABSENT ALL ANY CHARACTER CLASS COMPONENT COMPONENTS CONSTRAINED CONTAINING DATE DATE-TIME DURATION EMBEDDED ENCODED EXCEPT EXPORTS EXTENSIBILITY EXTERNAL FROM GeneralString GraphicString IMPLIED IMPORTS INCLUDES INSTANCE INTERSECTION ISO646String MAX MIN MINUS-INFINITY OID-IRI ObjectDescriptor PATTERN PDV PLUS-INFINITY PRESENT REAL RELATIVE-OID-IRI SIZE SYNTAX T61String TIME TIME-OF-DAY TeletexString UNION UNIQUE UNIVERSAL UniversalString VideotexString WITH | left out | 50";

// Words | whether they stand in the profile | how many reserved words they are.
struct Reserved;

impl Table for Reserved {
    fn holds(&self, alloc: Global, row: &str) -> Result<bool, Fail> {
        let (columns, count) = text_and_last(row)?;
        let (words, of_profile) = text_and_last(columns)?;
        Ok(
            count_of_reserved(alloc, words) == count.parse::<usize>()?
                && are_words(words, of_profile == "of the profile"),
        )
    }
}

// How many tokens the text has, of which each is a reserved word, or 0.
fn count_of_reserved(alloc: Global, text: &str) -> usize {
    match tokens(alloc, text) {
        Ok(found) if are_reserved(&found) => found.len(),
        _ => 0,
    }
}

fn are_reserved(tokens: &[Token]) -> bool {
    for token in tokens {
        if !matches!(token.kind, Kind::Reserved) {
            return false;
        }
    }
    true
}

// With blanks between them they spell reserved words, each of which stands in the profile or not.
fn are_words(words: &str, of_profile: bool) -> bool {
    for spelling in words.split(' ') {
        if !is_word(spelling, of_profile) {
            return false;
        }
    }
    true
}

// Some reserved word is spelled so, and stands in the profile or not.
fn is_word(spelling: &str, of_profile: bool) -> bool {
    match word_of(spelling.as_bytes()) {
        Some(word) => word.text() == spelling && word.is_of_profile() == of_profile,
        None => false,
    }
}

#[test]
fn reserved_words(rt: HostRuntime) -> Result<(), Fail> {
    check(rt.alloc(), &Reserved, RESERVED)
}

// Spellings of no reserved word, with commas between them; the first is empty.
const NO_WORDS: &str = ",a,BOOLEAN ,boolean,XML,Integer,OI,ZZZ";

#[test]
fn no_reserved_words(rt: HostRuntime) {
    for spelling in NO_WORDS.split(',') {
        assert!(rt; word_of(spelling.as_bytes()).is_none(), "{spelling}");
    }
}
