//! What a reader of pieces returns for each of them.

use crate::answers::text_of;
use crate::tables::{TypedTable, check_typed};
use berreader::{Reader, Step};
use convert::{Refusal, Value, WellTyped, unhex};
use std::alloc::Global;
use std::test::Fail;
use test_tables::two;

// pieces | what is returned for each: the octets that complete a value and its text, or a refusal; and whether all is
// finished. What a piece has behind a value is the piece that follows.
const ANSWERS: &str = "
BOOLEAN:
01; 01; 2A         | More; More; Done 1 TRUE; Ok
01 01 00 01        | Done 3 FALSE; Ok
01 01 00; 01; 01; 00 | Done 3 FALSE; More; More; Done 1 FALSE; Ok
01                 | More; 1
02; 01             | 2; 2; 2
02; ; 01; ;        | 2; 2; 2; 2; 2; 2
01 02; 01 01 FF    | 6; 6; 6
// a stream that ends in its second value, by each cut
01 01 01 01 01; 01 01 | Done 3 TRUE; More; 1
01; 01 01 01 01; 01 01 | More; Done 2 TRUE; More; 1
01 01; 01 01 01; 01 01 | More; Done 1 TRUE; More; 1
01 01 01; 01 01    | Done 3 TRUE; More; 1
01 01 01 01; 01; 01 | Done 3 TRUE; More; More; 1
01; 01; 01; 01; 01 | More; More; Done 1 TRUE; More; More; 1
SEQUENCE OF INTEGER:
30 80; 02; 01; 05 00; 00 30    | More; More; More; More; Done 1 { 5 }; Ok
30 03 02; 01 05    | More; Done 2 { 5 }; Ok
30; 02 02 11       | More; 4; 4
30; 80 02 82 04 01 | More; 6; 6
30 80 02 01 05; 00; 01; 00 | More; More; 5; 5; 5
SET { a [0] INTEGER, b [1] BOOLEAN }:
31; 06 81; 01 01 80; 01 07 02 | More; More; More; Done 2 { a 7, b TRUE }; Ok
31 80 81; 01; FF 81; 80 | More; More; 9; 9; 9
31 03 81 01; FF; 00 | More; 8; 8; 8
OCTET STRING:
24 80 04; 02 41; 42 24 80 00 00; 00 00 04 01 41 | More; More; More; Done 2 '4142'H; Ok
// before a refusal More is returned for a piece of no octets, wherever in a value it comes
BOOLEAN:
; 01 01; ; FF | More; More; More; Done 1 TRUE; Ok
 | More; Ok
01 01 FF; ; 01; ; 01; ; 00; ; | Done 3 TRUE; More; More; More; More; More; Done 1 FALSE; More; More; Ok
INTEGER:
02 02; ; 01; ; 00 | More; More; More; More; Done 1 256; Ok
ENUMERATED { a(1), b, c(0), d }:
0A; ; 01; ; 02 | More; More; More; More; Done 1 b; Ok
NULL:
05; ; 00 | More; More; Done 1 NULL; Ok
OBJECT IDENTIFIER:
06 03; ; 81 34; ; 03 | More; More; More; More; Done 1 2.100.3; Ok
RELATIVE-OID:
0D 02 81; ; 34 | More; More; Done 1 180; Ok
BIT STRING:
03 02; ; 07; ; FF | More; More; More; More; Done 1 '1'B; Ok
23 80; ; 03 02 00; ; AA; ; 03 02 04 F0; ; 00; ; 00 | More; More; More; More; More; More; More; More; More; More; Done 1 '101010101111'B; Ok
OCTET STRING:
04 02 41; ; 42 | More; More; Done 1 '4142'H; Ok
24 80; ; 04 02 41; ; 42; ; 24 04; ; 04 02 43 44; ; 00 00 | More; More; More; More; More; More; More; More; More; More; Done 2 '41424344'H; Ok
UTF8String:
0C 02 C3; ; A9 | More; More; Done 1 'C3A9'H; Ok
2C 80 04 01 C3; ; 04 01 A9; ; 00 00 | More; More; More; More; Done 2 'C3A9'H; Ok
UTCTime:
37 11 04 06 32 34 30 32 32 39; ; 04 07 31 32 30; ; 30 30 30 5A | More; More; More; More; Done 4 \"240229120000Z\"; Ok
SEQUENCE { a INTEGER OPTIONAL, b BOOLEAN }:
30; ; 80; ; 02 01 05; ; 01 01; ; FF; ; 00 00 | More; More; More; More; More; More; More; More; More; More; Done 2 { a 5, b TRUE }; Ok
SET { a [0] INTEGER, b [1] BOOLEAN }:
31 06; ; 81 01; ; 01; ; 80 01; ; 07 | More; More; More; More; More; More; More; More; Done 1 { a 7, b TRUE }; Ok
SEQUENCE OF INTEGER:
30 80; ; 02; ; 01 05; ; 00; ; 00 | More; More; More; More; More; More; More; More; Done 1 { 5 }; Ok
SET OF INTEGER:
31 06; ; 02 01 02; ; 02 01; ; 01 | More; More; More; More; More; More; Done 1 { 1, 2 }; Ok
CHOICE { a INTEGER, b [0] EXPLICIT SEQUENCE OF NULL }:
02; ; 01; ; 05 | More; More; More; More; Done 1 a : 5; Ok
A0; ; 80; ; 30 80; ; 05; ; 00; ; 00 00 00 00 | More; More; More; More; More; More; More; More; More; More; Done 4 b : { NULL }; Ok
[0] EXPLICIT [1] EXPLICIT BOOLEAN:
A0 05; ; A1 03; ; 01; ; 01 01 | More; More; More; More; More; More; Done 2 TRUE; Ok
";

// What is returned for pieces, in words.
fn answers_to(alloc: Global, ty: &WellTyped, pieces: &str) -> Result<String, Fail> {
    let mut reader = Reader::new(alloc, ty);
    let answers = fed(alloc, ty, &mut reader, pieces);
    let end = reader.finish();
    with_end(alloc, answers?, end)
}

// What is returned for each piece.
fn fed(alloc: Global, ty: &WellTyped, reader: &mut Reader, pieces: &str) -> Result<String, Fail> {
    let mut answers = String::new(alloc);
    for piece in pieces.split(';') {
        let answer = answer_to(alloc, ty, reader, piece)?;
        answers.push_str(answer.as_str())?;
    }
    Ok(answers)
}

fn answer_to(
    alloc: Global,
    ty: &WellTyped,
    reader: &mut Reader,
    piece: &str,
) -> Result<String, Fail> {
    let octets = unhex(alloc, piece.as_bytes())?;
    let word = word_of(alloc, ty, reader.feed(octets.as_slice()))?;
    Ok(format!(in alloc; "{word}; ")?)
}

// What was returned, and whether all is finished.
fn with_end(alloc: Global, answers: String, end: Result<(), Refusal>) -> Result<String, Fail> {
    let end = match end {
        Ok(()) => String::from_str(alloc, "Ok")?,
        Err(refusal) => number_of(alloc, refusal)?,
    };
    Ok(format!(in alloc; "{answers}{end}")?)
}

fn word_of(alloc: Global, ty: &WellTyped, answer: Result<Step, Refusal>) -> Result<String, Fail> {
    match answer {
        Ok(Step::More) => Ok(String::from_str(alloc, "More")?),
        Ok(Step::Done { value, used }) => done(alloc, ty, &value, used),
        Err(refusal) => number_of(alloc, refusal),
    }
}

fn done(alloc: Global, ty: &WellTyped, value: &Value, used: usize) -> Result<String, Fail> {
    let text = text_of(alloc, ty, value)?;
    Ok(format!(in alloc; "Done {used} {text}")?)
}

fn number_of(alloc: Global, refusal: Refusal) -> Result<String, Fail> {
    let number = refusal.number();
    Ok(format!(in alloc; "{number}")?)
}

struct ToPieces;

impl TypedTable for ToPieces {
    fn holds(&self, alloc: Global, ty: &WellTyped, row: &str) -> Result<bool, Fail> {
        let (pieces, want) = two(row)?;
        let found = answers_to(alloc, ty, pieces)?;
        if found.as_str() == want {
            return Ok(true);
        }
        Err(Fail::new(format_args!("{found} at {row}")))
    }
}

#[test]
fn answers(rt: HostRuntime) -> Result<(), Fail> {
    check_typed(rt.alloc(), &ToPieces, ANSWERS)
}
