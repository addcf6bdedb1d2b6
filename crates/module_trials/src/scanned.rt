//! Tests of the scanner.

use crate::telling::{Tells, placed, spelled, text_and_last};
use lexis::{Token, tokens};
use std::alloc::{AllocError, Global};
use std::test::Fail;
use test_tables::Table;

mod faults;
mod spans;
mod spellings;
mod words;

/// Where the tokens of a text begin and end, or the number and the place of its fault.
fn told(alloc: Global, text: &str) -> Result<String, AllocError> {
    match tokens(alloc, text) {
        Ok(found) => spans_of(alloc, &found),
        Err(fault) => placed(alloc, fault),
    }
}

/// What the scanner tells.
struct Scanned;

impl Tells for Scanned {
    fn told(&self, alloc: Global, text: &str) -> Result<String, AllocError> {
        told(alloc, text)
    }
}

// The spans, as `Debug` prints a list of pairs.
fn spans_of(alloc: Global, tokens: &[Token]) -> Result<String, AllocError> {
    let mut spans = Vec::new(alloc);
    for token in tokens {
        spans.push((token.start, token.end))?;
    }
    format!(in alloc; "{spans:?}")
}

/// A text | what is told of it.
struct Texts;

impl Table for Texts {
    fn holds(&self, alloc: Global, row: &str) -> Result<bool, Fail> {
        let (text, wanted) = text_and_last(row)?;
        let text = spelled(alloc, text)?;
        Ok(told(alloc, text.as_str())?.as_str() == wanted)
    }
}
