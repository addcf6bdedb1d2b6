//! Tests of the parser.

use crate::telling::{Tells, between, placed};
use std::alloc::{AllocError, Global};
use syntax::parse;

mod faults;
mod limits;
mod trees;
mod words;

/// The number, line and column of the fault with which a text is refused, or that it is read.
fn told(alloc: Global, text: &str) -> Result<String, AllocError> {
    match parse(alloc, text) {
        Ok(_) => String::from_str(alloc, "read"),
        Err(fault) => placed(alloc, fault),
    }
}

/// What the parser tells.
struct Parsed;

impl Tells for Parsed {
    fn told(&self, alloc: Global, text: &str) -> Result<String, AllocError> {
        told(alloc, text)
    }
}

/// What is told of a module with one assignment, whose type begins in column 31.
fn told_of_type(alloc: Global, body: &str) -> Result<String, AllocError> {
    let text = between(alloc, "M DEFINITIONS ::= BEGIN T ::= ", body, " END")?;
    told(alloc, text.as_str())
}

/// The number of the fault with which such a module is refused, or 0.
fn number_of_type(alloc: Global, body: &str) -> Result<u32, AllocError> {
    let text = between(alloc, "M DEFINITIONS ::= BEGIN T ::= ", body, " END")?;
    match parse(alloc, text.as_str()) {
        Ok(_) => Ok(0),
        Err(fault) => Ok(fault.number),
    }
}
