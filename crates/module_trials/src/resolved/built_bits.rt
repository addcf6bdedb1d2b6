//! Modules that are made in code, with named bits that no text has.

use crate::telling::around;
use notation::{Assignment, Expr, Module, NamedBit, Tagging, resolve};
use std::alloc::{AllocError, Global};
use std::test::Fail;
use test_tables::{Table, check, two};
use types::Name;

// The named bit of this name and number.
fn named(alloc: Global, name: &str, number: u32) -> Result<NamedBit, Fail> {
    let name = Name::new(alloc, name)?;
    Ok(NamedBit { name, number })
}

// The named bit that a word spells, as `a(0)`.
fn bit_of(alloc: Global, word: &str) -> Result<NamedBit, Fail> {
    let (name, number) = around(word, "(")?;
    named(alloc, name, number.trim_end_matches(')').parse::<u32>()?)
}

// The named bits that a column spells, with blanks between them, or `none`.
fn bits_of(alloc: Global, column: &str) -> Result<Vec<NamedBit>, Fail> {
    let mut bits = Vec::new(alloc);
    if column == "none" {
        return Ok(bits);
    }
    for word in column.split(' ') {
        bits.push(bit_of(alloc, word)?)?;
    }
    Ok(bits)
}

// Named bits of the numbers from 0, so many.
fn numbered(alloc: Global, count: u32) -> Result<Vec<NamedBit>, Fail> {
    let mut bits = Vec::new(alloc);
    for number in 0..count {
        let name = format!(in alloc; "a{number}")?;
        bits.push(named(alloc, name.as_str(), number)?)?;
    }
    Ok(bits)
}

// A module in which T is a BIT STRING with these named bits.
fn module_of(alloc: Global, bits: Vec<NamedBit>) -> Result<Module, AllocError> {
    let mut assignments = Vec::new(alloc);
    assignments.push(Assignment {
        name: String::from_str(alloc, "T")?,
        line: 1,
        column: 1,
        body: Expr::NamedBits(bits),
    })?;
    Ok(Module {
        name: String::from_str(alloc, "M")?,
        tagging: Tagging::Explicit,
        assignments,
    })
}

// 0 where a BIT STRING with these named bits is a well-formed type, else the number of the fault.
fn number_of(alloc: Global, bits: Vec<NamedBit>) -> Result<u32, Fail> {
    match resolve(alloc, &module_of(alloc, bits)?, "T") {
        Ok(_) => Ok(0),
        Err(fault) => Ok(fault.number),
    }
}

// Named bits | the number of the fault.
struct Bits;

impl Table for Bits {
    fn holds(&self, alloc: Global, row: &str) -> Result<bool, Fail> {
        let (bits, wanted) = two(row)?;
        Ok(number_of(alloc, bits_of(alloc, bits)?)? == wanted.parse::<u32>()?)
    }
}

const BITS: &str = "\
a(65535)               | 0
a(65536)               | 31
a(4294967295)          | 31
none                   | 31
a(0) b(0)              | 27
a(65536) b(65536)      | 31
a(0) b(0) c(65536)     | 31
a(65536) b(65536) a(0) | 26
a(0) a(0)              | 26";

#[test]
fn bits_that_no_text_has(rt: HostRuntime) -> Result<(), Fail> {
    check(rt.alloc(), &Bits, BITS)
}

// How many named bits | the number of the fault.
struct Counts;

impl Table for Counts {
    fn holds(&self, alloc: Global, row: &str) -> Result<bool, Fail> {
        let (count, wanted) = two(row)?;
        Ok(number_of(alloc, numbered(alloc, count.parse::<u32>()?)?)? == wanted.parse::<u32>()?)
    }
}

const COUNTS: &str = "\
1   | 0
256 | 0
257 | 31";

#[test]
fn most_bits(rt: HostRuntime) -> Result<(), Fail> {
    check(rt.alloc(), &Counts, COUNTS)
}
