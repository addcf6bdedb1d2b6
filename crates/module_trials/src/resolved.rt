//! Tests of the types that names mean.

use crate::telling::{between, placed, repeated, spelled};
use notation::{Fault, parse, resolve};
use outline::outline;
use std::alloc::{AllocError, Global};
use std::test::Fail;
use test_tables::{Table, check, three, two};
use types::WellTyped;

mod built_bits;
mod defaults;
mod examples;
mod faults;
mod hostile;
mod named_bits;
mod outline;
mod tables;

/// The type that the module of this text means by the name.
fn resolved(alloc: Global, text: &str, name: &str) -> Result<WellTyped, Fault> {
    resolve(alloc, &parse(alloc, text)?, name)
}

/// The type as a text, or the number and the place of the fault.
fn told(alloc: Global, text: &str, name: &str) -> Result<String, AllocError> {
    match resolved(alloc, text, name) {
        Ok(ty) => outline(alloc, ty.as_type()),
        Err(fault) => placed(alloc, fault),
    }
}

/// What is told of T in a module of these assignments, of which the first begins in column 1 of line 2.
fn told_of(alloc: Global, tagging: &str, assignments: &str) -> Result<String, AllocError> {
    let mut text = between(alloc, "M DEFINITIONS ", tagging, " ::= BEGIN\n")?;
    text.push_str(assignments)?;
    text.push_str(" END")?;
    told(alloc, text.as_str(), "T")
}

/// Assignments | tag default | the type of T, or the number and the place of its fault.
struct Assignments;

impl Table for Assignments {
    fn holds(&self, alloc: Global, row: &str) -> Result<bool, Fail> {
        let (assignments, tagging, wanted) = three(row)?;
        let assignments = spelled(alloc, assignments)?;
        Ok(told_of(alloc, tagging, assignments.as_str())?.as_str() == wanted)
    }
}

/// Assignments with a part that the rows have.
#[derive(Clone, Copy)]
struct Around<'a> {
    front: &'a str,
    behind: &'a str,
}

impl<'a> Around<'a> {
    /// What is told of T where they have this part.
    fn told(self, alloc: Global, part: &str) -> Result<String, AllocError> {
        let assignments = between(alloc, self.front, part, self.behind)?;
        told_of(alloc, "", assignments.as_str())
    }
}

/// The part | the type of T, or the number and the place of its fault.
#[derive(Clone, Copy)]
struct Whole<'a>(Around<'a>);

impl<'a> Table for Whole<'a> {
    fn holds(&self, alloc: Global, row: &str) -> Result<bool, Fail> {
        let (part, wanted) = two(row)?;
        Ok(self.0.told(alloc, part)?.as_str() == wanted)
    }
}

/// The part | what the type of T has in it.
#[derive(Clone, Copy)]
struct Within<'a>(Around<'a>);

impl<'a> Table for Within<'a> {
    fn holds(&self, alloc: Global, row: &str) -> Result<bool, Fail> {
        let (part, wanted) = two(row)?;
        Ok(self.0.told(alloc, part)?.as_str().contains(wanted))
    }
}

/// A name of the module | the type that it means.
#[derive(Clone, Copy)]
struct Names<'a> {
    module: &'a str,
}

impl<'a> Table for Names<'a> {
    fn holds(&self, alloc: Global, row: &str) -> Result<bool, Fail> {
        let (name, wanted) = two(row)?;
        Ok(told(alloc, self.module, name)?.as_str() == wanted)
    }
}

// Checks what is told of a SEQUENCE T by its parts, beside assignments around that of a type with 61 tags.
fn check_parts(alloc: Global, front: &str, behind: &str, rows: &str) -> Result<(), Fail> {
    let behind = repeated(alloc, front, "[0]", 61, behind)?;
    let around = Around {
        front: "T ::= SEQUENCE { ",
        behind: behind.as_str(),
    };
    check(alloc, &Whole(around), rows)
}
