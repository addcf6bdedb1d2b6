//! Modules that are made to be hard.

use super::{Names, told};
use crate::telling::{between, quoted, repeated};
use notation::{Module, parse, resolve};
use std::alloc::{AllocError, Global};
use std::test::Fail;
use test_tables::{Table, check, four, prints, two};

/// The number of the fault of `parse`, and of `resolve`, which takes what `parse` made: 0 where there is none.
fn numbers(alloc: Global, text: &str, name: &str) -> (u32, u32) {
    match parse(alloc, text) {
        Ok(module) => (0, number(alloc, &module, name)),
        Err(fault) => (fault.number, 0),
    }
}

/// 0 where the module means a well-formed type by the name, else the number of the fault.
fn number(alloc: Global, module: &Module, name: &str) -> u32 {
    match resolve(alloc, module, name) {
        Ok(_) => 0,
        Err(fault) => fault.number,
    }
}

/// A name of the module | the number of the fault of `resolve`.
#[derive(Clone, Copy)]
struct FaultNumbers<'a> {
    module: &'a str,
}

impl<'a> Table for FaultNumbers<'a> {
    fn holds(&self, alloc: Global, row: &str) -> Result<bool, Fail> {
        let (name, wanted) = two(row)?;
        Ok(numbers(alloc, self.module, name) == (0, wanted.parse::<u32>()?))
    }
}

const CYCLES: &str = "\
A | 25
B | 25
C | 25
T | 25
U | 0";

#[test]
fn cycles(rt: HostRuntime) -> Result<(), Fail> {
    let module = "M DEFINITIONS ::= BEGIN A ::= B B ::= C C ::= A T ::= SET OF A U ::= NULL END";
    check(rt.alloc(), &FaultNumbers { module }, CYCLES)
}

/// A module in which each of forty names holds the one before it twice.
fn doublings(alloc: Global) -> Result<String, AllocError> {
    let mut text = String::from_str(alloc, "M DEFINITIONS AUTOMATIC TAGS ::= BEGIN T0 ::= NULL")?;
    for held in 0u32..40 {
        let name = held.saturating_add(1);
        write!(text, " T{name} ::= SEQUENCE {{ a T{held}, b T{held} }}")?;
    }
    text.push_str(" X ::= SEQUENCE { a T11 } Y ::= SEQUENCE { a T11, b NULL } END")?;
    Ok(text)
}

const NODES: &str = "\
T11 | 0
T12 | 31
T40 | 31
X   | 0
Y   | 31";

#[test]
fn nodes(rt: HostRuntime) -> Result<(), Fail> {
    let text = doublings(rt.alloc())?;
    let module = text.as_str();
    check(rt.alloc(), &FaultNumbers { module }, NODES)
}

// A tag, between `'` | how often it stands | a type | the numbers of the faults of `parse` and of `resolve`.
struct Tags;

impl Table for Tags {
    fn holds(&self, alloc: Global, row: &str) -> Result<bool, Fail> {
        let (tag, count, body, wanted) = four(row)?;
        let tags = repeated(alloc, "", quoted(tag), count.parse::<usize>()?, " ")?;
        prints(alloc, &numbers_of(alloc, tags.as_str(), body)?, wanted)
    }
}

// The numbers for a type with these tags.
fn numbers_of(alloc: Global, tags: &str, body: &str) -> Result<(u32, u32), AllocError> {
    let tagged = between(alloc, tags, body, " END")?;
    let text = between(alloc, "M DEFINITIONS ::= BEGIN T ::= ", tagged.as_str(), "")?;
    Ok(numbers(alloc, text.as_str(), "T"))
}

const LEVELS: &str = "\
'[0]'           | 60 | OCTET STRING | (0, 0)
'[0]'           | 61 | OCTET STRING | (0, 31)
'[0]'           | 64 | OCTET STRING | (0, 31)
'[0]'           | 65 | OCTET STRING | (31, 0)
'[0] IMPLICIT ' | 64 | NULL         | (0, 0)
'[0] IMPLICIT ' | 65 | NULL         | (31, 0)";

#[test]
fn levels(rt: HostRuntime) -> Result<(), Fail> {
    check(rt.alloc(), &Tags, LEVELS)
}

fn told_of_tags(alloc: Global) -> Result<String, AllocError> {
    let front = "M DEFINITIONS ::= BEGIN T ::= ";
    let text = repeated(alloc, front, "[0] IMPLICIT ", 64, " NULL END")?;
    told(alloc, text.as_str(), "T")
}

#[test]
fn implicit_tags(rt: HostRuntime) -> Result<(), Fail> {
    assert_eq!(rt; told_of_tags(rt.alloc())?.as_str(), "[0]NULL");
    Ok(())
}

/// A module in which each of 14,000 names means the one behind it.
fn forwards(alloc: Global) -> Result<String, AllocError> {
    let mut text = String::from_str(alloc, "M DEFINITIONS ::= BEGIN")?;
    for name in 0u32..14_000 {
        let meant = name.saturating_add(1);
        write!(text, " A{name}::=A{meant}")?;
    }
    text.push_str(" A14000 ::= NULL END")?;
    Ok(text)
}

/// A module in which each of 14,000 names means the one before it.
fn backwards(alloc: Global) -> Result<String, AllocError> {
    let mut text = String::from_str(alloc, "M DEFINITIONS ::= BEGIN A0 ::= NULL")?;
    for meant in 0u32..14_000 {
        let name = meant.saturating_add(1);
        write!(text, " A{name}::=A{meant}")?;
    }
    text.push_str(" END")?;
    Ok(text)
}

// name | type
const FIRST: &str = "\
A0 | [U5]NULL";

#[test]
fn long_chains_forwards(rt: HostRuntime) -> Result<(), Fail> {
    let text = forwards(rt.alloc())?;
    let module = text.as_str();
    check(rt.alloc(), &Names { module }, FIRST)
}

// name | type
const LAST: &str = "\
A14000 | [U5]NULL";

#[test]
fn long_chains_backwards(rt: HostRuntime) -> Result<(), Fail> {
    let text = backwards(rt.alloc())?;
    let module = text.as_str();
    check(rt.alloc(), &Names { module }, LAST)
}

/// A module in which each of 4,096 names is a CHOICE of the one before it.
fn choices(alloc: Global) -> Result<String, AllocError> {
    let mut text = String::from_str(alloc, "M DEFINITIONS ::= BEGIN A0 ::= NULL")?;
    for held in 0u32..4_096 {
        let name = held.saturating_add(1);
        write!(text, " A{name} ::= CHOICE {{ a A{held} }}")?;
    }
    text.push_str(" END")?;
    Ok(text)
}

const NESTED_CHOICES: &str = "\
A500  | 0
A4096 | 31";

#[test]
fn nested_choices(rt: HostRuntime) -> Result<(), Fail> {
    let text = choices(rt.alloc())?;
    let module = text.as_str();
    check(rt.alloc(), &FaultNumbers { module }, NESTED_CHOICES)
}
