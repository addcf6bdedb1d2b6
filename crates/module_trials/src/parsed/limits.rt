//! Limits, each with its two neighbours, and hostile texts.

use super::{Parsed, number_of_type};
use crate::telling::{Built, is_told_of_comments, quoted, repeated};
use std::alloc::Global;
use std::test::Fail;
use test_tables::{Table, check, four};

// What holds a type, between `'` | how often | what it holds | the number of the fault.
struct Levels;

impl Table for Levels {
    fn holds(&self, alloc: Global, row: &str) -> Result<bool, Fail> {
        let (prefix, count, inner, number) = four(row)?;
        let body = repeated(alloc, "", quoted(prefix), count.parse::<usize>()?, inner)?;
        Ok(number_of_type(alloc, body.as_str())? == number.parse::<u32>()?)
    }
}

const LEVELS: &str = "\
'[0] '          | 64    | NULL                | 0
'[0] '          | 65    | NULL                | 31
'[0] '          | 64    | SEQUENCE { }        | 0
'[0] '          | 64    | SEQUENCE { a NULL } | 31
'[0] '          | 64    | CHOICE { a NULL }   | 31
'[0] '          | 64    | ENUMERATED { a }    | 0
'SET OF '       | 64    | NULL                | 0
'SET OF '       | 65    | NULL                | 31
'[0] '          | 65    |                     | 31
'[0] '          | 20000 | NULL                | 31
'SEQUENCE { a ' | 65    | NULL                | 31
'CHOICE { a '   | 65    | NULL                | 31";

#[test]
fn types_nest_at_most_64_deep(rt: HostRuntime) -> Result<(), Fail> {
    check(rt.alloc(), &Levels, LEVELS)
}

// what stands in front, and what is repeated, between `'` | how often | what stands behind | what is told of that
const LISTS: &str = "\
'M DEFINITIONS ::= BEGIN T ::= SEQUENCE { '   | 'a NULL, ' | 255 | z NULL } END | read
'M DEFINITIONS ::= BEGIN T ::= SEQUENCE { '   | 'a NULL, ' | 256 | z NULL } END | 31 at 1:2090
'M DEFINITIONS ::= BEGIN T ::= SET { '        | 'a NULL, ' | 255 | z NULL } END | read
'M DEFINITIONS ::= BEGIN T ::= SET { '        | 'a NULL, ' | 256 | z NULL } END | 31 at 1:2085
'M DEFINITIONS ::= BEGIN T ::= CHOICE { '     | 'a NULL, ' | 255 | z NULL } END | read
'M DEFINITIONS ::= BEGIN T ::= CHOICE { '     | 'a NULL, ' | 256 | z NULL } END | 31 at 1:2088
'M DEFINITIONS ::= BEGIN T ::= ENUMERATED { ' | 'a, '      | 255 | z } END      | read
'M DEFINITIONS ::= BEGIN T ::= ENUMERATED { ' | 'a, '      | 256 | z } END      | 31 at 1:812
'M DEFINITIONS ::= BEGIN T ::= BIT STRING { ' | 'a(0), '   | 255 | z(1) } END   | read
'M DEFINITIONS ::= BEGIN T ::= BIT STRING { ' | 'a(0), '   | 256 | z(1) } END   | 31 at 1:1580";

#[test]
fn lists_have_at_most_256_parts(rt: HostRuntime) -> Result<(), Fail> {
    check(rt.alloc(), &Built(Parsed), LISTS)
}

// what stands in front, and what is repeated, between `'` | how often | what stands behind | what is told of that
const LONG: &str = "\
'M DEFINITIONS ::= BEGIN T ::= ' | '[0] '        | 65     | NULL END                       | 31 at 1:291
'M DEFINITIONS ::= BEGIN END'    | ' '           | 262117 | ''                             | read
'M DEFINITIONS ::= BEGIN END'    | ' '           | 262118 | ''                             | 31 at 1:1
''                               | ' '           | 262117 | 'M DEFINITIONS ::= BEGIN END'  | read
''                               | ' '           | 262117 | 'M DEFINITIONS ::= BEGIN END ' | 31 at 1:1
'M DEFINITIONS ::= BEGIN '       | 'T ::= NULL ' | 20000  | END                            | read";

#[test]
fn hostile_texts(rt: HostRuntime) -> Result<(), Fail> {
    check(rt.alloc(), &Built(Parsed), LONG)
}

#[test]
fn comments_and_no_module(rt: HostRuntime) -> Result<(), Fail> {
    assert!(rt; is_told_of_comments(rt.alloc(), &Parsed, "22 at 1:262145")?);
    Ok(())
}
