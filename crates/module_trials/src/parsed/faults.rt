//! The numbers and the places of faults.

use super::{told, told_of_type};
use crate::telling::{around, placed, spelled, text_and_last};
use lexis::Fault;
use std::alloc::{AllocError, Global};
use std::test::Fail;
use test_tables::{Table, check};

// The text of a module | what is told of it.
struct Modules;

impl Table for Modules {
    fn holds(&self, alloc: Global, row: &str) -> Result<bool, Fail> {
        let (text, wanted) = text_and_last(row)?;
        let text = spelled(alloc, text)?;
        Ok(told(alloc, text.as_str())?.as_str() == wanted)
    }
}

// text | number, line and column of its fault, or that it is read
const MODULES: &str = " | 22 at 1:1
 \\n | 22 at 2:1
M | 22 at 1:2
m DEFINITIONS ::= BEGIN END | 22 at 1:1
BOOLEAN DEFINITIONS ::= BEGIN END | 23 at 1:1
END DEFINITIONS ::= BEGIN END | 23 at 1:1
M DEFINITIONS ::= BEGIN T ::= SET { END NULL } END | 23 at 1:37
REAL DEFINITIONS ::= BEGIN END | 32 at 1:1
::= DEFINITIONS | 22 at 1:1
M ::= BEGIN END | 22 at 1:3
M { 1 } DEFINITIONS ::= BEGIN END | 22 at 1:3
M DEFINITIONS BEGIN END | 22 at 1:15
M DEFINITIONS EXPLICIT ::= BEGIN END | 22 at 1:24
M DEFINITIONS TAGS ::= BEGIN END | 22 at 1:15
M DEFINITIONS ::= END | 22 at 1:19
M DEFINITIONS ::= BEGIN | 22 at 1:24
M DEFINITIONS ::= BEGIN\\n | 22 at 2:1
M DEFINITIONS ::= BEGIN END | read
M DEFINITIONS EXPLICIT TAGS ::= BEGIN END | read
M DEFINITIONS IMPLICIT TAGS ::= BEGIN END | read
M DEFINITIONS AUTOMATIC TAGS ::= BEGIN END | read
M DEFINITIONS ::= BEGIN END -- x | read
M DEFINITIONS ::= BEGIN END END | 22 at 1:29
M DEFINITIONS ::= BEGIN END x | 22 at 1:29
M DEFINITIONS ::= BEGIN END\\nBOOLEAN | 22 at 2:1
M DEFINITIONS ::= BEGIN END REAL | 32 at 1:29
M DEFINITIONS ::= BEGIN END . | 32 at 1:29
M DEFINITIONS ::= BEGIN BOOLEAN ::= NULL END | 23 at 1:25
M DEFINITIONS ::= BEGIN IMPORTS ; END | 32 at 1:25
M DEFINITIONS ::= BEGIN t NULL ::= NULL END | 22 at 1:25
M DEFINITIONS ::= BEGIN ::= END | 22 at 1:25
M DEFINITIONS ::= BEGIN T NULL END | 22 at 1:27
M DEFINITIONS ::= BEGIN T ::= END | 22 at 1:31
M DEFINITIONS ::= BEGIN T ::= NULL | 22 at 1:35
M DEFINITIONS ::= BEGIN T ::= U U ::= NULL END | read
m x # | 21 at 1:5
A\\n # | 21 at 2:2
/* /* */ | 21 at 1:1";

#[test]
fn faults_of_modules(rt: HostRuntime) -> Result<(), Fail> {
    check(rt.alloc(), &Modules, MODULES)
}

// A type | the number of its fault and the octet of the type at which it is refused, or zeros where it is read.
struct Types;

impl Table for Types {
    fn holds(&self, alloc: Global, row: &str) -> Result<bool, Fail> {
        let (body, wanted) = text_and_last(row)?;
        let (number, octet) = around(wanted, " ")?;
        let wanted = told_at(alloc, number.parse::<u32>()?, octet.parse::<u32>()?)?;
        Ok(told_of_type(alloc, body)?.as_str() == wanted.as_str())
    }
}

// What is told of a fault with this number at this octet of the type, or of no fault.
fn told_at(alloc: Global, number: u32, octet: u32) -> Result<String, AllocError> {
    if number == 0 {
        return String::from_str(alloc, "read");
    }
    let fault = Fault {
        number,
        line: 1,
        column: octet.saturating_add(30),
    };
    placed(alloc, fault)
}

// type | number and octet of the type; zeros where it is read
const TYPES: &str = "\
BOOLEAN | 0 0
BIT STRING | 0 0
OBJECT IDENTIFIER | 0 0
U | 0 0
# | 21 1
::= | 22 1
a | 22 1
5 | 22 1
BEGIN | 22 1
OPTIONAL | 22 1
REAL | 32 1
ANY | 32 1
... | 32 1
( | 22 1
{ | 22 1
BIT | 22 5
BIT INTEGER | 22 5
OBJECT | 22 8
INTEGER (5) | 32 9
INTEGER { a(0) } | 32 9
BIT STRING (SIZE (5)) | 32 12
OCTET STRING { a(0) } | 22 14
OCTET STRING (SIZE (5)) | 32 14
NULL { } | 22 6
NULL NULL | 23 6
NULL a | 22 6
NULL | | 32 6
NULL WITH | 32 6
[0] NULL | 0 0
[APPLICATION 31] IMPLICIT NULL | 0 0
[PRIVATE 5] EXPLICIT NULL | 0 0
[UNIVERSAL 1] NULL | 32 2
[268435455] NULL | 0 0
[268435456] NULL | 31 2
[-1] NULL | 22 2
[] NULL | 22 2
[0 NULL | 22 4
[0] IMPLICIT EXPLICIT NULL | 22 14
SEQUENCE { } | 0 0
SET { } | 0 0
SEQUENCE | 22 10
SEQUENCE NULL | 22 10
SEQUENCE (SIZE (1)) OF NULL | 22 10
SEQUENCE OF NULL | 0 0
SEQUENCE OF a NULL | 22 13
SEQUENCE { a NULL } | 0 0
SEQUENCE { a NULL, } | 22 20
SEQUENCE { , a NULL } | 22 12
SEQUENCE { a NULL b NULL } | 22 19
SEQUENCE { A NULL } | 22 12
SEQUENCE { a } | 22 14
SEQUENCE { BOOLEAN NULL } | 23 12
SEQUENCE { COMPONENTS OF T } | 32 12
SEQUENCE { a NULL, ... } | 32 20
SEQUENCE { a INTEGER (5) } | 32 22
SEQUENCE { a INTEGER { b(1) } } | 32 22
SEQUENCE { a NULL OPTIONAL } | 0 0
SEQUENCE { a NULL OPTIONAL DEFAULT TRUE } | 22 28
SEQUENCE { a NULL DEFAULT TRUE OPTIONAL } | 22 32
SEQUENCE { a INTEGER OPTIONAL (5) } | 22 31
SEQUENCE { a INTEGER DEFAULT 1 (5) } | 22 32
SEQUENCE { a SET { } (5) } | 32 22
SEQUENCE { a U (5) } | 32 16
SEQUENCE { a NULL DEFAULT } | 22 27
SEQUENCE { a NULL DEFAULT NULL } | 22 27
SEQUENCE { a NULL DEFAULT REAL } | 32 27
SEQUENCE { a NULL DEFAULT { } } | 22 27
SEQUENCE { a INTEGER DEFAULT -0 } | 22 31
SEQUENCE { a INTEGER DEFAULT -a } | 22 31
CHOICE { } | 22 10
CHOICE { a NULL, b U } | 0 0
CHOICE { a NULL OPTIONAL } | 22 17
CHOICE { BOOLEAN NULL } | 23 10
CHOICE { a NULL, } | 22 18
CHOICE OF NULL | 22 8
CHOICE { a [0] NULL, ... } | 32 22";

#[test]
fn faults_of_types(rt: HostRuntime) -> Result<(), Fail> {
    check(rt.alloc(), &Types, TYPES)
}

// type | number and octet of the type; zeros where it is read
const ITEMS_AND_BITS: &str = "\
ENUMERATED { a } | 0 0
ENUMERATED { a, b } | 0 0
ENUMERATED { a(0) } | 0 0
ENUMERATED { a(-1), b } | 0 0
ENUMERATED { a(-0) } | 22 17
ENUMERATED { a(00) } | 21 16
ENUMERATED { a() } | 22 16
ENUMERATED { a(1 } | 22 18
ENUMERATED { a(b) } | 22 16
ENUMERATED { a (1) (2) } | 22 20
ENUMERATED { } | 22 14
ENUMERATED { a, } | 22 17
ENUMERATED { TRUE } | 23 14
ENUMERATED { a, ... } | 32 17
ENUMERATED { a(170141183460469231731687303715884105727) } | 0 0
ENUMERATED { a(170141183460469231731687303715884105728) } | 31 16
ENUMERATED { a(-170141183460469231731687303715884105728) } | 0 0
ENUMERATED { a(-170141183460469231731687303715884105729) } | 31 17
ENUMERATED a | 22 12
BIT STRING { a(0) } | 0 0
BIT STRING { a(0), b(5) } | 0 0
BIT STRING { a(65535) } | 0 0
BIT STRING { a(65536) } | 31 16
BIT STRING { a(00) } | 21 16
BIT STRING { } | 22 14
BIT STRING { a } | 22 16
BIT STRING { a() } | 22 16
BIT STRING { a(-1) } | 22 16
BIT STRING { a(b) } | 22 16
BIT STRING { a(0 } | 22 18
BIT STRING { a(0) (1) } | 22 19
BIT STRING { a(0) b(1) } | 22 19
BIT STRING { a(0), } | 22 20
BIT STRING { A(0) } | 22 14
BIT STRING { BOOLEAN(0) } | 23 14
BIT STRING { REAL(0) } | 32 14
BIT STRING { | 23 14
BIT STRING { a(0), ... } | 32 20
BIT STRING { a(0) } (SIZE (1)) | 32 21
BIT STRING { a(0) } { b(1) } | 22 21
SEQUENCE { a BIT STRING { b(0) } OPTIONAL } | 0 0
SEQUENCE { a BIT STRING { b(0) } (5) } | 32 34
SET OF BIT STRING { a(0) } | 0 0";

#[test]
fn faults_of_items_and_bits(rt: HostRuntime) -> Result<(), Fail> {
    check(rt.alloc(), &Types, ITEMS_AND_BITS)
}
