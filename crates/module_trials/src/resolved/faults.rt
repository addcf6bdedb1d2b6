//! The numbers and places of faults.

use super::{Around, Assignments, Names, Whole, check_parts};
use std::test::Fail;
use test_tables::check;

// assignments | tag default | the fault of T, or its type
const FAULTS: &str = "\
T ::= SEQUENCE { a INTEGER OPTIONAL, b INTEGER } |                | 28 at 2:1
T ::= SEQUENCE { t T OPTIONAL }                  |                | 25 at 2:1
T ::= [0] IMPLICIT CHOICE { a NULL }             |                | 29 at 2:1
T ::= [1] IMPLICIT U U ::= CHOICE { a NULL }     | IMPLICIT TAGS  | 29 at 2:1
T ::= U                                          |                | 24 at 2:1
T ::= ENUMERATED { a(1), b(1) }                  |                | 27 at 2:1
T ::= ENUMERATED { a, a }                        |                | 26 at 2:1
T ::= SEQUENCE { a BOOLEAN DEFAULT 3 }           |                | 30 at 2:1
T ::= SEQUENCE { a NULL, a NULL }                | AUTOMATIC TAGS | 26 at 2:1
T ::= CHOICE { a NULL, a NULL }                  | AUTOMATIC TAGS | 26 at 2:1
T ::= NULL T ::= NULL                            |                | 26 at 2:12
T ::= NULL U ::= NULL\\n U ::= T T ::= V         |                | 26 at 3:2
U ::= NULL\\n  T ::= SET { a V } V ::= W         |                | 24 at 3:3
U ::= NULL                                       |                | 24 at 1:1
T ::= A A ::= SEQUENCE OF A                      |                | 25 at 2:1
T ::= NULL U ::= V W ::= W                       |                | [U5]NULL
T ::= SET { a NULL, b NULL }                     |                | 28 at 2:1
T ::= CHOICE { a NULL, b CHOICE { c NULL } }     |                | 28 at 2:1";

#[test]
fn faults(rt: HostRuntime) -> Result<(), Fail> {
    check(rt.alloc(), &Assignments, FAULTS)
}

// assignments with several faults, the first of which is left out from each to the next | the fault of T
const SEVERAL: &str = "\
T ::= SEQUENCE { u U, t T, v V }            | 24 at 2:1
U ::= NULL T ::= SEQUENCE { u U, t T, v V } | 25 at 2:12
T ::= V                                     | 26 at 2:1";

#[test]
fn which_of_several(rt: HostRuntime) -> Result<(), Fail> {
    let around = Around {
        front: "",
        behind: " V ::= SEQUENCE { a NULL, a W } W ::= SEQUENCE { i [0] IMPLICIT CHOICE { a NULL } }",
    };
    check(rt.alloc(), &Whole(around), SEVERAL)
}

// parts of T, of which each has the faults of those behind it too | the fault of T
const PARTS: &str = "\
a I, b L, c N, d D, e S | 29 at 2:1
b L, c N, d D, e S      | 31 at 2:1
c N, d D, e S           | 27 at 2:1
d D, e S                | 30 at 2:1
e S                     | 28 at 2:1";

// the same, with named bits
const PARTS_WITH_BITS: &str = "\
r R, l L, n N, d D | 26 at 2:1
l L, n N, d D      | 31 at 2:1
n N, d D           | 27 at 2:1
d D                | 30 at 2:1";

#[test]
fn later_of_several(rt: HostRuntime) -> Result<(), Fail> {
    check_parts(
        rt.alloc(),
        " } I ::= [0] IMPLICIT CHOICE { a NULL } L ::= ",
        " NULL N ::= ENUMERATED { a(1), b(1) } D ::= SEQUENCE { a NULL DEFAULT 0 } S ::= SET { a NULL, b NULL }",
        PARTS,
    )?;
    check_parts(
        rt.alloc(),
        " } R ::= BIT STRING { a(0), a(1) } L ::= ",
        " NULL N ::= BIT STRING { a(1), b(1) } D ::= SEQUENCE { a BIT STRING { a(0) } DEFAULT a }",
        PARTS_WITH_BITS,
    )
}

// name | the fault of the empty module
const OF_NO_MODULE: &str = "\
T | 24 at 1:1";

#[test]
fn names_of_the_empty_module(rt: HostRuntime) -> Result<(), Fail> {
    let module = "M DEFINITIONS ::= BEGIN END";
    check(rt.alloc(), &Names { module }, OF_NO_MODULE)
}
