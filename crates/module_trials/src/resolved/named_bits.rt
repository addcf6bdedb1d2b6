//! BIT STRING with named bits.

use super::{Around, Assignments, Whole, Within};
use std::test::Fail;
use test_tables::check;

// assignments | tag default | the type of T
const TYPES: &str = "\
T ::= BIT STRING { a(0), b(7) }                                                        |                | [U3]NAMED BITS a(0) b(7)
T ::= BIT STRING { b(65535), a-b(0) }                                                  |                | [U3]NAMED BITS b(65535) a-b(0)
T ::= [5] BIT STRING { a(1) }                                                          |                | [5]EXPLICIT [U3]NAMED BITS a(1)
T ::= [5] BIT STRING { a(1) }                                                          | IMPLICIT TAGS  | [5]NAMED BITS a(1)
T ::= [5] IMPLICIT U U ::= V V ::= BIT STRING { a(1) }                                 |                | [5]NAMED BITS a(1)
T ::= SEQUENCE { a BIT STRING { a(0) }, b BIT STRING, c BIT STRING { a(0) } OPTIONAL } | AUTOMATIC TAGS | [U16]SEQUENCE{ a [0]NAMED BITS a(0) b [1]BITS c [2]NAMED BITS a(0) OPTIONAL }
T ::= CHOICE { a NULL, b SET OF BIT STRING { a(0) } }                                  | AUTOMATIC TAGS | CHOICE{ a [0]NULL b [1]SET OF [U3]NAMED BITS a(0) }";

#[test]
fn types_with_named_bits(rt: HostRuntime) -> Result<(), Fail> {
    check(rt.alloc(), &Assignments, TYPES)
}

/// A component of T, and the types of some components.
const COMPONENT: Around<'static> = Around {
    front: "T ::= SEQUENCE { x ",
    behind: " } B ::= BIT STRING { a(0), b(7) } C ::= [5] D D ::= B P ::= BIT STRING",
};

// type and default of a component | the octets of the default and how many bits of the last are unused
const DEFAULTS: &str = "\
BIT STRING { a(0) } DEFAULT '100'B | octets: [128], unused: 7
B DEFAULT '1010'B                  | octets: [160], unused: 5
B DEFAULT 'A0'H                    | octets: [160], unused: 5
B DEFAULT '8000'H                  | octets: [128], unused: 7
B DEFAULT '00800'H                 | octets: [0, 128], unused: 7
B DEFAULT '11111111'B              | octets: [255], unused: 0
B DEFAULT '0'B                     | octets: [], unused: 0
B DEFAULT '000000000'B             | octets: [], unused: 0
B DEFAULT ''B                      | octets: [], unused: 0
B DEFAULT ''H                      | octets: [], unused: 0
C DEFAULT '100'B                   | octets: [128], unused: 7
D DEFAULT '100'B                   | octets: [128], unused: 7
[1] D DEFAULT '100'B               | octets: [128], unused: 7
[1] IMPLICIT C DEFAULT '100'B      | octets: [128], unused: 7
[1] IMPLICIT B DEFAULT '100'B      | octets: [128], unused: 7
BIT STRING DEFAULT '100'B          | octets: [128], unused: 5
P DEFAULT '00'H                    | octets: [0], unused: 0
[1] P DEFAULT '0'B                 | octets: [0], unused: 7";

#[test]
fn defaults_without_bits_0_at_the_end(rt: HostRuntime) -> Result<(), Fail> {
    check(rt.alloc(), &Within(COMPONENT), DEFAULTS)
}

// type and default that it does not take | the fault of T
const BAD_DEFAULTS: &str = "\
B DEFAULT a                   | 30 at 2:1
BIT STRING { a(0) } DEFAULT a | 30 at 2:1
C DEFAULT b                   | 30 at 2:1
B DEFAULT 0                   | 30 at 2:1
B DEFAULT TRUE                | 30 at 2:1
B DEFAULT \"1\"               | 30 at 2:1
B DEFAULT { a }               | 22 at 2:30
B DEFAULT { }                 | 22 at 2:30";

#[test]
fn defaults_that_are_not_taken(rt: HostRuntime) -> Result<(), Fail> {
    check(rt.alloc(), &Whole(COMPONENT), BAD_DEFAULTS)
}

// assignments | tag default | the fault of T, or its type
const FAULTS: &str = "\
T ::= BIT STRING { a(0), a(1) }                               |  | 26 at 2:1
T ::= BIT STRING { a(0), b(1), a(0) }                         |  | 26 at 2:1
T ::= BIT STRING { a(0), b(0) }                               |  | 27 at 2:1
T ::= BIT STRING { a(7), b(0), c(7) }                         |  | 27 at 2:1
T ::= BIT STRING { a(65536) }                                 |  | 31 at 2:22
U ::= BIT STRING { a(0), b(0) } T ::= SET OF [3] U            |  | 27 at 2:33
U ::= BIT STRING { a(0), b(0) } T ::= NULL                    |  | [U5]NULL
T ::= CHOICE { a BIT STRING { a(0) }, b BIT STRING { a(0) } } |  | 28 at 2:1";

#[test]
fn faults(rt: HostRuntime) -> Result<(), Fail> {
    check(rt.alloc(), &Assignments, FAULTS)
}
