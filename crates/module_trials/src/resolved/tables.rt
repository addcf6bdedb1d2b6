//! Tags and numbers of the types of small modules.

use super::{Around, Assignments, Whole};
use std::test::Fail;
use test_tables::check;

// assignments | tag default | the type of T
const TAGS: &str = "\
T ::= [0] NULL                                   |                | [0]EXPLICIT [U5]NULL
T ::= [0] NULL                                   | EXPLICIT TAGS  | [0]EXPLICIT [U5]NULL
T ::= [0] NULL                                   | IMPLICIT TAGS  | [0]NULL
T ::= [0] NULL                                   | AUTOMATIC TAGS | [0]NULL
T ::= [APPLICATION 31] IMPLICIT NULL             |                | [A31]NULL
T ::= [PRIVATE 2] EXPLICIT NULL                  | IMPLICIT TAGS  | [P2]EXPLICIT [U5]NULL
T ::= [1] IMPLICIT [2] NULL                      |                | [1]EXPLICIT [U5]NULL
T ::= [1] IMPLICIT [2] IMPLICIT NULL             |                | [1]NULL
T ::= [1] U U ::= CHOICE { a NULL }              | IMPLICIT TAGS  | [1]EXPLICIT CHOICE{ a [U5]NULL }
T ::= [1] U U ::= [2] CHOICE { a NULL }          | IMPLICIT TAGS  | [1]EXPLICIT CHOICE{ a [U5]NULL }
T ::= [1] IMPLICIT U U ::= [2] CHOICE { a NULL } |                | [1]EXPLICIT CHOICE{ a [U5]NULL }
T ::= U U ::= V V ::= [3] IMPLICIT NULL          |                | [3]NULL
T ::= SET OF SEQUENCE OF NULL                    |                | [U17]SET OF [U16]SEQUENCE OF [U5]NULL
T ::= [0] SET OF [1] NULL                        | IMPLICIT TAGS  | [0]SET OF [1]NULL";

#[test]
fn tags(rt: HostRuntime) -> Result<(), Fail> {
    check(rt.alloc(), &Assignments, TAGS)
}

// assignments | tag default | the type of T
const AUTOMATIC_TAGS: &str = "\
T ::= SEQUENCE { a [5] NULL, b NULL }                              | AUTOMATIC TAGS | [U16]SEQUENCE{ a [5]NULL b [U5]NULL }
T ::= SEQUENCE { a U, b NULL } U ::= [5] NULL                      | AUTOMATIC TAGS | [U16]SEQUENCE{ a [0]NULL b [1]NULL }
T ::= SEQUENCE { a U, b NULL } U ::= [5] EXPLICIT NULL             | AUTOMATIC TAGS | [U16]SEQUENCE{ a [0]EXPLICIT [U5]NULL b [1]NULL }
T ::= SEQUENCE { a CHOICE { x NULL, y BOOLEAN }, b INTEGER }       | AUTOMATIC TAGS | [U16]SEQUENCE{ a [0]EXPLICIT CHOICE{ x [0]NULL y [1]BOOLEAN } b [1]INTEGER }
T ::= SET { a U, b V } U ::= V V ::= CHOICE { x [7] NULL, y NULL } | AUTOMATIC TAGS | [U17]SET{ a [0]EXPLICIT CHOICE{ x [7]NULL y [U5]NULL } b [1]EXPLICIT CHOICE{ x [7]NULL y [U5]NULL } }
T ::= CHOICE { a SEQUENCE { x NULL }, b SET { x [0] NULL } }       | AUTOMATIC TAGS | CHOICE{ a [0]SEQUENCE{ x [0]NULL } b [1]SET{ x [0]NULL } }
T ::= SEQUENCE { }                                                 | AUTOMATIC TAGS | [U16]SEQUENCE{ }";

#[test]
fn automatic_tags(rt: HostRuntime) -> Result<(), Fail> {
    check(rt.alloc(), &Assignments, AUTOMATIC_TAGS)
}

// type | the same with its tag
const UNIVERSAL_TAGS: &str = "\
BOOLEAN             | [U1]BOOLEAN
INTEGER             | [U2]INTEGER
BIT STRING          | [U3]BITS
BIT STRING { a(0) } | [U3]NAMED BITS a(0)
OCTET STRING        | [U4]OCTETS
NULL                | [U5]NULL
OBJECT IDENTIFIER   | [U6]OID
ENUMERATED { a }    | [U10]ENUMERATED a(0)
UTF8String          | [U12]Utf8
RELATIVE-OID        | [U13]RELATIVE-OID
NumericString       | [U18]Numeric
PrintableString     | [U19]Printable
IA5String           | [U22]Ia5
UTCTime             | [U23]Utc
GeneralizedTime     | [U24]Generalized
VisibleString       | [U26]Visible
BMPString           | [U30]Bmp";

#[test]
fn universal_tags(rt: HostRuntime) -> Result<(), Fail> {
    let around = Around {
        front: "T ::= ",
        behind: "",
    };
    check(rt.alloc(), &Whole(around), UNIVERSAL_TAGS)
}

// items | the type that has them, with their numbers
const ITEM_NUMBERS: &str = "\
a, b, c             | [U10]ENUMERATED a(0) b(1) c(2)
a(1), b, c(0), d    | [U10]ENUMERATED a(1) b(2) c(0) d(3)
a, b(0), c, d(2), e | [U10]ENUMERATED a(1) b(0) c(3) d(2) e(4)
a(-1), b            | [U10]ENUMERATED a(-1) b(0)
a(7), b, c(1)       | [U10]ENUMERATED a(7) b(0) c(1)";

#[test]
fn item_numbers(rt: HostRuntime) -> Result<(), Fail> {
    let around = Around {
        front: "T ::= ENUMERATED { ",
        behind: " }",
    };
    check(rt.alloc(), &Whole(around), ITEM_NUMBERS)
}
