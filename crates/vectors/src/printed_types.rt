//! Types printed in the notation of X.680, and read again.

use convert::type_from;
use std::alloc::Global;
use std::test::Fail;
use test_tables::{Table, check};

// Types in a notation that says each tag and keyword, as they are printed.
const PRINTED: &str = "\
BOOLEAN
[0] IMPLICIT INTEGER
[APPLICATION 1] IMPLICIT NULL
[PRIVATE 268435455] EXPLICIT OBJECT IDENTIFIER
[1] EXPLICIT [2] EXPLICIT [3] IMPLICIT RELATIVE-OID
ENUMERATED { red(0), green(-5), most(170141183460469231731687303715884105727) }
[7] IMPLICIT ENUMERATED { only(1) }
BIT STRING
[30] IMPLICIT BIT STRING { first(0), last(65535) }
OCTET STRING
SEQUENCE { }
[31] IMPLICIT SET { }
SET { a UTF8String, b NumericString OPTIONAL, c PrintableString, d IA5String, e VisibleString, f BMPString }
SEQUENCE { a UTCTime, b GeneralizedTime OPTIONAL }
SEQUENCE OF SET OF SEQUENCE { a SEQUENCE OF NULL }
[0] IMPLICIT SEQUENCE OF [1] EXPLICIT SET OF INTEGER
CHOICE { a NULL, b CHOICE { c INTEGER, d [0] EXPLICIT CHOICE { e BOOLEAN } } }
SEQUENCE { a BOOLEAN DEFAULT TRUE, b [0] IMPLICIT BOOLEAN DEFAULT FALSE }
SEQUENCE { a INTEGER DEFAULT -170141183460469231731687303715884105728, b NULL }
SEQUENCE { a [0] EXPLICIT [1] EXPLICIT ENUMERATED { x(1), y(2) } DEFAULT y }
SET { a BIT STRING DEFAULT '0110000001'B, b [0] IMPLICIT BIT STRING DEFAULT ''B }
SET { a BIT STRING { x(0), y(9) } DEFAULT '1000000001'B, b NULL OPTIONAL }
SEQUENCE { a OCTET STRING DEFAULT '0A00FF'H, b [0] IMPLICIT OCTET STRING DEFAULT ''H }
SEQUENCE { a UTF8String DEFAULT \"say \"\"Grüß Gott\"\"\", b [5] IMPLICIT IA5String DEFAULT \"\" }
";

// What a text means as a type where tags are explicit, printed.
fn printed(alloc: Global, text: &str) -> Result<String, Fail> {
    let module = format!(in alloc; "M DEFINITIONS EXPLICIT TAGS ::= BEGIN T ::= {text} END")?;
    let ty = type_from(alloc, module.as_bytes(), "T")?;
    Ok(format!(in alloc; "{ty}", ty = ty.as_type())?)
}

struct PrintedAgain;

impl Table for PrintedAgain {
    fn holds(&self, alloc: Global, row: &str) -> Result<bool, Fail> {
        Ok(printed(alloc, row)?.as_str() == row)
    }
}

#[test]
fn are_printed_as_they_are_written(rt: HostRuntime) -> Result<(), Fail> {
    check(rt.alloc(), &PrintedAgain, PRINTED)
}
