//! A module of the profile trims to one whose types are equal to its own.

use super::{ran, rows_of};
use notation::{Fault, parse, resolve};
use std::alloc::Global;
use std::mem::drop;
use std::test::Fail;
use trimmer::LineFault;
use types::WellTyped;

// Name; the module. What stands between tokens is odd in places.
const MODULES: &str = "
Call; -- The records of a telephone exchange. -- Calls DEFINITIONS IMPLICIT TAGS ::= BEGIN Call ::= [APPLICATION 1] SET { caller [0] Number, called [1] Party, started [2] GeneralizedTime, seconds [3] INTEGER DEFAULT 0, outcome [4] ENUMERATED { answered, busy, noAnswer(5) } DEFAULT answered, services [5] SET OF OBJECT IDENTIFIER OPTIONAL, note [6] UTF8String OPTIONAL } Party ::= CHOICE { number Number, name [1] PrintableString, emergency [2] NULL } Number ::= [APPLICATION 2] NumericString END
T; M DEFINITIONS::=BEGIN T::=SEQUENCE{a BOOLEAN DEFAULT TRUE,b INTEGER DEFAULT -5,c BIT STRING DEFAULT'1'B,d OCTET STRING DEFAULT'0F'H OPTIONAL}END
T; M DEFINITIONS::=BEGIN T::=SEQUENCE{a BOOLEAN DEFAULT FALSE,b INTEGER DEFAULT 5,c BIT STRING DEFAULT'1'B,d[0]OCTET STRING DEFAULT'0F'H}END
T; M/**/DEFINITIONS/*DEFINITIONS*/AUTOMATIC--x--TAGS/*::=*/::=BEGIN T::=SET{a U,b CHOICE{x U,y NULL},c SEQUENCE OF U,d SET OF CHOICE{z RELATIVE-OID}}U::=[5]EXPLICIT BMPString END
T; M DEFINITIONS AUTOMATIC TAGS ::= BEGIN T ::= SEQUENCE { a [0] INTEGER, b U } U ::= CHOICE { x V, y W } V ::= VisibleString W ::= IA5String END
T; M DEFINITIONS AUTOMATIC TAGS ::= BEGIN T ::= CHOICE { a U, b U, c CHOICE { d U } } U ::= CHOICE { x NULL } END
T; M DEFINITIONS EXPLICIT TAGS ::= BEGIN T ::= [0] [PRIVATE 1] IMPLICIT [APPLICATION 2] U U ::= SET { a UTCTime OPTIONAL, b [268435455] NULL } END
T; M DEFINITIONS IMPLICIT TAGS ::= BEGIN T ::= BIT STRING { z(65535), a(0) } END
T; M DEFINITIONS ::= BEGIN T ::= SEQUENCE { a ENUMERATED { x(-170141183460469231731687303715884105728), y, z(170141183460469231731687303715884105727) } DEFAULT y, b OBJECT IDENTIFIER } END
T; M DEFINITIONS ::= BEGIN T ::= SEQUENCE { } END
T; M DEFINITIONS IMPLICIT TAGS ::= BEGIN T ::= SEQUENCE { a [0] U DEFAULT '0100'B, b [1] U DEFAULT ''B } U ::= BIT STRING { p(1), q(1) } END
T; M DEFINITIONS ::= BEGIN T ::= SEQUENCE { a UTF8String DEFAULT \"a\"\"-- b\", b NumericString DEFAULT \"1 2\", c PrintableString DEFAULT \"\" } END
";

// The type that the module of this text means by the name.
fn meant(alloc: Global, text: &str, name: &str) -> Result<WellTyped, Fault> {
    resolve(alloc, &parse(alloc, text)?, name)
}

// What the program writes of the module for the name.
fn written(alloc: Global, text: &str, name: &str) -> Result<String, LineFault> {
    Ok(ran(alloc, text, name)?.out)
}

// Whether the types of the module as it is, and as it is trimmed, are equal; or it is refused, and nothing is
// written.
fn are_equal(alloc: Global, before: &str, after: &str, name: &str) -> bool {
    match meant(alloc, before, name) {
        Ok(ty) => {
            let is_equal = is_meant(alloc, after, name, &ty);
            drop(ty);
            is_equal
        }
        Err(_) => after.is_empty(),
    }
}

// Whether the module means a type by the name that is equal to this one.
fn is_meant(alloc: Global, text: &str, name: &str, ty: &WellTyped) -> bool {
    match meant(alloc, text, name) {
        Ok(found) => {
            let is_equal = found.as_type() == ty.as_type();
            drop(found);
            is_equal
        }
        Err(_) => false,
    }
}

/// Whether the module means a type by the name.
pub fn has_meaning(alloc: Global, text: &str, name: &str) -> bool {
    match meant(alloc, text, name) {
        Ok(found) => {
            drop(found);
            true
        }
        Err(_) => false,
    }
}

/// Whether the module trims to one in which the name means an equal type, or is refused by both.
pub fn is_kept(alloc: Global, text: &str, name: &str) -> Result<bool, LineFault> {
    let after = written(alloc, text, name)?;
    Ok(are_equal(alloc, text, after.as_str(), name))
}

// Whether the row's module is kept.
fn is_row_kept(alloc: Global, row: &str) -> Result<bool, LineFault> {
    match row.split_once("; ") {
        Some((name, text)) => is_kept(alloc, text, name),
        None => Ok(false),
    }
}

#[test]
fn modules_of_the_profile(rt: HostRuntime) -> Result<(), Fail> {
    for row in rows_of(rt.alloc(), MODULES)? {
        assert!(rt; is_row_kept(rt.alloc(), row)?, "at {row}");
    }
    Ok(())
}
