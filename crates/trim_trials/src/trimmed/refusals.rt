//! What is refused, each with its place.

use super::{ran, rows_of, squeezed};
use std::alloc::{AllocError, Global};
use std::fmt::Write;
use std::test::Fail;
use trimmer::LineFault;

// Words; assignments, from line 2 on, in a module M with IMPLICIT TAGS; what is printed on standard error.
const REFUSALS: &str = "
T; T ::= SEQUENCE { a ANY, b X.&Type }; m.asn:2:20: refused: an open type at T.a; give --as T.a=TYPE m.asn:2:27: refused: an open type at T.b; give --as T.b=TYPE
T --as T.b=NULL; T ::= SEQUENCE { a ANY }; m.asn:2:20: refused: an open type at T.a; give --as T.a=TYPE asn1x-trim: refused: no open type takes --as T.b
T --as T.a=NULL --as M.U.b=NULL; T ::= SEQUENCE { a NULL } U ::= SEQUENCE { b ANY }; asn1x-trim: refused: no open type takes --as T.a asn1x-trim: refused: no open type takes --as M.U.b
T --as N.T.a=NULL; T ::= SEQUENCE { a ANY }; m.asn:2:20: refused: an open type at T.a; give --as T.a=TYPE asn1x-trim: refused: no open type takes --as N.T.a
T --as T.a=NULL --as T.a=BOOLEAN; T ::= SEQUENCE { a ANY }; asn1x-trim: refused: no open type takes --as T.a
T --as T.a=V --narrow; T ::= SEQUENCE { a ANY OPTIONAL }; m.asn:2:20: refused: no type, or several, of the name V that --as gives at T.a
T --as T.a=N.V; T ::= SEQUENCE { a ANY } V ::= NULL; m.asn:2:20: refused: no type, or several, of the name V that --as gives at T.a
T --as T.a=v --narrow; T ::= SEQUENCE { a ANY OPTIONAL } v NULL ::= NULL; m.asn:2:20: refused: no type, or several, of the name v that --as gives at T.a
T; T ::= SEQUENCE { COMPONENTS OF SEQUENCE { a NULL } }; m.asn:2:32: refused: COMPONENTS OF a type without a name at T; write the components out
T; T ::= SEQUENCE { COMPONENTS OF U } U ::= SET { a NULL }; m.asn:2:32: refused: COMPONENTS OF a type that is no list of the same kind at T; write the components out
T; T ::= SEQUENCE { a NULL, ..., COMPONENTS OF U } U ::= SEQUENCE { b NULL }; m.asn:2:45: refused: COMPONENTS OF a list, among additions at T; write the components out
T; T ::= SEQUENCE { a NULL, COMPONENTS OF T }; m.asn:2:40: refused: T refers to itself at T; give --unroll N
T; T ::= SEQUENCE { COMPONENTS OF U } U ::= SEQUENCE { a V }; m.asn:2:55: refused: V is neither assigned nor imported at U.a
T --narrow; T ::= SEQUENCE { COMPONENTS OF U, c NULL OPTIONAL } U ::= SEQUENCE { a NULL, b ANY OPTIONAL }; m.asn:2:32: refused: COMPONENTS OF a list without the open type at its end at T; write the components out
T --narrow; T ::= SEQUENCE { COMPONENTS OF U, b ANY OPTIONAL } U ::= SEQUENCE { a NULL OPTIONAL }; m.asn:2:37: refused: an open type at T.b; give --as T.b=TYPE
M.T; T ::= SEQUENCE { a NULL, COMPONENTS OF N.T } END N DEFINITIONS AUTOMATIC TAGS ::= BEGIN T ::= SEQUENCE { c NULL }; m.asn:2:40: refused: COMPONENTS OF a list, where tags are automatic in one of the two at T; write the components out
N.U; U ::= SEQUENCE { b NULL } END N DEFINITIONS AUTOMATIC TAGS ::= BEGIN U ::= SEQUENCE { d NULL, COMPONENTS OF M.U }; m.asn:2:109: refused: COMPONENTS OF a list, where tags are automatic in one of the two at U; write the components out
T; T ::= [0] IMPLICIT CHOICE { a NULL }; m.asn:2:7: refused: IMPLICIT in front of a CHOICE or an open type at T
T --as T=NULL; T ::= [0] IMPLICIT ANY; m.asn:2:7: refused: IMPLICIT in front of a CHOICE or an open type at T
T --as T=NULL; T ::= [0] X.&id; m.asn:2:7: refused: a tag without a keyword in front of a field of a class at T; write EXPLICIT or IMPLICIT behind the tag
T; T ::= SEQUENCE { a [0] K.&id, b K.&Type } K ::= CLASS { &id INTEGER UNIQUE, &Type }; m.asn:2:24: refused: a field of a class that has a type of its own at T.a; give --as T.a=TYPE m.asn:2:33: refused: an open type at T.b; give --as T.b=TYPE
T; END N DEFINITIONS AUTOMATIC TAGS ::= BEGIN T ::= SEQUENCE { a K.&id, b U } U ::= K.&id K ::= CLASS { &id INTEGER UNIQUE }; m.asn:2:63: refused: a field of a class that has a type of its own at T.a; give --as T.a=TYPE m.asn:2:82: refused: a field of a class that has a type of its own at U; give --as U=TYPE
T --as T.a=NULL; END N DEFINITIONS AUTOMATIC TAGS ::= BEGIN T ::= SEQUENCE { a K.&id }; m.asn:2:63: refused: an automatic tag in front of a field of a class at T.a; give the file of the class
T; T ::= [UNIVERSAL 3] IMPLICIT INTEGER; m.asn:2:7: refused: a tag of the class UNIVERSAL at T
T; T ::= SEQUENCE { a UTF8String } UTF8String ::= [UNIVERSAL 12] IMPLICIT INTEGER; m.asn:2:48: refused: a tag of the class UNIVERSAL at UTF8String
T; T ::= SEQUENCE { a UTF8String } UTF8String ::= [UNIVERSAL 12] EXPLICIT OCTET STRING; m.asn:2:48: refused: a tag of the class UNIVERSAL at UTF8String
T; T ::= SEQUENCE { a UTF8String } UTF8String ::= [UNIVERSAL 30] IMPLICIT OCTET STRING; m.asn:2:48: refused: a tag of the class UNIVERSAL at UTF8String
T; T ::= SEQUENCE { a VisibleString } ISO646String ::= NULL; m.asn:2:20: refused: a type of two words, of which the module assigns or imports ISO646String at T.a
T; T ::= SEQUENCE { a TIME } TIME ::= NULL TIME ::= NULL; m.asn:2:20: refused: TIME is assigned more than once at T.a
T; IMPORTS TIME FROM N;T ::= SEQUENCE { a TIME }; m.asn:2:40: refused: TIME is of the module N, which is in none of the files at T.a; give its file
T; T ::= SEQUENCE { a S DEFAULT {} } S ::= SEQUENCE OF NULL; m.asn:2:30: refused: a DEFAULT of a kind that asn1x does not take at T.a
T; T ::= SEQUENCE { a V DEFAULT a } V ::= INTEGER { a(v) } v V ::= a; m.asn:2:30: refused: a DEFAULT of a kind that asn1x does not take at T.a
T --narrow; T ::= SEQUENCE { a REAL, b P {NULL}, c x < C } C ::= CHOICE { x NULL }; m.asn:2:20: refused: REAL at T.a m.asn:2:28: refused: a type with parameters at T.b m.asn:2:40: refused: a selection type at T.c
T; T ::= SEQUENCE { a EXTERNAL, b TeletexString, c [0] EXPLICIT T61String }; m.asn:2:20: refused: EXTERNAL at T.a; --narrow leaves it out where values may do without it m.asn:2:32: refused: TeletexString at T.b; --narrow leaves it out where values may do without it m.asn:2:62: refused: TeletexString at T.c; --narrow leaves it out where values may do without it
T; T ::= SEQUENCE { a INSTANCE OF X, b BIT STRING { } }; m.asn:2:20: refused: INSTANCE OF at T.a m.asn:2:37: refused: no part or more than 256 parts at T.b
T; T ::= SEQUENCE { a N.U, b U, c X } U ::= NULL U ::= NULL X ::= CLASS { &id INTEGER }; m.asn:2:20: refused: U is of the module N, which is in none of the files at T.a; give its file m.asn:2:27: refused: U is assigned more than once at T.b m.asn:2:32: refused: X is no type at T.c
T; T ::= SEQUENCE { a N.U } END N DEFINITIONS ::= BEGIN U ::= NULL END N DEFINITIONS ::= BEGIN U ::= NULL; m.asn:2:20: refused: the module N stands in the files more than once at T.a; give one of its files
T; T ::= SEQUENCE { a U } U ::= SEQUENCE { $ }; m.asn:2:20: refused: U is neither assigned nor imported at T.a m.asn:2:41: refused: no token of ASN.1 begins so
T; Foo INTEGER ::= { 1 | 2 } T ::= SEQUENCE { a Foo }; m.asn:2:46: refused: Foo is a set of values at T.a; write the type of these in its place
M.Foo; Foo INTEGER ::= { 1 | 2 }; asn1x-trim: refused: Foo is a set of values
T --as T.a=S --narrow; T ::= SEQUENCE { a ANY OPTIONAL } S INTEGER ::= { 1 }; m.asn:2:20: refused: no type, or several, of the name S that --as gives at T.a
T; T ::= SEQUENCE OF T; m.asn:2:19: refused: T refers to itself at T; give --unroll N
T --unroll 1; T ::= SEQUENCE OF T; m.asn:2:19: refused: T refers to itself at T
T; T ::= SET { a U, b V } U ::= W; m.asn:2:20: refused: V is neither assigned nor imported at T.b m.asn:2:30: refused: W is neither assigned nor imported at U
T; T ::= [v] NULL v INTEGER ::= w; m.asn:2:7: refused: a number that is not known, or out of range at T
T; T ::= [268435456] NULL; m.asn:2:7: refused: a number that is not known, or out of range at T
U; T ::= NULL; asn1x-trim: refused: no module assigns a type U
U; U ::= $; asn1x-trim: refused: no module assigns a type U m.asn:2:7: refused: no token of ASN.1 begins so
M.U; U ::= $; asn1x-trim: refused: U is neither assigned nor imported m.asn:2:7: refused: no token of ASN.1 begins so
N.T; T ::= NULL; asn1x-trim: refused: T is of the module N, which is in none of the files; give its file
T; T ::= NULL END M DEFINITIONS ::= BEGIN T ::= BOOLEAN; asn1x-trim: refused: the module M stands in the files more than once; give one of its files
M.T; T ::= NULL U ::= $ END M DEFINITIONS ::= BEGIN T ::= BOOLEAN; asn1x-trim: refused: the module M stands in the files more than once; give one of its files
T; T ::= NULL U ::= $ END N DEFINITIONS ::= BEGIN T ::= NULL END N DEFINITIONS ::= BEGIN T ::= NULL; asn1x-trim: refused: T stands in several modules; give one of M.T, N.T, N.T
T; T ::= NULL END N DEFINITIONS ::= BEGIN T ::= BOOLEAN; asn1x-trim: refused: T stands in several modules; give one of M.T, N.T
T; T ::= NULL T ::= NULL; asn1x-trim: refused: T is assigned more than once
M.T; T ::= NULL T ::= NULL; asn1x-trim: refused: T is assigned more than once
T; T ::= NULL T ::= NULL END N DEFINITIONS ::= BEGIN T ::= NULL; asn1x-trim: refused: T stands in several modules; give one of M.T, N.T
T --as T.a=V; T ::= SEQUENCE { a ANY } END N DEFINITIONS ::= BEGIN V ::= NULL V ::= NULL; m.asn:2:20: refused: no type, or several, of the name V that --as gives at T.a
T; T ::= SET { a NULL, b NULL }; m.asn:2:1: refused: the type as it is trimmed has tags that are not distinct, which asn1x refuses with 28
T --narrow; T ::= SET { a C } C ::= CHOICE { x REAL, y NULL }; m.asn:2:15: refused: a CHOICE without all of its alternatives in a SET at T.a
T --narrow; T ::= SET { a ANY OPTIONAL }; m.asn:2:15: refused: an open type at T.a; give --as T.a=TYPE
T --narrow; T ::= SEQUENCE { a NULL OPTIONAL, b ANY OPTIONAL }; m.asn:2:37: refused: an open type at T.b; give --as T.b=TYPE
T --narrow; T ::= CHOICE { a NULL, b ANY }; m.asn:2:26: refused: an open type at T.b; give --as T.b=TYPE
T --narrow; T ::= SEQUENCE { c C OPTIONAL, b INTEGER DEFAULT 5 } C ::= CHOICE { x ANY }; m.asn:2:71: refused: an open type at C.x; give --as C.x=TYPE
T --narrow; T ::= SEQUENCE { c CHOICE { x NULL, y CHOICE { z ANY } } OPTIONAL, b NULL OPTIONAL }; m.asn:2:50: refused: an open type at T.c.y.z; give --as T.c.y.z=TYPE
T --narrow; T ::= CHOICE { a NULL, c C } C ::= CHOICE { x BOOLEAN, y ANY }; m.asn:2:58: refused: an open type at C.y; give --as C.y=TYPE
T --narrow; T ::= SEQUENCE { a NULL, ..., b [0] REAL, c [0] BOOLEAN OPTIONAL }; m.asn:2:37: refused: REAL at T.b
T --narrow; T ::= SEQUENCE { a NULL, ..., b [v] REAL OPTIONAL, [[ c [v] BOOLEAN OPTIONAL ]] } v INTEGER ::= 3; m.asn:2:37: refused: REAL at T.b
T --narrow; T ::= SEQUENCE { a NULL, ..., b CHOICE { x [0] REAL, y [1] NULL }, c [0] BOOLEAN }; m.asn:2:33: refused: a CHOICE without all of its alternatives, beside a part with one of their tags at T.b
T --narrow; T ::= SEQUENCE { a NULL, ..., b U OPTIONAL, [[ c W ]] } U ::= CHOICE { x V, y NULL } V ::= [0] REAL W ::= [0] BOOLEAN; m.asn:2:33: refused: a CHOICE without all of its alternatives, beside a part with one of their tags at T.b
T --narrow; T ::= SEQUENCE { a NULL, ..., b U, c V } U ::= [0] REAL V ::= [0] BOOLEAN; m.asn:2:52: refused: REAL at U
T --narrow; T ::= SEQUENCE { a NULL, ..., b P {NULL}, c [0] BOOLEAN }; m.asn:2:33: refused: a type with parameters at T.b
T --narrow; T ::= SEQUENCE { a NULL, ..., b [0] REAL, ..., c [0] BOOLEAN }; m.asn:2:37: refused: REAL at T.b
T --narrow; T ::= SEQUENCE { a NULL, ..., b [0] NULL, ..., c CHOICE { x [0] REAL, y [1] NULL } }; m.asn:2:50: refused: a CHOICE without all of its alternatives, beside a part with one of their tags at T.c
T --narrow; T ::= SEQUENCE { a [0] REAL OPTIONAL, b [0] BOOLEAN }; m.asn:2:24: refused: REAL at T.a
T --narrow; T ::= SET { a [0] REAL OPTIONAL, b NULL, c [0] BOOLEAN }; m.asn:2:19: refused: REAL at T.a
T --narrow; T ::= CHOICE { a [0] REAL, b [0] NULL }; m.asn:2:22: refused: REAL at T.a
T --narrow; T ::= CHOICE { a CHOICE { x [0] REAL, y NULL }, b [0] BOOLEAN }; m.asn:2:18: refused: a CHOICE without all of its alternatives, beside a part with one of their tags at T.a
T --narrow; T ::= SEQUENCE { a [0] REAL OPTIONAL, COMPONENTS OF U } U ::= SEQUENCE { b [0] NULL }; m.asn:2:24: refused: REAL at T.a
T --narrow; T ::= SEQUENCE { a [0] NULL OPTIONAL, COMPONENTS OF U } U ::= SEQUENCE { COMPONENTS OF V, c NULL } V ::= SEQUENCE { b [0] REAL OPTIONAL }; m.asn:2:53: refused: COMPONENTS OF a list without all of its parts, beside a part with one of their tags at T; write the components out
T --narrow --as T.b=U; T ::= SEQUENCE { a [0] REAL OPTIONAL, b K.&Type OPTIONAL } U ::= [0] BOOLEAN; m.asn:2:24: refused: REAL at T.a
T --narrow --as T.b=U; T ::= SEQUENCE { a [0] REAL OPTIONAL, b K.&id } K ::= CLASS { &id INTEGER } U ::= V V ::= [0] INTEGER; m.asn:2:24: refused: REAL at T.a
T --narrow --as T.a=U; T ::= SEQUENCE { a ANY OPTIONAL, ..., b [0] REAL } U ::= [0] NULL; m.asn:2:45: refused: REAL at T.b
T --narrow --as T.b=NULL; T ::= SEQUENCE { a NULL DEFAULT NULL, ..., b ANY }; m.asn:2:33: refused: a DEFAULT of a kind that asn1x does not take at T.a
T --narrow --as T.b=U; T ::= SET { a [0] REAL OPTIONAL, b ANY } U ::= [0] NULL; m.asn:2:19: refused: REAL at T.a
T --narrow --as T.b=U; T ::= CHOICE { a [0] REAL, b ANY } U ::= [0] NULL; m.asn:2:22: refused: REAL at T.a
T --narrow --as V.y=W; T ::= SEQUENCE { a [0] REAL OPTIONAL, b U OPTIONAL } U ::= V V ::= CHOICE { x NULL, y ANY } W ::= CHOICE { z [0] BOOLEAN }; m.asn:2:24: refused: REAL at T.a
T --narrow --as T.s.b.c=U; T ::= SEQUENCE { s SET OF SEQUENCE { a [0] REAL OPTIONAL, b CHOICE { c ANY } OPTIONAL } } U ::= [0] NULL; m.asn:2:44: refused: REAL at T.s.a
T --narrow --as T.b=C --as C.x=U; T ::= SEQUENCE { a [0] REAL OPTIONAL, b ANY OPTIONAL } C ::= CHOICE { x ANY, y NULL } U ::= [0] NULL; m.asn:2:24: refused: REAL at T.a
T --narrow --as T.b=BMPString; T ::= SEQUENCE { a [0] REAL OPTIONAL, b ANY OPTIONAL } BMPString ::= [0] NULL; m.asn:2:24: refused: REAL at T.a
T --narrow --as T.b=U; T ::= SEQUENCE { a CHOICE { x [0] REAL, y NULL } OPTIONAL, b ANY OPTIONAL } U ::= [0] BOOLEAN; m.asn:2:20: refused: a CHOICE without all of its alternatives, beside a part with one of their tags at T.a
T --narrow --as U.b=V; T ::= SEQUENCE { a [0] REAL OPTIONAL, COMPONENTS OF U } U ::= SEQUENCE { b ANY OPTIONAL } V ::= [0] BOOLEAN; m.asn:2:24: refused: REAL at T.a
M.T --narrow --as T.b=N.U; T ::= SEQUENCE { a [0] REAL OPTIONAL, b ANY OPTIONAL } END N DEFINITIONS AUTOMATIC TAGS ::= BEGIN U ::= CHOICE { x NULL }; m.asn:2:24: refused: REAL at T.a
T --narrow --as T.b=NULL; T ::= SEQUENCE { a [0] REAL OPTIONAL, b [0] ANY OPTIONAL }; m.asn:2:24: refused: REAL at T.a
T --as T.a=NULL; T ::= SEQUENCE { a [0] K.&id } K ::= CLASS { &id N.&Type }; m.asn:2:20: refused: a tag without a keyword in front of a field of a class at T.a; write EXPLICIT or IMPLICIT behind the tag
M.T; IMPORTS U FROM N U FROM P;T ::= SEQUENCE { a U } END N DEFINITIONS ::= BEGIN U ::= NULL END P DEFINITIONS ::= BEGIN U ::= BOOLEAN; m.asn:2:46: refused: U is imported from more than one module at T.a
";

// Whether what is printed of a row's assignments is what the row says, and nothing is written.
fn is_as_wanted(alloc: Global, row: &str) -> Result<bool, LineFault> {
    let Some((words, rest)) = row.split_once("; ") else {
        return Ok(false);
    };
    let Some((assignments, wanted)) = rest.split_once("; ") else {
        return Ok(false);
    };
    let text = format!(in alloc; "M DEFINITIONS IMPLICIT TAGS ::= BEGIN\n{assignments}\nEND")?;
    let ran = ran(alloc, text.as_str(), words)?;
    let err = squeezed(alloc, ran.err.as_str())?;
    Ok(err.as_str() == wanted && ran.out.is_empty() && ran.status == 1)
}

#[test]
fn refusals(rt: HostRuntime) -> Result<(), Fail> {
    for row in rows_of(rt.alloc(), REFUSALS)? {
        assert!(rt; is_as_wanted(rt.alloc(), row)?, "at {row}");
    }
    Ok(())
}

// Modules, of which each imports a type from the next one but the last, which assigns it.
fn importing(alloc: Global, count: usize) -> Result<String, AllocError> {
    let mut text = String::new(alloc);
    for number in 1..count {
        let next = number.saturating_add(1);
        write!(
            &mut text,
            "M{number} DEFINITIONS ::= BEGIN IMPORTS T FROM M{next}; END "
        )?;
    }
    write!(&mut text, "M{count} DEFINITIONS ::= BEGIN T ::= NULL END")?;
    Ok(text)
}

// What is told of the type that the first of so many modules imports.
fn told_of(alloc: Global, count: usize) -> Result<String, LineFault> {
    let text = importing(alloc, count)?;
    Ok(ran(alloc, text.as_str(), "M1.T")?.err)
}

#[test]
fn imports_through_modules(rt: HostRuntime) -> Result<(), Fail> {
    let wanted = "asn1x-trim: refused: T is imported through 64 modules or more\n";
    assert_eq!(rt; told_of(rt.alloc(), 64)?.as_str(), "");
    assert_eq!(rt; told_of(rt.alloc(), 65)?.as_str(), wanted);
    Ok(())
}
