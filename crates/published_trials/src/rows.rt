//! Each construct of a module, as a table: an assignment in a line, and below it, behind `=`, its outline, or the
//! fault with its column.

use crate::outlining::outline;
use published::{Published, read};
use std::alloc::{AllocError, Global};
use std::test::Fail;

/// What the assignment in column 1 of line 2 becomes: outlines joined by ` ; `, and places and reasons of faults.
fn told(alloc: Global, assignment: &str) -> Result<String, AllocError> {
    let text = format!(in alloc; "M DEFINITIONS ::= BEGIN\n{assignment}\nEND\n")?;
    let found = read(alloc, 0, text.as_str().as_bytes())?;
    shown(alloc, &found)
}

fn shown(alloc: Global, found: &Published) -> Result<String, AllocError> {
    let mut out = String::new(alloc);
    for module in &found.modules {
        for assignment in &module.assignments {
            let line = outline(alloc, assignment)?;
            out.push_str(line.as_str())?;
            out.push_str(" ; ")?;
        }
    }
    for fault in &found.faults {
        let line = fault.place.line;
        let column = fault.place.column;
        let why = fault.reason.as_str();
        write!(&mut out, "{line}:{column} {why} ; ")?;
    }
    Ok(out)
}

// Whether there are rows in the table, and each becomes what stands below it. The first that does not is printed.
fn holds(rt: &HostRuntime, table: &str) -> Result<bool, Fail> {
    let mut assignment = "";
    for line in table.lines() {
        match line.strip_prefix("= ") {
            Some(wanted) if !assignment.is_empty() => {
                if !becomes(rt, assignment, wanted)? {
                    return Ok(false);
                }
                assignment = "";
            }
            None if assignment.is_empty() => assignment = line,
            _ => {
                println!(rt; "a line without another: {line}")?;
                return Ok(false);
            }
        }
    }
    Ok(assignment.is_empty() && !table.is_empty())
}

// Whether the assignment becomes this. What else it becomes is printed.
fn becomes(rt: &HostRuntime, assignment: &str, wanted: &str) -> Result<bool, Fail> {
    let found = told(rt.alloc(), assignment)?;
    let is_wanted = found.as_str().trim_end_matches(" ; ") == wanted;
    if !is_wanted {
        println!(rt; "{assignment}\n= {found}")?;
    }
    Ok(is_wanted)
}

// Types by reserved words (X.680 clause 17), and one for which two words stand.
const SIMPLE: &str = "\
T ::= BOOLEAN
= T = Boolean
T ::= INTEGER (0..255, ...)
= T = Integer*
T ::= INTEGER{one(1), minus(-5), named(five)}
= T = int one=1 minus=-5 named=five
T ::= BIT STRING
= T = BitString
T ::= BIT STRING { first(0), second(Other.bit) } (SIZE (2..MAX))
= T = bits first=0 second=Other.bit*
T ::= OCTET STRING (SIZE(1..64)) (CONTAINING Other ENCODED BY {1 2 3})
= T = OctetString*
T ::= NULL
= T = Null
T ::= OBJECT IDENTIFIER
= T = ObjectIdentifier
T ::= RELATIVE-OID
= T = RelativeOid
T ::= OID-IRI
= T = OidIri
T ::= REAL
= T = Real
T ::= EXTERNAL
= T = External
T ::= EMBEDDED PDV
= T = EmbeddedPdv
T ::= CHARACTER STRING
= T = CharacterString
T ::= ObjectDescriptor
= T = ObjectDescriptor
T ::= T61String
= T = TeletexString
T ::= ISO646String (FROM (\"A\"..\"Z\"))
= T = VisibleString*
T ::= GeneralizedTime
= T = GeneralizedTime
T ::= TIME-OF-DAY
= T = TimeOfDay
T ::= DATE-TIME
= T = DateTime
T ::= ANY
= T = any
T ::= SEQUENCE { kind OBJECT IDENTIFIER, value ANY DEFINED BY kind OPTIONAL }
= T = seq { kind ObjectIdentifier value any by kind? }
T ::= INSTANCE OF SOME-CLASS
= T = SOME-CLASS instance
";

// Types with parts.
const PARTS: &str = "\
T ::= SEQUENCE{}
= T = seq { }
T ::= SET { a [0] INTEGER, b [APPLICATION 1] IMPLICIT BOOLEAN OPTIONAL, c [PRIVATE 2] EXPLICIT NULL DEFAULT NULL }
= T = set { a C0 Integer b iA1 Boolean? c eP2 Null := null }
T ::= [UNIVERSAL 28] IMPLICIT OCTET STRING
= T = iU28 OctetString
T ::= [named] EXPLICIT [ Other.number ] SEQUENCE OF INTEGER
= T = eCnamed COther.number seq of Integer
T ::= SEQUENCE { a INTEGER, ..., b BOOLEAN, [[ c NULL, d REAL OPTIONAL ]], ..., e UTF8String }
= T = seq { a Integer ... b Boolean c@ Null d@ Real? | e Utf8String }
T ::= SEQUENCE { ..., [[2: a INTEGER]], [[3: b INTEGER]] }
= T = seq { ... a@ Integer b@ Integer }
T ::= SEQUENCE { a INTEGER, ... ! 5, ... }
= T = seq { a Integer ... }
T ::= SEQUENCE { a A, ... ! INTEGER : -1, b B }
= T = seq { a A ... b B }
T ::= SEQUENCE { COMPONENTS OF Other, a INTEGER }
= T = seq { of Other a Integer }
T ::= SEQUENCE SIZE (1..10) OF INTEGER (0..7)
= T = seq of Integer**
T ::= SET (SIZE (0..n)) OF item Other.Item
= T = set of item Other.Item*
T ::= CHOICE { a INTEGER, b [1] SEQUENCE { c BOOLEAN } , ..., d NULL, ... }
= T = choice { a Integer b C1 seq { c Boolean } ... d Null }
T ::= SEQUENCE { a NULL, CHOICE { [0] NULL, b Other }, ..., Other OPTIONAL }
= T = seq { a Null unnamed-2 choice { unnamed-1 C0 Null b Other } ... unnamed-4 Other? }
T ::= CHOICE { a NULL, ..., [[ b NULL, c NULL ]] }
= T = choice { a Null ... b Null c Null }
T ::= ENUMERATED { red, green(5), blue(-1), ..., black(seven), white }
= T = enum red green=5 blue=-1 ... black=seven white
T ::= ENUMERATED { a, ... ! 1 }
= T = enum a ...
T ::= a < Other.Choice
= T = a<Other.Choice
T ::= Other { INTEGER, {Set} }
= T = Other{}
T ::= SOME-CLASS.&Type ({Set}{@kind})
= T = SOME-CLASS.&Type*
T ::= Other.SOME-CLASS.&reference.&Type
= T = Other.SOME-CLASS.&.&
T ::= Vendor_Type (WITH COMPONENTS { ..., a (WITH COMPONENTS {b PRESENT}) })
= T = Vendor_Type*
";

// Values behind DEFAULT, and assignments of values.
const VALUES: &str = "\
T ::= SEQUENCE { a B DEFAULT TRUE, c D DEFAULT -7, e F DEFAULT item, g H DEFAULT Other.value }
= T = seq { a B := true c D := -7 e F := item g H := Other.value }
T ::= SEQUENCE { a B DEFAULT '01 10'B, c D DEFAULT 'aF 0'h, e F DEFAULT \"a\"\"b\" }
= T = seq { a B := '0110'B c D := 'AF0'H e F := \"a\"\"b\" }
T ::= SEQUENCE { a B DEFAULT {}, c D DEFAULT {v1}, e F DEFAULT { v1, v2 } }
= T = seq { a B := { } c D := { v1 } e F := { v1 v2 } }
T ::= SEQUENCE { a B DEFAULT {x 1, y {2, 3}}, c D DEFAULT alt : {x 1}, e F DEFAULT 1.5, g H DEFAULT NULL }
= T = seq { a B := left out c D := left out e F := left out g H := null }
id OBJECT IDENTIFIER ::= { iso(1) member-body(2) 840 rest }
= id : ObjectIdentifier = oid iso=1 member-body=2 840 rest
id OBJECT IDENTIFIER ::= {id-other 5}
= id : ObjectIdentifier = oid id-other 5
limit INTEGER ::= 170141183460469231731687303715884105728
= limit : Integer = 170141183460469231731687303715884105728
text Text ::= \"over
= 2:15 what begins here does not end ; 4:1 the module has no END
list Items ::= { 1, 2, 3 }
= list : Items = left out
object SOME-CLASS ::= { SYNTAX Type IDENTIFIED BY {1 2} }
= object : SOME-CLASS = left out
object SOME-CLASS ::= other
= object : SOME-CLASS = other
object OPERATION ARGUMENT Type RESULT SEQUENCE {a B} ERRORS {c, d} ::= localValue : 5
= object left out: object
sysName OBJECT-TYPE SYNTAX INTEGER {a(1)} DESCRIPTION \"text -- with hyphens\" ::= { group 5 }
= sysName left out: object
";

// What is left out, and what is refused.
const REST: &str = "\
SOME-CLASS ::= CLASS { &id OBJECT IDENTIFIER UNIQUE, &Type OPTIONAL } WITH SYNTAX {[[TYPE &Type]] ID &id}
= SOME-CLASS class &id= &Type
C ::= CLASS { &a INTEGER DEFAULT 5, &b &T, &T DEFAULT NULL, &Set INTEGER, &Sets &T OPTIONAL, &o OTHER, &Os OTHER }
= C class &a= &b &T &Set= &Sets &o= &Os=
Set SOME-CLASS ::= { {Type ID 1} | Other, ... }
= Set left out: set
T {INTEGER : n, Type} ::= SEQUENCE { a INTEGER (0..n), b Type }
= T left out: parameterised
value {INTEGER : n} INTEGER ::= n
= value left out: parameterised
SOME MACRO ::= BEGIN TYPE NOTATION ::= type (Type) | empty VALUE NOTATION ::= value (VALUE INTEGER) END
= SOME left out: macro
Label ::= TEXTUAL-CONVENTION DISPLAY-HINT \"1x:\" STATUS current SYNTAX OCTET STRING (SIZE (6))
= Label left out: macro
UTF8String ::= [UNIVERSAL 12] IMPLICIT OCTET STRING
= UTF8String = iU12 OctetString
T ::= SEQUENCE { a INTEGER b BOOLEAN } U ::= NULL
= U = Null ; 2:28 this cannot stand here
T ::= SEQUENCE { a INTEGER, } U ::= NULL v U ::= NULL W ::= U
= U = Null ; v : U = null ; W = U ; 2:29 this cannot stand here
T ::= SEQUENCE { a INTEGER (0..5 } U ::= NULL
= U = Null ; 2:34 this cannot stand here
T ::= SEQUENCE { a INTEGER, ..., ..., ..., b NULL }
= 2:39 this cannot stand here
T ::= CHOICE { a NULL, ..., ..., b NULL }
= 2:34 this cannot stand here
T ::= ENUMERATED { a, ..., ..., b }
= 2:33 this cannot stand here
T ::= SEQUENCE { [[ a NULL ]] }
= 2:18 this cannot stand here
T ::= INTEGER (0..340282366920938463463374607431768211456)
= 2:19 the number is above 2^127
T ::= SEQUENCE { a $ }
= 2:20 no token of ASN.1 begins so
";

#[test]
fn simple_types(rt: HostRuntime) -> Result<(), Fail> {
    assert!(rt; holds(&rt, SIMPLE)?);
    Ok(())
}

#[test]
fn types_with_parts(rt: HostRuntime) -> Result<(), Fail> {
    assert!(rt; holds(&rt, PARTS)?);
    Ok(())
}

#[test]
fn values(rt: HostRuntime) -> Result<(), Fail> {
    assert!(rt; holds(&rt, VALUES)?);
    Ok(())
}

#[test]
fn left_out_and_refused(rt: HostRuntime) -> Result<(), Fail> {
    assert!(rt; holds(&rt, REST)?);
    Ok(())
}
