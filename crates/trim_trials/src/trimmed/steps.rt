//! Each step of trimming, before and after.

use super::{is_written, rows_of};
use std::alloc::Global;
use std::test::Fail;
use trimmer::LineFault;

// Tag default; words; assignments of a module M; what is written of them, and on standard error. A line with `#`
// says what allows the step.
const STEPS: &str = "
# constraints and the names of numbers have no part in an encoding (X.690 8.3, 8.6 to 8.12)
; T; T ::= INTEGER (0..5); T ::= INTEGER;
; T; T ::= INTEGER { one(1) } (one); T ::= INTEGER;
; T; T ::= SEQUENCE SIZE (1..4) OF OCTET STRING (SIZE (2)) (CONTAINING U) U ::= NULL; T ::= SEQUENCE OF OCTET STRING;
; T; T ::= SET OF item PrintableString (FROM (\"a\"..\"z\")); T ::= SET OF PrintableString;
# the names of bits say that bits 0 at the end mean nothing (X.680 22, X.690 11.2.2), with SIZE too
; T; T ::= BIT STRING { a(0), b(v) } (SIZE (4)) v INTEGER ::= 2; T ::= BIT STRING { a(0), b(2) };
# a tag without a keyword (X.680 31.2.7)
EXPLICIT TAGS; T; T ::= [0] INTEGER; T ::= [0] EXPLICIT INTEGER;
IMPLICIT TAGS; T; T ::= [0] INTEGER; T ::= [0] IMPLICIT INTEGER;
; T; T ::= [APPLICATION v] EXPLICIT INTEGER v INTEGER ::= 7; T ::= [APPLICATION 7] EXPLICIT INTEGER;
IMPLICIT TAGS; T; T ::= [0] C C ::= D D ::= CHOICE { a NULL }; T ::= [0] EXPLICIT C C ::= D D ::= CHOICE { a NULL };
IMPLICIT TAGS; T; T ::= [0] C C ::= [1] CHOICE { a NULL }; T ::= [0] IMPLICIT C C ::= [1] EXPLICIT CHOICE { a NULL };
IMPLICIT TAGS; T --as T=NULL; T ::= [PRIVATE 1] ANY; T ::= [PRIVATE 1] EXPLICIT NULL;
# automatic tags, by the lists as they are written (X.680 25.3, 25.7 and 29.2)
AUTOMATIC TAGS; T; T ::= SEQUENCE { a NULL, b C } C ::= CHOICE { x NULL, y NULL }; T ::= SEQUENCE { a [0] IMPLICIT NULL, b [1] EXPLICIT C } C ::= CHOICE { x [0] IMPLICIT NULL, y [1] IMPLICIT NULL };
AUTOMATIC TAGS; T; T ::= SEQUENCE { a [3] INTEGER, b BOOLEAN }; T ::= SEQUENCE { a [3] IMPLICIT INTEGER, b BOOLEAN };
AUTOMATIC TAGS; T; T ::= SEQUENCE { a INTEGER, b U } U ::= [7] BOOLEAN; T ::= SEQUENCE { a [0] IMPLICIT INTEGER, b [1] IMPLICIT U } U ::= [7] IMPLICIT BOOLEAN;
AUTOMATIC TAGS; T; T ::= SEQUENCE { a INTEGER, ..., b NULL, [[ c NULL, d NULL ]], ..., e BOOLEAN }; T ::= SEQUENCE { a [0] IMPLICIT INTEGER, b [2] IMPLICIT NULL OPTIONAL, c [3] IMPLICIT NULL OPTIONAL, d [4] IMPLICIT NULL OPTIONAL, e [1] IMPLICIT BOOLEAN };
AUTOMATIC TAGS; T --narrow; T ::= SEQUENCE { a REAL OPTIONAL, b NULL }; T ::= SEQUENCE { b [1] IMPLICIT NULL }; m.asn:2:20: narrowed: T.a is left out: REAL at T.a
# additions may be absent, in values of an earlier version (X.680 6)
; T; T ::= SEQUENCE { a NULL, ..., b INTEGER, c BOOLEAN DEFAULT TRUE, d UTF8String OPTIONAL }; T ::= SEQUENCE { a NULL, b INTEGER OPTIONAL, c BOOLEAN DEFAULT TRUE, d UTF8String OPTIONAL };
; T; T ::= CHOICE { a NULL, ..., b INTEGER }; T ::= CHOICE { a NULL, b INTEGER };
# items without a number (X.680 20)
; T; T ::= ENUMERATED { a, z(25), ..., d }; T ::= ENUMERATED { a(0), z(25), d(1) };
; T; T ::= ENUMERATED { a, b(3), ..., c(1) }; T ::= ENUMERATED { a(0), b(3), c(1) };
; T; T ::= ENUMERATED { a, b, ..., c(3), d }; T ::= ENUMERATED { a(0), b(1), c(3), d(4) };
; T; T ::= ENUMERATED { a(v), b, c(-1), d } v INTEGER ::= 1; T ::= ENUMERATED { a(1), b(0), c(-1), d(2) };
# values behind DEFAULT as literals (X.680 16; X.690 11.5 leaves out the same ones)
; T; T ::= SEQUENCE { a V DEFAULT two, b INTEGER DEFAULT -7, c [5] W DEFAULT w } V ::= [1] INTEGER { two(2) } W ::= V w V ::= two; T ::= SEQUENCE { a V DEFAULT 2, b INTEGER DEFAULT -7, c [5] EXPLICIT W DEFAULT 2 } V ::= [1] EXPLICIT INTEGER W ::= V;
; T; T ::= SEQUENCE { a V DEFAULT a, b W DEFAULT c } V ::= INTEGER { a(v) } v INTEGER ::= 7 W ::= [0] INTEGER { c(w) } w V ::= a; T ::= SEQUENCE { a V DEFAULT 7, b W DEFAULT 7 } V ::= INTEGER W ::= [0] EXPLICIT INTEGER;
; T; T ::= SEQUENCE { a E DEFAULT y, b BOOLEAN DEFAULT t } E ::= ENUMERATED { x, y } y E ::= x t BOOLEAN ::= TRUE; T ::= SEQUENCE { a E DEFAULT y, b BOOLEAN DEFAULT TRUE } E ::= ENUMERATED { x(0), y(1) };
; T; T ::= SEQUENCE { a B DEFAULT { y, x }, b [0] B DEFAULT {}, c [1] B DEFAULT '0101'B } B ::= BIT STRING { x(1), y(4) }; T ::= SEQUENCE { a B DEFAULT '01001'B, b [0] EXPLICIT B DEFAULT ''B, c [1] EXPLICIT B DEFAULT '0101'B } B ::= BIT STRING { x(1), y(4) };
; T; T ::= SEQUENCE { a OCTET STRING DEFAULT '0F'H, b IA5String DEFAULT s } s IA5String ::= \"a\"\"b\"; T ::= SEQUENCE { a OCTET STRING DEFAULT '0F'H, b IA5String DEFAULT \"a\"\"b\" };
# of an OCTET STRING in hexadecimal, with bits 0 up to whole octets (X.680 23), and of a BIT STRING as it is
IMPLICIT TAGS; T; T ::= SEQUENCE { a OCTET STRING DEFAULT 'ABC'H, b [0] OCTET STRING DEFAULT '01'B, c [1] OCTET STRING DEFAULT 'AB C'H }; T ::= SEQUENCE { a OCTET STRING DEFAULT 'ABC0'H, b [0] IMPLICIT OCTET STRING DEFAULT '40'H, c [1] IMPLICIT OCTET STRING DEFAULT 'ABC0'H };
IMPLICIT TAGS; T; T ::= SEQUENCE { a U DEFAULT u, b BIT STRING DEFAULT 'ABC'H, c [1] BIT STRING DEFAULT '01'B } U ::= [0] OCTET STRING u U ::= v v U ::= '000000001'B; T ::= SEQUENCE { a U DEFAULT '0080'H, b BIT STRING DEFAULT 'ABC'H, c [1] IMPLICIT BIT STRING DEFAULT '01'B } U ::= [0] IMPLICIT OCTET STRING;
IMPLICIT TAGS; T; T ::= SEQUENCE { a OCTET STRING DEFAULT ''H, b [0] OCTET STRING DEFAULT ''B, c [1] OCTET STRING DEFAULT '00000000'B }; T ::= SEQUENCE { a OCTET STRING DEFAULT ''H, b [0] IMPLICIT OCTET STRING DEFAULT ''H, c [1] IMPLICIT OCTET STRING DEFAULT '00'H };
# under an implicit tag a character string has the octets of an OCTET STRING (X.690 8.14 and 8.23)
; T; T ::= [0] IMPLICIT U U ::= TeletexString; T ::= [0] IMPLICIT OCTET STRING;
AUTOMATIC TAGS; T; T ::= SEQUENCE { a GeneralString, b ObjectDescriptor }; T ::= SEQUENCE { a [0] IMPLICIT OCTET STRING, b [1] IMPLICIT OCTET STRING };
; T; T ::= ISO646String; T ::= VisibleString;
# a word that X.680 reserved later means the type that the module assigns to it, but where that has the octets of its own
; T; UTF8String ::= OCTET STRING T ::= SEQUENCE { a UTF8String }; T ::= SEQUENCE { a UTF8String-2 } UTF8String-2 ::= OCTET STRING;
IMPLICIT TAGS; T; T ::= SEQUENCE { a [0] TIME, b [1] UniversalString } TIME ::= CHOICE { x NULL } UniversalString ::= CHOICE { y NULL }; T ::= SEQUENCE { a [0] EXPLICIT TIME-2, b [1] EXPLICIT UniversalString-2 } TIME-2 ::= CHOICE { x NULL } UniversalString-2 ::= CHOICE { y NULL };
; T; T ::= SEQUENCE { a DATE DEFAULT 5, b BMPString DEFAULT two } DATE ::= INTEGER BMPString ::= [0] ENUMERATED { one, two }; T ::= SEQUENCE { a DATE-2 DEFAULT 5, b BMPString-2 DEFAULT two } DATE-2 ::= INTEGER BMPString-2 ::= [0] EXPLICIT ENUMERATED { one(0), two(1) };
; T --as T.a=BMPString --as T.b=UTF8String; T ::= SEQUENCE { a ANY, b ANY } BMPString ::= NULL UTF8String ::= [UNIVERSAL 12] IMPLICIT OCTET STRING; T ::= SEQUENCE { a BMPString-2, b UTF8String } BMPString-2 ::= NULL;
; T; T ::= SEQUENCE { a UTF8String DEFAULT \"b\" } UTF8String ::= [UNIVERSAL 12] IMPLICIT OCTET STRING; T ::= SEQUENCE { a UTF8String DEFAULT \"b\" };
IMPLICIT TAGS; T; T ::= SEQUENCE { a BMPString, b GeneralizedTime, c [0] UniversalString } BMPString ::= [UNIVERSAL 30] OCTET STRING GeneralizedTime ::= [UNIVERSAL 24] IMPLICIT VisibleString UniversalString ::= [UNIVERSAL 28] IMPLICIT OCTET STRING; T ::= SEQUENCE { a BMPString, b GeneralizedTime, c [0] IMPLICIT OCTET STRING };
; T; T ::= SEQUENCE { a VisibleString, b ISO646String } ISO646String ::= VisibleString; T ::= SEQUENCE { a VisibleString, b VisibleString };
# under which name the type is written that is asked for, where its own cannot stand
; Un_der; Un_der ::= SEQUENCE { a_b NULL, c TIME } TIME ::= NULL; Un-der ::= SEQUENCE { a-b NULL, c TIME-2 } TIME-2 ::= NULL; m.asn:2:1: renamed: Un_der is written as Un-der
; TIME --verbose; TIME ::= INTEGER (0..5); TIME-2 ::= INTEGER; m.asn:2:1: renamed: TIME is written as TIME-2 m.asn:2:18: dropped: a constraint of TIME
# the types of open types: a value is encoded as one of its own type (X.690 8.15)
; T --as T.a=U --as V=NULL; T ::= SEQUENCE { a ANY DEFINED BY b, b V } U ::= BOOLEAN V ::= FOO.&Type FOO ::= TYPE-IDENTIFIER; T ::= SEQUENCE { a U, b V } U ::= BOOLEAN V ::= NULL;
; T --as T.a.b=INTEGER; T ::= SET OF SEQUENCE { a CHOICE { b ANY } }; T ::= SET OF SEQUENCE { a CHOICE { b INTEGER } };
# a field of a class is open by what its class says (X.681 9 and 14), and a tag in front of an open type explicit
IMPLICIT TAGS; T --as T.a=NULL --as T.b=NULL --as T.c=C --as T.d=NULL; T ::= SEQUENCE { a [0] X.&Type, b [1] X.&id, c [2] X.&id, d [3] IMPLICIT X.&id } X ::= CLASS { &id INTEGER UNIQUE, &Type } C ::= CHOICE { x NULL }; T ::= SEQUENCE { a [0] EXPLICIT NULL, b [1] IMPLICIT NULL, c [2] EXPLICIT C, d [3] IMPLICIT NULL } C ::= CHOICE { x NULL };
; T --as T=NULL; T ::= [0] IMPLICIT X.&id; T ::= [0] IMPLICIT NULL;
IMPLICIT TAGS; T --as T.a=NULL --as U=NULL; T ::= SEQUENCE { a [0] X.&value, b [1] U } X ::= CLASS { &value &Type, &Type OPTIONAL, &Set INTEGER } U ::= X.&Set; T ::= SEQUENCE { a [0] EXPLICIT NULL, b [1] IMPLICIT U } U ::= NULL;
AUTOMATIC TAGS; T --as T.a=INTEGER --as T.b=NULL; T ::= SEQUENCE { a K.&id, b K.&Type } K ::= CLASS { &id INTEGER UNIQUE, &Type }; T ::= SEQUENCE { a [0] IMPLICIT INTEGER, b [1] EXPLICIT NULL };
# a field whose type is a field of another class is what that one is
IMPLICIT TAGS; T --as T.a=NULL --as T.b=INTEGER; T ::= SEQUENCE { a [0] K.&a, b [1] K.&b } K ::= CLASS { &a L.&Type, &b M.L.&id UNIQUE } L ::= CLASS { &id INTEGER, &Type }; T ::= SEQUENCE { a [0] EXPLICIT NULL, b [1] IMPLICIT INTEGER };
# a component or an alternative without a name, as X.208 has it, is named by its place
; T; T ::= SEQUENCE { a NULL, CHOICE { b BOOLEAN, [0] NULL } }; T ::= SEQUENCE { a NULL, unnamed-2 CHOICE { b BOOLEAN, unnamed-2 [0] EXPLICIT NULL } };
# COMPONENTS OF stands for the components of the root (X.680 25.5), each with the tags that it has where it is written
IMPLICIT TAGS; T; T ::= SEQUENCE { a [0] NULL, COMPONENTS OF U, d NULL OPTIONAL } U ::= SEQUENCE { b [1] V OPTIONAL, ..., x NULL, ..., c [2] INTEGER DEFAULT 3 } V ::= INTEGER (0..5); T ::= SEQUENCE { a [0] IMPLICIT NULL, b [1] IMPLICIT V OPTIONAL, c [2] IMPLICIT INTEGER DEFAULT 3, d NULL OPTIONAL } V ::= INTEGER;
AUTOMATIC TAGS; T; T ::= SET { a [0] NULL, COMPONENTS OF U } U ::= SET { b [1] NULL, COMPONENTS OF V } V ::= SET { c [2] ENUMERATED { x, y } DEFAULT y, d [3] BIT STRING { p(0) } DEFAULT '1'B, e [4] SET OF CHOICE { z IA5String } }; T ::= SET { a [0] IMPLICIT NULL, b [1] IMPLICIT NULL, c [2] IMPLICIT ENUMERATED { x(0), y(1) } DEFAULT y, d [3] IMPLICIT BIT STRING { p(0) } DEFAULT '1'B, e [4] IMPLICIT SET OF CHOICE { z [0] IMPLICIT IA5String } };
; T; T ::= SEQUENCE { COMPONENTS OF U } U ::= SEQUENCE { a NULL, ..., x V, ..., c SEQUENCE { y BOOLEAN, ..., z W } } V ::= NULL W ::= BOOLEAN; T ::= SEQUENCE { a NULL, c SEQUENCE { y BOOLEAN, z W OPTIONAL } } W ::= BOOLEAN;
; T --as U.a=NULL --verbose; T ::= SEQUENCE { COMPONENTS OF U } U ::= SEQUENCE { a ANY, b INTEGER (0..5) }; T ::= SEQUENCE { a NULL, b INTEGER }; m.asn:2:70: dropped: a constraint of U.b
; T --narrow; T ::= SEQUENCE { COMPONENTS OF U } U ::= SEQUENCE { a NULL, b REAL OPTIONAL }; T ::= SEQUENCE { a NULL }; m.asn:2:63: narrowed: U.b is left out: REAL at U.b
# what may be absent (X.680 25, 29) is left out, so values that hold it are refused
; T --narrow; T ::= CHOICE { a REAL, b NULL, c U } U ::= SEQUENCE { x EXTERNAL }; T ::= CHOICE { b NULL }; m.asn:2:18: narrowed: T.a is left out: REAL at T.a m.asn:2:34: narrowed: T.c is left out: EXTERNAL at U.x
; T --narrow; T ::= SEQUENCE { a U OPTIONAL, b NULL DEFAULT NULL } U ::= CHOICE { x REAL, y REAL }; T ::= SEQUENCE { }; m.asn:2:20: narrowed: T.a is left out: REAL at U.x m.asn:2:34: narrowed: T.b is left out: a DEFAULT of a kind that asn1x does not take at T.b
; T --narrow; T ::= SEQUENCE { a OBJECT IDENTIFIER, b ANY DEFINED BY a OPTIONAL }; T ::= SEQUENCE { a OBJECT IDENTIFIER }; m.asn:2:41: narrowed: T.b is left out: an open type at T.b
; T --narrow; T ::= SEQUENCE { a CHOICE { x [1] ANY } OPTIONAL, b NULL OPTIONAL }; T ::= SEQUENCE { b NULL OPTIONAL }; m.asn:2:20: narrowed: T.a is left out: an open type at T.a.x
AUTOMATIC TAGS; T --narrow; T ::= SEQUENCE { a CHOICE { x ANY, y NULL }, b NULL }; T ::= SEQUENCE { a [0] EXPLICIT CHOICE { y [1] IMPLICIT NULL }, b [1] IMPLICIT NULL }; m.asn:2:31: narrowed: T.a.x is left out: an open type at T.a.x
IMPLICIT TAGS; T --narrow; T ::= SEQUENCE { a [0] REAL OPTIONAL, b NULL, c [0] BOOLEAN OPTIONAL }; T ::= SEQUENCE { b NULL, c [0] IMPLICIT BOOLEAN OPTIONAL }; m.asn:2:20: narrowed: T.a is left out: REAL at T.a
IMPLICIT TAGS; T --narrow; T ::= SEQUENCE { a NULL, ..., b CHOICE { x [0] REAL, y [1] NULL }, c [2] BOOLEAN, d [3] REAL, ..., e [4] NULL }; T ::= SEQUENCE { a NULL, b CHOICE { y [1] IMPLICIT NULL } OPTIONAL, c [2] IMPLICIT BOOLEAN OPTIONAL, e [4] IMPLICIT NULL }; m.asn:2:44: narrowed: T.b.x is left out: REAL at T.b.x m.asn:2:85: narrowed: T.d is left out: REAL at T.d
IMPLICIT TAGS; T --narrow; T ::= SEQUENCE { a [0] NULL, ..., b P {NULL}, ... }; T ::= SEQUENCE { a [0] IMPLICIT NULL }; m.asn:2:37: narrowed: T.b is left out: a type with parameters at T.b
IMPLICIT TAGS; T --narrow; T ::= SEQUENCE { a [0] NULL OPTIONAL, COMPONENTS OF U } U ::= SEQUENCE { b [1] REAL OPTIONAL, c [2] NULL }; T ::= SEQUENCE { a [0] IMPLICIT NULL OPTIONAL, c [2] IMPLICIT NULL }; m.asn:2:76: narrowed: U.b is left out: REAL at U.b
IMPLICIT TAGS; T --narrow --as T.b=U --as T.c=V; T ::= SEQUENCE { a [0] REAL OPTIONAL, b [1] ANY OPTIONAL, c ANY } U ::= [0] NULL V ::= [2] NULL; T ::= SEQUENCE { b [1] EXPLICIT U OPTIONAL, c V } U ::= [0] IMPLICIT NULL V ::= [2] IMPLICIT NULL; m.asn:2:20: narrowed: T.a is left out: REAL at T.a
# a name stands for its type (X.680 14), so one that refers to itself is written out, its last level narrowed
; T --unroll 1; T ::= CHOICE { a U, b NULL } U ::= SET OF T; T ::= CHOICE { a U, b NULL } U ::= SET OF T-2 T-2 ::= CHOICE { b NULL }; m.asn:2:18: narrowed: T.a is left out: T refers to itself at U
; T --unroll 2; T ::= SEQUENCE { a NULL, b T OPTIONAL }; T ::= SEQUENCE { a NULL, b T-2 OPTIONAL } T-2 ::= SEQUENCE { a NULL, b T-3 OPTIONAL } T-3 ::= SEQUENCE { a NULL }; m.asn:2:28: narrowed: T.b is left out: T refers to itself at T.b
# what is dropped is told
; T --verbose; T ::= INTEGER { a(1) } (0..1); T ::= INTEGER; m.asn:2:7: dropped: names of numbers of T m.asn:2:24: dropped: a constraint of T
";

// Whether what is written of a row's assignments, and told, is what the row says.
fn is_as_wanted(alloc: Global, row: &str) -> Result<bool, LineFault> {
    let mut columns = row.split(';');
    let tags = columns.next().unwrap_or("");
    let words = columns.next().unwrap_or("").trim();
    let assignments = columns.next().unwrap_or("").trim();
    let wanted = columns.next().unwrap_or("").trim();
    let told = columns.next().unwrap_or("").trim();
    let text = format!(in alloc; "M DEFINITIONS {tags} ::= BEGIN\n{assignments}\nEND")?;
    let wanted = format!(in alloc; "M DEFINITIONS EXPLICIT TAGS ::= BEGIN {wanted} END")?;
    is_written(alloc, text.as_str(), words, wanted.as_str(), told)
}

#[test]
fn steps(rt: HostRuntime) -> Result<(), Fail> {
    for row in rows_of(rt.alloc(), STEPS)? {
        assert!(rt; is_as_wanted(rt.alloc(), row)?, "at {row}");
    }
    Ok(())
}

// Two modules, of which one imports from the other.
const TWO: &str = "
A DEFINITIONS IMPLICIT TAGS ::= BEGIN IMPORTS U, v, DATE FROM B { 1 2 3 } ;
T ::= SEQUENCE { a U, b Time, c [v] B.Time, d DATE }
Time ::= NULL
END
B { 1 2 3 } DEFINITIONS EXPLICIT TAGS ::= BEGIN EXPORTS U, Time, DATE ;
U ::= [1] Time
Time ::= [2] INTEGER (0..v)
v INTEGER ::= 9
Time-2 ::= NULL
DATE ::= [3] NULL
END";

const OF_TWO: &str =
    "A DEFINITIONS EXPLICIT TAGS ::= BEGIN T ::= SEQUENCE { a U, b Time, c [9] IMPLICIT Time-2, d DATE-2 } \
U ::= [1] EXPLICIT Time-2 Time ::= NULL Time-2 ::= [2] EXPLICIT INTEGER \
DATE-2 ::= [3] EXPLICIT NULL END";

#[test]
fn modules_that_import(rt: HostRuntime) -> Result<(), Fail> {
    assert!(rt; is_written(rt.alloc(), TWO, "T", OF_TWO, "")?);
    Ok(())
}

// Two modules that assign types to one name.
const SEVERAL: &str =
    "A DEFINITIONS ::= BEGIN T ::= NULL END B DEFINITIONS ::= BEGIN T ::= BOOLEAN END";

const OF_SECOND: &str = "B DEFINITIONS EXPLICIT TAGS ::= BEGIN T ::= BOOLEAN END";

#[test]
fn a_name_of_several_modules(rt: HostRuntime) -> Result<(), Fail> {
    assert!(rt; is_written(rt.alloc(), SEVERAL, "B.T", OF_SECOND, "")?);
    Ok(())
}
