//! Values behind DEFAULT.

use super::{Around, Whole, Within};
use std::test::Fail;
use test_tables::check;

/// A component of T, and the ENUMERATED of some defaults.
const COMPONENT: Around<'static> = Around {
    front: "T ::= SEQUENCE { x ",
    behind: " } E ::= ENUMERATED { a(1), c(0) }",
};

// type and default of a component | the same with its tag, or a fault
const DEFAULTS: &str = "\
BOOLEAN DEFAULT TRUE          | [U1]BOOLEAN DEFAULT Boolean(true)
BOOLEAN DEFAULT FALSE         | [U1]BOOLEAN DEFAULT Boolean(false)
INTEGER DEFAULT -5            | [U2]INTEGER DEFAULT Integer(-5)
E DEFAULT c                   | [U10]ENUMERATED a(1) c(0) DEFAULT Enumerated(0)
[3] E DEFAULT a               | [3]EXPLICIT [U10]ENUMERATED a(1) c(0) DEFAULT Enumerated(1)
OCTET STRING DEFAULT '0aFF'H  | 21
OCTET STRING DEFAULT '0AFF'H  | [U4]OCTETS DEFAULT Octets([10, 255])
OCTET STRING DEFAULT ''H      | [U4]OCTETS DEFAULT Octets([])
IA5String DEFAULT \"a\"\"b\"  | [U22]Ia5 DEFAULT Text([97, 34, 98])
UTF8String DEFAULT \"\u{e9}\" | [U12]Utf8 DEFAULT Text([195, 169])
VisibleString DEFAULT \"\"    | [U26]Visible DEFAULT Text([])";

#[test]
fn defaults(rt: HostRuntime) -> Result<(), Fail> {
    check(rt.alloc(), &Within(COMPONENT), DEFAULTS)
}

// default of a BIT STRING | its octets and how many bits of the last are unused
const DEFAULT_BITS: &str = "\
''B          | octets: [], unused: 0
'1'B         | octets: [128], unused: 7
'10000001'B  | octets: [129], unused: 0
'111111111'B | octets: [255, 128], unused: 7
''H          | octets: [], unused: 0
'A'H         | octets: [160], unused: 4
'A1'H        | octets: [161], unused: 0
'A1F'H       | octets: [161, 240], unused: 4";

#[test]
fn default_bits(rt: HostRuntime) -> Result<(), Fail> {
    let around = Around {
        front: "T ::= SEQUENCE { x BIT STRING DEFAULT ",
        behind: " }",
    };
    check(rt.alloc(), &Within(around), DEFAULT_BITS)
}

// type and default that it does not take | the fault of T
const BAD_DEFAULTS: &str = "\
BOOLEAN DEFAULT 3                                       | 30 at 2:1
INTEGER DEFAULT TRUE                                    | 30 at 2:1
INTEGER DEFAULT 170141183460469231731687303715884105728 | 30 at 2:1
E DEFAULT d                                             | 30 at 2:1
E DEFAULT 1                                             | 30 at 2:1
OCTET STRING DEFAULT '0'H                               | 30 at 2:1
OCTET STRING DEFAULT '00000000'B                        | 30 at 2:1
BIT STRING DEFAULT \"1\"                                | 30 at 2:1
NumericString DEFAULT \"a\"                             | 30 at 2:1
PrintableString DEFAULT \"@\"                           | 30 at 2:1
IA5String DEFAULT \"\u{e9}\"                            | 30 at 2:1
BMPString DEFAULT \"\"                                  | 30 at 2:1
UTF8String DEFAULT ''H                                  | 30 at 2:1
NULL DEFAULT 0                                          | 30 at 2:1
UTCTime DEFAULT \"200101000000Z\"                       | 30 at 2:1
OBJECT IDENTIFIER DEFAULT a                             | 30 at 2:1
SEQUENCE { } DEFAULT 0                                  | 30 at 2:1
CHOICE { a BOOLEAN } DEFAULT TRUE                       | 30 at 2:1
SET OF BOOLEAN DEFAULT TRUE                             | 30 at 2:1";

#[test]
fn bad_defaults(rt: HostRuntime) -> Result<(), Fail> {
    check(rt.alloc(), &Whole(COMPONENT), BAD_DEFAULTS)
}
