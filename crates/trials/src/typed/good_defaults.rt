//! Which types take a default, and which defaults they take.

use super::Faults;
use std::test::Fail;
use test_tables::check;

// type | fault. The first six bad defaults are values of their type, which takes none; the others are not
const DEFAULTS: &str = "\
SEQUENCE{ BOOLEAN=TRUE } | none
SEQUENCE{ INTEGER=5 } | none
SEQUENCE{ ENUMERATED(1)=enum:1 } | none
SEQUENCE{ BITS=bits:80/1 } | none
SEQUENCE{ OCTETS=octets:0A } | none
SEQUENCE{ PrintableString=text:'a' } | none
SET{ [0]{ INTEGER }=5 } | none
SET-OF{ SET{ [1]{ [0]{ INTEGER } }=5 } } | none
SEQUENCE{ CHOICE{ INTEGER }=0(_5_) } | BadDefault
SEQUENCE{ NULL=NULL } | BadDefault
SEQUENCE{ BMPString=text:'' } | BadDefault
SEQUENCE{ OID=oid:1.2 } | BadDefault
SET{ UTCTime=text:'240229120000Z' } | BadDefault
SEQUENCE{ SEQUENCE{ }=fields(_) } | BadDefault
SEQUENCE{ PrintableString=text:612A } | BadDefault
SEQUENCE{ ENUMERATED(1)=enum:2 } | BadDefault
SEQUENCE{ INTEGER=TRUE } | BadDefault
// of a type with named bits the last bit is 1, and past 128 bits no INTEGER is a default
SEQUENCE{ NAMED-BITS(0)=bits:80/7 } | none
SEQUENCE{ NAMED-BITS(0)=bits:80/5 } | BadDefault
SEQUENCE{ NAMED-BITS(0)=bits:00/7 } | BadDefault
SEQUENCE{ INTEGER=wide:0080000000000000000000000000000000 } | BadDefault
SET-OF{ SET{ [0]{ INTEGER }=TRUE } } | BadDefault";

#[test]
fn defaults(rt: HostRuntime) -> Result<(), Fail> {
    check(rt.alloc(), &Faults, DEFAULTS)
}
