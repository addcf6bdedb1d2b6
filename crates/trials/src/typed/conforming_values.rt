//! Which values a type has.

use crate::value_notation::{OfValues, ValuesTable};
use std::alloc::Global;
use std::test::Fail;
use test_tables::{check, is_yes};
use types::{Value, WellTyped, conforms};

struct Conforming;

impl ValuesTable for Conforming {
    fn holds(
        &self,
        _alloc: Global,
        ty: &WellTyped,
        value: &Value,
        others: &str,
    ) -> Result<bool, Fail> {
        Ok(conforms(ty.as_type(), value) == is_yes(others)?)
    }
}

// type | value | whether it is one of the type
const VALUES: &str = "\
SEQUENCE{ INTEGER=1 BOOLEAN } | fields( - TRUE ) | yes
SEQUENCE{ INTEGER=1 BOOLEAN } | fields( 2 TRUE ) | yes
SEQUENCE{ INTEGER=1 BOOLEAN } | fields( 1 TRUE ) | no
SEQUENCE{ INTEGER=1 BOOLEAN } | fields( - - ) | no
SEQUENCE{ INTEGER=1 BOOLEAN } | fields( - ) | no
SEQUENCE{ INTEGER=1 BOOLEAN } | fields( - TRUE - ) | no
SEQUENCE{ INTEGER=1 BOOLEAN } | fields( TRUE 2 ) | no
SEQUENCE{ INTEGER=1 BOOLEAN } | items( TRUE ) | no
SET{ [0]{ INTEGER }=1 } | fields( - ) | yes
SET{ [0]{ INTEGER }=1 } | fields( 2 ) | yes
SET{ [0]{ INTEGER }=1 } | fields( 1 ) | no
[0]{ INTEGER } | 1 | yes
[0]{ INTEGER } | items( 1 ) | no
[0]{ INTEGER } | 0( 1 ) | no
CHOICE{ NULL BOOLEAN } | 0( NULL ) | yes
CHOICE{ NULL BOOLEAN } | 1( TRUE ) | yes
CHOICE{ NULL BOOLEAN } | 0( TRUE ) | no
CHOICE{ NULL BOOLEAN } | 2( NULL ) | no
CHOICE{ NULL BOOLEAN } | NULL | no
SET-OF{ INTEGER } | items( ) | yes
SET-OF{ INTEGER } | items( 2 1 2 ) | yes
SET-OF{ INTEGER } | items( 2 TRUE ) | no
SET-OF{ INTEGER } | items( TRUE 2 ) | no
INTEGER | -170141183460469231731687303715884105728 | yes
INTEGER | 170141183460469231731687303715884105727 | yes
INTEGER | enum:1 | no
INTEGER | wide:0080,00*15 | yes
INTEGER | wide:FF7F,FF*15 | yes
INTEGER | wide:8000,00*14 | no
INTEGER | wide:007F,FF*15 | no
INTEGER | wide:0100,00*1022 | yes
INTEGER | wide:0100,00*1023 | no
[PRIVATE.0]INTEGER | -1 | yes
[PRIVATE.0]INTEGER | NULL | no
ENUMERATED(1,3) | enum:1 | yes
ENUMERATED(1,3) | enum:3 | yes
ENUMERATED(1,3) | enum:0 | no
ENUMERATED(1,3) | enum:2 | no
ENUMERATED(1,3) | 3 | no
OCTETS | octets:'' | yes
OCTETS | octets:FF | yes
OCTETS | text:41 | no
BITS | bits:FE/1 | yes
BITS | octets:FE | no
NAMED-BITS(0) | bits:''/0 | yes
NAMED-BITS(0) | bits:A0/5 | yes
NAMED-BITS(0) | bits:A0/4 | no
NAMED-BITS(0) | bits:01/0 | yes
NAMED-BITS(0) | bits:8000/0 | no
OID | oid:0.0 | yes
OID | oid:1.39 | yes
OID | oid:2.40 | yes
OID | oid:2.999.3 | yes
OID | oid:2.340282366920938463463374607431768211375 | yes
OID | oid:1.2.340282366920938463463374607431768211455 | yes
OID | oid:1*128 | yes
OID | oid:1*129 | yes
OID | oid:1.40 | no
OID | oid:3.0 | no
OID | oid:2 | no
OID | oid:none | no
OID | oid:2.340282366920938463463374607431768211376 | no
OID | oid:340282366920938463463374607431768211455 | no
OID | oid:1*130 | no
OID | relative:1.39 | no
RELATIVE-OID | relative:0 | yes
RELATIVE-OID | relative:1.39 | yes
RELATIVE-OID | relative:1.40 | yes
RELATIVE-OID | relative:0.0 | yes
RELATIVE-OID | relative:2.40 | yes
RELATIVE-OID | relative:2.999.3 | yes
RELATIVE-OID | relative:3.0 | yes
RELATIVE-OID | relative:2 | yes
RELATIVE-OID | relative:2.340282366920938463463374607431768211375 | yes
RELATIVE-OID | relative:2.340282366920938463463374607431768211376 | yes
RELATIVE-OID | relative:1.2.340282366920938463463374607431768211455 | yes
RELATIVE-OID | relative:340282366920938463463374607431768211455 | yes
RELATIVE-OID | relative:1*128 | yes
RELATIVE-OID | relative:none | no
RELATIVE-OID | relative:1*129 | no
RELATIVE-OID | relative:1*130 | no
NULL | TRUE | no
NumericString | text:3120 | yes
NumericString | text:'-' | no
PrintableString | text:'?' | yes
PrintableString | text:'*' | no
PrintableString | text:'@' | no
VisibleString | text:7E | yes
VisibleString | text:7F | no
IA5String | text:7F | yes
IA5String | text:80 | no
UTF8String | text:C3A9 | yes
UTF8String | text:C080 | no
UTF8String | text:EDA080 | no
UTF8String | octets:41 | no
BMPString | text:'' | yes
BMPString | text:E000 | yes
BMPString | text:D800 | no
BMPString | text:41 | no
GeneralizedTime | text:'20240229120000Z' | yes
GeneralizedTime | text:'00000229000000Z' | yes
GeneralizedTime | text:'20230229120000Z' | no
GeneralizedTime | text:'19000229000000Z' | no
GeneralizedTime | text:'20240101235959.05Z' | yes
GeneralizedTime | text:'20240101235959.50Z' | no
GeneralizedTime | text:'20240101240000Z' | no
UTCTime | text:'240229120000Z' | yes
UTCTime | text:'230229120000Z' | no
UTCTime | text:'20240229120000Z' | no";

#[test]
fn values(rt: HostRuntime) -> Result<(), Fail> {
    check(rt.alloc(), &OfValues(Conforming), VALUES)
}
