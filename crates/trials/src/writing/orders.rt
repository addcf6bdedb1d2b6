//! Values that are the same, and values in order.

use crate::value_notation::{OfValues, ValuesTable, is_value, value_of};
use canon::{order, same};
use octets::NoMemory;
use std::alloc::Global;
use std::test::Fail;
use test_tables::{check, is_yes, two};
use types::{Value, WellTyped, conforms};

// Whether two values, which conform to the type, are the same, and whether they are equal in order.
fn compared(
    alloc: Global,
    ty: &WellTyped,
    value: &Value,
    other: &Value,
) -> Result<Option<(bool, bool)>, NoMemory> {
    if !conforms(ty.as_type(), value) || !conforms(ty.as_type(), other) {
        return Ok(None);
    }
    let same = same(alloc, ty, value, other)?;
    let first = order(alloc, ty, value)?;
    Ok(Some((same, first == order(alloc, ty, other)?)))
}

// type | a value | another | whether they are the same
const SAME: &str = "\
SET-OF{ INTEGER } | items( 5 3 5 ) | items( 3 5 5 ) | yes
SET-OF{ INTEGER } | items( 3 5 5 ) | items( 3 3 5 ) | no
SET-OF{ INTEGER } | items( 3 ) | items( 3 3 ) | no
SET-OF{ INTEGER } | items( ) | items( ) | yes
SEQUENCE-OF{ INTEGER } | items( 1 2 ) | items( 2 1 ) | no
SET-OF{ SET-OF{ INTEGER } } | items( items( 1 2 ) items( 3 ) ) | items( items( 3 ) items( 2 1 ) ) | yes
SET-OF{ SET-OF{ INTEGER } } | items( items( 1 2 ) items( 3 ) ) | items( items( 3 1 ) items( 2 ) ) | no
SEQUENCE{ SET-OF{ INTEGER } [0]{ INTEGER }=1 } | fields( items( 2 1 ) - ) | fields( items( 1 2 ) - ) | yes
SEQUENCE{ SET-OF{ INTEGER } [0]{ INTEGER }=1 } | fields( items( 2 1 ) - ) | fields( items( 1 2 ) 2 ) | no
BITS | bits:F0/4 | bits:FF/4 | yes
BITS | bits:F0/4 | bits:F0/3 | no
BITS | bits:F0/4 | bits:E0/4 | no";

struct Same;

impl ValuesTable for Same {
    fn holds(
        &self,
        alloc: Global,
        ty: &WellTyped,
        value: &Value,
        others: &str,
    ) -> Result<bool, Fail> {
        let (other, want) = two(others)?;
        let want = is_yes(want)?;
        let other = value_of(alloc, other)?;
        Ok(compared(alloc, ty, value, &other)? == Some((want, want)))
    }
}

#[test]
fn the_order_of_a_set_of_does_not_matter(rt: HostRuntime) -> Result<(), Fail> {
    check(rt.alloc(), &OfValues(Same), SAME)
}

// type | a value | the same in order. The encoding 02 01 FF stands before 02 02 01 00
const ORDERED: &str = "\
BOOLEAN | TRUE | TRUE
INTEGER | -7 | -7
OCTETS | octets:0201 | octets:0201
BITS | bits:02F8/3 | bits:02F8/3
BITS | bits:''/0 | bits:''/0
OID | oid:2.100.3 | oid:2.100.3
SET-OF{ INTEGER } | items( 5 3 5 ) | items( 3 5 5 )
SET-OF{ INTEGER } | items( 256 -1 1 ) | items( 1 -1 256 )
SEQUENCE-OF{ INTEGER } | items( 2 1 ) | items( 2 1 )
SET-OF{ SET-OF{ INTEGER } } | items( items( 3 1 ) items( 2 ) items( ) ) | items( items( ) items( 2 ) items( 1 3 ) )
SEQUENCE{ SET-OF{ INTEGER } [0]{ INTEGER }=1 } | fields( items( 2 1 ) 3 ) | fields( items( 1 2 ) 3 )
SET{ SET-OF{ INTEGER } BOOLEAN } | fields( items( 2 1 ) FALSE ) | fields( items( 1 2 ) FALSE )
CHOICE{ NULL [0]{ SET-OF{ OCTETS } } } | 1( items( octets:0000 octets:FF ) ) | 1( items( octets:FF octets:0000 ) )";

struct Ordered;

impl ValuesTable for Ordered {
    fn holds(
        &self,
        alloc: Global,
        ty: &WellTyped,
        value: &Value,
        others: &str,
    ) -> Result<bool, Fail> {
        if !conforms(ty.as_type(), value) {
            return Ok(false);
        }
        is_value(alloc, &order(alloc, ty, value)?, others)
    }
}

#[test]
fn items_are_put_in_order(rt: HostRuntime) -> Result<(), Fail> {
    check(rt.alloc(), &OfValues(Ordered), ORDERED)
}
