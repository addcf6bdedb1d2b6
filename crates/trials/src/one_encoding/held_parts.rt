//! What open encodings hold of their parts.

use crate::type_notation::{tag_of, ty_of};
use crate::value_notation::{is_value, value_of};
use encoding_parts::{HeldParts, held_parts_of};
use std::alloc::Global;
use std::test::Fail;
use test_tables::{Table, check, four, is_refused, is_yes};
use types::{Refusal, Ty, Value};

// Puts the parts of a column into what holds them, to the first that is refused.
fn put_parts(
    alloc: Global,
    held: &mut HeldParts<'_>,
    column: &str,
) -> Result<Option<Refusal>, Fail> {
    if column == "none" {
        return Ok(None);
    }
    for part in column.split(' ') {
        let (tag, value) = part.split_once('=').ok_or("a part without a value")?;
        match held.due(tag_of(tag)?) {
            Ok((which, _)) => held.put(which, value_of(alloc, value)?)?,
            Err(refusal) => return Ok(Some(refusal)),
        }
    }
    Ok(None)
}

struct Parts;

impl Table for Parts {
    fn holds(&self, alloc: Global, row: &str) -> Result<bool, Fail> {
        let (ty, parts, definite, want) = four(row)?;
        let definite = is_yes(definite)?;
        is_held(alloc, &ty_of(alloc, ty)?, parts, (definite, want))
    }
}

fn is_held(
    alloc: Global,
    ty: &Ty,
    parts: &str,
    (definite, want): (bool, &str),
) -> Result<bool, Fail> {
    let mut held = held_parts_of(alloc, ty)?.ok_or("a type without parts")?;
    let refused = put_parts(alloc, &mut held, parts);
    // a list is the same whether it is fitted or not
    is_so(alloc, refused, &held.into_value(definite, definite), want)
}

// Whether a column says how a part was refused, or else the value or its refusal.
fn is_so(
    alloc: Global,
    refused: Result<Option<Refusal>, Fail>,
    value: &Result<Value, Refusal>,
    want: &str,
) -> Result<bool, Fail> {
    match (refused?, value) {
        (Some(refusal), _) => is_refused(refusal.number(), want),
        (None, Ok(value)) => is_value(alloc, value, want),
        (None, Err(refusal)) => is_refused(refusal.number(), want),
    }
}

// type | the tags of the parts that come, each with its value | whether the form is definite | the value or the refusal
const PARTS: &str = "\
SEQUENCE{ } | none | yes | fields( )
SEQUENCE{ } | 0=5 | yes | refused 2
SEQUENCE{ } | UNIVERSAL.0=7 | yes | refused 2
SEQUENCE{ [0]INTEGER [1]INTEGER } | 0=5 1=7 | yes | fields( 5 7 )
SEQUENCE{ [0]INTEGER [1]INTEGER } | 0=5 | yes | refused 8
SEQUENCE{ [0]INTEGER [1]INTEGER } | 1=5 | yes | refused 8
SEQUENCE{ [0]INTEGER [1]INTEGER } | 2=5 | yes | refused 2
SEQUENCE{ [0]INTEGER [1]INTEGER } | UNIVERSAL.0=7 | yes | refused 5
SEQUENCE{ [0]INTEGER [1]INTEGER } | 0=5 1=5 UNIVERSAL.0=7 | yes | refused 2
SEQUENCE{ [0]INTEGER [1]INTEGER } | 0=5 0=5 | yes | refused 2
SEQUENCE{ [0]INTEGER? [1]INTEGER? [2]INTEGER } | 2=5 | yes | fields( - - 5 )
SEQUENCE{ [0]INTEGER? [1]INTEGER? [2]INTEGER } | 1=5 2=5 | yes | fields( - 5 5 )
SEQUENCE{ [0]INTEGER? [1]INTEGER? [2]INTEGER } | 1=5 0=5 | yes | refused 2
SEQUENCE{ [0]INTEGER [1]INTEGER? } | 0=5 UNIVERSAL.0=7 | yes | refused 5
SEQUENCE{ [0]INTEGER=5 [1]INTEGER=5 [2]INTEGER? } | 0=5 1=7 | yes | fields( - 7 - )
SEQUENCE{ [0]INTEGER=5 [1]INTEGER=5 [2]INTEGER? } | none | yes | fields( - - - )
SEQUENCE{ [0]INTEGER [1]INTEGER? [2]INTEGER=5 } | 0=7 2=7 | yes | fields( 7 - 7 )
SET{ } | none | yes | fields( )
SET{ } | 0=5 | yes | refused 2
SET{ } | UNIVERSAL.0=7 | yes | refused 2
SET{ [0]INTEGER [1]INTEGER } | 0=5 1=7 | yes | fields( 5 7 )
SET{ [0]INTEGER [1]INTEGER } | 1=7 0=5 | yes | fields( 5 7 )
SET{ [0]INTEGER [1]INTEGER } | 1=5 | yes | refused 8
SET{ [0]INTEGER [1]INTEGER } | 1=5 1=5 | yes | refused 9
SET{ [0]INTEGER [1]INTEGER } | 1=5 2=5 | yes | refused 2
SET{ [0]INTEGER [1]INTEGER } | 1=5 UNIVERSAL.0=7 | yes | refused 5
SET{ [0]INTEGER [1]INTEGER } | 1=5 0=5 UNIVERSAL.0=7 | yes | refused 2
SET{ [0]INTEGER [1]INTEGER [2]INTEGER } | 1=7 0=5 2=7 | yes | fields( 5 7 7 )
SET{ [0]INTEGER? [1]INTEGER=5 [2]INTEGER } | 2=5 | yes | fields( - - 5 )
SET{ [0]INTEGER? [1]INTEGER=5 [2]INTEGER } | 1=5 1=5 | yes | refused 9
SET{ [0]INTEGER? [1]INTEGER=5 [2]INTEGER } | 1=7 2=5 | yes | fields( - 7 5 )
// items and explicit tags
SET-OF{ [1]INTEGER } | none | no | items( )
SET-OF{ [1]INTEGER } | 1=7 1=5 1=7 | no | items( 7 5 7 )
SET-OF{ [1]INTEGER } | 1=5 0=5 | no | refused 2
SET-OF{ [1]INTEGER } | 1=5 UNIVERSAL.0=7 | no | refused 5
[30]{ [1]INTEGER } | none | yes | refused 4
[30]{ [1]INTEGER } | none | no | refused 5
[30]{ [1]INTEGER } | 1=7 | yes | 7
[30]{ [1]INTEGER } | 0=5 | yes | refused 2
[30]{ [1]INTEGER } | UNIVERSAL.0=7 | yes | refused 5
[30]{ [1]INTEGER } | 1=5 1=5 | yes | refused 2
[30]{ [1]INTEGER } | 1=5 UNIVERSAL.0=7 | yes | refused 2";

#[test]
fn held_parts(rt: HostRuntime) -> Result<(), Fail> {
    check(rt.alloc(), &Parts, PARTS)
}
