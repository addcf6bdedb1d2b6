//! Encodings under explicit tags (X.690 8.14).

ghost use Rattle.std.specs.Prelude.{◌-◌, ◌≤◌, drop, IfOk, IfErr};
ghost use Rattle.octets.specs.declared.TheConstants.{MAX_ENCODING};
ghost use Rattle.octets.specs.Rule.{rule_of};
ghost use Rattle.types.specs.Shape.{Shape};
ghost use Rattle.types.specs.View.{ty_view};
ghost use Rattle.encoding_parts.specs.Parts.{IsGoodType};
ghost use Rattle.strict.specs.Bars.{RefusesStrictly};
ghost use Rattle.strict.specs.Head.{EndsHere, AreFewer};
ghost use Rattle.strict.specs.Reading.{IsRead, RefusesPart, HasAlone};

use crate::fronts::front_tag;
use crate::head::{Inside, opened, refusal_inside};
use crate::parts::read_one;
use octets::{Canonical, MAX_ENCODING, Tag};
use std::alloc::Global;
use types::{Refusal, Ty, Value};

// Reads the encoding under an explicit tag at the front into the value, of the type `ty`, and returns how many octets it
// has: at most `room`. A call of its own, since explicit tags nest deep and need fewer registers than what has
// components.
#[cycle(reading)]
#[inline(never)]
pub fn read_under_tag(
    alloc: Global,
    rule: Canonical,
    tag: Tag,
    ty: &Ty,
    room: usize,
    octets: &[u8],
    value: &mut Value,
) -> Result<usize, Refusal>
    requires good { IsGoodType (Shape.explicit tag (ty_view ty.now)) }
    requires room { room ≤ MAX_ENCODING }
    ensures value { IfOk result (λ used. IsRead (rule_of rule) (Shape.explicit tag (ty_view ty.now)) room octets.now value.new used) }
    ensures refused { IfErr result (RefusesPart rule (Shape.explicit tag (ty_view ty.now)) room octets.now) }
{
    let inside = opened(rule, tag, room, octets)?;
    let behind = &octets[inside.start..];
    match read_alone(alloc, rule, ty, &inside, behind, value) {
        Ok(used) => Ok(inside.close(used)),
        Err(refusal) => Err(refusal_inside(rule, inside.room, refusal)),
    }
}

// Reads the one encoding inside another, up to the end, and returns how many octets it has.
#[cycle(reading)]
#[inline(always)]
fn read_alone(
    alloc: Global,
    rule: Canonical,
    ty: &Ty,
    inside: &Inside,
    octets: &[u8],
    value: &mut Value,
) -> Result<usize, Refusal>
    requires good { IsGoodType (ty_view ty.now) }
    requires room { inside.now.room ≤ MAX_ENCODING }
    ensures value { IfOk result (λ used. IsRead (rule_of rule) (ty_view ty.now) inside.now.room octets.now value.new used
        × EndsHere inside.now.definite (inside.now.room - used) (drop used octets.now)) }
    ensures refused { IfErr result (RefusesStrictly (HasAlone (rule_of rule) (ty_view ty.now) inside.now.definite inside.now.room) (AreFewer inside.now.definite inside.now.room) octets.now) }
{
    let used = read_tagged(alloc, rule, ty, inside.room, octets, value)?;
    match front_tag(inside.definite, inside.room - used, &octets[used..])? {
        Some(_) => Err(Refusal::Identifier),
        None => Ok(used),
    }
}

// Reads the encoding behind an explicit tag into the value. Whether it is under a further tag is asked first, since tags
// nest deep.
#[cycle(reading)]
#[inline(always)]
fn read_tagged(
    alloc: Global,
    rule: Canonical,
    ty: &Ty,
    room: usize,
    octets: &[u8],
    value: &mut Value,
) -> Result<usize, Refusal>
    requires good { IsGoodType (ty_view ty.now) }
    requires room { room ≤ MAX_ENCODING }
    ensures value { IfOk result (λ used. IsRead (rule_of rule) (ty_view ty.now) room octets.now value.new used) }
    ensures refused { IfErr result (RefusesPart rule (ty_view ty.now) room octets.now) }
{
    if let Ty::Explicit(tag, inner) = ty {
        return read_under_tag(alloc, rule, *tag, inner, room, octets, value);
    }
    read_innermost(alloc, rule, ty, room, octets, value)
}

// Reads the encoding behind the last explicit tag into the value. A call of its own, so that a call for a tag around it
// has few registers to keep.
#[cycle(reading)]
#[inline(never)]
fn read_innermost(
    alloc: Global,
    rule: Canonical,
    ty: &Ty,
    room: usize,
    octets: &[u8],
    value: &mut Value,
) -> Result<usize, Refusal>
    requires good { IsGoodType (ty_view ty.now) }
    requires room { room ≤ MAX_ENCODING }
    ensures value { IfOk result (λ used. IsRead (rule_of rule) (ty_view ty.now) room octets.now value.new used) }
    ensures refused { IfErr result (RefusesPart rule (ty_view ty.now) room octets.now) }
{
    read_one(alloc, rule, ty, room, octets, value)
}
