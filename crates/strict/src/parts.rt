//! Values of any type, each part by a call that nests in that of what holds it.

ghost use Rattle.std.specs.Prelude.{◌≤◌, IfOk, IfErr};
ghost use Rattle.octets.specs.declared.TheConstants.{MAX_ENCODING};
ghost use Rattle.octets.specs.Rule.{rule_of};
ghost use Rattle.types.specs.Shape.{Shape};
ghost use Rattle.types.specs.View.{alternatives_view, ty_view};
ghost use Rattle.encoding_parts.specs.Parts.{IsGoodType};
ghost use Rattle.strict.specs.Bars.{RefusesStrictly};
ghost use Rattle.strict.specs.Head.{AreFewer};
ghost use Rattle.strict.specs.Inside.{HasParts, HasInside, IsInsideRead};
ghost use Rattle.strict.specs.Reading.{IsRead, RefusesPart};

use crate::components::read_components;
use crate::explicit::read_under_tag;
use crate::filling::read_shortly;
use crate::head::{Inside, opened, refusal_inside};
use crate::items::read_items;
use crate::leaf::read_leaf;
use crate::members::read_members;
use encoding_parts::{by_tag, choose, not_due, read_head_tag};
use octets::{Canonical, MAX_ENCODING};
use std::alloc::Global;
use types::{Alternative, Refusal, Ty, Value};

// Reads the encoding at the front into the value, and returns how many octets it has: at most `room`. Most without parts
// are looked at once.
#[cycle(reading)]
#[inline(always)]
pub fn read_one(
    alloc: Global,
    rule: Canonical,
    ty: &Ty,
    room: usize,
    octets: &[u8],
    value: &mut Value,
) -> Result<usize, Refusal>
    requires good { IsGoodType (ty_view ty.now) }
    requires room { room ≤ MAX_ENCODING }
    ensures value { IfOk result (λ used. IsRead (rule_of rule) (ty_view ty.now) room octets.now value.new used) }
    ensures refused { IfErr result (RefusesPart rule (ty_view ty.now) room octets.now) }
{
    if let Some(tag) = ty.leaf_tag() {
        if let Some(used) = read_shortly(alloc, ty, tag, room, octets, value) {
            return Ok(used);
        }
    }
    read_wholly(alloc, rule, ty, room, octets, value)
}

// Reads the encoding at the front into the value, as `read_one` does, with no look at it before.
#[cycle(reading)]
#[inline(always)]
pub fn read_wholly(
    alloc: Global,
    rule: Canonical,
    ty: &Ty,
    room: usize,
    octets: &[u8],
    value: &mut Value,
) -> Result<usize, Refusal>
    requires good { IsGoodType (ty_view ty.now) }
    requires room { room ≤ MAX_ENCODING }
    ensures value { IfOk result (λ used. IsRead (rule_of rule) (ty_view ty.now) room octets.now value.new used) }
    ensures refused { IfErr result (RefusesPart rule (ty_view ty.now) room octets.now) }
{
    if let Some(tag) = ty.leaf_tag() {
        return read_leaf(alloc, rule, ty, tag, room, octets, value);
    }
    match ty {
        Ty::Choice(alternatives) => read_chosen(alloc, rule, alternatives, room, octets, value),
        Ty::Sequence(_, _) => read_sequence(alloc, rule, ty, room, octets, value),
        Ty::SequenceOf(_, _) | Ty::SetOf(_, _) => read_list(alloc, rule, ty, room, octets, value),
        Ty::Explicit(tag, inner) => read_under_tag(alloc, rule, *tag, inner, room, octets, value),
        _ => read_others(alloc, rule, ty, room, octets, value),
    }
}

// Reads an encoding of a SEQUENCE. What has parts is read by three functions, so that each keeps in registers what it
// needs; each goes on to the last one where the type is another.
#[cycle(reading)]
#[inline(never)]
fn read_sequence(
    alloc: Global,
    rule: Canonical,
    ty: &Ty,
    room: usize,
    octets: &[u8],
    value: &mut Value,
) -> Result<usize, Refusal>
    requires parts { HasParts (ty_view ty.now) }
    requires good { IsGoodType (ty_view ty.now) }
    requires room { room ≤ MAX_ENCODING }
    ensures value { IfOk result (λ used. IsRead (rule_of rule) (ty_view ty.now) room octets.now value.new used) }
    ensures refused { IfErr result (RefusesPart rule (ty_view ty.now) room octets.now) }
{
    match ty {
        Ty::Sequence(_, _) => read_parts(alloc, rule, ty, room, octets, value),
        _ => read_others(alloc, rule, ty, room, octets, value),
    }
}

// Reads an encoding of a SEQUENCE OF or SET OF.
#[cycle(reading)]
#[inline(never)]
fn read_list(
    alloc: Global,
    rule: Canonical,
    ty: &Ty,
    room: usize,
    octets: &[u8],
    value: &mut Value,
) -> Result<usize, Refusal>
    requires parts { HasParts (ty_view ty.now) }
    requires good { IsGoodType (ty_view ty.now) }
    requires room { room ≤ MAX_ENCODING }
    ensures value { IfOk result (λ used. IsRead (rule_of rule) (ty_view ty.now) room octets.now value.new used) }
    ensures refused { IfErr result (RefusesPart rule (ty_view ty.now) room octets.now) }
{
    match ty {
        Ty::SequenceOf(_, _) | Ty::SetOf(_, _) => read_parts(alloc, rule, ty, room, octets, value),
        _ => read_others(alloc, rule, ty, room, octets, value),
    }
}

// Reads an encoding of any type with parts, but mostly of a SET.
#[cycle(reading)]
#[inline(never)]
fn read_others(
    alloc: Global,
    rule: Canonical,
    ty: &Ty,
    room: usize,
    octets: &[u8],
    value: &mut Value,
) -> Result<usize, Refusal>
    requires parts { HasParts (ty_view ty.now) }
    requires good { IsGoodType (ty_view ty.now) }
    requires room { room ≤ MAX_ENCODING }
    ensures value { IfOk result (λ used. IsRead (rule_of rule) (ty_view ty.now) room octets.now value.new used) }
    ensures refused { IfErr result (RefusesPart rule (ty_view ty.now) room octets.now) }
{
    read_parts(alloc, rule, ty, room, octets, value)
}

// Reads an encoding of a type with parts: it is opened, read inside and closed.
#[cycle(reading)]
#[inline(always)]
fn read_parts(
    alloc: Global,
    rule: Canonical,
    ty: &Ty,
    room: usize,
    octets: &[u8],
    value: &mut Value,
) -> Result<usize, Refusal>
    requires parts { HasParts (ty_view ty.now) }
    requires good { IsGoodType (ty_view ty.now) }
    requires room { room ≤ MAX_ENCODING }
    ensures value { IfOk result (λ used. IsRead (rule_of rule) (ty_view ty.now) room octets.now value.new used) }
    ensures refused { IfErr result (RefusesPart rule (ty_view ty.now) room octets.now) }
{
    let Some(tag) = ty.tag() else { unreachable!() };
    let inside = opened(rule, tag, room, octets)?;
    let behind = &octets[inside.start..];
    match read_inside(alloc, rule, ty, &inside, behind, value) {
        Ok(used) => Ok(inside.close(used)),
        Err(refusal) => Err(refusal_inside(rule, inside.room, refusal)),
    }
}

// Reads the contents octets up to their end into the value, and returns how many they are.
#[cycle(reading)]
#[inline(always)]
fn read_inside(
    alloc: Global,
    rule: Canonical,
    ty: &Ty,
    inside: &Inside,
    octets: &[u8],
    value: &mut Value,
) -> Result<usize, Refusal>
    requires parts { HasParts (ty_view ty.now) }
    requires good { IsGoodType (ty_view ty.now) }
    requires room { inside.now.room ≤ MAX_ENCODING }
    ensures value { IfOk result (λ used. IsInsideRead (rule_of rule) (ty_view ty.now) inside.now.definite inside.now.room octets.now value.new used) }
    ensures refused { IfErr result (RefusesStrictly (HasInside (rule_of rule) (ty_view ty.now) inside.now.definite inside.now.room) (AreFewer inside.now.definite inside.now.room) octets.now) }
{
    match ty {
        Ty::Sequence(_, fields) => read_components(alloc, rule, fields, inside, octets, value),
        Ty::Set(_, fields) => read_members(alloc, rule, fields, inside, octets, value),
        Ty::SequenceOf(_, inner) => read_items(alloc, rule, inner, false, inside, octets, value),
        Ty::SetOf(_, inner) => read_items(alloc, rule, inner, true, inside, octets, value),
        _ => unreachable!(),
    }
}

// Reads an encoding of one of the alternatives of a CHOICE into the value: tags tell them apart.
#[cycle(reading)]
#[inline(never)]
fn read_chosen(
    alloc: Global,
    rule: Canonical,
    alternatives: &[Alternative],
    room: usize,
    octets: &[u8],
    value: &mut Value,
) -> Result<usize, Refusal>
    requires good { IsGoodType (Shape.choice (alternatives_view alternatives.now)) }
    requires room { room ≤ MAX_ENCODING }
    ensures value { IfOk result (λ used. IsRead (rule_of rule) (Shape.choice (alternatives_view alternatives.now)) room octets.now value.new used) }
    ensures refused { IfErr result (RefusesPart rule (Shape.choice (alternatives_view alternatives.now)) room octets.now) }
{
    let (tag, _, _) = read_head_tag(room, 0, octets)?;
    let Some((which, alternative)) = by_tag(alternatives, tag) else {
        return Err(not_due(tag));
    };
    if !choose(alloc, which, value) {
        return Err(Refusal::NoMemory);
    }
    let Value::Chosen(_, boxed) = value else {
        unreachable!()
    };
    read_one(alloc, rule, &alternative.ty, room, octets, boxed)
}
