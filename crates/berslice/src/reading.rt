//! Values and their parts, each by a call that nests in that of what holds it.

ghost use Rattle.std.specs.Prelude.{◌≡◌, ◌↔◌, ◌<◌, ◌≤◌, [], Some, None, length, take, IfSome, IsSome, MatchOption};
ghost use Rattle.octets.specs.Rule.{ber};
ghost use Rattle.types.specs.Encoding.{IsAccepted};
ghost use Rattle.types.specs.Shape.{Shape};
ghost use Rattle.types.specs.View.{ty_view, value_view, alternatives_view};
ghost use Rattle.encoding_parts.specs.Parts.{IsGoodType};
ghost use Rattle.berslice.specs.Heads.{IsIdentifierOf};
ghost use Rattle.berslice.specs.Reading.{AreContentsRead, IsRead};

use crate::MAX_NESTED;
use crate::components::read_components;
use crate::explicit::read_under_tag;
use crate::heads::{Identifier, Inside, identifier_of, opened};
use crate::items::read_list;
use crate::leaf::{read_leaf, read_leaf_behind};
use crate::members::read_members;
use encoding_parts::{by_tag, choose, clear, take_list};
use octets::MAX_ENCODING;
use std::alloc::Global;
use types::{Alternative, Ty, Value};

/// Reads the encoding at the front of `octets` into `whole`, where all of it is there and within the limits, and
/// returns how many octets it has. Returns None for anything else, also where memory runs out: a caller then reads part
/// by part, and refuses what there is to refuse.
///
/// Takes memory as the value does, beside the room of the value that `whole` holds, into which goes what has room
/// there, but no constructed string; None where there is too little. A list that `whole` holds then goes to `room`, with
/// what items it has, unless `whole` held nothing before. More than eight open encodings of such a string take memory too.
#[inline(always)]
pub fn read_whole(
    alloc: Global,
    ty: &Ty,
    octets: &[u8],
    whole: &mut Option<Value>,
    room: &mut Vec<Value>,
) -> Option<usize>
    requires good { IsGoodType (ty_view ty.now) }
    ensures there { IfSome result (λ used. used ≤ length octets.now) }
    ensures value { IfSome result (λ used. IfSome whole.new (λ value.
        IsAccepted ber (ty_view ty.now) (value_view value) (take used octets.now))) }
    ensures some { IsSome result ↔ IsSome whole.new }
    ensures room { MatchOption result (whole.old ≡ None → room.new.items ≡ []) (λ _. room.new ≡ room.old) }
{
    let is_first = whole.is_none();
    if let Some(used) = read_front(alloc, ty, octets, whole) {
        return Some(used);
    }
    match whole {
        Some(value) if !is_first => *room = take_list(alloc, value),
        _ => room.clear(),
    }
    clear(whole);
    None
}

/// Reads the encoding at the front of `octets` as `read_whole` does. Where it returns None, `slot` may hold anything: what
/// is read next has room there as before.
#[inline(always)]
pub fn read_front(alloc: Global, ty: &Ty, octets: &[u8], slot: &mut Option<Value>) -> Option<usize>
    requires good { IsGoodType (ty_view ty.now) }
    ensures there { IfSome result (λ used. used ≤ length octets.now) }
    ensures value { IfSome result (λ used. MatchOption slot.new ⊥ (λ value.
        IsAccepted ber (ty_view ty.now) (value_view value) (take used octets.now))) }
{
    let front = &octets[..octets.len().min(MAX_ENCODING)];
    let value = slot.get_or_insert_with(|| Value::Null);
    read_one(alloc, ty, MAX_NESTED, front, value)
}

// Reads the encoding at the front into the value, in which at most so many constructed ones nest. Where it is not
// read, the value may be any.
#[cycle(reading)]
#[inline(always)]
pub fn read_one(
    alloc: Global,
    ty: &Ty,
    levels: usize,
    octets: &[u8],
    value: &mut Value,
) -> Option<usize>
    requires { IsGoodType (ty_view ty.now) }
    ensures { IfSome result (λ used. IsRead levels (ty_view ty.now) octets.now value.new used) }
{
    if let Some(tag) = ty.leaf_tag() {
        return read_leaf(alloc, ty, tag, levels, octets, value);
    }
    read_nested(alloc, ty, levels, octets, value)
}

// Reads the encoding at the front, of a type that has parts, into the value.
#[cycle(reading)]
#[inline(always)]
pub fn read_nested(
    alloc: Global,
    ty: &Ty,
    levels: usize,
    octets: &[u8],
    value: &mut Value,
) -> Option<usize>
    requires { IsGoodType (ty_view ty.now) }
    ensures { IfSome result (λ used. IsRead levels (ty_view ty.now) octets.now value.new used) }
{
    match ty {
        Ty::SequenceOf(tag, inner) | Ty::SetOf(tag, inner) => {
            read_list(alloc, *tag, inner, levels, octets, value)
        }
        Ty::Choice(alternatives) => read_chosen(alloc, alternatives, levels, octets, value),
        Ty::Explicit(tag, inner) => read_under_tag(alloc, *tag, inner, levels, octets, value),
        _ => read_constructed(alloc, ty, levels, octets, value),
    }
}

// Reads the encoding at the front, which has these identifier octets, into the value.
#[cycle(reading)]
#[inline(always)]
pub fn read_begun(
    alloc: Global,
    ty: &Ty,
    identifier: Identifier,
    levels: usize,
    octets: &[u8],
    value: &mut Value,
) -> Option<usize>
    requires good { IsGoodType (ty_view ty.now) }
    requires front { IsIdentifierOf identifier octets.now }
    ensures { IfSome result (λ used. IsRead levels (ty_view ty.now) octets.now value.new used) }
{
    match ty.leaf_tag() {
        Some(tag) if tag == identifier.tag => {
            read_leaf_behind(alloc, ty, identifier, levels, octets, value)
        }
        _ => read_nested(alloc, ty, levels, octets, value),
    }
}

// Reads a SEQUENCE or SET at the front into the value.
#[cycle(reading)]
#[inline(never)]
fn read_constructed(
    alloc: Global,
    ty: &Ty,
    levels: usize,
    octets: &[u8],
    value: &mut Value,
) -> Option<usize>
    requires { IsGoodType (ty_view ty.now) }
    ensures { IfSome result (λ used. IsRead levels (ty_view ty.now) octets.now value.new used) }
{
    let inside = opened(ty.tag()?, octets)?;
    if levels == 0 {
        return None;
    }
    let used = read_inside(alloc, ty, levels - 1, &inside, value)?;
    inside.close(octets, used)
}

// Reads the contents octets of one into the value, and returns how many they are.
#[cycle(reading)]
#[inline(always)]
fn read_inside(
    alloc: Global,
    ty: &Ty,
    levels: usize,
    inside: &Inside<'_>,
    value: &mut Value,
) -> Option<usize>
    requires { IsGoodType (ty_view ty.now) }
    ensures { IfSome result (λ used. AreContentsRead levels (ty_view ty.now) inside.now.octets.now value.new used) }
{
    match ty {
        Ty::Sequence(_, fields) => read_components(alloc, fields, levels, inside.octets, value),
        Ty::Set(_, fields) => read_members(
            alloc,
            fields,
            levels,
            inside.octets,
            inside.definite,
            value,
        ),
        _ => None,
    }
}

// Reads an encoding of one of the alternatives at the front into the value: tags tell them apart.
#[cycle(reading)]
#[inline(never)]
fn read_chosen(
    alloc: Global,
    alternatives: &[Alternative],
    levels: usize,
    octets: &[u8],
    value: &mut Value,
) -> Option<usize>
    requires { IsGoodType (Shape.choice (alternatives_view alternatives.now)) }
    ensures { IfSome result (λ used. IsRead levels (Shape.choice (alternatives_view alternatives.now)) octets.now value.new used) }
{
    let identifier = identifier_of(octets)?;
    let (which, _) = by_tag(alternatives, identifier.tag)?;
    read_alternative(
        alloc,
        alternatives,
        which,
        identifier,
        levels,
        octets,
        value,
    )
}

// Reads an encoding of the alternative at this place, which has these identifier octets, into the value.
#[cycle(reading)]
#[inline(always)]
pub fn read_alternative(
    alloc: Global,
    alternatives: &[Alternative],
    which: usize,
    identifier: Identifier,
    levels: usize,
    octets: &[u8],
    value: &mut Value,
) -> Option<usize>
    requires there { which < length alternatives.now }
    requires good { IsGoodType (Shape.choice (alternatives_view alternatives.now)) }
    requires front { IsIdentifierOf identifier octets.now }
    ensures { IfSome result (λ used. IsRead levels (Shape.choice (alternatives_view alternatives.now)) octets.now value.new used) }
{
    let alternative = &alternatives[which];
    if !choose(alloc, which, value) {
        return None;
    }
    let Value::Chosen(_, boxed) = value else {
        return None;
    };
    read_begun(alloc, &alternative.ty, identifier, levels, octets, boxed)
}
