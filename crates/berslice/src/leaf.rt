//! Encodings of types without parts: primitive ones, and constructed strings (X.690 8.6.4, 8.7.3 and 8.23).

ghost use Rattle.std.specs.Prelude.{◌≡◌, ◌≤◌, ℕ, [], length, take, IfSome};
ghost use Rattle.octets.specs.Rule.{ber};
ghost use Rattle.types.specs.Encoding.{IsAccepted};
ghost use Rattle.types.specs.Leaf.{tag_of, IsLeaf};
ghost use Rattle.types.specs.View.{ty_view, value_view};
ghost use Rattle.encoding_parts.specs.Parts.{IsGoodType};
ghost use Rattle.encoding_parts.specs.Segments.{IsPassed, IsSound};
ghost use Rattle.berslice.specs.Heads.{IsIdentifierOf};
ghost use Rattle.berslice.specs.Reading.{IsRead};

use crate::MAX_NESTED;
use crate::heads::{Identifier, begun, behind, primitive};
use encoding_parts::{SegmentKind, Segments, begin_string, fill, is_identifier, short_primitive};
use octets::{MAX_ENCODING, Tag};
use std::alloc::Global;
use types::{Ty, Value};

/// Reads the encoding at the front of `octets` into the value, as `read_front` does, of a type without parts, whose tag is
/// known: a caller that reads many of them asks the type once.
#[inline(always)]
pub fn read_front_leaf(
    alloc: Global,
    ty: &Ty,
    tag: Tag,
    octets: &[u8],
    value: &mut Value,
) -> Option<usize>
    requires leaf { IsLeaf (ty_view ty.now) }
    requires tag { tag_of (ty_view ty.now) ≡ tag }
    requires good { IsGoodType (ty_view ty.now) }
    ensures there { IfSome result (λ used. used ≤ length octets.now) }
    ensures value { IfSome result (λ used.
        IsAccepted ber (ty_view ty.now) (value_view value.new) (take used octets.now)) }
{
    let front = &octets[..octets.len().min(MAX_ENCODING)];
    read_leaf(alloc, ty, tag, MAX_NESTED, front, value)
}

// Reads the encoding at the front, of a type without parts: mostly a primitive one.
#[inline(always)]
pub fn read_leaf(
    alloc: Global,
    ty: &Ty,
    tag: Tag,
    levels: usize,
    octets: &[u8],
    value: &mut Value,
) -> Option<usize>
    requires leaf { IsLeaf (ty_view ty.now) }
    requires tag { tag_of (ty_view ty.now) ≡ tag }
    requires good { IsGoodType (ty_view ty.now) }
    ensures { IfSome result (λ used. IsRead levels (ty_view ty.now) octets.now value.new used) }
{
    match short_primitive(tag, octets.len(), octets) {
        Some(used) => fill(alloc, ty, &octets[2..used], value).then_some(used),
        None if may_begin(tag, octets) => read_long_leaf(alloc, ty, levels, octets, value),
        None => None,
    }
}

// Whether an encoding under the tag may stand at the front, of either form. Where no short leaf was read, mostly that of
// another component stands there, or nothing.
#[inline(always)]
pub fn may_begin(tag: Tag, octets: &[u8]) -> bool {
    tag.number >= 31 || (!octets.is_empty() && is_identifier(tag, false, octets[0] & 0xDF))
}

// Reads the encoding at the front, of a type without parts, which has these identifier octets and the type's tag.
#[inline(always)]
pub fn read_leaf_behind(
    alloc: Global,
    ty: &Ty,
    identifier: Identifier,
    levels: usize,
    octets: &[u8],
    value: &mut Value,
) -> Option<usize>
    requires leaf { IsLeaf (ty_view ty.now) }
    requires tag { tag_of (ty_view ty.now) ≡ identifier.tag }
    requires good { IsGoodType (ty_view ty.now) }
    requires front { IsIdentifierOf identifier octets.now }
    ensures { IfSome result (λ used. IsRead levels (ty_view ty.now) octets.now value.new used) }
{
    match behind(identifier, octets) {
        Some((contents, used)) => fill(alloc, ty, contents, value).then_some(used),
        None => read_long_leaf(alloc, ty, levels, octets, value),
    }
}

// Reads the encoding at the front, of a type without parts, whatever its form and length octets are.
#[inline(never)]
fn read_long_leaf(
    alloc: Global,
    ty: &Ty,
    levels: usize,
    octets: &[u8],
    value: &mut Value,
) -> Option<usize>
    requires leaf { IsLeaf (ty_view ty.now) }
    requires good { IsGoodType (ty_view ty.now) }
    ensures { IfSome result (λ used. IsRead levels (ty_view ty.now) octets.now value.new used) }
{
    let tag = ty.leaf_tag()?;
    match primitive(tag, octets) {
        Some((contents, used)) => fill(alloc, ty, contents, value).then_some(used),
        None => read_string(alloc, ty, tag, levels, octets, value),
    }
}

// Reads the constructed string at the front.
fn read_string(
    alloc: Global,
    ty: &Ty,
    tag: Tag,
    levels: usize,
    octets: &[u8],
    value: &mut Value,
) -> Option<usize>
    requires tag { tag_of (ty_view ty.now) ≡ tag }
    requires leaf { IsLeaf (ty_view ty.now) }
    requires good { IsGoodType (ty_view ty.now) }
    ensures { IfSome result (λ used. IsRead levels (ty_view ty.now) octets.now value.new used) }
{
    let front = &octets[..octets.len().min(MAX_ENCODING)];
    let identifier = begun(tag, true, front)?;
    let (kind, mut string, start) = begin_string(
        alloc,
        ty,
        identifier,
        front.len(),
        0,
        levels,
        front,
    ).ok()?;
    let used = pass_segments(&mut string, kind, front, start)?;
    *value = string.joined.into_value(ty).ok()?;
    Some(used)
}

// Takes the segments of a constructed string of which the first `start` octets have been taken, up to its last end, and
// returns how many octets it has.
fn pass_segments(
    string: &mut Segments,
    kind: SegmentKind,
    octets: &[u8],
    start: usize,
) -> Option<usize>
    requires there { start ≤ length octets.now }
    requires sound { IsSound kind string.old }
    ensures there { IfSome result (λ used. used ≤ length octets.now) }
    ensures passed { IfSome result (λ used. (levels end identifier : ℕ) →
        IsPassed kind levels end 0 identifier string.old (take start octets.now) →
        IsPassed kind levels end 0 identifier string.new (take used octets.now)) }
    ensures sound { IfSome result (λ _. IsSound kind string.new) }
    ensures closed { IfSome result (λ _. string.new.frames.items ≡ []) }
{
    let mut at = start;
    while !string.is_closed() {
        match string.pass(kind, &octets[at..]) {
            Ok(used) => at += used,
            Err(_) => return None,
        }
    }
    Some(at)
}
