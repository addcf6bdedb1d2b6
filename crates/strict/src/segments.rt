//! Strings that CER cuts into segments (X.690 9.2).

ghost use Rattle.std.specs.Prelude.{◌≡◌, ◌≢◌, ◌↔◌, ◌+◌, ◌≤◌, ◌<◌, ◌++◌, [], ℕ, List, length, true, false, IsTrue, IfOk, IfErr, OnOk};
ghost use Rattle.octets.specs.declared.canonical.Canonical.{Canonical};
ghost use Rattle.octets.specs.declared.TheConstants.{MAX_ENCODING, MAX_TAG_NUMBER};
ghost use Rattle.octets.specs.declared.tag.Tag.{Tag};
ghost use Rattle.octets.specs.Rule.{cer};
ghost use Rattle.types.specs.Conforms.{Conforms};
ghost use Rattle.types.specs.Leaf.{tag_of};
ghost use Rattle.types.specs.Refusal.{IsFinal};
ghost use Rattle.types.specs.View.{ty_view, value_view};
ghost use Rattle.encoding_parts.specs.Joined.{Element, HoldsPiece, IsHeld, IsStringOf, segment_of, string_of};
ghost use Rattle.strict.specs.Bars.{RefusesStrictly};
ghost use Rattle.strict.specs.Head.{EndsHere, AreFewer};
ghost use Rattle.strict.specs.Leaf.{HasCut, HoldsSegment, IsOfSpelling, IsPlace, value_is};
ghost use Rattle.strict.specs.Reading.{IsRead};
ghost use Rattle.strict.specs.Segments.{AreSegmentsKnown, HasSomeSegments, IsJoinedSegment, IsLong};
ghost use Rattle.strict.specs.Begun.{IsConstructedCut};

use crate::ends::ends;
use crate::head::{indefinite, is_shortest, read_size};
use crate::values::{bits_value, has_zeros_unused};
use encoding_parts::{Joined, SegmentKind, read_tag, segment_tag};
use octets::Tag;
use primitives::Bits;
use std::alloc::Global;
use types::{Refusal, SEGMENT_OCTETS, Ty, Value};

// Reads the constructed encoding at the front, of a string of the kind, into the value, and returns how many octets it
// has: at most `room`.
#[inline(never)]
pub fn read_cut(
    alloc: Global,
    kind: SegmentKind,
    ty: &Ty,
    tag: Tag,
    room: usize,
    octets: &[u8],
    value: &mut Value,
) -> Result<usize, Refusal>
    requires string { IsStringOf kind (ty_view ty.now) }
    requires tag { tag_of (ty_view ty.now) ≡ tag }
    requires within { tag.number ≤ MAX_TAG_NUMBER }
    requires room { room ≤ MAX_ENCODING }
    ensures value { IfOk result (λ used. IsRead cer (ty_view ty.now) room octets.now value.new used) }
    ensures refused { IfErr result (RefusesStrictly (HasCut kind (ty_view ty.now) room) (IsConstructedCut Canonical.Cer tag room) octets.now) }
{
    let inside = indefinite(tag, room, octets)?;
    let mut joined = Joined::new(alloc);
    let used = read_segments(kind, inside.room, &octets[inside.start..], &mut joined)?;
    if !is_long(kind, &joined) {
        return Err(Refusal::NotCanonical);
    }
    *value = value_of(kind, ty, joined)?;
    Ok(inside.close(used))
}

// Joins the segments up to the end, and returns how many octets they have.
fn read_segments(
    kind: SegmentKind,
    room: usize,
    octets: &[u8],
    joined: &mut Joined,
) -> Result<usize, Refusal>
    requires room { room ≤ MAX_ENCODING }
    requires none { joined.old.octets.items ≡ [] }
    requires unused { joined.old.unused ≡ 0 }
    ensures value { IfOk result (λ used. AreSegmentsKnown kind room octets.now (string_of kind joined.new) used) }
    ensures held { OnOk result (IsHeld kind joined.new) }
    ensures refused { IfErr result (RefusesStrictly (HasSomeSegments kind true room) (AreFewer false room) octets.now) }
{
    let mut at = 0;
    let mut full = true;
    while !ends(false, room - at, &octets[at..])? {
        let (used, goes_on) = read_segment(kind, full, room - at, &octets[at..], joined)?;
        at += used;
        full = goes_on;
    }
    Ok(at)
}

// Joins the segment at the front, where one may stand, and returns how many octets it has, and whether others may stand
// behind it.
fn read_segment(
    kind: SegmentKind,
    full: bool,
    room: usize,
    octets: &[u8],
    joined: &mut Joined,
) -> Result<(usize, bool), Refusal>
    requires room { room ≤ MAX_ENCODING }
    requires no_end { (more : List ℕ) → ¬ EndsHere false room (octets.now ++ more) }
    requires whole { IsTrue full → joined.old.unused ≡ 0 }
    requires held { IsHeld kind joined.old }
    ensures value { IfOk result (λ p. IsJoinedSegment kind room octets.now joined.old joined.new p.1 p.0) }
    ensures open { IfOk result (λ p. IsTrue full) }
    ensures refused { IfErr result (RefusesStrictly (HasSomeSegments kind full room) (λ o. length o < room) octets.now) }
{
    let (start, stop) = read_segment_place(kind, full, joined.unused, room, octets)?;
    let contents = &octets[start..stop];
    joined.join(kind, contents)?;
    if is_spelt(kind, contents) {
        Ok((stop, is_full(stop - start, joined.unused)))
    } else {
        Err(Refusal::NotCanonical)
    }
}

// Where its contents octets begin and end, with so many unused bits before it.
fn read_segment_place(
    kind: SegmentKind,
    full: bool,
    unused: u8,
    room: usize,
    octets: &[u8],
) -> Result<(usize, usize), Refusal>
    requires room { room ≤ MAX_ENCODING }
    requires no_end { (more : List ℕ) → ¬ EndsHere false room (octets.now ++ more) }
    requires whole { IsTrue full → unused ≡ 0 }
    ensures place { IfOk result (λ p. IsPlace (segment_of kind) room octets.now p.0 p.1) }
    ensures short { IfOk result (λ p. p.1 ≤ p.0 + 1000) }
    ensures open { IfOk result (λ p. IsTrue full) }
    ensures refused { IfErr result (RefusesStrictly (HasSomeSegments kind full room) (λ o. length o < room) octets.now) }
{
    let (constructed, identifier) = read_tag(segment_tag(kind), room, 0, octets)?;
    if unused != 0 {
        return Err(Refusal::Contents);
    }
    if constructed || !full {
        return Err(Refusal::NotCanonical);
    }
    let (size, used) = read_size(room, identifier, octets)?;
    if !is_shortest(size, used) || size > SEGMENT_OCTETS {
        return Err(Refusal::NotCanonical);
    }
    let start = identifier + used;
    if size > octets.len() - start {
        return Err(Refusal::Truncated);
    }
    Ok((start, start + size))
}

// Whether a segment of so many contents octets and unused bits is one that another may follow.
fn is_full(size: usize, unused: u8) -> bool
    ensures { IsTrue result ↔ ((size ≡ 1000) × (unused ≡ 0)) }
{
    size == SEGMENT_OCTETS && unused == 0
}

// Whether the contents octets of a piece are those of a segment: it has a bit or an octet, and unused bits are 0.
fn is_spelt(kind: SegmentKind, contents: &[u8]) -> bool
    requires { (piece : List (Element kind)) × HoldsPiece kind piece contents.now }
    ensures { (piece : List (Element kind)) → HoldsPiece kind piece contents.now →
        IsTrue result ↔ (HoldsSegment kind piece contents.now × (piece ≢ [])) }
{
    match kind {
        SegmentKind::Bits => contents.len() > 1 && has_zeros_unused(contents),
        SegmentKind::Octets => contents.len() > 0,
    }
}

// Whether the string is too long for one segment.
fn is_long(kind: SegmentKind, joined: &Joined) -> bool
    requires { IsHeld kind joined.now }
    ensures long { IsTrue result → IsLong kind joined.now }
    ensures short { result ≡ false → ¬ IsLong kind joined.now }
{
    match kind {
        SegmentKind::Bits => joined.octets.len() >= SEGMENT_OCTETS,
        SegmentKind::Octets => joined.octets.len() > SEGMENT_OCTETS,
    }
}

// The value of the type that the string is.
fn value_of(kind: SegmentKind, ty: &Ty, joined: Joined) -> Result<Value, Refusal>
    requires string { IsStringOf kind (ty_view ty.now) }
    requires held { IsHeld kind joined }
    ensures value { IfOk result (λ value. (value_view value ≡ value_is (ty_view ty.now) kind (string_of kind joined))
        × Conforms (ty_view ty.now) (value_view value)) }
    ensures none { IfErr result (λ refusal. IsFinal refusal →
        ¬ Conforms (ty_view ty.now) (value_is (ty_view ty.now) kind (string_of kind joined))) }
    ensures numbers { IfErr result IsOfSpelling }
{
    match kind {
        SegmentKind::Bits => match Bits::new(joined.octets, joined.unused) {
            Some(bits) => bits_value(ty, bits),
            None => Err(Refusal::Contents),
        },
        SegmentKind::Octets => joined.into_value(ty),
    }
}
