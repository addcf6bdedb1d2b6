//! Encodings of types without parts (X.690 8.2 to 8.8, 8.19, 8.20, 8.23, 8.25, 9.2 and 10.2): a primitive one, or a
//! string that CER cuts.

ghost use Rattle.std.specs.Prelude.{◌≡◌, ◌↔◌, ◌+◌, ◌≤◌, ℕ, false, IfOk, IfErr, drop};
ghost use Rattle.octets.specs.declared.TheConstants.{MAX_ENCODING};
ghost use Rattle.octets.specs.declared.tag.Tag.{Tag};
ghost use Rattle.octets.specs.Rule.{rule_of};
ghost use Rattle.types.specs.Leaf.{tag_of, IsLeaf};
ghost use Rattle.types.specs.View.{ty_view};
ghost use Rattle.encoding_parts.specs.Head.{IsReadTag};
ghost use Rattle.encoding_parts.specs.Parts.{IsGoodType};
ghost use Rattle.strict.specs.Bars.{RefusesStrictly, StandsFor};
ghost use Rattle.strict.specs.Leaf.{HasPrimitive, IsPlace, IsWhole};
ghost use Rattle.strict.specs.Reading.{RefusesPart, IsRead};
ghost use Rattle.strict.specs.Begun.{IsPrimitiveBegun};

use crate::head::{is_inside_definite, is_shortest, read_its_tag, read_size};
use crate::segments::read_cut;
use crate::values::read_value;
use encoding_parts::{can_have_length, contents_refusal, kind_of};
use octets::{Canonical, Length, MAX_ENCODING, Tag, read_length};
use std::alloc::Global;
use types::{Refusal, SEGMENT_OCTETS, Ty, Value};

// Reads the encoding at the front, of a type without parts under this tag, into the value, and returns how many octets
// it has: at most `room`. Strings alone have constructed ones, and of CER the long ones. All values but those of BOOLEAN,
// INTEGER within 128 bits, ENUMERATED and NULL take memory.
#[inline(never)]
pub fn read_leaf(
    alloc: Global,
    rule: Canonical,
    ty: &Ty,
    tag: Tag,
    room: usize,
    octets: &[u8],
    value: &mut Value,
) -> Result<usize, Refusal>
    requires leaf { IsLeaf (ty_view ty.now) }
    requires tag { tag_of (ty_view ty.now) ≡ tag }
    requires good { IsGoodType (ty_view ty.now) }
    requires room { room ≤ MAX_ENCODING }
    ensures value { IfOk result (λ used. IsRead (rule_of rule) (ty_view ty.now) room octets.now value.new used) }
    ensures refused { IfErr result (RefusesPart rule (ty_view ty.now) room octets.now) }
{
    let (constructed, identifier) = read_its_tag(tag, room, octets)?;
    if constructed {
        let Some(kind) = kind_of(ty) else {
            return Err(Refusal::Form);
        };
        return match rule {
            Canonical::Cer => read_cut(alloc, kind, ty, tag, room, octets, value),
            Canonical::Der => Err(Refusal::NotCanonical),
        };
    }
    let (start, stop) = read_place(rule, ty, identifier, room, octets)?;
    *value = read_value(alloc, ty, &octets[start..stop])?;
    Ok(stop)
}

// Where the contents octets of the primitive encoding at the front begin and end, behind so many identifier octets: as
// many as the type can have.
fn read_place(
    rule: Canonical,
    ty: &Ty,
    identifier: usize,
    room: usize,
    octets: &[u8],
) -> Result<(usize, usize), Refusal>
    requires leaf { IsLeaf (ty_view ty.now) }
    requires room { room ≤ MAX_ENCODING }
    requires tagged { IsReadTag (tag_of (ty_view ty.now)) room 0 octets.now false identifier }
    ensures place { IfOk result (λ p. IsPlace (tag_of (ty_view ty.now)) room octets.now p.0 p.1) }
    ensures whole { IfOk result (λ p. (size : ℕ) → p.1 ≡ p.0 + size → IsWhole rule (ty_view ty.now) size) }
    ensures refused { IfErr result (RefusesStrictly (HasPrimitive rule (ty_view ty.now) room) (λ o. IsPrimitiveBegun rule (ty_view ty.now) room identifier (drop identifier o)) octets.now) }
{
    let (size, used) = match read_size(room, identifier, octets) {
        Ok(read) => read,
        Err(refusal) => return Err(why(rule, ty, room, &octets[identifier..], refusal)),
    };
    if !can_have_length(ty, size) {
        return Err(contents_refusal(ty));
    }
    if !is_shortest(size, used) || is_to_be_cut(rule, ty, size) {
        return Err(Refusal::NotCanonical);
    }
    let start = identifier + used;
    if size > octets.len() - start {
        return Err(Refusal::Truncated);
    }
    Ok((start, start + size))
}

// Whether the rule cuts a string of so many contents octets: CER above 1,000, DER never (X.690 9.2 and 10.2).
fn is_to_be_cut(rule: Canonical, ty: &Ty, size: usize) -> bool
    requires { IsLeaf (ty_view ty.now) }
    ensures { result ≡ false ↔ IsWhole rule (ty_view ty.now) size }
{
    match rule {
        Canonical::Cer => size > SEGMENT_OCTETS && kind_of(ty).is_some(),
        Canonical::Der => false,
    }
}

// Why an encoding is refused whose length octets are: a length that no value of the type has is refused before one that
// passes the end of all, but not before one that passes the end of a definite encoding around it.
fn why(rule: Canonical, ty: &Ty, room: usize, octets: &[u8], refusal: Refusal) -> Refusal
    ensures { StandsFor result refusal }
{
    if refusal != Refusal::TooLong || is_inside_definite(rule, room) {
        return refusal;
    }
    match read_length(octets) {
        Length::Definite { octets: size, .. } if !can_have_length(ty, size) => contents_refusal(ty),
        _ => refusal,
    }
}
