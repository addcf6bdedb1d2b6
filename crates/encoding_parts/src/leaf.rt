//! Reads the encodings of types without parts within what holds them (X.690 8.2 to 8.8, 8.19, 8.20, 8.23 and
//! 8.25): a primitive one whole, and of a constructed string the beginning.
//!
//! A part that does not fit is refused as too long. Whether it passes the end of a definite encoding around
//! it, which is a fault of its length, is said by the reader of those (`refusal_inside`). Such a fault comes before that of a
//! length that the type cannot have, so the reader of a primitive encoding is told whether one is around it.

ghost use Rattle.std.specs.Prelude.{◌≡◌, ◌+◌, ◌≤◌, ◌++◌, ℕ, List, length, take, true, false, IfOk, IfErr, IsErr, IsOk};
ghost use Rattle.octets.specs.declared.TheConstants.{MAX_ENCODING};
ghost use Rattle.octets.specs.Front.{HasFront};
ghost use Rattle.octets.specs.Length.{IsLength};
ghost use Rattle.types.specs.Leaf.{tag_of, IsLeaf};
ghost use Rattle.types.specs.Refusal.{IsFinal, IsOfReading};
ghost use Rattle.types.specs.View.{ty_view, value_view};
ghost use Rattle.encoding_parts.specs.Contents.{IsOfContents};
ghost use Rattle.encoding_parts.specs.Cut.{IsPartCut};
ghost use Rattle.encoding_parts.specs.Head.{IsReadTag};
ghost use Rattle.encoding_parts.specs.Lengths.{CanHaveLength};
ghost use Rattle.encoding_parts.specs.Parts.{IsGoodType, IsPartOf, IsPartWithin};
ghost use Rattle.encoding_parts.specs.Segments.{IsBegun};

use crate::contents::read_contents;
use crate::head::front;
use crate::joined::{SegmentKind, kind_of};
use crate::lengths::can_have_length;
use crate::parts::{read_contents_place, read_opening};
use crate::segments::Segments;
use octets::{Length, read_length};
use std::alloc::Global;
use types::{Refusal, Ty, Value};

/// Reads the primitive encoding at the front of `octets`, of a type without parts, by its identifier octets, of
/// which there are `identifier`: its value, and how many octets it has. Before it stand `taken` octets, and it
/// ends at `end` at the latest. `inside_definite` says whether an encoding around it has the definite form: then
/// one that goes on past `end` is refused with `TooLong`, and else with `Contents` or `Alphabet` where its type
/// cannot have the length either.
///
/// Refused with `Truncated` where octets are missing, with another of the refusals 2 to 11 where no octets after
/// these make it an encoding that ends there, and with `NoMemory`: all values but those of BOOLEAN, INTEGER within
/// 128 bits, ENUMERATED and NULL take memory.
pub fn read_leaf(
    alloc: Global,
    node: &Ty,
    identifier: usize,
    end: usize,
    taken: usize,
    inside_definite: bool,
    octets: &[u8],
) -> Result<(Value, usize), Refusal>
    requires leaf { IsLeaf (ty_view node.now) }
    requires good { IsGoodType (ty_view node.now) }
    requires within { end ≤ MAX_ENCODING }
    requires tagged { IsReadTag (tag_of (ty_view node.now)) end taken octets.now false identifier }
    ensures there { IfOk result (λ p. (p.1 ≤ length octets.now) × (taken + p.1 ≤ end)) }
    ensures value { IfOk result (λ p. (levels : ℕ) →
        IsPartOf levels (ty_view node.now) (value_view p.0) (take p.1 octets.now)) }
    ensures truncated { result ≡ Err Refusal.Truncated → (levels : ℕ) →
        ¬ HasFront (IsPartWithin levels (ty_view node.now) end taken) octets.now }
    ensures cut { result ≡ Err Refusal.Truncated → (levels : ℕ) →
        IsPartCut (tag_of (ty_view node.now)) (ty_view node.now) levels end taken octets.now }
    ensures never { IfErr result (λ refusal. IsFinal refusal → (more : List ℕ) (levels : ℕ) →
        ¬ HasFront (IsPartWithin levels (ty_view node.now) end taken) (octets.now ++ more)) }
    ensures numbers { IfErr result IsOfReading }
{
    let (start, stop) = match read_contents_place(end, taken, identifier, octets) {
        Ok(place) => place,
        Err(refusal) => {
            if inside_definite && refusal == Refusal::TooLong {
                return Err(refusal);
            }
            let room = end - taken - identifier;
            check_length(node, front(&octets[identifier..], room))?;
            return Err(refusal);
        }
    };
    if !can_have_length(node, stop - start) {
        return Err(contents_refusal(node));
    }
    let value = read_contents(alloc, node, &octets[start..stop])?;
    Ok((value, stop))
}

// Refuses length octets at the front that go with no contents octets of the type.
fn check_length(ty: &Ty, octets: &[u8]) -> Result<(), Refusal>
    ensures never { IsErr result → (more size rest : List ℕ) (contents : ℕ) → IsLength contents size →
        octets.now ++ more ≡ size ++ rest → ¬ CanHaveLength (ty_view ty.now) contents }
    ensures can { IsOk result → (size rest : List ℕ) (contents : ℕ) → contents ≤ MAX_ENCODING →
        IsLength contents size → octets.now ≡ size ++ rest → CanHaveLength (ty_view ty.now) contents }
    ensures numbers { IfErr result IsOfContents }
{
    match read_length(octets) {
        Length::Definite { octets: size, .. } => {
            if can_have_length(ty, size) {
                Ok(())
            } else {
                Err(contents_refusal(ty))
            }
        }
        Length::Indefinite { .. } => Ok(()),
        Length::More => Ok(()),
        Length::Bad => Ok(()),
    }
}

/// Why contents octets are refused that no value of the type has: those of characters with `Alphabet`, others with
/// `Contents`.
pub fn contents_refusal(ty: &Ty) -> Refusal
    ensures { IsOfContents result }
{
    match ty {
        Ty::Text(_, _) | Ty::Time(_, _) => Refusal::Alphabet,
        _ => Refusal::Contents,
    }
}

/// Begins the constructed string at the front of `octets` (X.690 8.6.4 and 8.7.3), by its identifier octets, of
/// which there are `identifier`: which strings its segments are, what has come of it, and how many identifier
/// octets and length octets there are. Before it stand `taken` octets, and it ends at `end` at the latest.
/// `levels` constructed encodings may nest in it, itself among them. Only strings have such encodings.
///
/// Refused with `Truncated` where octets are missing, with `Form` of a type that is no string, with another of
/// the refusals 2 to 11 where no octets after these make it an encoding that ends there, and with `NoMemory`.
pub fn begin_string(
    alloc: Global,
    node: &Ty,
    identifier: usize,
    end: usize,
    taken: usize,
    levels: usize,
    octets: &[u8],
) -> Result<(SegmentKind, Segments, usize), Refusal>
    requires leaf { IsLeaf (ty_view node.now) }
    requires within { end ≤ MAX_ENCODING }
    requires tagged { IsReadTag (tag_of (ty_view node.now)) end taken octets.now true identifier }
    ensures begun { IfOk result (λ p. IsBegun (ty_view node.now) end taken identifier levels octets.now p.0 p.1 p.2) }
    ensures truncated { result ≡ Err Refusal.Truncated →
        ¬ HasFront (IsPartWithin levels (ty_view node.now) end taken) octets.now }
    ensures cut { result ≡ Err Refusal.Truncated →
        IsPartCut (tag_of (ty_view node.now)) (ty_view node.now) levels end taken octets.now }
    ensures never { IfErr result (λ refusal. IsFinal refusal → (more : List ℕ) →
        ¬ HasFront (IsPartWithin levels (ty_view node.now) end taken) (octets.now ++ more)) }
    ensures numbers { IfErr result IsOfReading }
{
    let Some(kind) = kind_of(node) else {
        return Err(Refusal::Form);
    };
    if levels == 0 {
        return Err(Refusal::TooDeep);
    }
    let after = taken + identifier;
    let (size, frame) = read_opening(end, after, &octets[identifier..])?;
    let used = identifier + size;
    let segments = Segments::new(alloc, levels, frame, taken + used)?;
    Ok((kind, segments, used))
}
