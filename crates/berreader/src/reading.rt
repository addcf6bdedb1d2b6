//! Reads one encoding at the front of some octets under BER (X.690 clause 8).

ghost use Rattle.std.specs.Prelude.{◌≡◌, ◌≤◌, ◌++◌, ℕ, List, length, take, IfOk, IfErr, IfSome, MatchOption};
ghost use Rattle.octets.specs.Front.{HasFront};
ghost use Rattle.octets.specs.Rule.{ber};
ghost use Rattle.types.specs.Encoding.{IsAccepted, IsSomeAccepted};
ghost use Rattle.types.specs.Leaf.{IsLeaf, tag_of};
ghost use Rattle.types.specs.Refusal.{IsFinal, IsOfReading};
ghost use Rattle.types.specs.Same.{IsSame};
ghost use Rattle.types.specs.Shape.{Val};
ghost use Rattle.types.specs.View.{ty_view, value_view};
ghost use Rattle.types.specs.Weight.{weight_of};
ghost use Rattle.types.specs.WellFormed.{IsWellFormed};
ghost use Rattle.berreader.specs.declared.pieces.Pieces.{Pieces};
ghost use Rattle.berreader.specs.Feeding.{HasBeenFed, shape_of};
ghost use Rattle.berreader.specs.Weight.{most_weight};

use crate::reader::{Reader, Step};
use berslice::{read_front, read_front_leaf};
use octets::Tag;
use std::alloc::Global;
use types::{Refusal, Value, WellTyped};

/// Reads the one encoding at the front of `octets` under BER (X.690 clause 8), and returns the value of
/// `ty` and how many octets the encoding has. What stands behind it is not looked at.
///
/// Refused with `Truncated` where octets are missing, with another of the refusals 2 to 11 where no
/// octets after these could make it an encoding within the limits, and with `NoMemory`: all values but
/// those of BOOLEAN, INTEGER within 128 bits, ENUMERATED and NULL take memory, and so do more than eight
/// open encodings, and octets that end inside an encoding.
pub fn read(alloc: Global, ty: &WellTyped, octets: &[u8]) -> Result<(Value, usize), Refusal>
    ensures value { IfOk result (λ p. (p.1 ≤ length octets.now)
        × IsAccepted ber (ty_view ty.now) (value_view p.0) (take p.1 octets.now)) }
    ensures only { IfOk result (λ p. (v : Val) (n : ℕ) → n ≤ length octets.now →
        IsAccepted ber (ty_view ty.now) v (take n octets.now) →
        (n ≡ p.1) × IsSame (ty_view ty.now) (value_view p.0) v) }
    ensures light { IfOk result (λ p. weight_of (value_view p.0) ≤ most_weight (ty_view ty.now) p.1) }
    ensures truncated { result ≡ Err Refusal.Truncated →
        ¬ HasFront (IsSomeAccepted ber (ty_view ty.now)) octets.now }
    ensures begun { result ≡ Err Refusal.Truncated →
        (reader : Pieces) × (shape_of reader ≡ ty_view ty.now) × HasBeenFed reader octets.now }
    ensures never { IfErr result (λ refusal. IsFinal refusal → (more : List ℕ) →
        ¬ HasFront (IsSomeAccepted ber (ty_view ty.now)) (octets.now ++ more)) }
    ensures numbers { IfErr result IsOfReading }
    ensures well_formed { IsWellFormed (ty_view ty.now) }
{
    let mut reader = Reader::new(alloc, ty);
    match reader.feed(octets)? {
        Step::Done { value, used } => Ok((value, used)),
        Step::More => Err(Refusal::Truncated),
    }
}

/// Reads the encoding at the front of `octets` into the slot, where all of it is there and within the limits, and returns
/// how many octets it has. Returns None for anything else, as where memory runs out, and the slot may then hold anything:
/// `read` tells why. The value goes into the room of the one that the slot held, as far as it has room there, and else
/// takes memory as `read` says.
#[inline(always)]
pub fn read_into(
    alloc: Global,
    ty: &WellTyped,
    octets: &[u8],
    slot: &mut Option<Value>,
) -> Option<usize>
    ensures there { IfSome result (λ used. used ≤ length octets.now) }
    ensures value { IfSome result (λ used. MatchOption slot.new ⊥ (λ value.
        IsAccepted ber (ty_view ty.now) (value_view value) (take used octets.now))) }
{
    read_front(alloc, ty.as_type(), octets, slot)
}

/// Reads the encoding at the front of `octets` into the value, as `read_into` does, of a type without parts, whose tag
/// `leaf_tag` tells: a caller that reads many of them asks the type once.
#[inline(always)]
pub fn read_leaf_into(
    alloc: Global,
    ty: &WellTyped,
    tag: Tag,
    octets: &[u8],
    value: &mut Value,
) -> Option<usize>
    requires leaf { IsLeaf (ty_view ty.now) }
    requires tag { tag_of (ty_view ty.now) ≡ tag }
    ensures there { IfSome result (λ used. used ≤ length octets.now) }
    ensures value { IfSome result (λ used.
        IsAccepted ber (ty_view ty.now) (value_view value.new) (take used octets.now)) }
{
    read_front_leaf(alloc, ty.as_type(), tag, octets, value)
}
