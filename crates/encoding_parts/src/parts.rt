//! What stands behind the identifier octets of a part.

ghost use Rattle.std.specs.Prelude.{◌≡◌, ◌⊎◌, ◌+◌, ◌≤◌, ◌++◌, ℕ, List, true, false, take, drop, length, slice_range, IfOk, IfErr};
ghost use Rattle.octets.specs.declared.TheConstants.{MAX_ENCODING};
ghost use Rattle.octets.specs.declared.tag.Tag.{Tag};
ghost use Rattle.octets.specs.Identifier.{IsIdentifier};
ghost use Rattle.octets.specs.Rule.{ber};
ghost use Rattle.types.specs.Form.{IsPrimitive};
ghost use Rattle.types.specs.Refusal.{IsFinal, IsOfReading};
ghost use Rattle.encoding_parts.specs.Completing.{Opens};
ghost use Rattle.encoding_parts.specs.Cut.{AreContentsCut, IsLengthCut};
ghost use Rattle.encoding_parts.specs.Head.{IsExtentWithin, IsPrimitiveWithin};

use crate::frame::Frame;
use crate::head::{END_OF_CONTENTS, Extent, read_extent};
use types::Refusal;

/// Reads the length octets (X.690 8.1.3) of a constructed encoding at the front of `octets`: how many they are,
/// and what they open. Before them stand `taken` octets, and what holds the encoding ends at `end`.
///
/// Refused with `Truncated` where octets are missing, with `TooLong` where the contents octets, or in the
/// indefinite form the end-of-contents octets, pass the end, and with `Length` where no length within the limit
/// begins so. Takes no memory.
pub fn read_opening(end: usize, taken: usize, octets: &[u8]) -> Result<(usize, Frame), Refusal>
    requires { end ≤ MAX_ENCODING }
    ensures value { IfOk result (λ p.
        (p.0 ≤ length octets.now) × Opens end taken p.1 (take p.0 octets.now)) }
    ensures truncated { result ≡ Err Refusal.Truncated → ¬ IsExtentWithin true end taken octets.now }
    ensures cut { result ≡ Err Refusal.Truncated → IsLengthCut end taken octets.now }
    ensures never { IfErr result (λ refusal. IsFinal refusal → (more : List ℕ) →
        ¬ IsExtentWithin true end taken (octets.now ++ more)) }
    ensures numbers { IfErr result IsOfReading }
{
    match read_extent(true, end, taken, octets)? {
        Extent::Definite { octets: size, used } => {
            let end = taken + used + size;
            let definite = true;
            Ok((used, Frame { definite, end }))
        }
        Extent::Indefinite { used } => {
            let end = end - END_OF_CONTENTS;
            let definite = false;
            Ok((used, Frame { definite, end }))
        }
    }
}

// Where the contents octets of the primitive encoding at the front begin and end, by its identifier
// octets.
pub fn read_contents_place(
    end: usize,
    taken: usize,
    identifier: usize,
    octets: &[u8],
) -> Result<(usize, usize), Refusal>
    requires within { end ≤ MAX_ENCODING }
    requires there { identifier ≤ length octets.now }
    requires fits { taken + identifier ≤ end }
    ensures bounds { IfOk result (λ p.
        (p.0 ≤ p.1) × (p.1 ≤ length octets.now) × (taken + p.1 ≤ end)) }
    ensures value { IfOk result (λ p. (tag : Tag) →
        IsIdentifier tag false (take identifier octets.now) →
        IsPrimitive ber tag (slice_range octets.now p.0 p.1) (take p.1 octets.now)) }
    ensures truncated { result ≡ Err Refusal.Truncated → (tag : Tag) →
        IsIdentifier tag false (take identifier octets.now) →
        ¬ IsPrimitiveWithin tag end taken octets.now }
    ensures cut { result ≡ Err Refusal.Truncated →
        IsLengthCut end (taken + identifier) (drop identifier octets.now)
        ⊎ ((n : ℕ) × AreContentsCut n end (taken + identifier) (drop identifier octets.now)) }
    ensures never { IfErr result (λ refusal. IsFinal refusal → (more : List ℕ) (tag : Tag) →
        IsIdentifier tag false (take identifier octets.now) →
        ¬ IsPrimitiveWithin tag end taken (octets.now ++ more)) }
    ensures numbers { IfErr result IsOfReading }
{
    match read_extent(false, end, taken + identifier, &octets[identifier..])? {
        Extent::Definite { octets: size, used } => {
            let start = identifier + used;
            if size > octets.len() - start {
                return Err(Refusal::Truncated);
            }
            Ok((start, start + size))
        }
        Extent::Indefinite { .. } => Err(Refusal::Form),
    }
}
