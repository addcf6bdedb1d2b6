//! Identifier octets and length octets where a part of an open encoding must begin.

ghost use Rattle.std.specs.Prelude.{◌≡◌, ◌≤◌, ◌<◌, ◌++◌, ℕ, List, take, IfOk, IfErr};
ghost use Rattle.octets.specs.declared.TheConstants.{MAX_ENCODING, MAX_TAG_NUMBER};
ghost use Rattle.octets.specs.declared.tag.Tag.{Tag};
ghost use Rattle.types.specs.Refusal.{IsFinal, IsOfReading};
ghost use Rattle.encoding_parts.specs.Cut.{IsIdentifierCut, IsLengthCut};
ghost use Rattle.encoding_parts.specs.Head.{IsTagWithin, IsReadTag, IsExtentWithin, IsReadExtent};

use crate::set_components::not_due;
use octets::{Head, Length, Tag, read_identifier, read_length};
use types::Refusal;

/// How many end-of-contents octets an encoding of the indefinite form has.
pub const END_OF_CONTENTS: usize = 2;

/// How far an encoding goes behind its identifier octets.
#[derive(Clone, Copy, Debug)]
pub enum Extent {
    /// The definite form.
    Definite {
        /// How many contents octets follow.
        octets: usize,
        /// How many octets the length itself has.
        used: usize,
    },
    /// The indefinite form.
    Indefinite {
        /// How many octets the length itself has: one.
        used: usize,
    },
}

/// Reads the identifier octets (X.690 8.1.2) of the encoding at the front of `octets`: its tag, whether it is
/// constructed, and how many they are. Before it stand `taken` octets, and what holds it ends at `end`.
///
/// Refused with `Truncated` where octets are missing, with `TooLong` where they pass the end, and with
/// `Identifier` where no tag within the limit begins so. Takes no memory.
#[inline(always)]
pub fn read_head_tag(end: usize, taken: usize, octets: &[u8]) -> Result<(Tag, bool, usize), Refusal>
    ensures value { IfOk result (λ p. IsReadTag p.0 end taken octets.now p.1 p.2) }
    ensures within { IfOk result (λ p. p.0.number ≤ MAX_TAG_NUMBER) }
    ensures truncated { result ≡ Err Refusal.Truncated → (tag : Tag) → tag.number ≤ MAX_TAG_NUMBER →
        ¬ IsTagWithin tag end taken octets.now }
    ensures cut { result ≡ Err Refusal.Truncated → IsIdentifierCut end taken octets.now }
    ensures never { IfErr result (λ refusal. IsFinal refusal → (more : List ℕ) (tag : Tag) →
        tag.number ≤ MAX_TAG_NUMBER → ¬ IsTagWithin tag end taken (octets.now ++ more)) }
    ensures numbers { IfErr result IsOfReading }
{
    let room = end.saturating_sub(taken);
    let window = front(octets, room);
    match read_identifier(window) {
        Head::Done {
            tag,
            constructed,
            used,
        } => Ok((tag, constructed, used)),
        Head::More => Err(cut(window.len(), room)),
        Head::Bad => Err(Refusal::Identifier),
    }
}

/// Reads the identifier octets of the encoding at the front of `octets`, which are to be those of `tag`: whether it
/// is constructed, and how many they are (X.690 8.1.2). Before it stand `taken` octets, and what holds it ends at
/// `end`.
///
/// Refused as `read_head_tag` does, and where they are those of another tag as `not_due` says. Takes no memory.
pub fn read_tag(tag: Tag, end: usize, taken: usize, octets: &[u8]) -> Result<(bool, usize), Refusal>
    requires { tag.number ≤ MAX_TAG_NUMBER }
    ensures value { IfOk result (λ p. IsReadTag tag end taken octets.now p.0 p.1) }
    ensures truncated { result ≡ Err Refusal.Truncated → ¬ IsTagWithin tag end taken octets.now }
    ensures cut { result ≡ Err Refusal.Truncated → IsIdentifierCut end taken octets.now }
    ensures never { IfErr result (λ refusal. IsFinal refusal → (more : List ℕ) →
        ¬ IsTagWithin tag end taken (octets.now ++ more)) }
    ensures numbers { IfErr result IsOfReading }
{
    let (found, constructed, used) = read_head_tag(end, taken, octets)?;
    if found != tag {
        return Err(not_due(found));
    }
    Ok((constructed, used))
}

/// Reads the length octets at the front of `octets` (X.690 8.1.3): how far the encoding goes that they are of.
/// Before them stand `taken` octets, and what holds the encoding ends at `end`.
///
/// Refused with `Truncated` where octets are missing, with `TooLong` where the encoding passes the end, with `Form`
/// where a primitive one has the indefinite form, and with `Length` where no length within the limit begins so.
/// Takes no memory.
pub fn read_extent(
    constructed: bool,
    end: usize,
    taken: usize,
    octets: &[u8],
) -> Result<Extent, Refusal>
    requires { end ≤ MAX_ENCODING }
    ensures value { IfOk result (λ extent. IsReadExtent constructed end taken octets.now extent) }
    ensures truncated { result ≡ Err Refusal.Truncated →
        ¬ IsExtentWithin constructed end taken octets.now }
    ensures cut { result ≡ Err Refusal.Truncated → IsLengthCut end taken octets.now }
    ensures never { IfErr result (λ refusal. IsFinal refusal → (more : List ℕ) →
        ¬ IsExtentWithin constructed end taken (octets.now ++ more)) }
    ensures numbers { IfErr result IsOfReading }
{
    let room = end.saturating_sub(taken);
    let window = front(octets, room);
    match read_length(window) {
        Length::Definite { octets: size, used } => {
            if size > room - used {
                return Err(Refusal::TooLong);
            }
            Ok(Extent::Definite { octets: size, used })
        }
        Length::Indefinite { used } => {
            if !constructed {
                return Err(Refusal::Form);
            }
            if END_OF_CONTENTS > room - used {
                return Err(Refusal::TooLong);
            }
            Ok(Extent::Indefinite { used })
        }
        Length::More => Err(cut(window.len(), room)),
        Length::Bad => Err(Refusal::Length),
    }
}

// At most so many octets from the front.
pub fn front(octets: &[u8], most: usize) -> &[u8]
    ensures { result.now ≡ take most octets.now }
{
    if octets.len() <= most {
        octets
    } else {
        &octets[..most]
    }
}

// Why octets are refused that are cut: by the input's end, or by the end of what holds them.
fn cut(there: usize, room: usize) -> Refusal
    ensures truncated { result ≡ Refusal.Truncated → there < room }
    ensures never { IsFinal result → room ≤ there }
    ensures numbers { IsOfReading result }
{
    if there < room {
        Refusal::Truncated
    } else {
        Refusal::TooLong
    }
}

/// Why a part is refused, by whether an encoding around it has the definite form: one that goes on too long then
/// passes an end that length octets say, so `Length` is said for `TooLong`. Takes no memory.
pub fn refusal_inside(inside_definite: bool, refusal: Refusal) -> Refusal
    ensures truncated { result ≡ Refusal.Truncated → refusal ≡ Refusal.Truncated }
    ensures never { IsFinal result → IsFinal refusal }
    ensures numbers { IsOfReading refusal → IsOfReading result }
{
    if inside_definite && refusal == Refusal::TooLong {
        Refusal::Length
    } else {
        refusal
    }
}
