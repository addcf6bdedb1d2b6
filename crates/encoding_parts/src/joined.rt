//! The string that segments make (X.690 8.6.4 and 8.7.3).

ghost use Rattle.std.specs.Prelude.{◌≡◌, ◌⊎◌, ◌↔◌, ◌+◌, ◌≤◌, IsTrue, [], List, length, MatchOption, OnErr, OnOk, IfOk, IfErr};
ghost use Rattle.primitives.specs.Bits.{CanBeUnused};
ghost use Rattle.types.specs.Conforms.{Conforms};
ghost use Rattle.types.specs.Refusal.{IsFinal};
ghost use Rattle.types.specs.View.{ty_view, value_view};
ghost use Rattle.encoding_parts.specs.Contents.{IsOfContents};
ghost use Rattle.encoding_parts.specs.Joined.{Element, HoldsPiece, HoldsSame, IsHeld, IsJoined, segment_of, value_of, IsHeldFor, IsNoString, IsStringOf};

use crate::contents::text_of;
use octets::{Class, Tag};
use primitives::Bits;
use std::alloc::Global;
use types::{Refusal, Ty, Value};

/// Which strings may be cut into segments.
#[derive(Clone, Copy, Debug, PartialEq, Eq)]
pub enum SegmentKind {
    /// BIT STRING, with named bits or without.
    Bits,
    /// OCTET STRING, and character strings and times, whose segments are those of an OCTET STRING.
    Octets,
}

/// The octets of the segments that have come, and how many bits of the last one are unused.
#[derive(Debug, Drop)]
pub struct Joined {
    /// The octets.
    pub octets: Vec<u8>,
    /// How many bits of the last octet are unused; 0 where the string is none of bits.
    pub unused: u8,
}

/// Which strings the segments of the type's constructed encodings are, if it has such (X.690 8.6.4, 8.7.3, 8.23
/// and 8.25).
pub fn kind_of(ty: &Ty) -> Option<SegmentKind>
    ensures { MatchOption result (IsNoString (ty_view ty.now)) (λ kind. IsStringOf kind (ty_view ty.now)) }
{
    match ty {
        Ty::Bits(_) | Ty::NamedBits(_, _) => Some(SegmentKind::Bits),
        Ty::Octets(_) | Ty::Text(_, _) | Ty::Time(_, _) => Some(SegmentKind::Octets),
        Ty::Boolean(_) => None,
        Ty::Integer(_) => None,
        Ty::Enumerated(_, _) => None,
        Ty::Null(_) => None,
        Ty::Oid(_) => None,
        Ty::RelativeOid(_) => None,
        Ty::Sequence(_, _) => None,
        Ty::Set(_, _) => None,
        Ty::SequenceOf(_, _) => None,
        Ty::SetOf(_, _) => None,
        Ty::Choice(_) => None,
        Ty::Explicit(_, _) => None,
    }
}

/// The tag of the segments (X.690 8.6.4.1 and 8.7.3.2).
pub fn segment_tag(kind: SegmentKind) -> Tag
    ensures { result ≡ segment_of kind }
{
    let number = match kind {
        SegmentKind::Bits => 3,
        SegmentKind::Octets => 4,
    };
    Tag {
        class: Class::Universal,
        number,
    }
}

impl Joined {
    /// No segment.
    pub fn new(alloc: Global) -> Joined
        ensures octets { result.octets.items ≡ [] }
        ensures unused { result.unused ≡ 0 }
    {
        Joined {
            octets: Vec::new(alloc),
            unused: 0,
        }
    }

    /// Appends the piece whose contents octets these are: of a string of bits the first one says how many bits of the
    /// last one are unused. Asks for a string of the kind whose last octet has none so far.
    ///
    /// Refused with `Contents` where these are no contents octets of a piece. Takes memory.
    pub fn join(&mut self, kind: SegmentKind, contents: &[u8]) -> Result<(), Refusal>
        requires whole { self.old.unused ≡ 0 }
        requires held { IsHeld kind self.old }
        ensures joined { OnOk result (IsJoined kind self.old self.new contents.now) }
        ensures light { OnOk result (length self.new.octets.items ≤ length self.old.octets.items + length contents.now) }
        ensures none { result ≡ Err Refusal.Contents →
            (piece : List (Element kind)) → ¬ HoldsPiece kind piece contents.now }
        ensures unchanged { OnErr result (HoldsSame self.old self.new) }
        ensures numbers { IfErr result (λ refusal.
            (refusal ≡ Refusal.Contents) ⊎ (refusal ≡ Refusal.NoMemory)) }
    {
        match kind {
            SegmentKind::Bits => self.join_bits(contents),
            SegmentKind::Octets => self.join_octets(contents),
        }
    }

    fn join_octets(&mut self, contents: &[u8]) -> Result<(), Refusal>
        requires held { IsHeld SegmentKind.Octets self.old }
        ensures joined { OnOk result (IsJoined SegmentKind.Octets self.old self.new contents.now) }
        ensures light { OnOk result (length self.new.octets.items ≤ length self.old.octets.items + length contents.now) }
        ensures unchanged { OnErr result (HoldsSame self.old self.new) }
        ensures numbers { IfErr result (λ refusal. refusal ≡ Refusal.NoMemory) }
    {
        // The copying of octets is a call, and a single one needs none.
        if let [octet] = contents {
            return match self.octets.push(*octet) {
                Ok(()) => Ok(()),
                Err(_) => Err(Refusal::NoMemory),
            };
        }
        match self.octets.extend_from_slice(contents) {
            Ok(()) => Ok(()),
            Err(_) => Err(Refusal::NoMemory),
        }
    }

    fn join_bits(&mut self, contents: &[u8]) -> Result<(), Refusal>
        requires whole { self.old.unused ≡ 0 }
        requires held { IsHeld SegmentKind.Bits self.old }
        ensures joined { OnOk result (IsJoined SegmentKind.Bits self.old self.new contents.now) }
        ensures light { OnOk result (length self.new.octets.items ≤ length self.old.octets.items + length contents.now) }
        ensures none { result ≡ Err Refusal.Contents →
            (piece : List (Element SegmentKind.Bits)) → ¬ HoldsPiece SegmentKind.Bits piece contents.now }
        ensures unchanged { OnErr result (HoldsSame self.old self.new) }
        ensures numbers { IfErr result (λ refusal.
            (refusal ≡ Refusal.Contents) ⊎ (refusal ≡ Refusal.NoMemory)) }
    {
        let Some((&unused, octets)) = contents.split_first() else {
            return Err(Refusal::Contents);
        };
        if !can_be_unused(unused, octets) {
            return Err(Refusal::Contents);
        }
        match self.octets.extend_from_slice(octets) {
            Ok(()) => {
                self.unused = unused;
                Ok(())
            }
            Err(_) => Err(Refusal::NoMemory),
        }
    }

    /// The value of the type whose segments these are. A text or a time has their octets, if the type allows
    /// them, and named bits are without the bits 0 at the end of the string (X.690 11.2.2).
    ///
    /// Refused with `Alphabet` where it does not. Asks for a string of the type's kind. Takes no memory.
    pub fn into_value(self, ty: &Ty) -> Result<Value, Refusal>
        requires held { IsHeldFor (ty_view ty.now) self }
        ensures value { IfOk result (λ value. (value_view value ≡ value_of (ty_view ty.now) self)
            × Conforms (ty_view ty.now) (value_view value)) }
        ensures none { IfErr result (λ refusal. IsFinal refusal →
            ¬ Conforms (ty_view ty.now) (value_of (ty_view ty.now) self)) }
        ensures numbers { IfErr result IsOfContents }
    {
        match ty {
            Ty::Bits(_) => match Bits::new(self.octets, self.unused) {
                Some(bits) => Ok(Value::Bits(bits)),
                None => Err(Refusal::Contents),
            },
            Ty::NamedBits(_, _) => match Bits::new(self.octets, self.unused) {
                Some(bits) => Ok(Value::Bits(bits.trimmed())),
                None => Err(Refusal::Contents),
            },
            Ty::Text(_, _) | Ty::Time(_, _) => text_of(ty, self.octets),
            Ty::Octets(_) => Ok(Value::Octets(self.octets)),
            Ty::Boolean(_) => Err(Refusal::Contents),
            Ty::Integer(_) => Err(Refusal::Contents),
            Ty::Enumerated(_, _) => Err(Refusal::Contents),
            Ty::Null(_) => Err(Refusal::Contents),
            Ty::Oid(_) => Err(Refusal::Contents),
            Ty::RelativeOid(_) => Err(Refusal::Contents),
            Ty::Sequence(_, _) => Err(Refusal::Contents),
            Ty::Set(_, _) => Err(Refusal::Contents),
            Ty::SequenceOf(_, _) => Err(Refusal::Contents),
            Ty::SetOf(_, _) => Err(Refusal::Contents),
            Ty::Choice(_) => Err(Refusal::Contents),
            Ty::Explicit(_, _) => Err(Refusal::Contents),
        }
    }
}

// Whether so many bits of the octets can be unused.
fn can_be_unused(unused: u8, octets: &[u8]) -> bool
    ensures { IsTrue result ↔ CanBeUnused unused octets.now }
{
    unused == 0 || (unused <= 7 && !octets.is_empty())
}
