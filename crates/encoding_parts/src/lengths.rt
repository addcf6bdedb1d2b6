//! Bounds on how many contents octets the values of a type have.

ghost use Rattle.std.specs.Prelude.{◌↔◌, IsTrue};
ghost use Rattle.encoding_parts.specs.Lengths.{CanHaveLength, TextLength, TimeLength};
ghost use Rattle.types.specs.View.{ty_view};

use primitives::MAX_INTEGER_OCTETS;
use strings::{TextKind, TimeKind};
use types::Ty;

// The octets of 128 bits.
const MOST_OF_AN_ITEM: usize = 16;

// Of 128 subidentifiers of 128 bits each, by seven bits an octet, which are 19 octets.
const MOST_OF_ARCS: usize = 2_432;

/// Whether so many contents octets are within the bounds of a primitive encoding of `ty` (X.690 8.2 to
/// 8.4, 8.6, 8.8, 8.19, 8.20, 8.23, 11.7 and 11.8). Where they are not, no octets after that length make one.
/// Takes no memory.
pub fn can_have_length(ty: &Ty, octets: usize) -> bool
    ensures { IsTrue result ↔ CanHaveLength (ty_view ty.now) octets }
{
    match ty {
        Ty::Boolean(_) => octets == 1,
        Ty::Integer(_) => 1 <= octets && octets <= MAX_INTEGER_OCTETS,
        Ty::Enumerated(_, _) => 1 <= octets && octets <= MOST_OF_AN_ITEM,
        Ty::Null(_) => octets == 0,
        Ty::Oid(_) | Ty::RelativeOid(_) => 1 <= octets && octets <= MOST_OF_ARCS,
        Ty::Bits(_) | Ty::NamedBits(_, _) => 1 <= octets,
        Ty::Octets(_) => true,
        Ty::Text(_, kind) => text_can_have_length(*kind, octets),
        Ty::Time(_, kind) => time_can_have_length(*kind, octets),
        Ty::Sequence(_, _) => false,
        Ty::Set(_, _) => false,
        Ty::SequenceOf(_, _) => false,
        Ty::SetOf(_, _) => false,
        Ty::Choice(_) => false,
        Ty::Explicit(_, _) => false,
    }
}

// A BMPString has two octets for each character.
fn text_can_have_length(kind: TextKind, octets: usize) -> bool
    ensures { IsTrue result ↔ TextLength kind octets }
{
    match kind {
        TextKind::Bmp => octets % 2 == 0,
        TextKind::Utf8
        | TextKind::Numeric
        | TextKind::Printable
        | TextKind::Ia5
        | TextKind::Visible => true,
    }
}

// A UTCTime has 13. A GeneralizedTime has 15, or 17 to 28 with a point and 1 to 12 digits.
fn time_can_have_length(kind: TimeKind, octets: usize) -> bool
    ensures { IsTrue result ↔ TimeLength kind octets }
{
    match kind {
        TimeKind::Utc => octets == 13,
        TimeKind::Generalized => octets == 15 || (17 <= octets && octets <= 28),
    }
}
