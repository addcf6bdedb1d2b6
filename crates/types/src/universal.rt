//! The universal tags of types (X.680 8.4, Table 1).

ghost use Rattle.std.specs.Prelude.{◌≡◌};
ghost use Rattle.types.specs.Universal.{text_tag, time_tag};

use crate::Ty;
use octets::Tag;
use strings::{TextKind, TimeKind};

// The tag of a character string type.
pub fn text_tag(kind: TextKind) -> Tag
    ensures { result ≡ text_tag kind }
{
    Tag::universal(match kind {
        TextKind::Utf8 => 12,
        TextKind::Numeric => 18,
        TextKind::Printable => 19,
        TextKind::Ia5 => 22,
        TextKind::Visible => 26,
        TextKind::Bmp => 30,
    })
}

// The tag of UTCTime or GeneralizedTime.
pub fn time_tag(kind: TimeKind) -> Tag
    ensures { result ≡ time_tag kind }
{
    Tag::universal(match kind {
        TimeKind::Utc => 23,
        TimeKind::Generalized => 24,
    })
}

// The tag that a type has where it is given no other; None of an explicit tag and of a CHOICE.
pub fn universal_tag(ty: &Ty) -> Option<Tag> {
    Some(match ty {
        Ty::Boolean(_) => Tag::universal(1),
        Ty::Integer(_) => Tag::universal(2),
        Ty::Bits(_) | Ty::NamedBits(_, _) => Tag::universal(3),
        Ty::Octets(_) => Tag::universal(4),
        Ty::Null(_) => Tag::universal(5),
        Ty::Oid(_) => Tag::universal(6),
        Ty::Enumerated(_, _) => Tag::universal(10),
        Ty::RelativeOid(_) => Tag::universal(13),
        Ty::Sequence(_, _) | Ty::SequenceOf(_, _) => Tag::universal(16),
        Ty::Set(_, _) | Ty::SetOf(_, _) => Tag::universal(17),
        Ty::Text(_, kind) => text_tag(*kind),
        Ty::Time(_, kind) => time_tag(*kind),
        Ty::Choice(_) | Ty::Explicit(_, _) => return None,
    })
}
