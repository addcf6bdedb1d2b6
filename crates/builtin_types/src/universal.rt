//! The universal tags of types (X.680 8.4, Table 1), and the types that other tags stand in front of.
//!
//! Nothing here takes memory.

ghost use Rattle.std.specs.Prelude.{◌≡◌};
ghost use Rattle.types.specs.View.{ty_view, components_view};
ghost use Rattle.types.specs.Shape.{Shape, Components};
ghost use Rattle.types.specs.Universal.{bit_string_tag, enumerated_tag};
ghost use Rattle.builtin_types.specs.Universal.{named_by_words, list_of, repeated};
ghost use Rattle.types.specs.Tagging.{tagged_implicitly};

use octets::Tag;
use strings::{TextKind, TimeKind};
use syntax::{Group, Simple};
use types::{Field, Ty};

/// The tag of BIT STRING.
pub fn bit_string_tag() -> Tag
    ensures { result ≡ bit_string_tag }
{
    Tag::universal(3)
}

/// The tag of ENUMERATED.
pub fn enumerated_tag() -> Tag
    ensures { result ≡ enumerated_tag }
{
    Tag::universal(10)
}

/// The tag of a SEQUENCE or SET, and of a SEQUENCE OF or SET OF.
pub fn group_tag(group: Group) -> Tag
    ensures list { (fields : Components) → tagged_implicitly result (list_of group fields) ≡ list_of group fields }
    ensures of { (inner : Shape) → tagged_implicitly result (repeated group inner) ≡ repeated group inner }
{
    match group {
        Group::Sequence => Tag::universal(16),
        Group::Set => Tag::universal(17),
    }
}

/// The tag of a type that is named by reserved words alone.
pub fn simple_tag(simple: Simple) -> Tag
    ensures { tagged_implicitly result (named_by_words simple) ≡ named_by_words simple }
{
    match simple {
        Simple::Boolean => Tag::universal(1),
        Simple::Integer => Tag::universal(2),
        Simple::BitString => Tag::universal(3),
        Simple::OctetString => Tag::universal(4),
        Simple::Null => Tag::universal(5),
        Simple::ObjectIdentifier => Tag::universal(6),
        Simple::Utf8String => Tag::universal(12),
        Simple::RelativeOid => Tag::universal(13),
        Simple::NumericString => Tag::universal(18),
        Simple::PrintableString => Tag::universal(19),
        Simple::Ia5String => Tag::universal(22),
        Simple::UtcTime => Tag::universal(23),
        Simple::GeneralizedTime => Tag::universal(24),
        Simple::VisibleString => Tag::universal(26),
        Simple::BmpString => Tag::universal(30),
    }
}

/// The type that these reserved words name, with this tag in place of its own.
pub fn simple_type(simple: Simple, tag: Tag) -> Ty
    ensures { ty_view result ≡ tagged_implicitly tag (named_by_words simple) }
{
    match simple {
        Simple::Boolean => Ty::Boolean(tag),
        Simple::Integer => Ty::Integer(tag),
        Simple::Null => Ty::Null(tag),
        Simple::BitString => Ty::Bits(tag),
        Simple::OctetString => Ty::Octets(tag),
        Simple::ObjectIdentifier => Ty::Oid(tag),
        Simple::RelativeOid => Ty::RelativeOid(tag),
        Simple::Utf8String => Ty::Text(tag, TextKind::Utf8),
        Simple::NumericString => Ty::Text(tag, TextKind::Numeric),
        Simple::PrintableString => Ty::Text(tag, TextKind::Printable),
        Simple::Ia5String => Ty::Text(tag, TextKind::Ia5),
        Simple::VisibleString => Ty::Text(tag, TextKind::Visible),
        Simple::BmpString => Ty::Text(tag, TextKind::Bmp),
        Simple::UtcTime => Ty::Time(tag, TimeKind::Utc),
        Simple::GeneralizedTime => Ty::Time(tag, TimeKind::Generalized),
    }
}

/// A SEQUENCE or SET of these components, with this tag.
pub fn list_type(group: Group, tag: Tag, fields: Vec<Field>) -> Ty
    ensures { ty_view result ≡ tagged_implicitly tag (list_of group (components_view fields.items)) }
{
    match group {
        Group::Sequence => Ty::Sequence(tag, fields),
        Group::Set => Ty::Set(tag, fields),
    }
}

/// A SEQUENCE OF or SET OF this type, with this tag.
pub fn of_type(group: Group, tag: Tag, inner: Box<Ty>) -> Ty
    ensures { ty_view result ≡ tagged_implicitly tag (repeated group (ty_view inner.value)) }
{
    match group {
        Group::Sequence => Ty::SequenceOf(tag, inner),
        Group::Set => Ty::SetOf(tag, inner),
    }
}
