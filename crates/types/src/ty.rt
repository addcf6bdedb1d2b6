//! Types (X.680), with all tags resolved.

ghost use Rattle.std.specs.Prelude.{◌≡◌};

use crate::Value;
use names::Name;
use octets::Tag;
use strings::{TextKind, TimeKind};

/// A type. Each node but CHOICE carries its outermost tag.
#[cycle(ty)]
#[derive(Debug, PartialEq, Eq, Drop)]
pub enum Ty {
    /// BOOLEAN.
    Boolean(Tag),
    /// INTEGER.
    Integer(Tag),
    /// ENUMERATED, with its items.
    Enumerated(Tag, Vec<Item>),
    /// NULL.
    Null(Tag),
    /// OBJECT IDENTIFIER.
    Oid(Tag),
    /// RELATIVE-OID.
    RelativeOid(Tag),
    /// BIT STRING.
    Bits(Tag),
    /// BIT STRING with named bits: its values have no bit 0 behind their last bit 1.
    NamedBits(Tag, Vec<NamedBit>),
    /// OCTET STRING.
    Octets(Tag),
    /// A character string type.
    Text(Tag, TextKind),
    /// UTCTime or GeneralizedTime.
    Time(Tag, TimeKind),
    /// SEQUENCE, with its components.
    Sequence(Tag, Vec<Field>),
    /// SET, with its components.
    Set(Tag, Vec<Field>),
    /// SEQUENCE OF, with the type of its items.
    SequenceOf(Tag, Box<Ty>),
    /// SET OF, with the type of its items.
    SetOf(Tag, Box<Ty>),
    /// CHOICE, with its alternatives. It has no tag of its own.
    Choice(Vec<Alternative>),
    /// An explicit tag around a type.
    Explicit(Tag, Box<Ty>),
}

/// An item of an ENUMERATED.
#[derive(Debug, PartialEq, Eq, Drop)]
pub struct Item {
    /// Its name.
    pub name: Name,
    /// Its number, which encodes it.
    pub number: i128,
}

/// A bit of a BIT STRING that has a name.
#[derive(Debug, PartialEq, Eq, Drop)]
pub struct NamedBit {
    /// Its name.
    pub name: Name,
    /// Its place, counted from 0.
    pub number: u32,
}

/// A component of a SEQUENCE or SET.
#[cycle(ty)]
#[derive(Debug, PartialEq, Eq, Drop)]
pub struct Field {
    /// Its name.
    pub name: Name,
    /// Its type.
    pub ty: Ty,
    /// Whether it may be absent.
    pub presence: Presence,
}

/// Whether a component may be absent.
#[derive(Debug, PartialEq, Eq, Drop)]
pub enum Presence {
    /// It stands in every value.
    Required,
    /// It may be absent.
    Optional,
    /// It may be absent, which means this value.
    Default(Value),
}

/// An alternative of a CHOICE.
#[cycle(ty)]
#[derive(Debug, PartialEq, Eq, Drop)]
pub struct Alternative {
    /// Its name.
    pub name: Name,
    /// Its type.
    pub ty: Ty,
}

impl Ty {
    ghost use Rattle.std.specs.Prelude.{◌∷◌, [], ◌↔◌, IfSome, IsNone, IsTrue};
    ghost use Rattle.types.specs.FirstTags.{first_tags};
    ghost use Rattle.types.specs.Leaf.{tag_of, IsLeaf};
    ghost use Rattle.types.specs.Shape.{Shape, Alternatives};
    ghost use Rattle.types.specs.View.{ty_view};

    /// The tag that each encoding begins with; None of a CHOICE, whose alternatives have tags of their
    /// own. Takes no memory.
    pub fn tag(&self) -> Option<Tag>
        ensures value { IfSome result (λ tag. first_tags (ty_view self.now) ≡ tag ∷ []) }
        ensures none { IsNone result ↔ ((alternatives : Alternatives) × (ty_view self.now ≡ Shape.choice alternatives)) }
    {
        match self {
            Ty::Choice(_) => None,
            Ty::Boolean(tag)
            | Ty::Integer(tag)
            | Ty::Enumerated(tag, _)
            | Ty::Null(tag)
            | Ty::Oid(tag)
            | Ty::RelativeOid(tag)
            | Ty::Bits(tag)
            | Ty::NamedBits(tag, _)
            | Ty::Octets(tag)
            | Ty::Text(tag, _)
            | Ty::Time(tag, _)
            | Ty::Sequence(tag, _)
            | Ty::Set(tag, _)
            | Ty::SequenceOf(tag, _)
            | Ty::SetOf(tag, _)
            | Ty::Explicit(tag, _) => Some(*tag),
        }
    }

    /// The tag of a type without parts: of one that is no SEQUENCE, SET, SEQUENCE OF, SET OF or CHOICE, and has no
    /// explicit tag. None of any other. Takes no memory.
    pub fn leaf_tag(&self) -> Option<Tag>
        ensures leaf { IfSome result (λ tag. IsLeaf (ty_view self.now)) }
        ensures tag { IfSome result (λ tag. tag_of (ty_view self.now) ≡ tag) }
        ensures none { IsNone result → ¬ IsLeaf (ty_view self.now) }
    {
        match self {
            Ty::Sequence(_, _) | Ty::Set(_, _) => None,
            Ty::SequenceOf(_, _) | Ty::SetOf(_, _) => None,
            Ty::Choice(_) | Ty::Explicit(_, _) => None,
            _ => self.tag(),
        }
    }

    /// Whether the type has no parts; `leaf_tag` then returns its tag. Takes no memory.
    pub fn has_no_parts(&self) -> bool
        ensures { IsTrue result ↔ IsLeaf (ty_view self.now) }
    {
        self.leaf_tag().is_some()
    }
}
