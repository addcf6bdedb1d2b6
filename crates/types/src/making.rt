//! Types made in code, under their universal tags unless another is given.

ghost use Rattle.std.specs.Prelude.{◌≡◌, IfOk, map};
ghost use Rattle.types.specs.Shape.{Shape, SimpleType, StringType, Requirement};
ghost use Rattle.types.specs.Tagging.{tagged_by_default};
ghost use Rattle.types.specs.Universal.{bit_string_tag, enumerated_tag, sequence_tag, set_tag, boolean_type, integer_type, bit_string_type, octet_string_type, null_type, oid_type, relative_oid_type, text_type, time_type};
ghost use Rattle.types.specs.View.{ty_view, value_view, requirement_view, field_view, alternative_view, components_view, alternatives_view, item_view, named_bit_view};

use crate::universal::{text_tag, time_tag};
use crate::{Alternative, Field, Item, Name, NamedBit, Presence, Ty, Value};
use octets::{Class, Tag};
use std::alloc::{AllocError, Global};
use strings::{TextKind, TimeKind};

// The tag of BIT STRING, with named bits or without.
const BIT_STRING: Tag = Tag {
    class: Class::Universal,
    number: 3,
};

impl Ty {
    /// INTEGER.
    pub fn integer() -> Ty
        ensures { ty_view result ≡ integer_type }
    {
        Ty::Integer(Tag::universal(2))
    }

    /// ENUMERATED, with its items.
    pub fn enumerated(items: Vec<Item>) -> Ty
        ensures { ty_view result ≡ Shape.simple enumerated_tag (SimpleType.enumerated (map item_view items.items)) }
    {
        Ty::Enumerated(Tag::universal(10), items)
    }

    /// BOOLEAN.
    pub fn boolean() -> Ty
        ensures { ty_view result ≡ boolean_type }
    {
        Ty::Boolean(Tag::universal(1))
    }

    /// BIT STRING.
    pub fn bits() -> Ty
        ensures { ty_view result ≡ bit_string_type }
    {
        Ty::Bits(BIT_STRING)
    }

    /// BIT STRING, with its named bits.
    pub fn named_bits(bits: Vec<NamedBit>) -> Ty
        ensures { ty_view result ≡ Shape.string bit_string_tag (StringType.named_bits (map named_bit_view bits.items)) }
    {
        Ty::NamedBits(BIT_STRING, bits)
    }

    /// OCTET STRING.
    pub fn octets() -> Ty
        ensures { ty_view result ≡ octet_string_type }
    {
        Ty::Octets(Tag::universal(4))
    }

    /// A character string type.
    pub fn text(kind: TextKind) -> Ty
        ensures { ty_view result ≡ text_type kind }
    {
        Ty::Text(text_tag(kind), kind)
    }

    /// UTCTime or GeneralizedTime.
    pub fn time(kind: TimeKind) -> Ty
        ensures { ty_view result ≡ time_type kind }
    {
        Ty::Time(time_tag(kind), kind)
    }

    /// OBJECT IDENTIFIER.
    pub fn oid() -> Ty
        ensures { ty_view result ≡ oid_type }
    {
        Ty::Oid(Tag::universal(6))
    }

    /// RELATIVE-OID.
    pub fn relative_oid() -> Ty
        ensures { ty_view result ≡ relative_oid_type }
    {
        Ty::RelativeOid(Tag::universal(13))
    }

    /// SEQUENCE, with its components.
    pub fn sequence(fields: Vec<Field>) -> Ty
        ensures { ty_view result ≡ Shape.sequence sequence_tag (components_view fields.items) }
    {
        Ty::Sequence(Tag::universal(16), fields)
    }

    /// SET, with its components.
    pub fn set(fields: Vec<Field>) -> Ty
        ensures { ty_view result ≡ Shape.set set_tag (components_view fields.items) }
    {
        Ty::Set(Tag::universal(17), fields)
    }

    /// SEQUENCE OF, with the type of its items. Err where memory ran out.
    pub fn sequence_of(alloc: Global, items: Ty) -> Result<Ty, AllocError>
        ensures { IfOk result (λ ty. ty_view ty ≡ Shape.sequence_of sequence_tag (ty_view items)) }
    {
        Ok(Ty::SequenceOf(Tag::universal(16), Box::new(alloc, items)?))
    }

    /// SET OF, with the type of its items. Err where memory ran out.
    pub fn set_of(alloc: Global, items: Ty) -> Result<Ty, AllocError>
        ensures { IfOk result (λ ty. ty_view ty ≡ Shape.set_of set_tag (ty_view items)) }
    {
        Ok(Ty::SetOf(Tag::universal(17), Box::new(alloc, items)?))
    }

    /// CHOICE, with its alternatives.
    pub fn choice(alternatives: Vec<Alternative>) -> Ty
        ensures { ty_view result ≡ Shape.choice (alternatives_view alternatives.items) }
    {
        Ty::Choice(alternatives)
    }

    /// NULL.
    pub fn null() -> Ty
        ensures { ty_view result ≡ null_type }
    {
        Ty::Null(Tag::universal(5))
    }

    /// The type with an explicit tag around it. Err where memory ran out.
    pub fn explicit(self, alloc: Global, tag: Tag) -> Result<Ty, AllocError>
        ensures { IfOk result (λ ty. ty_view ty ≡ Shape.explicit tag (ty_view self)) }
    {
        Ok(Ty::Explicit(tag, Box::new(alloc, self)?))
    }

    /// The type with this tag in place of its outermost one, but around a CHOICE, which has none (X.680
    /// 31.2.7). Err where memory ran out, which only a CHOICE takes.
    pub fn implicit(self, alloc: Global, tag: Tag) -> Result<Ty, AllocError>
        ensures { IfOk result (λ ty. ty_view ty ≡ tagged_by_default tag (ty_view self)) }
    {
        Ok(match self {
            Ty::Choice(_) => return self.explicit(alloc, tag),
            Ty::Boolean(_) => Ty::Boolean(tag),
            Ty::Integer(_) => Ty::Integer(tag),
            Ty::Enumerated(_, items) => Ty::Enumerated(tag, items),
            Ty::Null(_) => Ty::Null(tag),
            Ty::Oid(_) => Ty::Oid(tag),
            Ty::RelativeOid(_) => Ty::RelativeOid(tag),
            Ty::Bits(_) => Ty::Bits(tag),
            Ty::NamedBits(_, bits) => Ty::NamedBits(tag, bits),
            Ty::Octets(_) => Ty::Octets(tag),
            Ty::Text(_, kind) => Ty::Text(tag, kind),
            Ty::Time(_, kind) => Ty::Time(tag, kind),
            Ty::Sequence(_, fields) => Ty::Sequence(tag, fields),
            Ty::Set(_, fields) => Ty::Set(tag, fields),
            Ty::SequenceOf(_, items) => Ty::SequenceOf(tag, items),
            Ty::SetOf(_, items) => Ty::SetOf(tag, items),
            Ty::Explicit(_, inner) => Ty::Explicit(tag, inner),
        })
    }
}

impl Field {
    // A component. Err where memory ran out.
    fn with(alloc: Global, name: &str, ty: Ty, presence: Presence) -> Result<Field, AllocError>
        ensures { IfOk result (λ field. field_view field ≡ record { name = name.now; type = ty_view ty; requirement = requirement_view presence }) }
    {
        let name = Name::new(alloc, name)?;
        Ok(Field { name, ty, presence })
    }

    /// A component that stands in every value. Err where memory ran out, as of each of these.
    pub fn required(alloc: Global, name: &str, ty: Ty) -> Result<Field, AllocError>
        ensures { IfOk result (λ field. field_view field ≡ record { name = name.now; type = ty_view ty; requirement = Requirement.required }) }
    {
        Field::with(alloc, name, ty, Presence::Required)
    }

    /// A component that may be absent.
    pub fn optional(alloc: Global, name: &str, ty: Ty) -> Result<Field, AllocError>
        ensures { IfOk result (λ field. field_view field ≡ record { name = name.now; type = ty_view ty; requirement = Requirement.optional }) }
    {
        Field::with(alloc, name, ty, Presence::Optional)
    }

    /// A component that may be absent, which means this value.
    pub fn default(alloc: Global, name: &str, ty: Ty, value: Value) -> Result<Field, AllocError>
        ensures { IfOk result (λ field. field_view field ≡ record { name = name.now; type = ty_view ty; requirement = Requirement.default (value_view value) }) }
    {
        Field::with(alloc, name, ty, Presence::Default(value))
    }
}

impl Alternative {
    /// An alternative of a CHOICE. Err where memory ran out.
    pub fn new(alloc: Global, name: &str, ty: Ty) -> Result<Alternative, AllocError>
        ensures { IfOk result (λ alternative. alternative_view alternative ≡ record { name = name.now; type = ty_view ty }) }
    {
        let name = Name::new(alloc, name)?;
        Ok(Alternative { name, ty })
    }
}

impl Item {
    /// An item of an ENUMERATED. Err where memory ran out.
    pub fn new(alloc: Global, name: &str, number: i128) -> Result<Item, AllocError>
        ensures { IfOk result (λ item. (item.name ≡ name.now) × (item.number ≡ number)) }
    {
        let name = Name::new(alloc, name)?;
        Ok(Item { name, number })
    }
}

impl NamedBit {
    /// A bit that has a name. Err where memory ran out.
    pub fn new(alloc: Global, name: &str, number: u32) -> Result<NamedBit, AllocError>
        ensures { IfOk result (λ bit. (bit.name ≡ name.now) × (bit.number ≡ number)) }
    {
        let name = Name::new(alloc, name)?;
        Ok(NamedBit { name, number })
    }
}
