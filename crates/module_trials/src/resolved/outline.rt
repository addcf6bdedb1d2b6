//! A short text of a type, for tests to compare.

use octets::{Class, Tag};
use std::alloc::{AllocError, Global};
use types::{Alternative, Field, Item, NamedBit, Presence, Ty};

/// The text of the type.
pub fn outline(alloc: Global, ty: &Ty) -> Result<String, AllocError> {
    let mut text = String::new(alloc);
    put_type(&mut text, ty)?;
    Ok(text)
}

#[cycle(outline)]
fn put_type(text: &mut String, ty: &Ty) -> Result<(), AllocError> {
    match ty {
        Ty::Boolean(tag) => put_name(text, tag, "BOOLEAN"),
        Ty::Integer(tag) => put_name(text, tag, "INTEGER"),
        Ty::Null(tag) => put_name(text, tag, "NULL"),
        Ty::Oid(tag) => put_name(text, tag, "OID"),
        Ty::RelativeOid(tag) => put_name(text, tag, "RELATIVE-OID"),
        Ty::Bits(tag) => put_name(text, tag, "BITS"),
        Ty::NamedBits(tag, bits) => {
            put_name(text, tag, "NAMED BITS")?;
            put_named_bits(text, bits)
        }
        Ty::Octets(tag) => put_name(text, tag, "OCTETS"),
        Ty::Text(tag, kind) => {
            put_tag(text, tag)?;
            write!(text, "{kind:?}")
        }
        Ty::Time(tag, kind) => {
            put_tag(text, tag)?;
            write!(text, "{kind:?}")
        }
        Ty::Enumerated(tag, items) => {
            put_name(text, tag, "ENUMERATED")?;
            put_items(text, items)
        }
        Ty::Sequence(tag, fields) => {
            put_name(text, tag, "SEQUENCE")?;
            put_fields(text, fields)
        }
        Ty::Set(tag, fields) => {
            put_name(text, tag, "SET")?;
            put_fields(text, fields)
        }
        Ty::SequenceOf(tag, inner) => {
            put_name(text, tag, "SEQUENCE OF ")?;
            put_type(text, inner)
        }
        Ty::SetOf(tag, inner) => {
            put_name(text, tag, "SET OF ")?;
            put_type(text, inner)
        }
        Ty::Choice(alternatives) => put_alternatives(text, alternatives),
        Ty::Explicit(tag, inner) => {
            put_name(text, tag, "EXPLICIT ")?;
            put_type(text, inner)
        }
    }
}

fn put_name(text: &mut String, tag: &Tag, name: &str) -> Result<(), AllocError> {
    put_tag(text, tag)?;
    text.push_str(name)
}

fn put_tag(text: &mut String, tag: &Tag) -> Result<(), AllocError> {
    let class = match tag.class {
        Class::Universal => "[U",
        Class::Application => "[A",
        Class::Context => "[",
        Class::Private => "[P",
    };
    let number = tag.number;
    text.push_str(class)?;
    write!(text, "{number}]")
}

fn put_items(text: &mut String, items: &[Item]) -> Result<(), AllocError> {
    for item in items {
        let number = item.number;
        text.push_str(" ")?;
        text.push_str(item.name.as_str())?;
        write!(text, "({number})")?;
    }
    Ok(())
}

fn put_named_bits(text: &mut String, bits: &[NamedBit]) -> Result<(), AllocError> {
    for bit in bits {
        let number = bit.number;
        text.push_str(" ")?;
        text.push_str(bit.name.as_str())?;
        write!(text, "({number})")?;
    }
    Ok(())
}

#[cycle(outline)]
fn put_fields(text: &mut String, fields: &[Field]) -> Result<(), AllocError> {
    text.push_str("{")?;
    for field in fields {
        text.push_str(" ")?;
        text.push_str(field.name.as_str())?;
        text.push_str(" ")?;
        put_type(text, &field.ty)?;
        put_presence(text, &field.presence)?;
    }
    text.push_str(" }")
}

fn put_presence(text: &mut String, presence: &Presence) -> Result<(), AllocError> {
    match presence {
        Presence::Required => Ok(()),
        Presence::Optional => text.push_str(" OPTIONAL"),
        Presence::Default(value) => write!(text, " DEFAULT {value:?}"),
    }
}

#[cycle(outline)]
fn put_alternatives(text: &mut String, alternatives: &[Alternative]) -> Result<(), AllocError> {
    text.push_str("CHOICE{")?;
    for alternative in alternatives {
        text.push_str(" ")?;
        text.push_str(alternative.name.as_str())?;
        text.push_str(" ")?;
        put_type(text, &alternative.ty)?;
    }
    text.push_str(" }")
}
