//! Why octets are refused, in words.

use crate::type_names::{PrintedTag, name_of};
use octets::Tag;
use std::fmt;
use strings::TimeKind;
use types::Ty;

/// Why octets are refused.
#[derive(Clone, Copy, Debug)]
pub enum Reason<'a> {
    /// These words say it.
    Words(&'static str),
    /// The input ends inside contents octets, and so many are missing.
    Missing(usize),
    /// No part that may come begins with the tag.
    NotDue(Tag),
    /// The component of this name is required, and is absent.
    Absent(&'a str),
    /// The encoding is constructed, and the type is primitive.
    Constructed(&'a Ty),
    /// The encoding is primitive, and the type has parts.
    Primitive(&'a Ty),
    /// The type cannot have so many contents octets.
    Count(&'a Ty, usize),
    /// No item of the ENUMERATED has the number.
    NoItem(i128),
    /// An octet that the character string cannot have.
    Octet(&'a Ty, u8),
    /// A number in a time.
    Number(&'static str, u8),
    /// Out of memory.
    NoMemory,
}

impl fmt::Display for Reason<'_> {
    fn fmt<W: fmt::Write>(&self, f: &mut fmt::Formatter<W>) -> fmt::Result {
        match self {
            Reason::Words(words) => f.write_str(words),
            Reason::Missing(count) => {
                write!(
                    f,
                    "the input ends inside the contents octets, {count} missing"
                )
            }
            Reason::NotDue(tag) => {
                let tag = PrintedTag(*tag);
                write!(f, "no part that begins with {tag} can stand here")
            }
            Reason::Absent(name) => write!(f, "the component {name} is missing"),
            Reason::Constructed(ty) => {
                let name = name_of(ty);
                write!(f, "constructed, and {name} is primitive")
            }
            Reason::Primitive(ty) => {
                let name = name_of(ty);
                write!(f, "primitive, and {name} is constructed")
            }
            Reason::Count(ty, count) => {
                let name = name_of(ty);
                let most = counts_of(ty);
                write!(f, "{name} has {most}, and these are {count}")
            }
            Reason::NoItem(number) => write!(f, "no item has the number {number}"),
            Reason::Octet(ty, octet) => {
                let name = name_of(ty);
                write!(f, "{name} has no octet {octet:02X}")
            }
            Reason::Number(name, number) => write!(f, "the {name} is {number:02}"),
            Reason::NoMemory => f.write_str("out of memory"),
        }
    }
}

// How many contents octets values of the type have.
fn counts_of(ty: &Ty) -> &'static str {
    match ty {
        Ty::Boolean(_) => "1 contents octet",
        Ty::Integer(_) => "1 to 1,024 contents octets (the limit is asn1x's own)",
        Ty::Enumerated(_, _) => "1 to 16 contents octets (the limit is asn1x's own)",
        Ty::Null(_) => "no contents octets",
        Ty::Oid(_) | Ty::RelativeOid(_) => {
            "1 to 2,432 contents octets (the limit is asn1x's own)"
        }
        Ty::Bits(_) | Ty::NamedBits(_, _) => "at least 1 contents octet",
        Ty::Time(_, TimeKind::Utc) => "13 contents octets",
        Ty::Time(_, TimeKind::Generalized) => "15 contents octets, or 17 to 28",
        Ty::Text(_, _) => "an even number of contents octets",
        Ty::Octets(_)
        | Ty::Sequence(_, _)
        | Ty::Set(_, _)
        | Ty::SequenceOf(_, _)
        | Ty::SetOf(_, _)
        | Ty::Choice(_)
        | Ty::Explicit(_, _) => "any number of contents octets",
    }
}
