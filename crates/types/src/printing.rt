//! Types printed in the notation of X.680.

use crate::universal::universal_tag;
use crate::{Alternative, Field, Item, NamedBit, Presence, Ty, Value};
use octets::{Class, Tag};
use primitives::Bits;
use std::fmt;
use std::str::from_utf8;
use strings::{TextKind, TimeKind};

/// The type in the notation of X.680, on one line. Each tag that is not the type's universal one has its
/// keyword, so that the text means the type wherever tags are explicit by default.
///
/// It says no more than the type: names may be none of X.680, and the text of a type that is not well formed
/// may mean another type, or none. A default with characters that no character string of X.680 has, as an end of line, stands as it is.
impl fmt::Display for Ty {
    fn fmt<W: fmt::Write>(&self, f: &mut fmt::Formatter<W>) -> fmt::Result {
        put_type(self, f)
    }
}

#[cycle(printing)]
fn put_type<W: fmt::Write>(ty: &Ty, f: &mut fmt::Formatter<W>) -> fmt::Result {
    put_tag(ty, f)?;
    match ty {
        Ty::Boolean(_) => f.write_str("BOOLEAN"),
        Ty::Integer(_) => f.write_str("INTEGER"),
        Ty::Enumerated(_, items) => put_items(items, f),
        Ty::Null(_) => f.write_str("NULL"),
        Ty::Oid(_) => f.write_str("OBJECT IDENTIFIER"),
        Ty::RelativeOid(_) => f.write_str("RELATIVE-OID"),
        Ty::Bits(_) => f.write_str("BIT STRING"),
        Ty::NamedBits(_, bits) => put_named_bits(bits, f),
        Ty::Octets(_) => f.write_str("OCTET STRING"),
        Ty::Text(_, kind) => f.write_str(words_of_text(*kind)),
        Ty::Time(_, kind) => f.write_str(words_of_time(*kind)),
        Ty::Sequence(_, fields) => put_components("SEQUENCE", fields, f),
        Ty::Set(_, fields) => put_components("SET", fields, f),
        Ty::SequenceOf(_, inner) => put_behind("SEQUENCE OF ", inner, f),
        Ty::SetOf(_, inner) => put_behind("SET OF ", inner, f),
        Ty::Choice(alternatives) => put_alternatives(alternatives, f),
        Ty::Explicit(_, inner) => put_type(inner, f),
    }
}

#[cycle(printing)]
fn put_behind<W: fmt::Write>(words: &str, ty: &Ty, f: &mut fmt::Formatter<W>) -> fmt::Result {
    f.write_str(words)?;
    put_type(ty, f)
}

#[cycle(printing)]
fn put_components<W: fmt::Write>(
    word: &str,
    fields: &[Field],
    f: &mut fmt::Formatter<W>,
) -> fmt::Result {
    f.write_str(word)?;
    f.write_str(" {")?;
    for (place, field) in fields.iter().enumerate() {
        put_name(place, field.name.as_str(), f)?;
        f.write_str(" ")?;
        put_type(&field.ty, f)?;
        put_presence(&field.ty, &field.presence, f)?;
    }
    f.write_str(" }")
}

#[cycle(printing)]
fn put_alternatives<W: fmt::Write>(
    alternatives: &[Alternative],
    f: &mut fmt::Formatter<W>,
) -> fmt::Result {
    f.write_str("CHOICE {")?;
    for (place, alternative) in alternatives.iter().enumerate() {
        put_name(place, alternative.name.as_str(), f)?;
        f.write_str(" ")?;
        put_type(&alternative.ty, f)?;
    }
    f.write_str(" }")
}

// A name of a list, behind a comma if it is not the first.
fn put_name<W: fmt::Write>(place: usize, name: &str, f: &mut fmt::Formatter<W>) -> fmt::Result {
    f.write_str(if place == 0 { " " } else { ", " })?;
    f.write_str(name)
}

fn put_items<W: fmt::Write>(items: &[Item], f: &mut fmt::Formatter<W>) -> fmt::Result {
    f.write_str("ENUMERATED {")?;
    for (place, item) in items.iter().enumerate() {
        put_name(place, item.name.as_str(), f)?;
        write!(f, "({})", item.number)?;
    }
    f.write_str(" }")
}

fn put_named_bits<W: fmt::Write>(bits: &[NamedBit], f: &mut fmt::Formatter<W>) -> fmt::Result {
    f.write_str("BIT STRING {")?;
    for (place, bit) in bits.iter().enumerate() {
        put_name(place, bit.name.as_str(), f)?;
        write!(f, "({})", bit.number)?;
    }
    f.write_str(" }")
}

// The tag in brackets and its keyword, but for the universal tag of the type.
fn put_tag<W: fmt::Write>(ty: &Ty, f: &mut fmt::Formatter<W>) -> fmt::Result {
    let Some(tag) = ty.tag() else {
        return Ok(());
    };
    match universal_tag(ty) {
        None => put_brackets(tag, "EXPLICIT", f),
        Some(own) if tag == own => Ok(()),
        Some(_) => put_brackets(tag, "IMPLICIT", f),
    }
}

fn put_brackets<W: fmt::Write>(tag: Tag, keyword: &str, f: &mut fmt::Formatter<W>) -> fmt::Result {
    let class = match tag.class {
        Class::Universal => "UNIVERSAL ",
        Class::Application => "APPLICATION ",
        Class::Context => "",
        Class::Private => "PRIVATE ",
    };
    let number = tag.number;
    write!(f, "[{class}{number}] {keyword} ")
}

fn put_presence<W: fmt::Write>(
    ty: &Ty,
    presence: &Presence,
    f: &mut fmt::Formatter<W>,
) -> fmt::Result {
    match presence {
        Presence::Required => Ok(()),
        Presence::Optional => f.write_str(" OPTIONAL"),
        Presence::Default(value) => {
            f.write_str(" DEFAULT ")?;
            put_value(ty, value, f)
        }
    }
}

// A value of a type that takes a default; nothing for any other.
fn put_value<W: fmt::Write>(ty: &Ty, value: &Value, f: &mut fmt::Formatter<W>) -> fmt::Result {
    match value {
        Value::Boolean(truth) => f.write_str(if *truth { "TRUE" } else { "FALSE" }),
        Value::Integer(number) => write!(f, "{number}"),
        Value::Enumerated(number) => f.write_str(name_of_item(ty, *number)),
        Value::Bits(bits) => put_bits(bits, f),
        Value::Octets(octets) => put_octets(octets, f),
        Value::Text(octets) => put_text(octets, f),
        Value::WideInteger(_) | Value::Null | Value::Oid(_) | Value::RelativeOid(_) => Ok(()),
        Value::Fields(_) | Value::Items(_) | Value::Chosen(_, _) => Ok(()),
    }
}

// The name of the item with the number, seen through explicit tags.
fn name_of_item(ty: &Ty, number: i128) -> &str {
    match ty {
        Ty::Explicit(_, inner) => name_of_item(inner, number),
        Ty::Enumerated(_, items) => name_in(items, number),
        _ => "",
    }
}

fn name_in(items: &[Item], number: i128) -> &str {
    for item in items {
        if item.number == number {
            return item.name.as_str();
        }
    }
    ""
}

fn put_bits<W: fmt::Write>(bits: &Bits, f: &mut fmt::Formatter<W>) -> fmt::Result {
    let mut left = bits
        .octets()
        .len()
        .saturating_mul(8)
        .saturating_sub(bits.unused() as usize);
    f.write_str("'")?;
    for octet in bits.octets() {
        for place in PLACES {
            if left > 0 {
                f.write_str(if octet / place % 2 == 1 { "1" } else { "0" })?;
                left -= 1;
            }
        }
    }
    f.write_str("'B")
}

// The place values of the bits of an octet, bit 8 first.
const PLACES: [u8; 8] = [128, 64, 32, 16, 8, 4, 2, 1];

fn put_octets<W: fmt::Write>(octets: &[u8], f: &mut fmt::Formatter<W>) -> fmt::Result {
    f.write_str("'")?;
    for octet in octets {
        write!(f, "{octet:02X}")?;
    }
    f.write_str("'H")
}

// The characters in quotes, each quotation mark doubled.
fn put_text<W: fmt::Write>(octets: &[u8], f: &mut fmt::Formatter<W>) -> fmt::Result {
    let text = from_utf8(octets).unwrap_or("");
    f.write_str("\"")?;
    for character in text.chars() {
        if character == '"' {
            f.write_str("\"")?;
        }
        f.write_char(character)?;
    }
    f.write_str("\"")
}

fn words_of_text(kind: TextKind) -> &'static str {
    match kind {
        TextKind::Utf8 => "UTF8String",
        TextKind::Numeric => "NumericString",
        TextKind::Printable => "PrintableString",
        TextKind::Ia5 => "IA5String",
        TextKind::Visible => "VisibleString",
        TextKind::Bmp => "BMPString",
    }
}

fn words_of_time(kind: TimeKind) -> &'static str {
    match kind {
        TimeKind::Utc => "UTCTime",
        TimeKind::Generalized => "GeneralizedTime",
    }
}
