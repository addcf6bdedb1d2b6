//! A type with all tags resolved, a line for each part.

use octets::NoMemory;
use std::alloc::Global;
use std::string::String;
use texts::put_value;
use types::{Alternative, Field, Item, NamedBit, Presence, Ty};
use walking::{PrintedTag, name_of};

/// How many levels and nodes a type has.
#[derive(Clone, Copy)]
pub struct Size {
    /// The types in it, itself counted.
    pub nodes: usize,
    /// The constructed encodings that nest in its encodings, those of strings not counted.
    pub levels: usize,
}

/// Appends the lines of a type, each part under what holds it, and returns its size. `name` stands before the first.
#[cycle(type_lines)]
pub fn put_type(
    alloc: Global,
    ty: &Ty,
    name: &str,
    behind: &str,
    level: usize,
    out: &mut String,
) -> Result<Size, NoMemory> {
    put_head(ty, name, behind, level, out)?;
    match ty {
        Ty::Sequence(_, fields) | Ty::Set(_, fields) => put_fields(alloc, fields, level, out),
        Ty::SequenceOf(_, inner) | Ty::SetOf(_, inner) | Ty::Explicit(_, inner) => {
            let within = put_type(alloc, inner, "", "", level.saturating_add(1), out)?;
            Ok(around(within))
        }
        Ty::Choice(alternatives) => put_alternatives(alloc, alternatives, level, out),
        Ty::Enumerated(_, items) => put_item_lines(items, level, out),
        Ty::NamedBits(_, bits) => put_bit_lines(bits, level, out),
        Ty::Boolean(_)
        | Ty::Integer(_)
        | Ty::Null(_)
        | Ty::Oid(_)
        | Ty::RelativeOid(_)
        | Ty::Bits(_)
        | Ty::Octets(_)
        | Ty::Text(_, _)
        | Ty::Time(_, _) => Ok(LEAF),
    }
}

// The size of a type without parts.
const LEAF: Size = Size {
    nodes: 1,
    levels: 0,
};

// The size of what holds one type, in an encoding of its own.
fn around(within: Size) -> Size {
    Size {
        nodes: within.nodes.saturating_add(1),
        levels: within.levels.saturating_add(1),
    }
}

// The size with another part beside.
fn beside(size: Size, part: Size) -> Size {
    Size {
        nodes: size.nodes.saturating_add(part.nodes),
        levels: size.levels.max(part.levels),
    }
}

// Appends the lines of components.
#[cycle(type_lines)]
fn put_fields(
    alloc: Global,
    fields: &[Field],
    level: usize,
    out: &mut String,
) -> Result<Size, NoMemory> {
    let mut size = LEAF;
    let inner = level.saturating_add(1);
    for field in fields {
        let name = field.name.as_str();
        let behind = presence_text(alloc, field)?;
        let within = put_type(alloc, &field.ty, name, behind.as_str(), inner, out)?;
        size = beside(size, within);
    }
    size.levels = size.levels.saturating_add(1);
    Ok(size)
}

// Appends the lines of alternatives. A CHOICE has no encoding of its own.
#[cycle(type_lines)]
fn put_alternatives(
    alloc: Global,
    alternatives: &[Alternative],
    level: usize,
    out: &mut String,
) -> Result<Size, NoMemory> {
    let mut size = LEAF;
    let inner = level.saturating_add(1);
    for alternative in alternatives {
        let name = alternative.name.as_str();
        let within = put_type(alloc, &alternative.ty, name, "", inner, out)?;
        size = beside(size, within);
    }
    Ok(size)
}

// What is written behind a component's type.
fn presence_text(alloc: Global, field: &Field) -> Result<String, NoMemory> {
    match &field.presence {
        Presence::Required => Ok(String::new(alloc)),
        Presence::Optional => Ok(String::from_str(alloc, " OPTIONAL")?),
        Presence::Default(value) => {
            let mut text = String::from_str(alloc, " DEFAULT ")?;
            put_value(&field.ty, value, &mut text)?;
            Ok(text)
        }
    }
}

// Appends the line of one type: its name, its tag and the words that name it.
fn put_head(
    ty: &Ty,
    name: &str,
    behind: &str,
    level: usize,
    out: &mut String,
) -> Result<(), NoMemory> {
    for _ in 0..level {
        out.push_str("  ")?;
    }
    out.push_str(name)?;
    if !name.is_empty() {
        out.push(' ')?;
    }
    if let Some(tag) = ty.tag() {
        let tag = PrintedTag(tag);
        write!(out, "{tag} ")?;
    }
    out.push_str(match ty {
        Ty::Explicit(_, _) => "EXPLICIT",
        other => name_of(other),
    })?;
    out.push_str(behind)?;
    out.push('\n')?;
    Ok(())
}

// Appends the lines of items.
fn put_item_lines(items: &[Item], level: usize, out: &mut String) -> Result<Size, NoMemory> {
    for item in items {
        put_number(item.name.as_str(), item.number, level, out)?;
    }
    Ok(LEAF)
}

// Appends the lines of named bits.
fn put_bit_lines(bits: &[NamedBit], level: usize, out: &mut String) -> Result<Size, NoMemory> {
    for bit in bits {
        put_number(bit.name.as_str(), i128::from(bit.number), level, out)?;
    }
    Ok(LEAF)
}

// Appends the line of a name and its number, one level under what holds it.
fn put_number(name: &str, number: i128, level: usize, out: &mut String) -> Result<(), NoMemory> {
    for _ in 0..=level {
        out.push_str("  ")?;
    }
    write!(out, "{name}({number})\n")?;
    Ok(())
}
