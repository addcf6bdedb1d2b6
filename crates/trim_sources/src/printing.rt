//! The text of a module of the profile.

use crate::simple::words_of;
use std::alloc::AllocError;
use std::fmt::Write;
use syntax::{
    Alternative, Component, DefaultValue, Expr, Group, Item, NamedBit, Presence, SignedNumber,
    TagClass, TagMode, TagPrefix,
};

/// Appends the text of a type, whose lines stand so many levels in.
#[cycle(printing)]
pub fn put_expr(text: &mut String, expr: &Expr, level: usize) -> Result<(), AllocError> {
    match expr {
        Expr::Tagged(prefix, inner) => {
            put_prefix(text, *prefix)?;
            put_expr(text, inner, level)
        }
        Expr::List(group, components) => {
            text.push_str(group_word(*group))?;
            put_components(text, components, level)
        }
        Expr::Of(group, inner) => {
            text.push_str(group_word(*group))?;
            text.push_str(" OF ")?;
            put_expr(text, inner, level)
        }
        Expr::Choice(alternatives) => put_alternatives(text, alternatives, level),
        Expr::Enumerated(items) => put_items(text, items, level),
        Expr::NamedBits(bits) => put_bits(text, bits, level),
        Expr::Simple(simple) => text.push_str(words_of(*simple)),
        Expr::Reference(name) => text.push_str(name.as_str()),
    }
}

// Components in braces.
#[cycle(printing)]
fn put_components(
    text: &mut String,
    components: &[Component],
    level: usize,
) -> Result<(), AllocError> {
    text.push_str(" {")?;
    for (place, component) in components.iter().enumerate() {
        put_line(text, place, level, component.name.as_str())?;
        text.push(' ')?;
        put_expr(text, &component.body, level.saturating_add(1))?;
        put_presence(text, &component.presence)?;
    }
    put_end(text, level)
}

// Alternatives in braces.
#[cycle(printing)]
fn put_alternatives(
    text: &mut String,
    alternatives: &[Alternative],
    level: usize,
) -> Result<(), AllocError> {
    text.push_str("CHOICE {")?;
    for (place, alternative) in alternatives.iter().enumerate() {
        put_line(text, place, level, alternative.name.as_str())?;
        text.push(' ')?;
        put_expr(text, &alternative.body, level.saturating_add(1))?;
    }
    put_end(text, level)
}

// Items in braces.
fn put_items(text: &mut String, items: &[Item], level: usize) -> Result<(), AllocError> {
    text.push_str("ENUMERATED {")?;
    for (place, item) in items.iter().enumerate() {
        put_line(text, place, level, item.name.as_str())?;
        if let Some(number) = item.number {
            text.push('(')?;
            put_number(text, number)?;
            text.push(')')?;
        }
    }
    put_end(text, level)
}

// Named bits in braces.
fn put_bits(text: &mut String, bits: &[NamedBit], level: usize) -> Result<(), AllocError> {
    text.push_str("BIT STRING {")?;
    for (place, bit) in bits.iter().enumerate() {
        put_line(text, place, level, bit.name.as_str())?;
        let number = bit.number;
        write!(text, "({number})")?;
    }
    put_end(text, level)
}

// The beginning of a line in braces, behind a comma if it is not the first.
fn put_line(text: &mut String, place: usize, level: usize, name: &str) -> Result<(), AllocError> {
    if place > 0 {
        text.push(',')?;
    }
    put_margin(text, level.saturating_add(1))?;
    text.push_str(name)
}

// The closing brace, on a line of its own.
fn put_end(text: &mut String, level: usize) -> Result<(), AllocError> {
    put_margin(text, level)?;
    text.push('}')
}

// A line feed, and two spaces for each level.
fn put_margin(text: &mut String, level: usize) -> Result<(), AllocError> {
    text.push('\n')?;
    for _one in 0..level {
        text.push_str("  ")?;
    }
    Ok(())
}

// A tag with its keyword.
fn put_prefix(text: &mut String, prefix: TagPrefix) -> Result<(), AllocError> {
    text.push_str(match prefix.class {
        TagClass::ContextSpecific => "[",
        TagClass::Application => "[APPLICATION ",
        TagClass::Private => "[PRIVATE ",
    })?;
    let number = prefix.number;
    write!(text, "{number}")?;
    text.push_str(match prefix.mode {
        TagMode::Unmarked => "] ",
        TagMode::Implicit => "] IMPLICIT ",
        TagMode::Explicit => "] EXPLICIT ",
    })
}

fn group_word(group: Group) -> &'static str {
    match group {
        Group::Sequence => "SEQUENCE",
        Group::Set => "SET",
    }
}

// What stands behind a component's type.
fn put_presence(text: &mut String, presence: &Presence) -> Result<(), AllocError> {
    match presence {
        Presence::Required => Ok(()),
        Presence::Optional => text.push_str(" OPTIONAL"),
        Presence::Default(value) => {
            text.push_str(" DEFAULT ")?;
            put_value(text, value)
        }
    }
}

fn put_value(text: &mut String, value: &DefaultValue) -> Result<(), AllocError> {
    match value {
        DefaultValue::True => text.push_str("TRUE"),
        DefaultValue::False => text.push_str("FALSE"),
        DefaultValue::Number(number) => put_number(text, *number),
        DefaultValue::Name(name) => text.push_str(name.as_str()),
        DefaultValue::Binary(string) | DefaultValue::Hex(string) | DefaultValue::Chars(string) => {
            text.push_str(string.as_str())
        }
    }
}

fn put_number(text: &mut String, number: SignedNumber) -> Result<(), AllocError> {
    if number.negative {
        text.push('-')?;
    }
    let magnitude = number.magnitude;
    write!(text, "{magnitude}")
}
