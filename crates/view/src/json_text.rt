//! Values as JSON, by the usual mapping: names of components and alternatives as keys, numbers as they are, octets in
//! hexadecimal.

use octets::NoMemory;
use primitives::Bits;
use serde_json::to_string;
use simdutf8::basic::from_utf8;
use std::alloc::Global;
use std::string::String;
use strings::TextKind;
use types::{Field, Ty, Value};

/// How JSON is laid out.
#[derive(Clone, Copy)]
pub struct Layout {
    /// Whether each member and each item stands on a line of its own.
    pub indented: bool,
    /// How far the lines are indented.
    pub level: usize,
}

impl Layout {
    // One level further in.
    fn deeper(self) -> Layout {
        Layout {
            indented: self.indented,
            level: self.level.saturating_add(1),
        }
    }

    // Begins a line, if there are such.
    fn begin_line(self, out: &mut String) -> Result<(), NoMemory> {
        if self.indented {
            out.push('\n')?;
            for _ in 0..self.level {
                out.push_str("  ")?;
            }
        }
        Ok(())
    }

    // What stands between a key and its value.
    fn colon(self) -> &'static str {
        if self.indented { ": " } else { ":" }
    }
}

/// Appends a value of the type as JSON. Where a value is none of it, parts and items that do not fit are left out, and
/// all else is printed as it is.
#[cycle(json)]
pub fn put_json(
    alloc: Global,
    ty: &Ty,
    value: &Value,
    layout: Layout,
    out: &mut String,
) -> Result<(), NoMemory> {
    match (ty, value) {
        (Ty::Sequence(_, fields), Value::Fields(slots))
        | (Ty::Set(_, fields), Value::Fields(slots)) => {
            put_members(alloc, fields, slots, layout, out)
        }
        (Ty::SequenceOf(_, inner), Value::Items(items))
        | (Ty::SetOf(_, inner), Value::Items(items)) => {
            put_items(alloc, inner, items, layout, out)
        }
        (Ty::Choice(alternatives), Value::Chosen(which, inner)) => {
            let Some(alternative) = alternatives.get(*which) else {
                return Ok(());
            };
            out.push('{')?;
            put_key(alternative.name.as_str(), layout.deeper(), out)?;
            put_json(alloc, &alternative.ty, inner, layout.deeper(), out)?;
            layout.begin_line(out)?;
            out.push('}')?;
            Ok(())
        }
        (Ty::Explicit(_, inner), value) => put_json(alloc, inner, value, layout, out),
        (ty, value) => put_leaf(alloc, ty, value, out),
    }
}

// Appends the components that are present, in order of declaration.
#[cycle(json)]
fn put_members(
    alloc: Global,
    fields: &[Field],
    slots: &[Option<Value>],
    layout: Layout,
    out: &mut String,
) -> Result<(), NoMemory> {
    out.push('{')?;
    let mut is_first = true;
    let count = fields.len().min(slots.len());
    for place in 0..count {
        if let Some(value) = &slots[place] {
            let field = &fields[place];
            put_comma(is_first, out)?;
            put_key(field.name.as_str(), layout.deeper(), out)?;
            put_json(alloc, &field.ty, value, layout.deeper(), out)?;
            is_first = false;
        }
    }
    put_close(is_first, layout, out)?;
    out.push('}')?;
    Ok(())
}

// Appends items.
#[cycle(json)]
fn put_items(
    alloc: Global,
    ty: &Ty,
    items: &[Value],
    layout: Layout,
    out: &mut String,
) -> Result<(), NoMemory> {
    out.push('[')?;
    let mut is_first = true;
    for item in items {
        put_comma(is_first, out)?;
        layout.deeper().begin_line(out)?;
        put_json(alloc, ty, item, layout.deeper(), out)?;
        is_first = false;
    }
    put_close(is_first, layout, out)?;
    out.push(']')?;
    Ok(())
}

// Appends a comma, but before the first.
fn put_comma(is_first: bool, out: &mut String) -> Result<(), NoMemory> {
    if !is_first {
        out.push(',')?;
    }
    Ok(())
}

// Begins the line of a closing brace, unless nothing stands in it.
fn put_close(is_empty: bool, layout: Layout, out: &mut String) -> Result<(), NoMemory> {
    if is_empty {
        return Ok(());
    }
    layout.begin_line(out)
}

// Appends a name as a key. Names have letters, digits and hyphens alone.
fn put_key(name: &str, layout: Layout, out: &mut String) -> Result<(), NoMemory> {
    layout.begin_line(out)?;
    out.push('"')?;
    out.push_str(name)?;
    out.push('"')?;
    out.push_str(layout.colon())?;
    Ok(())
}

// Appends a value without parts.
fn put_leaf(alloc: Global, ty: &Ty, value: &Value, out: &mut String) -> Result<(), NoMemory> {
    match value {
        Value::Boolean(truth) => out.push_str(if *truth { "true" } else { "false" })?,
        Value::Integer(number) => write!(out, "{number}")?,
        Value::Enumerated(number) => return put_item(ty, *number, out),
        Value::Null => out.push_str("null")?,
        Value::Oid(arcs) | Value::RelativeOid(arcs) => return put_arcs(arcs, out),
        Value::Bits(bits) => return put_bits(bits, out),
        Value::WideInteger(octets) | Value::Octets(octets) => return put_hex(octets, out),
        Value::Text(octets) => return put_text(alloc, ty, octets, out),
        Value::Fields(_) | Value::Items(_) | Value::Chosen(_, _) => {}
    }
    Ok(())
}

// Appends the name of an item.
fn put_item(ty: &Ty, number: i128, out: &mut String) -> Result<(), NoMemory> {
    if let Ty::Enumerated(_, items) = ty {
        for item in items {
            if item.number == number {
                let name = item.name.as_str();
                write!(out, "\"{name}\"")?;
            }
        }
    }
    Ok(())
}

// Appends arcs with dots between them.
fn put_arcs(arcs: &[u128], out: &mut String) -> Result<(), NoMemory> {
    out.push('"')?;
    let mut dot = "";
    for arc in arcs {
        write!(out, "{dot}{arc}")?;
        dot = ".";
    }
    out.push('"')?;
    Ok(())
}

// Appends bits in hexadecimal, and how many they are.
fn put_bits(bits: &Bits, out: &mut String) -> Result<(), NoMemory> {
    let octets = bits.octets();
    let count = octets
        .len()
        .saturating_mul(8)
        .saturating_sub(bits.unused() as usize);
    out.push_str("{\"value\":")?;
    put_hex(octets, out)?;
    write!(out, ",\"length\":{count}}}")?;
    Ok(())
}

// Appends octets in hexadecimal.
fn put_hex(octets: &[u8], out: &mut String) -> Result<(), NoMemory> {
    out.reserve(octets.len().saturating_mul(2).saturating_add(2))?;
    out.push('"')?;
    for octet in octets {
        out.push(hex_digit(*octet / 16))?;
        out.push(hex_digit(*octet % 16))?;
    }
    out.push('"')?;
    Ok(())
}

// The digit of a value below 16.
fn hex_digit(value: u8) -> char {
    match value {
        0..=9 => char::from(b'0' + value),
        10..=15 => char::from(b'A' + (value - 10)),
        _ => '0',
    }
}

// Appends the characters of a character string or a time.
fn put_text(alloc: Global, ty: &Ty, octets: &[u8], out: &mut String) -> Result<(), NoMemory> {
    if matches!(ty, Ty::Text(_, TextKind::Bmp)) {
        let text = bmp_text(alloc, octets)?;
        return put_quoted(alloc, text.as_str(), out);
    }
    match from_utf8(octets) {
        Ok(text) => put_quoted(alloc, text, out),
        Err(_) => put_hex(octets, out),
    }
}

// The characters of a BMPString.
fn bmp_text(alloc: Global, octets: &[u8]) -> Result<String, NoMemory> {
    let mut text = String::new(alloc);
    for pair in octets.chunks(2) {
        if let [high, low] = pair {
            let number = u32::from(*high) * 256 + u32::from(*low);
            text.push(char::from_u32(number).unwrap_or('\u{fffd}'))?;
        }
    }
    Ok(text)
}

// Appends a text in quotes, as JSON has it. Most texts stand there as they are.
fn put_quoted(alloc: Global, text: &str, out: &mut String) -> Result<(), NoMemory> {
    if is_plain(text.as_bytes()) {
        out.push('"')?;
        out.push_str(text)?;
        out.push('"')?;
        return Ok(());
    }
    match to_string(alloc, &text) {
        Ok(quoted) => {
            out.push_str(quoted.as_str())?;
            Ok(())
        }
        Err(_) => Err(NoMemory),
    }
}

// Whether a text has printable characters of ASCII alone, and neither a quotation mark nor a backslash.
fn is_plain(octets: &[u8]) -> bool {
    octets.iter().all(|octet| matches!(*octet, 32..=126) && *octet != b'"' && *octet != b'\\')
}
