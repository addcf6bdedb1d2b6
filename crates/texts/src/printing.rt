//! Texts of whole values, the items of each list in the order in which they stand.

ghost use Rattle.std.specs.Prelude.{◌≡◌, ◌++◌, OnOk, codes, if◌then◌else◌, map, string_bytes};
ghost use Rattle.types.specs.View.{ty_view, value_view, components_view, slots_view};
ghost use Rattle.texts.specs.Text.{text_of, component_texts, in_braces};

use crate::leaf::{name_of, put_arcs, put_boolean, put_integer};
use crate::quoting::{put_bits, put_octets, put_readable, put_text};
use octets::NoMemory;
use std::string::String;
use types::{Field, Ty, Value};

/// Appends the text of `value`, the items of a SET OF in the order in which they stand, and nothing for a part that is of
/// another kind than the type's. Where memory runs out a front of it may stand there.
#[cycle(printing)]
pub fn put_value(ty: &Ty, value: &Value, out: &mut String) -> Result<(), NoMemory>
    ensures { OnOk result (string_bytes out.new ≡ string_bytes out.old ++ text_of (ty_view ty.now) (value_view value.now)) }
{
    match (ty, value) {
        (Ty::Boolean(_), Value::Boolean(truth)) => put_boolean(*truth, out),
        (Ty::Integer(_), Value::Integer(number)) => put_integer(*number, out),
        (Ty::Integer(_), Value::WideInteger(octets)) => put_octets(octets, out),
        (Ty::Enumerated(_, items), Value::Enumerated(number)) => {
            out.push_str(name_of(items, *number))?;
            Ok(())
        }
        (Ty::Null(_), Value::Null) => {
            out.push_str("NULL")?;
            Ok(())
        }
        (Ty::Oid(_), Value::Oid(arcs)) => put_arcs(arcs, out),
        (Ty::RelativeOid(_), Value::RelativeOid(arcs)) => put_arcs(arcs, out),
        (Ty::Bits(_), Value::Bits(bits)) => put_bits(bits, out),
        (Ty::NamedBits(_, _), Value::Bits(bits)) => put_bits(bits, out),
        (Ty::Octets(_), Value::Octets(octets)) => put_octets(octets, out),
        (Ty::Text(_, kind), Value::Text(octets)) => put_text(*kind, octets, out),
        (Ty::Time(_, _), Value::Text(octets)) => put_readable(octets, out),
        (Ty::Sequence(_, fields), Value::Fields(slots)) => put_components(fields, slots, out),
        (Ty::Set(_, fields), Value::Fields(slots)) => put_components(fields, slots, out),
        (Ty::SequenceOf(_, inner), Value::Items(items)) => put_items(inner, items, out),
        (Ty::SetOf(_, inner), Value::Items(items)) => put_items(inner, items, out),
        (Ty::Choice(alternatives), Value::Chosen(which, inner)) => {
            let Some(alternative) = alternatives.get(*which) else {
                return Ok(());
            };
            out.push_str(alternative.name.as_str())?;
            out.push_str(" : ")?;
            put_value(&alternative.ty, inner, out)
        }
        (Ty::Explicit(_, inner), _) => put_value(inner, value, out),
        _ => Ok(()),
    }
}

// Appends the texts of items in braces.
#[cycle(printing)]
fn put_items(ty: &Ty, items: &[Value], out: &mut String) -> Result<(), NoMemory>
    ensures { OnOk result (string_bytes out.new ≡ string_bytes out.old ++ in_braces (map (text_of (ty_view ty.now)) (map value_view items.now))) }
{
    out.push_str("{")?;
    let mut is_first = true;
    for item in items {
        put_lead(is_first, out)?;
        put_value(ty, item, out)?;
        is_first = false;
    }
    out.push_str(" }")?;
    Ok(())
}

// Appends the names and texts of the components that are present, in braces.
#[cycle(printing)]
fn put_components(
    fields: &[Field],
    slots: &[Option<Value>],
    out: &mut String,
) -> Result<(), NoMemory>
    ensures { OnOk result (string_bytes out.new ≡ string_bytes out.old ++ in_braces (component_texts (components_view fields.now) (slots_view slots.now))) }
{
    out.push_str("{")?;
    let mut is_first = true;
    let count = fields.len().min(slots.len());
    for place in 0..count {
        match &slots[place] {
            Some(value) => {
                let field = &fields[place];
                put_lead(is_first, out)?;
                put_component(field, value, out)?;
                is_first = false;
            }
            None => {}
        }
    }
    out.push_str(" }")?;
    Ok(())
}

// Appends the name of a component, a space and its text.
#[cycle(printing)]
fn put_component(field: &Field, value: &Value, out: &mut String) -> Result<(), NoMemory>
    ensures { OnOk result (string_bytes out.new ≡ string_bytes out.old ++ (field.now).name ++ codes " " ++ text_of (ty_view (field.now).ty) (value_view value.now)) }
{
    out.push_str(field.name.as_str())?;
    out.push(' ')?;
    put_value(&field.ty, value, out)
}

// Appends what stands before a text in braces: a space, or a comma and a space after an earlier one.
fn put_lead(is_first: bool, out: &mut String) -> Result<(), NoMemory>
    ensures { OnOk result (string_bytes out.new ≡ string_bytes out.old ++ (if is_first then codes " " else codes ", ")) }
{
    if is_first {
        out.push_str(" ")?;
    } else {
        out.push_str(", ")?;
    }
    Ok(())
}
