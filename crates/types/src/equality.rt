//! Whether two values are equal.

ghost use Rattle.std.specs.Prelude.{◌≡◌, ◌↔◌, IsTrue, option_map};
ghost use Rattle.types.specs.View.{value_view, slots_view, items_view};

use crate::Value;

/// Whether two values are equal, part by part. Takes no memory.
#[cycle(equality)]
pub fn are_equal(a: &Value, b: &Value) -> bool
    ensures { IsTrue result ↔ (value_view a.now ≡ value_view b.now) }
{
    match (a, b) {
        (Value::Boolean(a), Value::Boolean(b)) => a == b,
        (Value::Integer(a), Value::Integer(b)) => a == b,
        (Value::WideInteger(a), Value::WideInteger(b)) => a == b,
        (Value::Enumerated(a), Value::Enumerated(b)) => a == b,
        (Value::Null, Value::Null) => true,
        (Value::Oid(a), Value::Oid(b)) => a == b,
        (Value::RelativeOid(a), Value::RelativeOid(b)) => a == b,
        (Value::Bits(a), Value::Bits(b)) => a == b,
        (Value::Octets(a), Value::Octets(b)) => a == b,
        (Value::Text(a), Value::Text(b)) => a == b,
        (Value::Fields(a), Value::Fields(b)) => are_equal_slots(a, b),
        (Value::Items(a), Value::Items(b)) => are_equal_items(a, b),
        (Value::Chosen(i, a), Value::Chosen(j, b)) => i == j && are_equal(a, b),
        _ => false,
    }
}

#[cycle(equality)]
fn are_equal_slots(a: &[Option<Value>], b: &[Option<Value>]) -> bool
    ensures { IsTrue result ↔ (slots_view a.now ≡ slots_view b.now) }
{
    if a.len() != b.len() {
        return false;
    }
    for (i, slot) in a.iter().enumerate() {
        let Some(value) = slot else {
            if b[i].is_some() {
                return false;
            }
            continue;
        };
        if !stands_in(value, &b[i]) {
            return false;
        }
    }
    true
}

// Whether the slot has a value that is equal to this one.
#[cycle(equality)]
fn stands_in(value: &Value, slot: &Option<Value>) -> bool
    ensures { IsTrue result ↔ (Some (value_view value.now) ≡ option_map value_view slot.now) }
{
    match slot {
        None => false,
        Some(other) => are_equal(value, other),
    }
}

#[cycle(equality)]
fn are_equal_items(a: &[Value], b: &[Value]) -> bool
    ensures { IsTrue result ↔ (items_view a.now ≡ items_view b.now) }
{
    if a.len() != b.len() {
        return false;
    }
    for (i, item) in a.iter().enumerate() {
        if !are_equal(item, &b[i]) {
            return false;
        }
    }
    true
}
