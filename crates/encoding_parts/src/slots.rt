//! Slots for components, and the room of old values, into which new ones are read.

ghost use Rattle.std.specs.Prelude.{◌≡◌, None, length, map, IfOk, IsTrue};
ghost use Rattle.types.specs.Shape.{Val};
ghost use Rattle.types.specs.View.{field_view, value_view};
ghost use Rattle.types.specs.declared.value.Value.TheVariants.{Boolean, Integer};

use octets::NoMemory;
use std::alloc::Global;
use types::{Field, Value};

/// A slot for each component; all are empty. Refused where memory runs out.
pub fn empty_slots(alloc: Global, fields: &[Field]) -> Result<Vec<Option<Value>>, NoMemory>
    ensures { IfOk result (λ slots. slots.items ≡ map (λ c. None) (map field_view fields.now)) }
{
    let mut slots = Vec::new(alloc);
    slots.reserve_exact(fields.len())?;
    for _ in fields {
        slots.push_reserved(None);
    }
    Ok(slots)
}

/// A slot for each component: those that the value holds, with what is in them, if they are as many; else empty ones.
/// Refused where memory runs out.
pub fn take_slots(
    alloc: Global,
    fields: &[Field],
    value: &mut Value,
) -> Result<Vec<Option<Value>>, NoMemory>
    ensures { IfOk result (λ slots. length slots.items ≡ length fields.now) }
{
    if let Value::Fields(slots) = value {
        if slots.len() == fields.len() {
            return Ok(std::mem::replace(slots, Vec::new(alloc)));
        }
    }
    empty_slots(alloc, fields)
}

/// A slot for each component, in the room of those that the value holds, if they are as many; all are empty. Refused
/// where memory runs out.
pub fn emptied_slots(
    alloc: Global,
    fields: &[Field],
    value: &mut Value,
) -> Result<Vec<Option<Value>>, NoMemory>
    ensures { IfOk result (λ slots. slots.items ≡ map (λ c. None) (map field_view fields.now)) }
{
    let mut slots = take_slots(alloc, fields, value)?;
    for place in 0..slots.len() {
        slots[place] = None;
    }
    Ok(slots)
}

/// Takes out the items that the value holds, if it does; else there are none. Takes no memory.
pub fn take_list(alloc: Global, value: &mut Value) -> Vec<Value> {
    match value {
        Value::Items(items) => std::mem::replace(items, Vec::new(alloc)),
        _ => Vec::new(alloc),
    }
}

/// Makes the value a BOOLEAN. Where it is one, there is nothing to drop.
#[inline(always)]
pub fn set_boolean(truth: bool, value: &mut Value)
    ensures { value_view value.new ≡ value_view (Boolean truth) }
{
    if let Value::Boolean(old) = value {
        *old = truth;
        return;
    }
    *value = Value::Boolean(truth);
}

// Makes the value an INTEGER. Where it is one, there is nothing to drop.
#[inline(always)]
pub(crate) fn set_integer(number: i128, value: &mut Value)
    ensures { value_view value.new ≡ value_view (Integer number) }
{
    if let Value::Integer(old) = value {
        *old = number;
        return;
    }
    *value = Value::Integer(number);
}

/// Makes the value one of the alternative at this place, in the box that is there, if one is, and says whether it has;
/// not where memory runs out. In the box is the old value then, or NULL.
#[inline(always)]
pub fn choose(alloc: Global, which: usize, value: &mut Value) -> bool
    ensures { IsTrue result → (v : Val) × (value_view value.new ≡ Val.chosen which v) }
{
    if let Value::Chosen(place, _) = value {
        *place = which;
        return true;
    }
    match Box::new(alloc, Value::Null) {
        Ok(boxed) => {
            *value = Value::Chosen(which, boxed);
            true
        }
        Err(_) => false,
    }
}

/// Empties the slot.
pub fn clear(slot: &mut Option<Value>)
    ensures { slot.new ≡ None }
{
    *slot = None;
}
