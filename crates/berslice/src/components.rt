//! Components of a SEQUENCE, in order of declaration (X.690 8.9).

ghost use Rattle.std.specs.Prelude.{◌≡◌, None, length, map, option_map, IfSome, IsTrue, MatchOption};
ghost use Rattle.std.specs.List.{AllByRecursion};
ghost use Rattle.octets.specs.declared.tag.Tag.{Tag};
ghost use Rattle.types.specs.Shape.{Shape};
ghost use Rattle.types.specs.View.{field_view, components_view, requirement_view, value_view};
ghost use Rattle.encoding_parts.specs.Parts.{IsGoodComponent, IsSlotOf};
ghost use Rattle.berslice.specs.Reading.{AreComponentsRead, AreContentsRead, HasSlots, IsComponentRead};

use crate::leaf::may_begin;
use crate::reading::read_one;
use encoding_parts::{clear, drop_default, take_slots};
use std::alloc::Global;
use types::{Field, Presence, Ty, Value, may_be_absent};

// Reads the encodings of components at the front, in order of declaration, into the value, and returns how many
// octets they have.
#[cycle(reading)]
#[inline(never)]
pub fn read_components(
    alloc: Global,
    fields: &[Field],
    levels: usize,
    octets: &[u8],
    value: &mut Value,
) -> Option<usize>
    requires { AllByRecursion IsGoodComponent (map field_view fields.now) }
    ensures { IfSome result (λ used. (tag : Tag) → AreContentsRead levels (Shape.sequence tag (components_view fields.now)) octets.now value.new used) }
{
    if !hold_slots(alloc, fields, value) {
        return None;
    }
    let Value::Fields(slots) = value else {
        return None;
    };
    read_slots(alloc, fields, levels, octets, slots)
}

// Reads the encodings of components into the slots, of which there is one for each.
#[cycle(reading)]
#[inline(always)]
fn read_slots(
    alloc: Global,
    fields: &[Field],
    levels: usize,
    octets: &[u8],
    slots: &mut Vec<Option<Value>>,
) -> Option<usize>
    requires good { AllByRecursion IsGoodComponent (map field_view fields.now) }
    requires slots { length slots.old.items ≡ length fields.now }
    ensures { IfSome result (λ used. AreComponentsRead levels (map field_view fields.now) octets.now slots.new.items used) }
{
    read_each(alloc, fields, levels, octets, slots)
}

// Reads the encodings of components into their slots. These, and what is left of the octets, are slices, which stay in
// registers.
#[cycle(reading)]
#[inline(always)]
fn read_each(
    alloc: Global,
    fields: &[Field],
    levels: usize,
    octets: &[u8],
    slots: &mut [Option<Value>],
) -> Option<usize>
    requires good { AllByRecursion IsGoodComponent (map field_view fields.now) }
    requires slots { length slots.old ≡ length fields.now }
    ensures { IfSome result (λ used. AreComponentsRead levels (map field_view fields.now) octets.now slots.new used) }
{
    let mut rest = octets;
    for (place, field) in fields.iter().enumerate() {
        let used = read_component(alloc, field, levels, rest, &mut slots[place])?;
        rest = &rest[used..];
    }
    Some(octets.len() - rest.len())
}

// Makes the value one that has a slot for each component, and says whether it has: those that it holds, with what is in
// them, if they are as many; not where memory runs out.
#[inline(always)]
fn hold_slots(alloc: Global, fields: &[Field], value: &mut Value) -> bool
    ensures { IsTrue result → HasSlots (length fields.now) value.new }
{
    has_slots(fields.len(), value) || put_slots(alloc, fields, value)
}

// Whether the value has so many slots.
#[inline(always)]
fn has_slots(count: usize, value: &Value) -> bool
    ensures { IsTrue result → HasSlots count value.now }
{
    match value {
        Value::Fields(slots) => slots.len() == count,
        _ => false,
    }
}

// Puts empty slots into the value, and says whether it has.
#[inline(never)]
fn put_slots(alloc: Global, fields: &[Field], value: &mut Value) -> bool
    ensures { IsTrue result → HasSlots (length fields.now) value.new }
{
    match take_slots(alloc, fields, value) {
        Ok(slots) => {
            *value = Value::Fields(slots);
            true
        }
        Err(_) => false,
    }
}

// Reads the encoding of the component at the front, if it stands there, or none where it may be absent. A value that
// is the default leaves an empty slot.
#[cycle(reading)]
#[inline(always)]
fn read_component(
    alloc: Global,
    field: &Field,
    levels: usize,
    octets: &[u8],
    slot: &mut Option<Value>,
) -> Option<usize>
    requires { IsGoodComponent (field_view field.now) }
    ensures { IfSome result (λ used. IsComponentRead levels (field_view field.now) octets.now slot.new used) }
{
    if slot.is_none() {
        if may_be_absent(&field.presence) && !may_stand(&field.ty, octets) {
            return Some(0);
        }
        *slot = Some(Value::Null);
    }
    let Some(value) = slot else {
        return None;
    };
    match read_one(alloc, &field.ty, levels, octets, value) {
        Some(used) => {
            settle(&field.presence, slot);
            Some(used)
        }
        None => {
            clear(slot);
            if may_be_absent(&field.presence) {
                Some(0)
            } else {
                None
            }
        }
    }
}

// Empties the slot where the value in it is the component's default: of most there is none.
#[inline(always)]
fn settle(presence: &Presence, slot: &mut Option<Value>)
    ensures { MatchOption slot.old (slot.new ≡ None)
        (λ value. IsSlotOf (requirement_view presence.now) (value_view value) (option_map value_view slot.new)) }
{
    match presence {
        Presence::Required | Presence::Optional => {}
        Presence::Default(_) => drop_default(presence, slot),
    }
}

// Whether an encoding of the type may stand at the front, by a quick look: no further one is taken where the component
// is absent, as most are that have an empty slot.
#[inline(always)]
fn may_stand(ty: &Ty, octets: &[u8]) -> bool {
    match ty.leaf_tag() {
        Some(tag) => may_begin(tag, octets),
        None => !octets.is_empty(),
    }
}
