//! Whether a value conforms to a type.

ghost use Rattle.std.specs.Prelude.{◌<◌, ◌↔◌, All, IsTrue, map, ◌∷◌, [], Option};
ghost use Rattle.std.specs.List.{AllByRecursion};
ghost use Rattle.types.specs.Conforms.{Conforms, SlotsConform, AlternativeConforms, MayBeAbsent, DiffersFromDefault};
ghost use Rattle.types.specs.View.{ty_view, value_view, components_view, alternatives_view, slots_view, requirement_view};

use crate::equality::are_equal;
use crate::items::has_number;
use crate::oid_values::{is_oid_value, is_relative_oid_value};
use crate::{Alternative, Field, Presence, Ty, Value};
use primitives::is_wide_integer;
use strings::{allowed, is_time};

/// Whether `value` is a value of `ty`. Takes no memory.
#[cycle(conforms)]
pub fn conforms(ty: &Ty, value: &Value) -> bool
    ensures { IsTrue result ↔ Conforms (ty_view ty.now) (value_view value.now) }
{
    match (ty, value) {
        (Ty::Boolean(_), Value::Boolean(_)) => true,
        (Ty::Integer(_), Value::Integer(number)) => {
            // No effect at run time: the proof reads from this use that the number has 128 bits.
            let _in_range = *number;
            true
        }
        (Ty::Integer(_), Value::WideInteger(octets)) => is_wide_integer(octets.as_slice()),
        (Ty::Enumerated(_, items), Value::Enumerated(number)) => {
            let _in_range = *number;
            has_number(items.as_slice(), number)
        }
        (Ty::Null(_), Value::Null) => true,
        (Ty::Oid(_), Value::Oid(arcs)) => is_oid_value(arcs.as_slice()),
        (Ty::RelativeOid(_), Value::RelativeOid(arcs)) => is_relative_oid_value(arcs.as_slice()),
        (Ty::Bits(_), Value::Bits(_)) => true,
        (Ty::NamedBits(_, _), Value::Bits(bits)) => bits.is_trimmed(),
        (Ty::Octets(_), Value::Octets(octets)) => {
            below_256(octets.as_slice());
            true
        }
        (Ty::Text(_, kind), Value::Text(octets)) => {
            below_256(octets.as_slice());
            allowed(*kind, octets.as_slice())
        }
        (Ty::Time(_, kind), Value::Text(octets)) => {
            below_256(octets.as_slice());
            is_time(*kind, octets.as_slice())
        }
        (Ty::Sequence(_, fields), Value::Fields(slots)) => slots_conform(fields, slots),
        (Ty::Set(_, fields), Value::Fields(slots)) => slots_conform(fields, slots),
        (Ty::SequenceOf(_, inner), Value::Items(items)) => all_conform(inner, items),
        (Ty::SetOf(_, inner), Value::Items(items)) => all_conform(inner, items),
        (Ty::Choice(alternatives), Value::Chosen(which, inner)) => {
            alternative_conforms(alternatives, *which, inner)
        }
        (Ty::Explicit(_, inner), _) => conforms(inner, value),
        _ => false,
    }
}

// Whether there is a slot for each component, with a value of it, or none where it may be absent.
#[cycle(conforms)]
fn slots_conform(fields: &[Field], slots: &[Option<Value>]) -> bool
    ensures { IsTrue result ↔ SlotsConform (components_view fields.now) (slots_view slots.now) }
{
    if fields.len() != slots.len() {
        return false;
    }
    for (i, field) in fields.iter().enumerate() {
        if !slot_conforms(field, &slots[i]) {
            return false;
        }
    }
    true
}

#[cycle(conforms)]
fn slot_conforms(field: &Field, slot: &Option<Value>) -> bool
    ensures { IsTrue result ↔ SlotsConform (components_view (field.now ∷ [])) (slots_view (slot.now ∷ [])) }
{
    match slot {
        None => may_be_absent(&field.presence),
        Some(value) => {
            conforms(&field.ty, value) && differs_from_default(&field.presence, value)
        }
    }
}

/// Whether a component may be absent.
pub fn may_be_absent(presence: &Presence) -> bool
    ensures { IsTrue result ↔ MayBeAbsent (requirement_view presence.now) }
{
    match presence {
        Presence::Required => false,
        Presence::Optional => true,
        Presence::Default(_) => true,
    }
}

fn differs_from_default(presence: &Presence, value: &Value) -> bool
    ensures { IsTrue result ↔ DiffersFromDefault (requirement_view presence.now) (value_view value.now) }
{
    match presence {
        Presence::Required => true,
        Presence::Optional => true,
        Presence::Default(default) => !are_equal(value, default),
    }
}

// Whether the alternative, counted from 0, is there and has the value.
#[cycle(conforms)]
fn alternative_conforms(alternatives: &[Alternative], which: usize, value: &Value) -> bool
    ensures { IsTrue result ↔ AlternativeConforms (alternatives_view alternatives.now) which (value_view value.now) }
{
    match alternatives.get(which) {
        None => false,
        Some(alternative) => conforms(&alternative.ty, value),
    }
}

#[cycle(conforms)]
fn all_conform(ty: &Ty, items: &[Value]) -> bool
    ensures { IsTrue result ↔ AllByRecursion (Conforms (ty_view ty.now)) (map value_view items.now) }
{
    for item in items {
        if !conforms(ty, item) {
            return false;
        }
    }
    true
}

// The octets of a slice are below 256, as its type says.
fn below_256(octets: &[u8])
    ensures { All (λ octet. octet < 256) octets.now }
{
    let _ = octets;
}
