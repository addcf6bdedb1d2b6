//! Values that have at most one item in each SET OF.

ghost use Rattle.std.specs.Prelude.{◌∷◌, [], IsTrue, map};
ghost use Rattle.std.specs.List.{AllByRecursion};
ghost use Rattle.types.specs.View.{ty_view, value_view, components_view, alternatives_view, slots_view};
ghost use Rattle.canon.specs.Ordered.{IsOrdered, AreOrderedSlots, IsOrderedAlternative};

use types::{Alternative, Field, Ty, Value};

// Whether `value` is one of the type with at most one item in each SET OF, so that all of them are in order.
// Whether a value without parts is one of its type is not tested. Takes no memory.
#[cycle(plain)]
pub(crate) fn is_plain(ty: &Ty, value: &Value) -> bool
    ensures { IsTrue result → IsOrdered (ty_view ty.now) (value_view value.now) }
{
    match (ty, value) {
        (Ty::Boolean(_), _) | (Ty::Integer(_), _) | (Ty::Enumerated(_, _), _) => true,
        (Ty::Null(_), _) | (Ty::Oid(_), _) | (Ty::RelativeOid(_), _) => true,
        (Ty::Bits(_), _) | (Ty::NamedBits(_, _), _) | (Ty::Octets(_), _) => true,
        (Ty::Text(_, _), _) | (Ty::Time(_, _), _) => true,
        (Ty::Sequence(_, fields), Value::Fields(slots)) => are_plain(fields, slots),
        (Ty::Set(_, fields), Value::Fields(slots)) => are_plain(fields, slots),
        (Ty::SequenceOf(_, inner), Value::Items(items)) => all_plain(inner, items),
        (Ty::SetOf(_, inner), Value::Items(items)) => items.len() < 2 && all_plain(inner, items),
        (Ty::Choice(alternatives), Value::Chosen(which, inner)) => {
            alternative_plain(alternatives, *which, inner)
        }
        (Ty::Explicit(_, inner), _) => is_plain(inner, value),
        _ => false,
    }
}

#[cycle(plain)]
fn are_plain(fields: &[Field], slots: &[Option<Value>]) -> bool
    ensures { IsTrue result → AreOrderedSlots (components_view fields.now) (slots_view slots.now) }
{
    if fields.len() != slots.len() {
        return false;
    }
    for (i, field) in fields.iter().enumerate() {
        if !slot_plain(field, &slots[i]) {
            return false;
        }
    }
    true
}

#[cycle(plain)]
fn slot_plain(field: &Field, slot: &Option<Value>) -> bool
    ensures { IsTrue result → AreOrderedSlots (components_view (field.now ∷ [])) (slots_view (slot.now ∷ [])) }
{
    match slot {
        None => true,
        Some(value) => is_plain(&field.ty, value),
    }
}

#[cycle(plain)]
fn all_plain(ty: &Ty, items: &[Value]) -> bool
    ensures { IsTrue result → AllByRecursion (IsOrdered (ty_view ty.now)) (map value_view items.now) }
{
    for item in items {
        if !is_plain(ty, item) {
            return false;
        }
    }
    true
}

#[cycle(plain)]
fn alternative_plain(alternatives: &[Alternative], which: usize, value: &Value) -> bool
    ensures { IsTrue result → IsOrderedAlternative (alternatives_view alternatives.now) which (value_view value.now) }
{
    match alternatives.get(which) {
        None => false,
        Some(alternative) => is_plain(&alternative.ty, value),
    }
}
