//! The parts of values.

ghost use Rattle.std.specs.Prelude.{◌≡◌, ℕ, IsSomeAnd, map};
ghost use Rattle.types.specs.Shape.{Val, Slots, Items, listed};
ghost use Rattle.types.specs.View.{value_view, slots_view};

use types::Value;

// The items of a value; none where it has other parts.
pub(crate) fn items_in(value: &Value) -> &[Value]
    ensures { (items : Items) → value_view value.now ≡ Val.items items → listed items ≡ map value_view result.now }
{
    match value {
        Value::Items(items) => items.as_slice(),
        _ => &[],
    }
}

// The slots of a value; none where it has other parts.
pub(crate) fn slots_in(value: &Value) -> &[Option<Value>]
    ensures { (slots : Slots) → value_view value.now ≡ Val.fields slots → slots ≡ slots_view result.now }
{
    match value {
        Value::Fields(slots) => slots.as_slice(),
        _ => &[],
    }
}

// The chosen alternative of a value and the value of it; nothing where it has other parts.
pub(crate) fn chosen_in(value: &Value) -> Option<(usize, &Value)>
    ensures { (which : ℕ) (inner : Val) → value_view value.now ≡ Val.chosen which inner →
        IsSomeAnd result (λ r. (r.0 ≡ which) × (value_view r.1.now ≡ inner)) }
{
    match value {
        Value::Chosen(which, inner) => Some((*which, inner)),
        _ => None,
    }
}
