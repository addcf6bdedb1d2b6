//! The items of a SET OF in the order of their encodings (X.690 11.6).

ghost use Rattle.std.specs.Prelude.{◌≡◌, map, All, IfOk, IsPermutation};
ghost use Rattle.std.specs.List.{AllByRecursion, AllZip};
ghost use Rattle.std.specs.Ordering.{nat_cmp};
ghost use Rattle.std.specs.Cmp.Lexicographic.{slice_cmp};
ghost use Rattle.types.specs.Conforms.{Conforms, SlotsConform};
ghost use Rattle.types.specs.Order.{Ascends};
ghost use Rattle.types.specs.Same.{IsSame};
ghost use Rattle.types.specs.View.{ty_view, value_view, components_view, slots_view};
ghost use Rattle.canon.specs.Ordered.{IsOrdered, IsOrderedFrom, AreOrderedFrom, AreItemsOrderedFrom, IsSound, AreSound};
ghost use Rattle.canon.specs.Keyed.{HasKey, compared};
ghost use Rattle.canon.specs.Span.{part_of};

use crate::copying::copy_leaf;
use crate::parts::{chosen_in, items_in, slots_in};
use crate::spans::{Keyed, compare, with_key_of};
use crate::writer::Writer;
use octets::{Canonical, NoMemory};
use std::alloc::Global;
use std::cmp::Ordering;
use types::{Field, Ty, Value, WellTyped};

/// The value with the items of each SET OF, at any depth, in ascending order of their DER
/// encodings. Two values are the same exactly if what this returns of them is equal
/// (`equal_in_order_exactly_if_same`).
///
/// It takes the time and the memory of a copy of the value and, for each SET OF, those of writing its
/// items under DER once and of sorting them: an octet is written once for each SET OF around it, and
/// then moved once more, as by `put`, for each SET OF further in.
pub fn order(alloc: Global, ty: &WellTyped, value: &Value) -> Result<Value, NoMemory>
    requires { Conforms (ty_view ty.now) (value_view value.now) }
    ensures same { IfOk result (λ ordered. IsSame (ty_view ty.now) (value_view value.now) (value_view ordered)) }
    ensures ordered { IfOk result (λ ordered. IsOrdered (ty_view ty.now) (value_view ordered)) }
    ensures conforms { IfOk result (λ ordered. Conforms (ty_view ty.now) (value_view ordered)) }
{
    order_value(alloc, ty.as_type(), value)
}

// An item of a SET OF, and where its encoding stands.
#[derive(Drop)]
pub(crate) struct Placed {
    // The item.
    pub value: Value,
    // Where its encoding stands, with the key of that.
    pub keyed: Keyed<u128>,
}

// Orders a value whose type is known, at each node, to be as `order` asks.
#[cycle(ordering)]
fn order_value(alloc: Global, ty: &Ty, value: &Value) -> Result<Value, NoMemory>
    requires sound { IsSound (ty_view ty.now) }
    requires conforms { Conforms (ty_view ty.now) (value_view value.now) }
    ensures { IfOk result (λ ordered. IsOrderedFrom (ty_view ty.now) (value_view value.now) (value_view ordered)) }
{
    match ty {
        Ty::Sequence(_, fields) | Ty::Set(_, fields) => {
            Ok(Value::Fields(order_slots(alloc, fields, slots_in(value))?))
        }
        Ty::SequenceOf(_, inner) => Ok(Value::Items(order_items(alloc, inner, items_in(value))?)),
        Ty::SetOf(_, inner) => Ok(Value::Items(sort_items(alloc, inner, items_in(value))?)),
        Ty::Choice(alternatives) => {
            let Some((which, chosen)) = chosen_in(value) else {
                unreachable!()
            };
            let ordered = order_value(alloc, &alternatives[which].ty, chosen)?;
            Ok(Value::Chosen(which, Box::new(alloc, ordered)?))
        }
        Ty::Explicit(_, inner) => order_value(alloc, inner, value),
        _ => copy_leaf(alloc, value),
    }
}

// The slots of a SEQUENCE or SET, each value in order.
#[cycle(ordering)]
fn order_slots(
    alloc: Global,
    fields: &[Field],
    slots: &[Option<Value>],
) -> Result<Vec<Option<Value>>, NoMemory>
    requires sound { AreSound (components_view fields.now) }
    requires conform { SlotsConform (components_view fields.now) (slots_view slots.now) }
    ensures { IfOk result (λ ordered.
        AreOrderedFrom (components_view fields.now) (slots_view slots.now) (slots_view ordered.items)) }
{
    let count = fields.len().min(slots.len());
    let mut ordered = Vec::new(alloc);
    ordered.reserve_exact(count)?;
    for place in 0..count {
        match &slots[place] {
            Some(value) => {
                let value = order_value(alloc, &fields[place].ty, value)?;
                ordered.push(Some(value))?;
            }
            None => ordered.push(None)?,
        }
    }
    Ok(ordered)
}

// Items, each of them in order.
#[cycle(ordering)]
fn order_items(alloc: Global, ty: &Ty, items: &[Value]) -> Result<Vec<Value>, NoMemory>
    requires sound { IsSound (ty_view ty.now) }
    requires conform { AllByRecursion (Conforms (ty_view ty.now)) (map value_view items.now) }
    ensures { IfOk result (λ ordered.
        AllZip (IsOrderedFrom (ty_view ty.now)) (map value_view items.now) (map value_view ordered.items)) }
{
    let mut ordered = Vec::new(alloc);
    ordered.reserve_exact(items.len())?;
    for item in items {
        let value = order_value(alloc, ty, item)?;
        ordered.push(value)?;
    }
    Ok(ordered)
}

// The items in the order of their encodings.
#[cycle(ordering)]
fn sort_items(alloc: Global, ty: &Ty, items: &[Value]) -> Result<Vec<Value>, NoMemory>
    requires conform { AllByRecursion (Conforms (ty_view ty.now)) (map value_view items.now) }
    requires sound { IsSound (ty_view ty.now) }
    ensures { IfOk result (λ ordered.
        AreItemsOrderedFrom (ty_view ty.now) (map value_view items.now) (map value_view ordered.items)) }
{
    if items.len() < 2 {
        return order_items(alloc, ty, items);
    }
    let rule = Canonical::Der;
    let writer = Writer { alloc, rule };
    let mut octets = Vec::new(alloc);
    let mut placed = Vec::new(alloc);
    placed.reserve(items.len())?;
    for item in items {
        let value = order_value(alloc, ty, item)?;
        let span = writer.put_span(ty, &value, &mut octets)?;
        let keyed = with_key_of(&octets, span);
        placed.push(Placed { value, keyed })?;
    }
    sort_up(&octets, &mut placed);
    values_of(alloc, placed)
}

// The items without their places.
fn values_of(alloc: Global, items: Vec<Placed>) -> Result<Vec<Value>, NoMemory>
    ensures { IfOk result (λ values. values.items ≡ map (λ item. item.value) items.items) }
{
    Ok(items.into_iter().map(|item| item.value).collect(alloc)?)
}

// Puts items in ascending order of their encodings.
fn sort_up(buffer: &[u8], items: &mut Vec<Placed>)
    requires keys { All (HasKey buffer.now) (map (λ item. item.keyed) items.old.items) }
    ensures permutation { IsPermutation items.old.items items.new.items }
    ensures ascends { Ascends (map (λ item. part_of buffer.now item.keyed.span) items.new.items) }
{
    items.sort_unstable_by(
        |a, b| -> Ordering
            ensures { result ≡ slice_cmp nat_cmp (compared buffer.entry.now a.now.keyed) (compared buffer.entry.now b.now.keyed) }
        { compare(buffer, a.keyed, b.keyed) },
    );
}
