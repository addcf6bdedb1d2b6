//! How many octets the encoding of a value has, counted up to one past the limit: for one that was not
//! written.

ghost use Rattle.std.specs.Prelude.{◌≤◌, ◌+◌, map};
ghost use Rattle.octets.specs.declared.TheConstants.{MAX_ENCODING};
ghost use Rattle.octets.specs.Rule.{rule_of};
ghost use Rattle.types.specs.Encoding.{IsEncoding};
ghost use Rattle.types.specs.View.{ty_view, value_view, components_view, slots_view};
ghost use Rattle.canon.specs.Node.{AreItems, AreComponents};
ghost use Rattle.canon.specs.Size.{HasSize};
ghost use Rattle.canon.specs.Writes.{IsWritable, AreWritable, AreWritableSlots};

use crate::leaf::size_of_leaf;
use crate::parts::{chosen_in, items_in, slots_in};
use crate::sizes::size_of_constructed;
use octets::{Canonical, MAX_ENCODING};
use types::{Field, Ty, Value};

// How many octets the encoding of `value` has, or one more than the limit. Takes no memory.
#[cycle(size)]
pub(crate) fn size_of(rule: Canonical, ty: &Ty, value: &Value) -> usize
    requires { IsWritable (ty_view ty.now) (value_view value.now) }
    ensures at_most { result ≤ MAX_ENCODING + 1 }
    ensures size { HasSize (IsEncoding (rule_of rule) (ty_view ty.now) (value_view value.now)) result }
{
    if let Some(tag) = ty.leaf_tag() {
        return size_of_leaf(rule, tag, value);
    }
    match ty {
        Ty::Sequence(tag, fields) | Ty::Set(tag, fields) => {
            let contents = size_of_components(rule, fields, slots_in(value));
            size_of_constructed(rule, *tag, contents)
        }
        Ty::SequenceOf(tag, inner) | Ty::SetOf(tag, inner) => {
            let contents = size_of_items(rule, inner, items_in(value));
            size_of_constructed(rule, *tag, contents)
        }
        Ty::Choice(alternatives) => {
            let Some((which, chosen)) = chosen_in(value) else {
                unreachable!()
            };
            size_of(rule, &alternatives[which].ty, chosen)
        }
        Ty::Explicit(tag, inner) => {
            let contents = size_of(rule, inner, value);
            size_of_constructed(rule, *tag, contents)
        }
        _ => unreachable!(),
    }
}

// How many octets the encodings of items have, one after another, or one more than the limit.
#[cycle(size)]
fn size_of_items(rule: Canonical, ty: &Ty, items: &[Value]) -> usize
    requires { AreWritable (ty_view ty.now) (map value_view items.now) }
    ensures at_most { result ≤ MAX_ENCODING + 1 }
    ensures size { HasSize
        (AreItems (IsEncoding (rule_of rule) (ty_view ty.now)) (map value_view items.now)) result }
{
    // From the last to the first, since the definitions add a first one to those behind it.
    let count = items.len();
    let mut total = 0usize;
    for done in 0..count {
        let item = &items[count - 1 - done];
        total = (total + size_of(rule, ty, item)).min(MAX_ENCODING + 1);
    }
    total
}

// How many octets the encodings of components have, or one more than the limit.
#[cycle(size)]
fn size_of_components(rule: Canonical, fields: &[Field], slots: &[Option<Value>]) -> usize
    requires { AreWritableSlots (components_view fields.now) (slots_view slots.now) }
    ensures at_most { result ≤ MAX_ENCODING + 1 }
    ensures size { HasSize
        (AreComponents (rule_of rule) (components_view fields.now) (slots_view slots.now)) result }
{
    let count = fields.len().min(slots.len());
    let mut total = 0usize;
    for done in 0..count {
        let place = count - 1 - done;
        match &slots[place] {
            Some(value) => {
                let size = size_of(rule, &fields[place].ty, value);
                total = (total + size).min(MAX_ENCODING + 1);
            }
            None => {}
        }
    }
    total
}
