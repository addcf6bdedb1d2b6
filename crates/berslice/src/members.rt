//! Components of a SET, in any order (X.690 8.11).

ghost use Rattle.std.specs.Prelude.{◌≡◌, map, IfSome};
ghost use Rattle.std.specs.List.{AllByRecursion};
ghost use Rattle.octets.specs.declared.tag.Tag.{Tag};
ghost use Rattle.types.specs.Shape.{Shape};
ghost use Rattle.types.specs.View.{field_view, components_view};
ghost use Rattle.encoding_parts.specs.Parts.{IsGoodComponent, Parts};
ghost use Rattle.berslice.specs.Reading.{AreContentsRead, AreSetComponentsOf, IsMemberRead};
ghost use Rattle.berslice.specs.RenewedSet.{renewed_view, IsFilled, IsRoomy};

use crate::heads::{ends_at, identifier_of};
use crate::leaf::read_leaf_behind;
use crate::reading::read_nested;
use crate::renewed_set::RenewedSet;
use std::alloc::Global;
use types::{Field, Value};

// Reads the encodings of components up to the end, in any order, into the value, and returns how many octets they
// have.
#[cycle(reading)]
pub fn read_members(
    alloc: Global,
    fields: &[Field],
    levels: usize,
    octets: &[u8],
    definite: bool,
    value: &mut Value,
) -> Option<usize>
    requires { AllByRecursion IsGoodComponent (map field_view fields.now) }
    ensures { IfSome result (λ used. (tag : Tag) → AreContentsRead levels (Shape.set tag (components_view fields.now)) octets.now value.new used) }
{
    let mut set = RenewedSet::over(alloc, fields, value)?;
    let mut rest = octets;
    // Those that come in reverse or in order, as far as they do, and have no parts.
    while let Some(awaited) = set.awaited(rest) {
        let slot = &mut set.set_components.slots[awaited.place];
        let value = slot.get_or_insert_with(|| Value::Null);
        let used = read_leaf_behind(alloc, awaited.ty, awaited.identifier, levels, rest, value)?;
        rest = &rest[used..];
    }
    while !ends_at(rest, definite) {
        let used = read_member(alloc, fields, levels, rest, &mut set)?;
        rest = &rest[used..];
    }
    let read = set.into_value()?;
    *value = read;
    Some(octets.len() - rest.len())
}

// Reads the encoding of the component at the front into its slot, over what the slot holds.
#[cycle(reading)]
fn read_member(
    alloc: Global,
    fields: &[Field],
    levels: usize,
    octets: &[u8],
    set: &mut RenewedSet<'_>,
) -> Option<usize>
    requires good { AllByRecursion IsGoodComponent (map field_view fields.now) }
    requires filled { IsFilled set.old }
    requires fields { IsRoomy set.old × (set.old.set_components.fields.now ≡ fields.now) }
    requires set_components { AreSetComponentsOf (map field_view fields.now) (Parts.set (renewed_view set.old)) }
    ensures filled { IfSome result (λ used. IsFilled set.new) }
    ensures fields { IfSome result (λ used. IsRoomy set.new × (set.new.set_components.fields.now ≡ fields.now)) }
    ensures read { IfSome result (λ used. IsMemberRead levels octets.now (Parts.set (renewed_view set.old)) (Parts.set (renewed_view set.new)) used) }
{
    let identifier = identifier_of(octets)?;
    let due = set.due(identifier.tag)?;
    let slot = &mut set.set_components.slots[due.place];
    let value = slot.get_or_insert_with(|| Value::Null);
    if due.is_leaf {
        return read_leaf_behind(alloc, due.ty, identifier, levels, octets, value);
    }
    read_nested(alloc, &fields[due.place].ty, levels, octets, value)
}
