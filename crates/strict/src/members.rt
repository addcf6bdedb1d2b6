//! SETs: components in the order of their tags (X.690 8.11, 9.3 and 10.3).

ghost use Rattle.std.specs.Prelude.{◌≤◌, None, map, IfOk, IfErr};
ghost use Rattle.std.specs.List.{AllByRecursion};
ghost use Rattle.octets.specs.declared.tag.Tag.{Tag};
ghost use Rattle.types.specs.FirstTags.{AreDistinct, tags_of_components};
ghost use Rattle.types.specs.View.{field_view, components_view};
ghost use Rattle.types.specs.Shape.{Shape};
ghost use Rattle.encoding_parts.specs.Parts.{IsGoodComponent};
ghost use Rattle.strict.specs.Bars.{RefusesStrictly};
ghost use Rattle.strict.specs.Head.{AreFewer};
ghost use Rattle.strict.specs.Inside.{IsInsideRead};
ghost use Rattle.strict.specs.Members.{HasMembers};
ghost use Rattle.octets.specs.declared.TheConstants.{MAX_ENCODING};
ghost use Rattle.octets.specs.Rule.{rule_of};

use crate::components::read_present;
use crate::fronts::front_tag;
use crate::head::Inside;
use crate::tags::{comes_behind, order_tag};
use encoding_parts::{SetComponents, emptied_slots};
use octets::{Canonical, MAX_ENCODING};
use std::alloc::Global;
use types::{Field, Refusal, Value};

// Reads the encodings of components at the front up to the end into the value, and returns how many octets they have.
#[cycle(reading)]
pub fn read_members(
    alloc: Global,
    rule: Canonical,
    fields: &[Field],
    inside: &Inside,
    octets: &[u8],
    value: &mut Value,
) -> Result<usize, Refusal>
    requires good { AllByRecursion IsGoodComponent (map field_view fields.now) }
    requires distinct { AreDistinct (tags_of_components (components_view fields.now)) }
    requires room { inside.now.room ≤ MAX_ENCODING }
    ensures value { IfOk result (λ used. (tag : Tag) → IsInsideRead (rule_of rule) (Shape.set tag (components_view fields.now)) inside.now.definite inside.now.room octets.now value.new used) }
    ensures refused { IfErr result (RefusesStrictly (HasMembers (rule_of rule) (map field_view fields.now) (map (λ c. None) (map field_view fields.now)) None inside.now.definite inside.now.room) (AreFewer inside.now.definite inside.now.room) octets.now) }
{
    let Ok(slots) = emptied_slots(alloc, fields, value) else {
        return Err(Refusal::NoMemory);
    };
    let behind = 0;
    let mut set_components = SetComponents {
        fields,
        slots,
        behind,
    };
    let mut at = 0;
    let mut last = None;
    while let Some(tag) = front_tag(inside.definite, inside.room - at, &octets[at..])? {
        let (place, _) = set_components.due(tag)?;
        let field = &fields[place];
        let order = order_tag(rule, &field.ty, tag);
        if !comes_behind(last, order) {
            return Err(Refusal::NotCanonical);
        }
        at += read_present(
            alloc,
            rule,
            field,
            inside.room - at,
            &octets[at..],
            &mut set_components.slots[place],
        )?;
        last = Some(order);
        set_components.behind = place + 1;
    }
    if !set_components.are_filled() {
        return Err(Refusal::Missing);
    }
    *value = Value::Fields(set_components.slots);
    Ok(at)
}
