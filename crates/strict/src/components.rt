//! SEQUENCEs: components in order of declaration (X.690 8.9 and 11.5).

ghost use Rattle.std.specs.Prelude.{◌≡◌, ◌-◌, ◌<◌, ◌≤◌, [], None, false, length, drop, map, IfOk, IfErr, IfSome, IsSome, MatchOption, ⊤};
ghost use Rattle.std.specs.List.{AllByRecursion};
ghost use Rattle.octets.specs.declared.canonical.Canonical.{Canonical};
ghost use Rattle.octets.specs.declared.TheConstants.{MAX_ENCODING};
ghost use Rattle.octets.specs.declared.tag.Tag.{Tag};
ghost use Rattle.octets.specs.Rule.{rule_of};
ghost use Rattle.types.specs.Conforms.{DiffersFromDefault};
ghost use Rattle.types.specs.FirstTags.{RunsAreDistinct};
ghost use Rattle.types.specs.Shape.{Shape};
ghost use Rattle.types.specs.View.{components_view, field_view, requirement_view, value_view};
ghost use Rattle.encoding_parts.specs.Parts.{IsGoodComponent};
ghost use Rattle.strict.specs.Bars.{RefusesStrictly};
ghost use Rattle.strict.specs.Head.{AreFewer, EndsHere};
ghost use Rattle.strict.specs.Inside.{IsInsideRead};
ghost use Rattle.strict.specs.Components.{HasPresent, IsPresentRead, HasComponents, AreComponentsRead, IsComponentRead, HasComponentFirst};

use crate::filling::fill_canonical;
use crate::fronts::{front_tag, left_over, stands_next, why_not_read};
use crate::head::Inside;
use crate::parts::read_wholly;
use encoding_parts::{clear, is_default, short_primitive, take_slots};
use octets::{Canonical, MAX_ENCODING};
use std::alloc::Global;
use types::{Field, Presence, Refusal, Value, may_be_absent};

// Reads the encodings of components at the front up to the end into the value, and returns how many octets they have.
#[cycle(reading)]
#[inline(always)]
pub fn read_components(
    alloc: Global,
    rule: Canonical,
    fields: &[Field],
    inside: &Inside,
    octets: &[u8],
    value: &mut Value,
) -> Result<usize, Refusal>
    requires good { AllByRecursion IsGoodComponent (map field_view fields.now) }
    requires runs { RunsAreDistinct (components_view fields.now) }
    requires room { inside.now.room ≤ MAX_ENCODING }
    ensures value { IfOk result (λ used. (tag : Tag) → IsInsideRead (rule_of rule) (Shape.sequence tag (components_view fields.now)) inside.now.definite inside.now.room octets.now value.new used) }
    ensures refused { IfErr result (RefusesStrictly (HasComponents (rule_of rule) (map field_view fields.now) inside.now.definite inside.now.room) (AreFewer inside.now.definite inside.now.room) octets.now) }
{
    hold_slots(alloc, fields, value);
    let Value::Fields(slots) = value else {
        return Err(Refusal::NoMemory);
    };
    if slots.len() != fields.len() {
        return Err(Refusal::NoMemory);
    }
    read_slots(alloc, rule, fields, inside, octets, slots)
}

// Reads the encodings of components at the front up to the end into the slots, of which there is one for each, and
// returns how many octets they have.
#[cycle(reading)]
#[inline(always)]
fn read_slots(
    alloc: Global,
    rule: Canonical,
    fields: &[Field],
    inside: &Inside,
    octets: &[u8],
    slots: &mut Vec<Option<Value>>,
) -> Result<usize, Refusal>
    requires good { AllByRecursion IsGoodComponent (map field_view fields.now) }
    requires runs { RunsAreDistinct (components_view fields.now) }
    requires room { inside.now.room ≤ MAX_ENCODING }
    requires slots { length slots.old.items ≡ length fields.now }
    ensures value { IfOk result (λ used. AreComponentsRead (rule_of rule) (map field_view fields.now) [] inside.now.definite inside.now.room octets.now slots.new.items used
        × EndsHere inside.now.definite (inside.now.room - used) (drop used octets.now)) }
    ensures refused { IfErr result (RefusesStrictly (HasComponents (rule_of rule) (map field_view fields.now) inside.now.definite inside.now.room) (AreFewer inside.now.definite inside.now.room) octets.now) }
{
    read_each(alloc, rule, fields, inside, octets, slots)
}

// Reads the encodings of components at the front up to the end into their slots, and returns how many octets they
// have. The slots, and the octets that are left, are slices, which stay in registers.
#[cycle(reading)]
#[inline(always)]
fn read_each(
    alloc: Global,
    rule: Canonical,
    fields: &[Field],
    inside: &Inside,
    octets: &[u8],
    slots: &mut [Option<Value>],
) -> Result<usize, Refusal>
    requires good { AllByRecursion IsGoodComponent (map field_view fields.now) }
    requires runs { RunsAreDistinct (components_view fields.now) }
    requires room { inside.now.room ≤ MAX_ENCODING }
    requires slots { length slots.old ≡ length fields.now }
    ensures value { IfOk result (λ used. AreComponentsRead (rule_of rule) (map field_view fields.now) [] inside.now.definite inside.now.room octets.now slots.new used
        × EndsHere inside.now.definite (inside.now.room - used) (drop used octets.now)) }
    ensures refused { IfErr result (RefusesStrictly (HasComponents (rule_of rule) (map field_view fields.now) inside.now.definite inside.now.room) (AreFewer inside.now.definite inside.now.room) octets.now) }
{
    let mut left = *inside;
    let mut rest = octets;
    for (place, field) in fields.iter().enumerate() {
        let slot = &mut slots[place];
        let used = match read_shortly_present(alloc, field, left.room, rest, slot) {
            Some(used) => used,
            None => {
                let later = &fields[place + 1..];
                read_component(alloc, rule, field, later, &left, rest, slot)?
            }
        };
        left.room -= used;
        rest = &rest[used..];
    }
    match front_tag(left.definite, left.room, rest)? {
        Some(tag) => Err(left_over(tag, slots)),
        None => Ok(octets.len() - rest.len()),
    }
}

// Gives the value a slot for each component, unless it has as many or memory runs out. What it has stays where it is.
#[inline(always)]
fn hold_slots(alloc: Global, fields: &[Field], value: &mut Value) {
    if let Value::Fields(slots) = value {
        if slots.len() == fields.len() {
            return;
        }
    }
    put_slots(alloc, fields, value);
}

// Makes the value one of empty slots, one for each component, unless memory runs out.
#[inline(never)]
fn put_slots(alloc: Global, fields: &[Field], value: &mut Value) {
    if let Ok(slots) = take_slots(alloc, fields, value) {
        *value = Value::Fields(slots);
    }
}

// Reads the encoding of the component at the front, with these behind it, if it stands there, or none where it may be
// absent. Of a component that may be, the tag is looked at first, and of any other only where it is refused.
#[cycle(reading)]
#[inline(always)]
fn read_component(
    alloc: Global,
    rule: Canonical,
    field: &Field,
    later: &[Field],
    inside: &Inside,
    octets: &[u8],
    slot: &mut Option<Value>,
) -> Result<usize, Refusal>
    requires good { IsGoodComponent (field_view field.now) }
    requires room { inside.now.room ≤ MAX_ENCODING }
    ensures value { IfOk result (λ used. IsComponentRead (rule_of rule) (field_view field.now) inside.now.definite inside.now.room octets.now slot.new used) }
    ensures refused { IfErr result (RefusesStrictly (HasComponentFirst (rule_of rule) (field_view field.now) inside.now.definite inside.now.room) (AreFewer inside.now.definite inside.now.room) octets.now) }
{
    if may_be_absent(&field.presence)
        && !stands_next(inside.definite, inside.room, octets, &field.ty)?
    {
        leave_out(slot);
        return Ok(0);
    }
    match read_wholly_present(alloc, rule, field, inside.room, octets, slot) {
        Ok(used) => Ok(used),
        Err(refusal) => Err(why_not_read(refusal, inside, octets, field, later)),
    }
}

// Empties the slot of a component that is left out. It is empty where that was left out the last time.
#[inline(always)]
fn leave_out(slot: &mut Option<Value>)
    ensures { slot.new ≡ None }
{
    if slot.is_some() {
        clear(slot);
    }
}

// Reads the encoding of the component at the front, which is not that of its default, where it has no parts and can be
// looked at once, and returns how many octets it has: at most `room`. Of all others it says nothing, and of what is
// refused.
#[inline(always)]
fn read_shortly_present(
    alloc: Global,
    field: &Field,
    room: usize,
    octets: &[u8],
    slot: &mut Option<Value>,
) -> Option<usize>
    ensures { IfSome result (λ used. (rule : Canonical) → IsPresentRead (rule_of rule) (field_view field.now) room octets.now slot.new used) }
{
    let tag = field.ty.leaf_tag()?;
    let used = short_primitive(tag, room, octets)?;
    occupy(slot);
    let Some(value) = slot else { return None };
    if fill_canonical(alloc, &field.ty, &octets[2..used], value)
        && !holds_default(&field.presence, slot)
    {
        return Some(used);
    }
    None
}

// Puts some value into the slot if it is empty. The value stands at one place then, wherever it came from.
#[inline(always)]
fn occupy(slot: &mut Option<Value>)
    ensures { IsSome slot.new }
{
    if slot.is_none() {
        *slot = Some(Value::Null);
    }
}

// Whether the value in the slot is the component's default: of most there is none.
#[inline(always)]
fn holds_default(presence: &Presence, slot: &Option<Value>) -> bool
    ensures { result ≡ false → MatchOption slot.now ⊤ (λ value.
        DiffersFromDefault (requirement_view presence.now) (value_view value)) }
{
    match presence {
        Presence::Required | Presence::Optional => false,
        Presence::Default(_) => holds_this(presence, slot),
    }
}

// Whether the value in the slot is the default, of which there is one.
#[inline(never)]
fn holds_this(presence: &Presence, slot: &Option<Value>) -> bool
    ensures { result ≡ false → MatchOption slot.now ⊤ (λ value.
        DiffersFromDefault (requirement_view presence.now) (value_view value)) }
{
    match slot {
        Some(value) => is_default(presence, value),
        None => false,
    }
}

// Reads the encoding of the component at the front, which is not that of its default.
#[cycle(reading)]
#[inline(always)]
pub fn read_present(
    alloc: Global,
    rule: Canonical,
    field: &Field,
    room: usize,
    octets: &[u8],
    slot: &mut Option<Value>,
) -> Result<usize, Refusal>
    requires good { IsGoodComponent (field_view field.now) }
    requires room { room ≤ MAX_ENCODING }
    ensures value { IfOk result (λ used. IsPresentRead (rule_of rule) (field_view field.now) room octets.now slot.new used) }
    ensures refused { IfErr result (RefusesStrictly (HasPresent (rule_of rule) (field_view field.now) room) (λ o. length o < room) octets.now) }
{
    match read_shortly_present(alloc, field, room, octets, slot) {
        Some(used) => Ok(used),
        None => read_wholly_present(alloc, rule, field, room, octets, slot),
    }
}

// Reads the component at the front, as `read_present` does, with no look at it before.
#[cycle(reading)]
#[inline(always)]
fn read_wholly_present(
    alloc: Global,
    rule: Canonical,
    field: &Field,
    room: usize,
    octets: &[u8],
    slot: &mut Option<Value>,
) -> Result<usize, Refusal>
    requires good { IsGoodComponent (field_view field.now) }
    requires room { room ≤ MAX_ENCODING }
    ensures value { IfOk result (λ used. IsPresentRead (rule_of rule) (field_view field.now) room octets.now slot.new used) }
    ensures refused { IfErr result (RefusesStrictly (HasPresent (rule_of rule) (field_view field.now) room) (λ o. length o < room) octets.now) }
{
    occupy(slot);
    let Some(value) = slot else { unreachable!() };
    let used = read_wholly(alloc, rule, &field.ty, room, octets, value)?;
    if is_default(&field.presence, value) {
        return Err(Refusal::NotCanonical);
    }
    Ok(used)
}
