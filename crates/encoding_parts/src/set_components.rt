//! The components of a SET, which come in any order (X.690 8.11).

ghost use Rattle.std.specs.Prelude.{◌≡◌, ◌↔◌, ◌≤◌, ⊤, ℕ, false, None, IsTrue, Contains, MatchOption, IfOk, IfErr, length, map, option_map};
ghost use Rattle.std.specs.List.{AllByRecursion, AllZip};
ghost use Rattle.types.specs.Conforms.{MayBeAbsent};
ghost use Rattle.types.specs.FirstTags.{first_tags};
ghost use Rattle.types.specs.Refusal.{IsFinal};
ghost use Rattle.types.specs.Shape.{Shape, Val};
ghost use Rattle.types.specs.View.{ty_view, value_view, requirement_view};
ghost use Rattle.encoding_parts.specs.HeldParts.{come_view, members_view, IsOfDue, IsOfParts};
ghost use Rattle.encoding_parts.specs.Parts.{IsVacant, IsSlotOf, IsSettled, IsSetComponentTaken, IsValueOf, Parts};

use crate::choices::{begins, can_begin};
use crate::slots::clear;
use octets::{Class, Tag};
use types::{Field, Presence, Refusal, Ty, Value, are_equal, may_be_absent};

/// The components of a SET, in order of declaration, and what has come of them.
#[derive(Debug, Drop)]
pub struct SetComponents<'a> {
    /// The components.
    pub fields: &'a [Field],
    /// A slot for each. One that is not empty has come, also where it came as its default.
    pub slots: Vec<Option<Value>>,
    /// The place behind the component that came last.
    pub behind: usize,
}

impl<'a> SetComponents<'a> {
    /// Which component that has not come begins with the tag. Components that come in order are found at once, and so
    /// are those that come in reverse.
    ///
    /// Refused with `Repeated` where it has come, with `Identifier` where all have, and else as `not_due` says. Takes no
    /// memory.
    #[inline(always)]
    pub fn due(&self, tag: Tag) -> Result<(usize, &'a Ty), Refusal>
        ensures value { IfOk result (λ p. IsVacant (come_view self.now) p.0 (ty_view p.1.now)
            × Contains (first_tags (ty_view p.1.now)) tag) }
        ensures never { IfErr result (λ refusal. (which : ℕ) (type : Shape) →
            IsVacant (come_view self.now) which type → ¬ Contains (first_tags type) tag) }
        ensures numbers { IfErr result IsOfDue }
    {
        let last = self.fields.len().saturating_sub(1);
        let before = self.behind.checked_sub(2).unwrap_or(last);
        match due_at(self.fields, self.slots.as_slice(), before, tag) {
            Some(found) => Ok(found),
            None => self.due_anywhere(tag),
        }
    }

    // Which component at any place begins with the tag and has not come: those behind the one that came last are tried
    // first. A call of its own, out of the way of components that come in reverse.
    #[inline(never)]
    fn due_anywhere(&self, tag: Tag) -> Result<(usize, &'a Ty), Refusal>
        ensures value { IfOk result (λ p. IsVacant (come_view self.now) p.0 (ty_view p.1.now)
            × Contains (first_tags (ty_view p.1.now)) tag) }
        ensures never { IfErr result (λ refusal. (which : ℕ) (type : Shape) →
            IsVacant (come_view self.now) which type → ¬ Contains (first_tags type) tag) }
        ensures numbers { IfErr result IsOfDue }
    {
        let fields = self.fields;
        let slots = self.slots.as_slice();
        let start = self.behind.min(fields.len()).min(slots.len());
        if let Some((place, ty)) = vacant(&fields[start..], &slots[start..], tag) {
            return Ok((start + place, ty));
        }
        match vacant(&fields[..start], &slots[..start], tag) {
            Some(found) => Ok(found),
            None => Err(no_set_component(fields, slots, tag)),
        }
    }

    // Puts the value that has come for a component.
    pub(crate) fn take(&mut self, which: usize, value: Value)
        requires { (type : Shape) × IsVacant (come_view self.old) which type }
        ensures { IsSetComponentTaken (come_view self.old) which (value_view value) (come_view self.new) }
    {
        self.slots[which] = Some(value);
        self.behind = which + 1;
    }

    /// Whether each component has come that may not be absent. Takes no memory.
    pub fn are_filled(&self) -> bool
        ensures { IsTrue result ↔ AllByRecursion (λ s. s.come ≡ None → MayBeAbsent s.component.requirement)
            (come_view self.now) }
    {
        let fields = self.fields;
        let count = fields.len().min(self.slots.len());
        for place in 0..count {
            let field = &fields[place];
            if self.slots[place].is_none() && !may_be_absent(&field.presence) {
                return false;
            }
        }
        true
    }

    /// The value of a SET for whose components these have come. One that came as its default leaves an empty slot.
    ///
    /// Refused with `Missing` where a component must still come. Takes no memory.
    pub fn into_value(self) -> Result<Value, Refusal>
        ensures value { IfOk result (λ value. IsValueOf (Parts.set (come_view self.entry)) (value_view value)) }
        ensures none { IfErr result (λ refusal. IsFinal refusal → (v : Val) →
            ¬ IsValueOf (Parts.set (come_view self.entry)) v) }
        ensures numbers { IfErr result IsOfParts }
    {
        if !self.are_filled() {
            return Err(Refusal::Missing);
        }
        Ok(self.filled_value())
    }

    /// The value of a SET of which each component has come that may not be absent. One that came as its default leaves
    /// an empty slot. Takes no memory.
    pub fn filled_value(self) -> Value
        requires { AllByRecursion (λ s. s.come ≡ None → MayBeAbsent s.component.requirement) (come_view self) }
        ensures { IsValueOf (Parts.set (come_view self.entry)) (value_view result) }
    {
        let mut slots = self.slots;
        slots.truncate(self.fields.len());
        drop_defaults(self.fields, &mut slots);
        Value::Fields(slots)
    }
}

// The component at the place, if it begins with the tag and has not come.
#[inline(always)]
fn due_at<'a>(
    fields: &'a [Field],
    slots: &[Option<Value>],
    place: usize,
    tag: Tag,
) -> Option<(usize, &'a Ty)>
    ensures { MatchOption result ⊤ (λ p. IsVacant (members_view fields.now slots.now) p.0 (ty_view p.1.now)
        × Contains (first_tags (ty_view p.1.now)) tag) }
{
    if place >= fields.len() || place >= slots.len() {
        return None;
    }
    let field = &fields[place];
    if is_due(field, &slots[place], tag) {
        return Some((place, &field.ty));
    }
    None
}

// The first component that begins with the tag and has not come.
fn vacant<'a>(fields: &'a [Field], slots: &[Option<Value>], tag: Tag) -> Option<(usize, &'a Ty)>
    ensures { MatchOption result
        ((which : ℕ) (type : Shape) → IsVacant (members_view fields.now slots.now) which type →
        ¬ Contains (first_tags type) tag)
        (λ p. IsVacant (members_view fields.now slots.now) p.0 (ty_view p.1.now)
        × Contains (first_tags (ty_view p.1.now)) tag) }
{
    let count = fields.len().min(slots.len());
    for place in 0..count {
        let field = &fields[place];
        if is_due(field, &slots[place], tag) {
            return Some((place, &field.ty));
        }
    }
    None
}

// Whether the component begins with the tag and has not come.
#[inline(always)]
fn is_due(field: &Field, slot: &Option<Value>, tag: Tag) -> bool
    ensures { IsTrue result ↔ ((slot.now ≡ None) × Contains (first_tags (ty_view field.now.ty)) tag) }
{
    slot.is_none() && can_begin(&field.ty, tag)
}

// Why no component that has not come begins with the tag.
fn no_set_component(fields: &[Field], slots: &[Option<Value>], tag: Tag) -> Refusal
    ensures { IsOfDue result }
{
    for field in fields {
        if begins(&field.ty, tag) {
            return Refusal::Repeated;
        }
    }
    for slot in slots {
        if slot.is_none() {
            return not_due(tag);
        }
    }
    Refusal::Identifier
}

/// Why a part that begins with the tag is refused where another may come: `EndOfContents` of universal 0, which begins
/// no part, and else `Identifier`. Takes no memory.
pub fn not_due(tag: Tag) -> Refusal
    ensures { IsOfDue result }
{
    if tag.class == Class::Universal && tag.number == 0 {
        Refusal::EndOfContents
    } else {
        Refusal::Identifier
    }
}

/// Whether the value is the component's default. Takes no memory.
pub fn is_default(presence: &Presence, value: &Value) -> bool
    ensures default { IsTrue result → IsSlotOf (requirement_view presence.now) (value_view value.now) None }
    ensures other { result ≡ false →
        IsSlotOf (requirement_view presence.now) (value_view value.now) (Some (value_view value.now)) }
{
    match presence {
        Presence::Required => false,
        Presence::Optional => false,
        Presence::Default(default) => are_equal(value, default),
    }
}

/// Empties the slot where the value in it is the component's default. Takes no memory.
pub fn drop_default(presence: &Presence, slot: &mut Option<Value>)
    ensures { MatchOption slot.old (slot.new ≡ None)
        (λ value. IsSlotOf (requirement_view presence.now) (value_view value) (option_map value_view slot.new)) }
{
    let is_dropped = match slot {
        Some(value) => is_default(presence, value),
        None => true,
    };
    if is_dropped {
        clear(slot);
    }
}

// Empties the slots of components that have come as their defaults. A slot is looked at only where there is a default.
fn drop_defaults(fields: &[Field], slots: &mut [Option<Value>])
    requires { length slots.old ≤ length fields.now }
    ensures { AllZip IsSettled (members_view fields.now slots.old) (map (option_map value_view) slots.new) }
{
    for place in 0..slots.len() {
        let presence = &fields[place].presence;
        if let Presence::Default(_) = presence {
            drop_default(presence, &mut slots[place]);
        }
    }
}
