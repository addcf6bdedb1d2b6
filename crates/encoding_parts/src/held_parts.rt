//! What an open constructed encoding holds of its parts (X.690 8.9 to 8.12 and 8.14).
//!
//! Slots are made for all components when the encoding opens, and components that come in order are
//! found and put without a walk over the others.

ghost use Rattle.std.specs.Prelude.{◌≡◌, ◌++◌, ℕ, None, replicate, map, drop, Contains, MatchOption, IfOk, IfErr, OnOk, option_map};
ghost use Rattle.types.specs.FirstTags.{first_tags};
ghost use Rattle.types.specs.Leaf.{IsLeaf};
ghost use Rattle.types.specs.Refusal.{IsFinal};
ghost use Rattle.types.specs.Shape.{Shape, Val};
ghost use Rattle.types.specs.View.{ty_view, value_view, field_view};
ghost use Rattle.encoding_parts.specs.HeldParts.{parts_view, run_view, IsNode, IsOfDue, IsOfParts};
ghost use Rattle.encoding_parts.specs.Parts.{ArePartsOf, AreNone, IsDue, IsNextOf, IsPut, IsValueOf};

use crate::choices::begins;
use crate::renewed::Renewed;
use crate::set_components::{SetComponents, is_default, not_due};
use crate::slots::empty_slots;
use octets::{NoMemory, Tag};
use std::alloc::Global;
use types::{Field, Refusal, Ty, Value, may_be_absent};

/// What an open constructed encoding holds of its parts.
#[derive(Debug, Drop)]
pub enum HeldParts<'a> {
    /// The value that an explicit tag stands around.
    Explicit(&'a Ty, Option<Value>),
    /// The items of a SEQUENCE OF or SET OF.
    Items(&'a Ty, Renewed),
    /// The components of a SEQUENCE, and the slots of those that have come or been passed over.
    Sequence(&'a [Field], Vec<Option<Value>>),
    /// The components of a SET, and what has come of them.
    Set(SetComponents<'a>),
}

/// What an encoding of the type holds of its parts when it opens, which is nothing; None of a type without parts,
/// and of a CHOICE, whose encodings are those of its alternatives.
///
/// Slots for all components are made now. Refused where memory runs out.
pub fn held_parts_of<'a>(alloc: Global, node: &'a Ty) -> Result<Option<HeldParts<'a>>, NoMemory>
    ensures { IfOk result (λ held. MatchOption held
        (IsNode (ty_view node.now) → IsLeaf (ty_view node.now))
        (λ h. ArePartsOf (ty_view node.now) (parts_view h) × AreNone (parts_view h))) }
{
    match node {
        Ty::Sequence(_, fields) => {
            let mut slots = Vec::new(alloc);
            slots.reserve_exact(fields.len())?;
            Ok(Some(HeldParts::Sequence(fields, slots)))
        }
        Ty::Set(_, fields) => {
            let slots = empty_slots(alloc, fields)?;
            let behind = 0;
            Ok(Some(HeldParts::Set(SetComponents {
                fields,
                slots,
                behind,
            })))
        }
        Ty::SequenceOf(_, inner) => Ok(Some(HeldParts::Items(inner, Renewed::new(alloc)))),
        Ty::SetOf(_, inner) => Ok(Some(HeldParts::Items(inner, Renewed::new(alloc)))),
        Ty::Explicit(_, inner) => Ok(Some(HeldParts::Explicit(inner, None))),
        Ty::Boolean(_)
        | Ty::Integer(_)
        | Ty::Enumerated(_, _)
        | Ty::Null(_)
        | Ty::Oid(_)
        | Ty::RelativeOid(_)
        | Ty::Bits(_)
        | Ty::NamedBits(_, _)
        | Ty::Octets(_)
        | Ty::Text(_, _)
        | Ty::Time(_, _)
        | Ty::Choice(_) => Ok(None),
    }
}

impl<'a> HeldParts<'a> {
    /// Which part may come next that begins with the tag, and its type.
    ///
    /// Refused with `Identifier`, or `EndOfContents` of the octet 00, where no part begins so, with `Missing`
    /// where a component must come before it, and with `Repeated` where a component of a SET has come. Takes no
    /// memory.
    pub fn due(&self, tag: Tag) -> Result<(usize, &'a Ty), Refusal>
        ensures value { IfOk result (λ p. IsDue (parts_view self.now) p.0 (ty_view p.1.now)
            × Contains (first_tags (ty_view p.1.now)) tag) }
        ensures never { IfErr result (λ refusal. (which : ℕ) (type : Shape) →
            IsDue (parts_view self.now) which type → ¬ Contains (first_tags type) tag) }
        ensures numbers { IfErr result IsOfDue }
    {
        match self {
            HeldParts::Explicit(_, Some(_)) => Err(Refusal::Identifier),
            HeldParts::Explicit(ty, None) => only_due(ty, tag),
            HeldParts::Items(ty, _) => only_due(ty, tag),
            HeldParts::Sequence(fields, slots) => next_due(rest(fields, slots.len()), tag),
            HeldParts::Set(set_components) => set_components.due(tag),
        }
    }

    /// Puts the value that has come for this part, which `due` returned. Components of a SEQUENCE that stand before
    /// it are passed over, and a value that is its component's default leaves an empty slot.
    ///
    /// Refused where memory runs out.
    pub fn put(&mut self, which: usize, value: Value) -> Result<(), NoMemory>
        requires { (type : Shape) × IsDue (parts_view self.old) which type }
        ensures { OnOk result (IsPut (parts_view self.old) which (value_view value) (parts_view self.new)) }
    {
        match self {
            HeldParts::Explicit(_, held) => {
                *held = Some(value);
                Ok(())
            }
            HeldParts::Items(_, list) => list.push(value),
            HeldParts::Sequence(fields, slots) => put_in_order(fields, slots, which, value),
            HeldParts::Set(set_components) => {
                set_components.take(which, value);
                Ok(())
            }
        }
    }

    /// The value whose parts have come, of the definite form or the indefinite one. Where it is to be `fitted`, a list
    /// gives back the room that it does not need, which takes some time.
    ///
    /// Refused with `Missing` where a component must still come, with `Length` or, of the indefinite form,
    /// `EndOfContents` where nothing has come behind an explicit tag, and with `NoMemory`.
    pub fn into_value(self, definite: bool, fitted: bool) -> Result<Value, Refusal>
        ensures value { IfOk result (λ value. IsValueOf (parts_view self.entry) (value_view value)) }
        ensures none { IfErr result (λ refusal. IsFinal refusal → (v : Val) →
            ¬ IsValueOf (parts_view self.entry) v) }
        ensures numbers { IfErr result IsOfParts }
    {
        match self {
            HeldParts::Explicit(_, Some(value)) => Ok(value),
            HeldParts::Explicit(_, None) => Err(if definite {
                Refusal::Length
            } else {
                Refusal::EndOfContents
            }),
            HeldParts::Items(_, list) => {
                let items = list.into_items();
                if fitted {
                    return Ok(Value::Items(fit(items)));
                }
                Ok(Value::Items(items))
            }
            HeldParts::Sequence(fields, slots) => value_of_run(fields, slots),
            HeldParts::Set(set_components) => set_components.into_value(),
        }
    }
}

/// The one type that parts may have, if its encodings can begin with the tag. Refused as `not_due` says. Takes no
/// memory.
pub fn only_due<'a>(ty: &'a Ty, tag: Tag) -> Result<(usize, &'a Ty), Refusal>
    ensures value { IfOk result (λ p. (ty_view ty.now ≡ ty_view p.1.now)
        × Contains (first_tags (ty_view p.1.now)) tag) }
    ensures never { IfErr result (λ refusal. (type : Shape) →
        ty_view ty.now ≡ type → ¬ Contains (first_tags type) tag) }
    ensures numbers { IfErr result IsOfDue }
{
    if begins(ty, tag) {
        Ok((0, ty))
    } else {
        Err(not_due(tag))
    }
}

// The components behind the first ones.
fn rest<'a>(fields: &'a [Field], count: usize) -> &'a [Field]
    ensures { result.now ≡ drop count fields.now }
{
    &fields[count.min(fields.len())..]
}

/// Which of the components that are left in a SEQUENCE begins with the tag, if those before it may be absent.
///
/// Refused with `Missing` where one may not be, with `Identifier` behind the last component, and else as `not_due`
/// says. Takes no memory.
pub fn next_due<'a>(left: &'a [Field], tag: Tag) -> Result<(usize, &'a Ty), Refusal>
    ensures value { IfOk result (λ p. IsNextOf (map field_view left.now) p.0 (ty_view p.1.now)
        × Contains (first_tags (ty_view p.1.now)) tag) }
    ensures never { IfErr result (λ refusal. (which : ℕ) (type : Shape) →
        IsNextOf (map field_view left.now) which type → ¬ Contains (first_tags type) tag) }
    ensures numbers { IfErr result IsOfDue }
{
    for (which, field) in left.iter().enumerate() {
        if begins(&field.ty, tag) {
            return Ok((which, &field.ty));
        }
        if !may_be_absent(&field.presence) {
            return Err(not_next(&left[which + 1..], tag));
        }
    }
    Err(if left.is_empty() {
        Refusal::Identifier
    } else {
        not_due(tag)
    })
}

/// Why what begins with the tag is refused where a component must stand, before these. Takes no memory.
pub fn not_next(later: &[Field], tag: Tag) -> Refusal
    ensures { IsOfDue result }
{
    for field in later {
        if begins(&field.ty, tag) {
            return Refusal::Missing;
        }
    }
    not_due(tag)
}

// Passes components over up to the one whose value has come.
fn put_in_order(
    fields: &[Field],
    slots: &mut Vec<Option<Value>>,
    which: usize,
    value: Value,
) -> Result<(), NoMemory>
    requires { (type : Shape) × IsDue (run_view (map field_view fields.now) (map (option_map value_view) slots.old.items)) which type }
    ensures { OnOk result (IsPut (run_view (map field_view fields.now) (map (option_map value_view) slots.old.items))
        which (value_view value) (run_view (map field_view fields.now) (map (option_map value_view) slots.new.items))) }
{
    pass_over(slots, which)?;
    slots.reserve(1)?;
    let field = &fields[slots.len()];
    if is_default(&field.presence, &value) {
        slots.push_reserved(None);
    } else {
        slots.push_reserved(Some(value));
    }
    Ok(())
}

// The values in no more room than they need. A call of its own, since few lists are fitted.
#[inline(never)]
fn fit(values: Vec<Value>) -> Vec<Value>
    ensures { result.items ≡ values.items }
{
    let mut values = values;
    values.shrink_to_fit();
    values
}

// Leaves so many slots empty.
fn pass_over(slots: &mut Vec<Option<Value>>, count: usize) -> Result<(), NoMemory>
    ensures { OnOk result (map (option_map value_view) slots.new.items
        ≡ map (option_map value_view) slots.old.items ++ replicate count None) }
{
    for _ in 0..count {
        slots.reserve(1)?;
        slots.push_reserved(None);
    }
    Ok(())
}

// The value of a SEQUENCE behind whose slots no component comes.
fn value_of_run(fields: &[Field], slots: Vec<Option<Value>>) -> Result<Value, Refusal>
    ensures value { IfOk result (λ value.
        IsValueOf (run_view (map field_view fields.now) (map (option_map value_view) slots.items)) (value_view value)) }
    ensures none { IfErr result (λ refusal. IsFinal refusal → (v : Val) →
        ¬ IsValueOf (run_view (map field_view fields.now) (map (option_map value_view) slots.items)) v) }
    ensures numbers { IfErr result IsOfParts }
{
    let mut slots = slots;
    for field in rest(fields, slots.len()) {
        if !may_be_absent(&field.presence) {
            return Err(Refusal::Missing);
        }
        slots.reserve(1)?;
        slots.push_reserved(None);
    }
    Ok(Value::Fields(slots))
}
