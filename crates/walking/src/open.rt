//! The open encodings of a walk.

use crate::{Part, Step};
use encoding_parts::{Frame, SegmentKind, SetComponents, empty_slots, kind_of, next_due, only_due};
use octets::{NoMemory, Tag};
use std::alloc::Global;
use std::mem::drop;
use types::{Field, Presence, Refusal, Ty, Value, may_be_absent};

/// An open encoding.
#[derive(Drop)]
pub struct Open<'a> {
    /// Which part it is.
    pub part: Part<'a>,
    /// The number of its first component, if that has one.
    pub first_place: Option<usize>,
    /// Where it ends.
    pub frame: Frame,
    /// What may come in it.
    pub held: Held<'a>,
    /// The default of the component that an explicit tag is of.
    pub default: Option<&'a Value>,
    /// Where the item before begins and ends.
    pub last_item: (usize, usize),
    /// The tag of the component before, by which a SET is ordered.
    pub last_tag: Option<Tag>,
    /// How many parts have come; of components how many there are up to the one that came last.
    pub count: usize,
}

/// What may come in an open encoding.
#[derive(Drop)]
pub enum Held<'a> {
    /// What an explicit tag stands around; None once it has come.
    Explicit(Option<&'a Ty>),
    /// The items of a SEQUENCE OF or SET OF.
    Items(&'a Ty),
    /// The components of a SEQUENCE that stand behind the one that came last.
    Sequence(&'a [Field]),
    /// The components of a SET.
    Set(SetComponents<'a>),
    /// Segments of a string.
    Segments(SegmentKind),
}

/// The part that comes next, its default and its type.
#[derive(Clone, Copy)]
pub struct Due<'a> {
    /// How many stand before it.
    pub index: usize,
    /// How it is named.
    pub step: Step<'a>,
    /// Its type.
    pub ty: &'a Ty,
    /// Its default, if it has one.
    pub default: Option<&'a Value>,
}

impl<'a> Held<'a> {
    /// What may come in an encoding of the type when it opens; None where none of its encodings is constructed.
    pub fn of(alloc: Global, node: &'a Ty) -> Result<Option<Held<'a>>, NoMemory> {
        Ok(match node {
            Ty::Sequence(_, fields) => Some(Held::Sequence(fields)),
            Ty::Set(_, fields) => {
                let slots = empty_slots(alloc, fields)?;
                let behind = 0;
                Some(Held::Set(SetComponents {
                    fields,
                    slots,
                    behind,
                }))
            }
            Ty::SequenceOf(_, inner) | Ty::SetOf(_, inner) => Some(Held::Items(inner)),
            Ty::Explicit(_, inner) => Some(Held::Explicit(Some(inner))),
            _ => match kind_of(node) {
                Some(kind) => Some(Held::Segments(kind)),
                None => None,
            },
        })
    }
}

impl<'a> Open<'a> {
    /// Takes the part that may come next and begins with the tag, and refuses any other as a reader does.
    pub fn take_due(&mut self, tag: Tag) -> Result<Due<'a>, Refusal> {
        let outer = self.default;
        let index = self.count;
        let due = match &mut self.held {
            Held::Segments(_) => Err(Refusal::Identifier),
            Held::Explicit(inner) => take_inner(inner, tag, outer),
            Held::Items(ty) => take_item(ty, tag, index),
            Held::Sequence(left) => take_next(left, tag, index),
            Held::Set(set_components) => take_set_component(set_components, tag),
        }?;
        self.count = due.index.saturating_add(1);
        Ok(due)
    }

    /// The name of the first component that is required and has not come.
    pub fn missing(&self) -> Option<&'a str> {
        match &self.held {
            Held::Segments(_) | Held::Explicit(_) | Held::Items(_) => None,
            Held::Sequence(left) => missing_in(left),
            Held::Set(set_components) => missing_set_component(set_components),
        }
    }
}

// What an explicit tag stands around has the default of what the tag is of.
fn take_inner<'a>(
    inner: &mut Option<&'a Ty>,
    tag: Tag,
    default: Option<&'a Value>,
) -> Result<Due<'a>, Refusal> {
    let Some(ty) = *inner else {
        return Err(Refusal::Identifier);
    };
    let (_, ty) = only_due(ty, tag)?;
    *inner = None;
    let index = 0;
    let step = Step::Whole;
    Ok(Due {
        index,
        step,
        ty,
        default,
    })
}

fn take_item<'a>(ty: &'a Ty, tag: Tag, index: usize) -> Result<Due<'a>, Refusal> {
    let (_, ty) = only_due(ty, tag)?;
    let step = Step::Item(index);
    let default = None;
    Ok(Due {
        index,
        step,
        ty,
        default,
    })
}

// Before those that are left stand so many components.
fn take_next<'a>(left: &mut &'a [Field], tag: Tag, passed: usize) -> Result<Due<'a>, Refusal> {
    let fields = *left;
    let (which, ty) = next_due(fields, tag)?;
    let (before, later) = fields.split_at(which.saturating_add(1).min(fields.len()));
    *left = later;
    let index = passed.saturating_add(which);
    Ok(due_field(index, before.last(), ty))
}

// A walk has no values, so NULL marks the slot of a component that has come.
fn take_set_component<'a>(
    set_components: &mut SetComponents<'a>,
    tag: Tag,
) -> Result<Due<'a>, Refusal> {
    let (which, ty) = set_components.due(tag)?;
    set_components.behind = which.saturating_add(1);
    let Some(slot) = set_components.slots.get_mut(which) else {
        return Err(Refusal::Identifier);
    };
    drop(slot.replace(Value::Null));
    Ok(due_field(which, set_components.fields.get(which), ty))
}

fn due_field<'a>(index: usize, field: Option<&'a Field>, ty: &'a Ty) -> Due<'a> {
    let Some(field) = field else {
        return Due {
            index,
            step: Step::Whole,
            ty,
            default: None,
        };
    };
    Due {
        index,
        step: Step::Component(field.name.as_str()),
        ty,
        default: default_of(&field.presence),
    }
}

fn default_of(presence: &Presence) -> Option<&Value> {
    match presence {
        Presence::Default(value) => Some(value),
        Presence::Required | Presence::Optional => None,
    }
}

fn missing_in<'a>(left: &'a [Field]) -> Option<&'a str> {
    for field in left {
        if !may_be_absent(&field.presence) {
            return Some(field.name.as_str());
        }
    }
    None
}

fn missing_set_component<'a>(set_components: &SetComponents<'a>) -> Option<&'a str> {
    for (place, field) in set_components.fields.iter().enumerate() {
        let has_come = matches!(set_components.slots.get(place), Some(Some(_)));
        if !has_come && !may_be_absent(&field.presence) {
            return Some(field.name.as_str());
        }
    }
    None
}
