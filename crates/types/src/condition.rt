//! What is asked of each node of a type, one node at a time.

ghost use Rattle.std.specs.Prelude.{◌↔◌, IsTrue};
ghost use Rattle.std.specs.List.{AllByRecursion};
ghost use Rattle.types.specs.Judging.{Meets};
ghost use Rattle.types.specs.View.{ty_view, components_view, alternatives_view};
ghost use Rattle.types.specs.WellFormed.{nodes_of, nodes_of_components, nodes_of_alternatives};

use crate::defaults::has_good_defaults;
use crate::distinctness::tells_parts_apart;
use crate::items::numbers_differ;
use crate::limits::is_node_within;
use crate::{Alternative, Field, Ty};

/// A condition that each node of a well-formed type meets.
#[derive(Clone, Copy)]
pub enum Condition {
    /// The tag number and the list are within their limits.
    Limits,
    /// The numbers of an ENUMERATED's items differ, and those of named bits.
    Numbers,
    /// The tag is not universal 0, and the parts are told apart by their tags.
    Tags,
    /// Each default is a value of a type that takes one.
    Defaults,
}

// Whether the outermost node of the type meets the condition.
fn meets(condition: Condition, ty: &Ty) -> bool
    ensures { IsTrue result ↔ Meets condition (ty_view ty.now) }
{
    match condition {
        Condition::Limits => is_node_within(ty),
        Condition::Numbers => numbers_differ(ty),
        Condition::Tags => tells_parts_apart(ty),
        Condition::Defaults => has_good_defaults(ty),
    }
}

// Whether each node of the type meets the condition.
#[cycle(each)]
pub fn each_meets(condition: Condition, ty: &Ty) -> bool
    ensures { IsTrue result ↔ AllByRecursion (Meets condition) (nodes_of (ty_view ty.now)) }
{
    if !meets(condition, ty) {
        return false;
    }
    match ty {
        Ty::Sequence(_, fields) => components_meet(condition, fields),
        Ty::Set(_, fields) => components_meet(condition, fields),
        Ty::SequenceOf(_, inner) => each_meets(condition, inner),
        Ty::SetOf(_, inner) => each_meets(condition, inner),
        Ty::Explicit(_, inner) => each_meets(condition, inner),
        Ty::Choice(alternatives) => alternatives_meet(condition, alternatives),
        _ => true,
    }
}

#[cycle(each)]
fn components_meet(condition: Condition, fields: &[Field]) -> bool
    ensures { IsTrue result ↔ AllByRecursion (Meets condition) (nodes_of_components (components_view fields.now)) }
{
    for field in fields {
        if !each_meets(condition, &field.ty) {
            return false;
        }
    }
    true
}

#[cycle(each)]
fn alternatives_meet(condition: Condition, alternatives: &[Alternative]) -> bool
    ensures { IsTrue result ↔ AllByRecursion (Meets condition) (nodes_of_alternatives (alternatives_view alternatives.now)) }
{
    for alternative in alternatives {
        if !each_meets(condition, &alternative.ty) {
            return false;
        }
    }
    true
}
