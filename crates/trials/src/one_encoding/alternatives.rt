//! Alternatives of a CHOICE, by the tag that an encoding begins with.

use crate::type_notation::{tag_of, typed};
use crate::value_notation::{is_value, value_of};
use encoding_parts::{begins, is_node, node_of, node_within, wrap};
use octets::{Class, Tag};
use std::alloc::Global;
use std::test::Fail;
use test_tables::{Table, check, three};
use types::{Alternative, Ty, WellTyped};

// Whether the node of the encodings that begin with the tag is found, and is no CHOICE.
fn has_node(ty: &Ty, tag: Tag) -> bool {
    let found = match node_of(ty, tag) {
        Some(node) => is_node(node) && node.tag() == Some(tag),
        None => false,
    };
    found && begins(ty, tag) && node_within(ty, tag).is_some()
}

// Whether the value of the node, in its alternatives, is this one.
fn is_wrapped(
    alloc: Global,
    ty: &WellTyped,
    tag: Tag,
    value: &str,
    want: &str,
) -> Result<bool, Fail> {
    let value = value_of(alloc, value)?;
    is_value(alloc, &wrap(alloc, ty.as_type(), tag, value)?, want)
}

// a tag of an encoding of the CHOICE | the value of its node | the value of the CHOICE; `none` where none begins so
const NODES: &str = "\
UNIVERSAL.5 | NULL      | 0( NULL )
UNIVERSAL.4 | octets:41 | 1( 0( octets:41 ) )
UNIVERSAL.1 | TRUE      | 1( 1( TRUE ) )
UNIVERSAL.2 | none      | none
UNIVERSAL.0 | none      | none";

struct Nodes;

impl Table for Nodes {
    fn holds(&self, alloc: Global, row: &str) -> Result<bool, Fail> {
        let (tag, value, want) = three(row)?;
        let tag = tag_of(tag)?;
        let ty = typed(alloc, "CHOICE{ NULL CHOICE{ OCTETS BOOLEAN } }")?;
        is_found(alloc, &ty, tag, (value, want))
    }
}

fn is_found(
    alloc: Global,
    ty: &WellTyped,
    tag: Tag,
    (value, want): (&str, &str),
) -> Result<bool, Fail> {
    let choice = ty.as_type();
    if is_node(choice) {
        return Ok(false);
    }
    if want == "none" {
        return Ok(!begins(choice, tag) && node_of(choice, tag).is_none());
    }
    Ok(has_node(choice, tag) && is_wrapped(alloc, ty, tag, value, want)?)
}

#[test]
fn nodes_and_wrapped_values(rt: HostRuntime) -> Result<(), Fail> {
    check(rt.alloc(), &Nodes, NODES)
}

// A CHOICE of so many NULLs and, behind them, this type, which is the one at the place that the tag of number 1,000
// says, counted from the number of the first.
fn choice_around(alloc: Global, ty: Ty, place: u32) -> Result<Ty, Fail> {
    let mut alternatives = nulls(alloc, place)?;
    alternatives.push(Alternative::new(alloc, "z", ty)?)?;
    Ok(Ty::choice(alternatives))
}

fn nulls(alloc: Global, place: u32) -> Result<Vec<Alternative>, Fail> {
    let tag = Tag {
        class: Class::Context,
        number: 1_000u32.saturating_sub(place),
    };
    let mut alternatives = Vec::new(alloc);
    for _ in 0..place {
        alternatives.push(Alternative::new(alloc, "a", Ty::Null(tag))?)?;
    }
    Ok(alternatives)
}

// A search that looks twice into what stands there takes 2 to the power of 30 steps.
#[test]
fn each_alternative_is_looked_at_once(rt: HostRuntime) -> Result<(), Fail> {
    let mut ty = Ty::boolean();
    for place in 1..31 {
        ty = choice_around(rt.alloc(), ty, place)?;
    }
    let tag = Tag {
        class: Class::Context,
        number: 1_000,
    };
    assert!(rt; !begins(&ty, tag));
    assert!(rt; begins(&ty, Tag::universal(1)));
    Ok(())
}
