//! The limits on types: how many nodes and levels, how long lists, how great tag numbers.

ghost use Rattle.std.specs.Prelude.{◌↔◌, ◌≤◌, All, IsTrue, length, map};
ghost use Rattle.types.specs.Judging.{IsLeft};
ghost use Rattle.types.specs.View.{ty_view, named_bit_view, components_view};
ghost use Rattle.types.specs.WellFormed.{nodes_of, nodes_of_components, levels_of, levels_of_components, IsNodeWithin, IsTagWithin, AreNamedBitsWithin};

use crate::{Field, MAX_LIST, MAX_NAMED_BIT, NamedBit, Ty};
use octets::{MAX_TAG_NUMBER, Tag};

// What is left of room for so many nodes, once the type has taken its own. None where it has more
// nodes, or more levels than `levels`: the walk stops at the first one that is past.
#[cycle(counting)]
pub fn nodes_left(ty: &Ty, nodes: usize, levels: usize) -> Option<usize>
    ensures { IsLeft nodes levels (length (nodes_of (ty_view ty.now))) (levels_of (ty_view ty.now)) result }
{
    let others = nodes.checked_sub(1)?;
    match ty {
        Ty::Sequence(_, fields) => left_by_components(fields, others, levels.checked_sub(1)?),
        Ty::Set(_, fields) => left_by_components(fields, others, levels.checked_sub(1)?),
        Ty::SequenceOf(_, inner) => nodes_left(inner, others, levels.checked_sub(1)?),
        Ty::SetOf(_, inner) => nodes_left(inner, others, levels.checked_sub(1)?),
        Ty::Explicit(_, inner) => nodes_left(inner, others, levels.checked_sub(1)?),
        Ty::Choice(alternatives) => {
            let mut left = others;
            for alternative in alternatives {
                left = nodes_left(&alternative.ty, left, levels)?;
            }
            Some(left)
        }
        _ => Some(others),
    }
}

#[cycle(counting)]
fn left_by_components(fields: &[Field], nodes: usize, levels: usize) -> Option<usize>
    ensures { IsLeft nodes levels (length (nodes_of_components (components_view fields.now))) (levels_of_components (components_view fields.now)) result }
{
    let mut left = nodes;
    for field in fields {
        left = nodes_left(&field.ty, left, levels)?;
    }
    Some(left)
}

// Whether the tag number and the list of the outermost node are within their limits.
pub fn is_node_within(ty: &Ty) -> bool
    ensures { IsTrue result ↔ IsNodeWithin (ty_view ty.now) }
{
    match ty {
        Ty::Enumerated(tag, items) => {
            is_within(tag) && !items.is_empty() && items.len() <= MAX_LIST
        }
        Ty::Sequence(tag, fields) => is_within(tag) && fields.len() <= MAX_LIST,
        Ty::Set(tag, fields) => is_within(tag) && fields.len() <= MAX_LIST,
        Ty::Choice(alternatives) => !alternatives.is_empty() && alternatives.len() <= MAX_LIST,
        Ty::NamedBits(tag, bits) => is_within(tag) && are_named_bits_within(bits),
        Ty::Boolean(tag) | Ty::Integer(tag) | Ty::Null(tag) => is_within(tag),
        Ty::Oid(tag) | Ty::RelativeOid(tag) => is_within(tag),
        Ty::Bits(tag) | Ty::Octets(tag) | Ty::Text(tag, _) | Ty::Time(tag, _) => is_within(tag),
        Ty::SequenceOf(tag, _) | Ty::SetOf(tag, _) | Ty::Explicit(tag, _) => is_within(tag),
    }
}

// Whether there are so many named bits as there may be, each with a number within its limit.
fn are_named_bits_within(bits: &[NamedBit]) -> bool
    ensures { IsTrue result ↔ AreNamedBitsWithin (map named_bit_view bits.now) }
{
    !bits.is_empty() && bits.len() <= MAX_LIST && are_numbers_within(bits)
}

fn are_numbers_within(bits: &[NamedBit]) -> bool
    ensures { IsTrue result ↔ All (λ bit. bit.number ≤ 65_535) (map named_bit_view bits.now) }
{
    for bit in bits {
        if bit.number > MAX_NAMED_BIT {
            return false;
        }
    }
    true
}

fn is_within(tag: &Tag) -> bool
    ensures { IsTrue result ↔ IsTagWithin tag.now }
{
    tag.number <= MAX_TAG_NUMBER
}
