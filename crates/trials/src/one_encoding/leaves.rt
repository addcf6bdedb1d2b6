//! Parts of an encoding that have no parts.

ghost use Rattle.std.specs.Prelude.{◌≤◌, length, IfOk};
ghost use Rattle.types.specs.View.{ty_view};
ghost use Rattle.encoding_parts.specs.Joined.{IsStringOf};
ghost use Rattle.encoding_parts.specs.Segments.{IsSound};

use crate::type_notation::{OctetsTable, OfOctets};
use crate::value_notation::comes_to;
use encoding_parts::{SegmentKind, Segments, begin_string, not_due, read_head_tag, read_leaf};
use octets::MAX_ENCODING;
use std::alloc::Global;
use std::test::Fail;
use test_tables::{check, pair_of, two};
use types::{Refusal, Ty, Value, WellTyped};

// The value of the string that the octets complete, and how many they are.
fn segments_of(
    mut segments: Segments,
    kind: SegmentKind,
    node: &Ty,
    octets: &[u8],
) -> Result<(Value, usize), Refusal>
    requires sound { IsSound kind segments }
    requires kind { IsStringOf kind (ty_view node.now) }
    ensures { IfOk result (λ p. p.1 ≤ length octets.now) }
{
    let mut at = 0;
    while !segments.is_closed() {
        at += segments.pass(kind, &octets[at..])?;
    }
    Ok((segments.joined.into_value(node)?, at))
}

// Reads a part behind `taken` octets of what ends at `end`: its value, and how many octets it has. None where the type
// has parts, or the end passes the limit.
fn part(
    alloc: Global,
    ty: &WellTyped,
    (levels, end, taken): (usize, usize, usize),
    octets: &[u8],
) -> Option<Result<(Value, usize), Refusal>> {
    let node = ty.as_type();
    let own = node.leaf_tag()?;
    if end > MAX_ENCODING {
        return None;
    }
    let (tag, constructed, identifier) = match read_head_tag(end, taken, octets) {
        Ok(found) => found,
        Err(refusal) => return Some(Err(refusal)),
    };
    if tag != own {
        return Some(Err(not_due(tag)));
    }
    if !constructed {
        return Some(read_leaf(alloc, node, identifier, end, taken, false, octets));
    }
    let begun = begin_string(alloc, node, identifier, end, taken, levels, octets);
    let (kind, segments, used) = match begun {
        Ok(begun) => begun,
        Err(refusal) => return Some(Err(refusal)),
    };
    match segments_of(segments, kind, node, &octets[used..]) {
        Ok((value, more)) => Some(Ok((value, used + more))),
        Err(refusal) => Some(Err(refusal)),
    }
}

struct Leaf;

impl OctetsTable for Leaf {
    fn holds(
        &self,
        alloc: Global,
        ty: &WellTyped,
        octets: &[u8],
        others: &str,
    ) -> Result<bool, Fail> {
        let (place, want) = two(others)?;
        let (levels, place) = place.split_once(' ').ok_or("one number")?;
        let (end, taken) = pair_of(place)?;
        let place = (levels.parse::<usize>()?, end, taken);
        match part(alloc, ty, place, octets) {
            Some(read) => comes_to(alloc, &read, want),
            None => Err("a type with parts, or an end past the limit".into()),
        }
    }
}

// type | octets | levels, end, and octets before | how many octets the part has and its value, or the refusal
const PARTS: &str = "\
OCTETS  | 04 03 41 42 43 | 0 10 5 | 5 octets:414243
OCTETS  | 04 03 41 42 43 | 0 9 5  | refused 11
OCTETS  | 04 02 41 42 43 | 0 10 5 | 4 octets:4142
OCTETS  | 04 03 41 42    | 0 10 5 | refused 1
OCTETS  | 04             | 0 7 5  | refused 1
OCTETS  | 04             | 0 6 5  | refused 11
OCTETS  | 04             | 0 5 5  | refused 11
OCTETS  | ''             | 0 5 5  | refused 11
OCTETS  | 24 00          | 0 10 5 | refused 10
OCTETS  | 24 00          | 1 10 5 | 2 octets:''
OCTETS  | 24 02 24 00    | 1 10 5 | refused 10
OCTETS  | 24 02 24 00    | 2 10 5 | 4 octets:''
OCTETS  | 24 80 00 00    | 1 9 5  | 4 octets:''
OCTETS  | 24 80 00 00    | 1 8 5  | refused 11
OCTETS  | 24 80 04 02 41 | 1 10 5 | refused 11
OCTETS  | 24 02 04 01 41 | 1 20 5 | refused 4
OCTETS  | 1F 81 00       | 1 6 5  | refused 11
BOOLEAN | 01 05          | 0 6 5  | refused 11
BOOLEAN | 01 05          | 0 7 5  | refused 6
BOOLEAN | 21 00          | 0 8 5  | refused 3
// joined segments
OCTETS  | 24 80 04 01 41 04 01 42 00 00 | 64 1048576 0 | 10 octets:4142
BITS    | 23 09 03 03 00 AA BB 03 02 04 F0 | 64 1048576 0 | 11 bits:AABBF0/4
VisibleString | 3A 06 04 01 4A 04 01 6F | 64 1048576 0 | 8 text:'Jo'";

#[test]
fn parts(rt: HostRuntime) -> Result<(), Fail> {
    check(rt.alloc(), &OfOctets(Leaf), PARTS)
}
