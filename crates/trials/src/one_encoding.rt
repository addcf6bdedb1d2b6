//! What one encoding is made of.

mod alternatives;
mod held_parts;
mod leaves;

use crate::value_notation::numbered;
use encoding_parts::{Frame, not_due, read_end, read_head_tag, read_opening, refusal_inside};
use octets::{MAX_ENCODING, Tag};
use std::alloc::Global;
use std::test::Fail;
use test_tables::{Table, check, four, octets_of, pair_of, prints};
use types::Refusal;

struct Read;

impl Table for Read {
    fn holds(&self, alloc: Global, row: &str) -> Result<bool, Fail> {
        let (what, place, octets, want) = four(row)?;
        let (end, taken) = pair_of(place)?;
        let octets = octets_of(alloc, octets)?;
        if end > MAX_ENCODING {
            return Ok(false);
        }
        match what {
            "tag" => prints(alloc, &numbered(read_head_tag(end, taken, &octets)), want),
            "opening" => prints(alloc, &numbered(read_opening(end, taken, &octets)), want),
            _ => {
                let definite = what == "definite end";
                let ended = read_end(Frame { definite, end }, taken, &octets);
                Ok(prints(alloc, &numbered(ended), want)? && (definite || what == "indefinite end"))
            }
        }
    }
}

// what is read | the end of what holds it, and how many octets stand before it | octets |
// of a tag, the tag, whether the encoding is constructed and how many octets the tag has; of an opening, how many length
// octets there are, and the form and end of the contents; of an end, how many octets it has; or the refusal's number
const PARTS: &str = "\
tag            | 10 5 | A1 03          | Ok((Tag { class: Context, number: 1 }, true, 1))
tag            | 10 5 | 00             | Ok((Tag { class: Universal, number: 0 }, false, 1))
tag            | 8 5  | 1F 81 00       | Ok((Tag { class: Universal, number: 128 }, false, 3))
tag            | 7 5  | 1F 81 00       | Err(11)
tag            | 5 5  | 02             | Err(11)
tag            | 6 5  | ''             | Err(1)
tag            | 10 5 | 1F 80          | Err(2)
tag            | 10 5 | 3F FF FF FF 7F | Ok((Tag { class: Universal, number: 268435455 }, true, 5))
tag            | 10 5 | 1F 81 80 80 80 | Err(2)
opening        | 10 5 | 03             | Ok((1, Frame { definite: true, end: 9 }))
opening        | 10 5 | 04             | Ok((1, Frame { definite: true, end: 10 }))
opening        | 10 5 | 05             | Err(11)
opening        | 10 5 | 81 03          | Ok((2, Frame { definite: true, end: 10 }))
opening        | 10 5 | 80             | Ok((1, Frame { definite: false, end: 8 }))
opening        | 8 5  | 80             | Ok((1, Frame { definite: false, end: 6 }))
opening        | 7 5  | 80             | Err(11)
opening        | 10 5 | ''             | Err(1)
opening        | 10 5 | FF             | Err(4)
definite end   | 9 9  | 04             | Ok(Some(0))
definite end   | 9 5  | 00 00          | Ok(None)
indefinite end | 9 5  | 00 00 04       | Ok(Some(2))
indefinite end | 9 9  | 00 00          | Ok(Some(2))
indefinite end | 9 10 | 00 00          | Err(5)
indefinite end | 9 5  | 00 01          | Err(5)
indefinite end | 9 5  | 00             | Err(1)
indefinite end | 9 5  | ''             | Err(1)
indefinite end | 9 5  | 04 00          | Ok(None)";

#[test]
fn parts(rt: HostRuntime) -> Result<(), Fail> {
    check(rt.alloc(), &Read, PARTS)
}

#[test]
fn names_of_refusals(rt: HostRuntime) {
    let inside = refusal_inside(true, Refusal::TooLong) == Refusal::Length;
    let outside = refusal_inside(false, Refusal::TooLong) == Refusal::TooLong;
    let another = refusal_inside(true, Refusal::Truncated) == Refusal::Truncated;
    assert_eq!(rt; (inside, outside, another), (true, true, true));
    let end = not_due(Tag::universal(0)) == Refusal::EndOfContents;
    let other = not_due(Tag::universal(2)) == Refusal::Identifier;
    assert_eq!(rt; (end, other), (true, true));
}
