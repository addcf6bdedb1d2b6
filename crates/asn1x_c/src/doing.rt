//! What the calls over octets do with a type.

ghost use Rattle.types.specs.View.{ty_view};
ghost use Rattle.engine.specs.Rule.{rule_of, canonical_rule_of};
ghost use Rattle.asn1x_c.specs.Done.{HasConverted, HasListed, HasRead};

use crate::done::Done;
use crate::outcomes::put;
use convert::{Canonical, FromSlice, Rule, ToVec, WellTyped, convert, list};
use engine::read_by;
use std::alloc::Global;

// Converts all values of the octets into a buffer.
pub(crate) fn convert_all(
    alloc: Global,
    ty: &WellTyped,
    from: Rule,
    to: Canonical,
    octets: &[u8],
    out: &mut [u8],
) -> Done
    ensures { HasConverted (rule_of from) (canonical_rule_of to) (ty_view ty.now) octets.now out.old out.new result }
{
    let mut source = FromSlice::new(octets);
    let mut sink = ToVec::new(Vec::new(alloc));
    let outcome = convert(alloc, ty, from, to, &mut source, &mut sink);
    Done::of(outcome, put(sink.as_slice(), out))
}

// Writes a line of text for each value into a buffer.
pub(crate) fn list_all(
    alloc: Global,
    ty: &WellTyped,
    from: Rule,
    octets: &[u8],
    out: &mut [u8],
) -> Done
    ensures { HasListed (rule_of from) (ty_view ty.now) octets.now out.old out.new result }
{
    let mut source = FromSlice::new(octets);
    let mut sink = ToVec::new(Vec::new(alloc));
    let outcome = list(alloc, ty, from, &mut source, &mut sink);
    Done::of(outcome, put(sink.as_slice(), out))
}

// Reads the first value of the octets.
pub(crate) fn read_first(alloc: Global, ty: &WellTyped, from: Rule, octets: &[u8]) -> Done
    ensures { HasRead (rule_of from) (ty_view ty.now) octets.now result }
{
    match read_by(alloc, ty, from, octets) {
        Ok((_value, used)) => Done {
            refusal: 0,
            values: 1,
            octets: used,
        },
        Err(refusal) => Done {
            refusal: u32::from(refusal.number()),
            values: 0,
            octets: 0,
        },
    }
}
