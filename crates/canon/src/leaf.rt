//! Encodings of values without parts.

ghost use Rattle.std.specs.Prelude.{◌≤◌, ◌+◌};
ghost use Rattle.octets.specs.declared.TheConstants.{MAX_ENCODING, MAX_TAG_NUMBER};
ghost use Rattle.octets.specs.Rule.{der, rule_of};
ghost use Rattle.types.specs.Shape.{SimpleValue, Val};
ghost use Rattle.types.specs.View.{value_view};
ghost use Rattle.canon.specs.Leaf.{IsLeafValue, IsLeafEncoding, IsSimple, IsSimplyEncoded};
ghost use Rattle.canon.specs.Size.{HasSize};
ghost use Rattle.canon.specs.Writes.{Writes};

use crate::contents::{put_contents, size_of_contents};
use crate::few::put_three;
use crate::heads::{put_length, put_opening, put_primitive_head};
use crate::numbers::put_number;
use crate::segments::{put_octets, put_string, size_of_string};
use crate::sizes::size_of_definite;
use octets::{Canonical, Class, NoMemory, Tag, leading_octet};
use primitives::put_boolean;
use types::Value;

// The tags of segments, whatever the tag of the string (X.690 8.6.4 and 8.7.3).
const BIT_SEGMENT: Tag = Tag {
    class: Class::Universal,
    number: 3,
};

const OCTET_SEGMENT: Tag = Tag {
    class: Class::Universal,
    number: 4,
};

// How many octets the encoding of a value under `tag` has.
pub(crate) fn size_of_leaf(rule: Canonical, tag: Tag, value: &Value) -> usize
    requires tag { tag.number ≤ MAX_TAG_NUMBER }
    requires leaf { IsLeafValue (value_view value.now) }
    ensures at_most { result ≤ MAX_ENCODING + 1 }
    ensures size { HasSize (IsLeafEncoding (rule_of rule) tag (value_view value.now)) result }
{
    match value {
        Value::Bits(bits) => size_of_string(rule, tag, 1, bits.octets().len()),
        Value::Octets(octets) | Value::Text(octets) => size_of_string(rule, tag, 0, octets.len()),
        Value::Boolean(_)
        | Value::Integer(_)
        | Value::WideInteger(_)
        | Value::Enumerated(_)
        | Value::Null
        | Value::Oid(_)
        | Value::RelativeOid(_) => size_of_definite(tag, size_of_contents(value)),
        Value::Fields(_) | Value::Items(_) | Value::Chosen(..) => unreachable!(),
    }
}

// Appends the encoding of a value under `tag`.
#[inline(always)]
pub(crate) fn put_leaf(
    rule: Canonical,
    tag: Tag,
    value: &Value,
    out: &mut Vec<u8>,
) -> Result<(), NoMemory>
    requires tag { tag.number ≤ MAX_TAG_NUMBER }
    requires leaf { IsLeafValue (value_view value.now) }
    ensures { Writes (IsLeafEncoding (rule_of rule) tag (value_view value.now)) result out.old.items out.new.items }
{
    match value {
        Value::Bits(bits) => {
            put_string(
                rule,
                tag,
                BIT_SEGMENT,
                &[0],
                &[bits.unused()],
                bits.octets(),
                out,
            )
        }
        Value::Octets(octets) | Value::Text(octets) => {
            put_octets(rule, tag, OCTET_SEGMENT, octets, out)
        }
        Value::Boolean(_)
        | Value::Integer(_)
        | Value::WideInteger(_)
        | Value::Enumerated(_)
        | Value::Null
        | Value::Oid(_)
        | Value::RelativeOid(_) => put_simple(tag, value, out),
        Value::Fields(_) | Value::Items(_) | Value::Chosen(..) => unreachable!(),
    }
}

// Appends the primitive encoding of a value under `tag`, which is the same under both rules.
#[inline(always)]
fn put_simple(tag: Tag, value: &Value, out: &mut Vec<u8>) -> Result<(), NoMemory>
    requires tag { tag.number ≤ MAX_TAG_NUMBER }
    requires simple { IsSimple (value_view value.now) }
    ensures { Writes (IsSimplyEncoded der tag (value_view value.now)) result out.old.items out.new.items }
{
    match value {
        Value::Boolean(truth) => put_truth(tag, *truth, out),
        Value::Integer(number) | Value::Enumerated(number) => put_number(tag, *number, out),
        Value::WideInteger(_)
        | Value::Null
        | Value::Oid(_)
        | Value::RelativeOid(_)
        | Value::Bits(_)
        | Value::Octets(_)
        | Value::Text(_)
        | Value::Fields(_)
        | Value::Items(_)
        | Value::Chosen(..) => {
            let place = put_opening(tag, false, out)?;
            put_contents(value, out)?;
            put_length(place, out)
        }
    }
}

// Appends the encoding of a BOOLEAN under `tag` (X.690 8.2 and 11.1).
#[inline(always)]
fn put_truth(tag: Tag, truth: bool, out: &mut Vec<u8>) -> Result<(), NoMemory>
    ensures { Writes (IsSimplyEncoded der tag (Val.simple (SimpleValue.boolean truth)))
        result out.old.items out.new.items }
{
    if tag.number < 31 {
        let octet = if truth { 0xFF } else { 0x00 };
        return put_three(leading_octet(tag), 1, octet, out);
    }
    put_primitive_head(tag, 1, out)?;
    put_boolean(out, truth)
}
