//! Contents octets of the values whose encodings are primitive.

ghost use Rattle.std.specs.Prelude.{Bool, ◌≡◌, ◌≤◌, ◌<◌, ◌*◌, ◌^◌, ℕ, List, length, OnOk, OnErr};
ghost use Rattle.octets.specs.Base128.{IsBase128};
ghost use Rattle.octets.specs.Front.{Appends};
ghost use Rattle.octets.specs.Rule.{der};
ghost use Rattle.primitives.specs.Integer.{IsInteger, number_at};
ghost use Rattle.primitives.specs.Oid.{AreSubidentifiers, IsOid, IsOidValue};
ghost use Rattle.types.specs.View.{value_view};
ghost use Rattle.canon.specs.Leaf.{IsContentsOf, IsSimple};

use octets::NoMemory;
use primitives::{put_boolean, put_integer, put_null, put_oid, put_relative_oid};
use types::Value;

// Appends the contents octets of a value, which are the same under both rules.
pub(crate) fn put_contents(value: &Value, out: &mut Vec<u8>) -> Result<(), NoMemory>
    requires { IsSimple (value_view value.now) }
    ensures appended { OnOk result
        (Appends (IsContentsOf der (value_view value.now)) out.old.items out.new.items) }
    ensures unchanged { OnErr result (out.new.items ≡ out.old.items) }
{
    match value {
        Value::Boolean(truth) => put_boolean(out, *truth),
        Value::Integer(number) | Value::Enumerated(number) => put_integer(out, *number),
        Value::WideInteger(octets) => {
            out.extend_from_slice(octets)?;
            Ok(())
        }
        Value::Null => put_null(out),
        Value::Oid(arcs) => put_oid(out, arcs.as_slice()),
        Value::RelativeOid(arcs) => put_relative_oid(out, arcs.as_slice()),
        Value::Bits(_)
        | Value::Octets(_)
        | Value::Text(_)
        | Value::Fields(_)
        | Value::Items(_)
        | Value::Chosen(..) => unreachable!(),
    }
}

// How many contents octets the value has, under both rules.
pub(crate) fn size_of_contents(value: &Value) -> usize
    requires { IsSimple (value_view value.now) }
    ensures size { (contents : List ℕ) → IsContentsOf der (value_view value.now) contents →
        length contents ≡ result }
    ensures at_most { result ≤ 2451 }
{
    match value {
        Value::Boolean(_) => 1,
        Value::Integer(number) | Value::Enumerated(number) => size_of_integer(*number),
        Value::WideInteger(octets) => octets.len(),
        Value::Null => 0,
        Value::Oid(arcs) => size_of_oid(arcs.as_slice()),
        Value::RelativeOid(arcs) => size_of_subidentifiers(arcs.as_slice()),
        Value::Bits(_)
        | Value::Octets(_)
        | Value::Text(_)
        | Value::Fields(_)
        | Value::Items(_)
        | Value::Chosen(..) => unreachable!(),
    }
}

// How many contents octets a number of 128 bits has.
pub(crate) fn size_of_integer(number: i128) -> usize
    ensures size { (contents : List ℕ) → IsInteger number contents → length contents ≡ result }
    ensures at_least { 1 ≤ result }
    ensures at_most { result ≤ 16 }
{
    // A bit for the sign, and those of the distance.
    (128 - distance_of(number).leading_zeros() as usize) / 8 + 1
}

// How far a number stands above 0, or below -1.
pub(crate) fn distance_of(number: i128) -> u128
    ensures distance { (negative : Bool) × (number ≡ number_at negative result) }
    ensures near { result < 2 ^ 127 }
{
    let distance = if number < 0 { -1 - number } else { number };
    distance as u128
}

// How many contents octets an OBJECT IDENTIFIER has.
fn size_of_oid(arcs: &[u128]) -> usize
    requires { IsOidValue arcs.now }
    ensures size { (contents : List ℕ) → IsOid arcs.now contents → length contents ≡ result }
    ensures at_most { result ≤ 2451 }
{
    let shared = size_of_base_128(40 * arcs[0] + arcs[1]);
    let others = size_of_subidentifiers(&arcs[2..]);
    shared + others
}

// How many octets subidentifiers have.
fn size_of_subidentifiers(numbers: &[u128]) -> usize
    requires few { length numbers.now ≤ 128 }
    ensures size { (contents : List ℕ) → AreSubidentifiers numbers.now contents → length contents ≡ result }
    ensures at_most { result ≤ 19 * length numbers.now }
{
    let Some((first, others)) = numbers.split_first() else {
        return 0;
    };
    size_of_base_128(*first) + size_of_subidentifiers(others)
}

// How many octets a number in base 128 has.
fn size_of_base_128(number: u128) -> usize
    ensures size { (octets : List ℕ) → IsBase128 number octets → length octets ≡ result }
    ensures at_most { result ≤ 19 }
{
    let mut rest = number;
    for size in 1..19usize {
        if rest < 0x80 {
            return size;
        }
        rest /= 128;
    }
    19
}
