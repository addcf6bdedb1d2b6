//! Encodings of types without parts, read into values in place: to move a `Value` is costly.

ghost use Rattle.std.specs.Prelude.{◌≡◌, IsTrue, IfSome};
ghost use Rattle.octets.specs.declared.canonical.Canonical.{Canonical};
ghost use Rattle.octets.specs.Rule.{der, rule_of};
ghost use Rattle.types.specs.declared.value.Value.TheVariants.{Boolean};
ghost use Rattle.types.specs.Leaf.{tag_of, IsLeaf};
ghost use Rattle.types.specs.View.{ty_view, value_view};
ghost use Rattle.encoding_parts.specs.Contents.{HoldsValue};
ghost use Rattle.strict.specs.Leaf.{IsBitsOf, IsBooleanOf};
ghost use Rattle.strict.specs.Reading.{IsRead};

use crate::values::{has_zeros_unused, read_truth, read_value};
use encoding_parts::{fill, short_primitive};
use octets::Tag;
use primitives::{read_bits, read_bits_into};
use std::alloc::Global;
use types::{Ty, Value};

// Reads the encoding at the front, of a type without parts under this tag, into the value, if it is a primitive one
// with two octets before its contents octets, and returns how many octets it has: at most `room`. Of all others it says
// nothing, and of what is refused.
#[inline(always)]
pub fn read_shortly(
    alloc: Global,
    ty: &Ty,
    tag: Tag,
    room: usize,
    octets: &[u8],
    value: &mut Value,
) -> Option<usize>
    requires leaf { IsLeaf (ty_view ty.now) }
    requires tag { tag_of (ty_view ty.now) ≡ tag }
    ensures { IfSome result (λ used. (rule : Canonical) → IsRead (rule_of rule) (ty_view ty.now) room octets.now value.new used) }
{
    let stop = short_primitive(tag, room, octets)?;
    if fill_canonical(alloc, ty, &octets[2..stop], value) {
        Some(stop)
    } else {
        None
    }
}

// Makes the value that of a type without parts that the contents octets are, as CER and DER have them, and returns
// whether it could; it does not say why not. The types of which BER has other encodings are told from all others by one
// test.
#[inline(always)]
pub fn fill_canonical(alloc: Global, ty: &Ty, contents: &[u8], value: &mut Value) -> bool
    requires { IsLeaf (ty_view ty.now) }
    ensures { IsTrue result → HoldsValue der (ty_view ty.now) (value_view value.new) contents.now }
{
    match ty {
        Ty::Boolean(_) | Ty::Bits(_) | Ty::NamedBits(_, _) => fill_truth_or_bits(
            alloc, ty, contents, value,
        ),
        _ => fill(alloc, ty, contents, value),
    }
}

// Makes the value a BOOLEAN or BIT STRING, of which BER has other encodings (X.690 11.1 and 11.2).
#[inline(never)]
fn fill_truth_or_bits(alloc: Global, ty: &Ty, contents: &[u8], value: &mut Value) -> bool
    requires { IsLeaf (ty_view ty.now) }
    ensures { IsTrue result → HoldsValue der (ty_view ty.now) (value_view value.new) contents.now }
{
    match ty {
        Ty::Boolean(_) => fill_truth(contents, value),
        _ => fill_bit_string(alloc, ty, contents, value),
    }
}

// Makes the value a BIT STRING.
#[inline(never)]
fn fill_bit_string(alloc: Global, ty: &Ty, contents: &[u8], value: &mut Value) -> bool
    requires { IsLeaf (ty_view ty.now) }
    ensures { IsTrue result → HoldsValue der (ty_view ty.now) (value_view value.new) contents.now }
{
    match ty {
        Ty::Bits(_) => fill_bits(alloc, contents, value),
        _ => fill_value(alloc, ty, contents, value),
    }
}

// Makes the value a BOOLEAN.
#[inline(always)]
fn fill_truth(contents: &[u8], value: &mut Value) -> bool
    ensures { IsTrue result → IsBooleanOf (value_view value.new) contents.now }
{
    let Ok(truth) = read_truth(contents) else {
        return false;
    };
    if let Value::Boolean(old) = value {
        *old = truth;
        return true;
    }
    put_truth(truth, value);
    true
}

// Puts the truth value in the place of what is no BOOLEAN.
#[inline(never)]
fn put_truth(truth: bool, value: &mut Value)
    ensures { value_view value.new ≡ value_view (Boolean truth) }
{
    *value = Value::Boolean(truth);
}

// Makes the value a BIT STRING without named bits.
#[inline(always)]
fn fill_bits(alloc: Global, contents: &[u8], value: &mut Value) -> bool
    ensures { IsTrue result → IsBitsOf (value_view value.new) contents.now }
{
    if let Value::Bits(bits) = value {
        return read_bits_into(contents, bits).is_ok() && has_zeros_unused(contents);
    }
    let Ok(bits) = read_bits(alloc, contents) else {
        return false;
    };
    *value = Value::Bits(bits);
    has_zeros_unused(contents)
}

// Makes the value one of any type without parts.
#[inline(never)]
fn fill_value(alloc: Global, ty: &Ty, contents: &[u8], value: &mut Value) -> bool
    requires { IsLeaf (ty_view ty.now) }
    ensures { IsTrue result → HoldsValue der (ty_view ty.now) (value_view value.new) contents.now }
{
    let Ok(read) = read_value(alloc, ty, contents) else {
        return false;
    };
    *value = read;
    true
}
