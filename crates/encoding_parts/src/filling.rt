//! Values of contents octets, written in place: to move a `Value` is costly.

ghost use Rattle.std.specs.Prelude.{◌≡◌, IsTrue};
ghost use Rattle.octets.specs.Rule.{ber};
ghost use Rattle.types.specs.Leaf.{IsLeaf};
ghost use Rattle.types.specs.Shape.{Shape, SimpleType, StringType};
ghost use Rattle.types.specs.View.{ty_view, value_view};
ghost use Rattle.encoding_parts.specs.Contents.{IsEnumerated, HoldsValue, octets_view, text_view};

use crate::contents::read_contents;
use crate::slots::{set_boolean, set_integer};
use octets::Tag;
use primitives::{
    MAX_SUBIDENTIFIERS, is_wide_integer, read_bits, read_bits_into, read_boolean, read_integer,
    read_oid_into,
};
use std::alloc::Global;
use strings::{allowed, is_time};
use types::{Ty, Value, conforms};

/// Makes the value that of a type without parts that the contents octets of a primitive encoding are, and returns whether
/// it could; it does not say why not. The types that are met most have ways of their own. Octets go into the room of
/// those that the value holds.
#[inline(always)]
pub fn fill(alloc: Global, ty: &Ty, contents: &[u8], value: &mut Value) -> bool
    requires { IsLeaf (ty_view ty.now) }
    ensures { IsTrue result → HoldsValue ber (ty_view ty.now) (value_view value.new) contents.now }
{
    match ty {
        Ty::Boolean(_) => match read_boolean(contents) {
            Some(truth) => {
                set_boolean(truth, value);
                true
            }
            None => false,
        },
        Ty::Integer(tag) => match read_integer(contents) {
            Some(number) => {
                set_integer(number, value);
                true
            }
            None => fill_wide_integer(alloc, *tag, contents, value),
        },
        Ty::Octets(_) => fill_octets(alloc, contents, value),
        Ty::Text(_, kind) => allowed(*kind, contents) && fill_text(alloc, contents, value),
        Ty::Time(_, kind) => is_time(*kind, contents) && fill_text(alloc, contents, value),
        Ty::Oid(tag) => fill_oid(alloc, *tag, contents, value),
        Ty::Bits(tag) => fill_bits(alloc, *tag, contents, value),
        Ty::Enumerated(_, _) => fill_item(ty, contents, value),
        _ => fill_any(alloc, ty, contents, value),
    }
}

// Makes the value an INTEGER past 128 bits.
#[inline(never)]
fn fill_wide_integer(alloc: Global, tag: Tag, contents: &[u8], value: &mut Value) -> bool
    ensures { IsTrue result → HoldsValue ber (Shape.simple tag SimpleType.integer) (value_view value.new) contents.now }
{
    if !is_wide_integer(contents) {
        return false;
    }
    if let Value::WideInteger(octets) = value {
        return refill(octets, contents);
    }
    let Ok(octets) = Vec::from_slice(alloc, contents) else {
        return false;
    };
    *value = Value::WideInteger(octets);
    true
}

// Makes the value an OCTET STRING.
#[inline(never)]
fn fill_octets(alloc: Global, contents: &[u8], value: &mut Value) -> bool
    ensures { IsTrue result → value_view value.new ≡ octets_view contents.now }
{
    if let Value::Octets(octets) = value {
        return refill(octets, contents);
    }
    let Ok(octets) = Vec::from_slice(alloc, contents) else {
        return false;
    };
    *value = Value::Octets(octets);
    true
}

// Makes the value the text of a character string or a time.
#[inline(never)]
fn fill_text(alloc: Global, contents: &[u8], value: &mut Value) -> bool
    ensures { IsTrue result → value_view value.new ≡ text_view contents.now }
{
    if let Value::Text(octets) = value {
        return refill(octets, contents);
    }
    let Ok(octets) = Vec::from_slice(alloc, contents) else {
        return false;
    };
    *value = Value::Text(octets);
    true
}

// Puts the octets into the vector in place of those in it, and says whether it has.
fn refill(octets: &mut Vec<u8>, contents: &[u8]) -> bool
    ensures { IsTrue result → octets.new.items ≡ contents.now }
{
    octets.clear();
    octets.extend_from_slice(contents).is_ok()
}

// Makes the value an OBJECT IDENTIFIER.
#[inline(never)]
fn fill_oid(alloc: Global, tag: Tag, contents: &[u8], value: &mut Value) -> bool
    ensures { IsTrue result → HoldsValue ber (Shape.simple tag SimpleType.oid) (value_view value.new) contents.now }
{
    if let Value::Oid(arcs) = value {
        return read_oid_into(contents, arcs).is_ok();
    }
    fill_new_oid(alloc, tag, contents, value)
}

// Makes the value a new OBJECT IDENTIFIER. A call of its own, so that arcs that have room go through registers alone.
#[inline(never)]
fn fill_new_oid(alloc: Global, tag: Tag, contents: &[u8], value: &mut Value) -> bool
    ensures { IsTrue result → HoldsValue ber (Shape.simple tag SimpleType.oid) (value_view value.new) contents.now }
{
    // So many arcs at most, so that the vector grows once.
    let most = contents.len().min(MAX_SUBIDENTIFIERS) + 1;
    let mut arcs = Vec::new(alloc);
    if arcs.reserve_exact(most).is_err() || read_oid_into(contents, &mut arcs).is_err() {
        return false;
    }
    *value = Value::Oid(arcs);
    true
}

// Makes the value a BIT STRING.
#[inline(never)]
fn fill_bits(alloc: Global, tag: Tag, contents: &[u8], value: &mut Value) -> bool
    ensures { IsTrue result → HoldsValue ber (Shape.string tag StringType.bit_string) (value_view value.new) contents.now }
{
    if let Value::Bits(bits) = value {
        return read_bits_into(contents, bits).is_ok();
    }
    match read_bits(alloc, contents) {
        Ok(bits) => {
            *value = Value::Bits(bits);
            true
        }
        Err(_) => false,
    }
}

// Makes the value an ENUMERATED.
#[inline(never)]
fn fill_item(ty: &Ty, contents: &[u8], value: &mut Value) -> bool
    requires { IsEnumerated ty.now }
    ensures { IsTrue result → HoldsValue ber (ty_view ty.now) (value_view value.new) contents.now }
{
    let Some(number) = read_integer(contents) else {
        return false;
    };
    *value = Value::Enumerated(number);
    conforms(ty, value)
}

// Makes the value one of any type without parts.
#[inline(never)]
fn fill_any(alloc: Global, ty: &Ty, contents: &[u8], value: &mut Value) -> bool
    requires { IsLeaf (ty_view ty.now) }
    ensures { IsTrue result → HoldsValue ber (ty_view ty.now) (value_view value.new) contents.now }
{
    match read_contents(alloc, ty, contents) {
        Ok(read) => {
            *value = read;
            true
        }
        Err(_) => false,
    }
}
