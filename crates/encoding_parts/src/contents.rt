//! Values of the contents octets of primitive encodings.

ghost use Rattle.std.specs.Prelude.{◌≡◌, ◌⊎◌, IfOk, IfErr, IsErr};
ghost use Rattle.octets.specs.Rule.{ber};
ghost use Rattle.primitives.specs.Integer.{IsWideInteger};
ghost use Rattle.types.specs.Conforms.{Conforms};
ghost use Rattle.types.specs.Leaf.{IsLeaf};
ghost use Rattle.types.specs.Refusal.{IsFinal};
ghost use Rattle.types.specs.View.{ty_view, value_view};
ghost use Rattle.encoding_parts.specs.Contents.{HoldsNoValue, HoldsValue, IsEnumerated, IsOfContents, IsTextual, octets_view, text_view, wide_view};

use primitives::{
    is_wide_integer, read_bits, read_boolean, read_integer, read_null, read_oid, read_relative_oid,
};
use std::alloc::Global;
use types::{Refusal, Ty, Value, conforms};

/// The value of a type without parts that the contents octets of a primitive encoding are.
///
/// Refused with `Contents`, or `Alphabet` of a text, where they are those of no value, and with `NoMemory`: all values
/// but those of BOOLEAN, INTEGER within 128 bits, ENUMERATED and NULL take memory. Named bits are without the bits 0 at
/// their end (X.690 11.2.2).
pub fn read_contents(alloc: Global, ty: &Ty, contents: &[u8]) -> Result<Value, Refusal>
    requires { IsLeaf (ty_view ty.now) }
    ensures value { IfOk result (λ value. HoldsValue ber (ty_view ty.now) (value_view value) contents.now) }
    ensures none { IfErr result (λ refusal. IsFinal refusal → HoldsNoValue ber (ty_view ty.now) contents.now) }
    ensures numbers { IfErr result IsOfContents }
{
    match ty {
        Ty::Boolean(_) => match read_boolean(contents) {
            Some(truth) => Ok(Value::Boolean(truth)),
            None => Err(Refusal::Contents),
        },
        Ty::Integer(_) => match read_integer(contents) {
            Some(number) => Ok(Value::Integer(number)),
            None => read_wide_integer(alloc, contents),
        },
        Ty::Enumerated(_, _) => read_item(ty, contents),
        Ty::Null(_) => match read_null(contents) {
            Some(()) => Ok(Value::Null),
            None => Err(Refusal::Contents),
        },
        Ty::Oid(_) => Ok(Value::Oid(read_oid(alloc, contents)?)),
        Ty::RelativeOid(_) => Ok(Value::RelativeOid(read_relative_oid(alloc, contents)?)),
        Ty::Bits(_) => Ok(Value::Bits(read_bits(alloc, contents)?)),
        Ty::NamedBits(_, _) => Ok(Value::Bits(read_bits(alloc, contents)?.trimmed())),
        Ty::Octets(_) => read_octets(alloc, contents),
        Ty::Text(_, _) => read_text(alloc, ty, contents),
        Ty::Time(_, _) => read_text(alloc, ty, contents),
        Ty::Sequence(_, _) => Err(Refusal::Form),
        Ty::Set(_, _) => Err(Refusal::Form),
        Ty::SequenceOf(_, _) => Err(Refusal::Form),
        Ty::SetOf(_, _) => Err(Refusal::Form),
        Ty::Choice(_) => Err(Refusal::Form),
        Ty::Explicit(_, _) => Err(Refusal::Form),
    }
}

// The INTEGER past 128 bits that the contents octets are.
fn read_wide_integer(alloc: Global, contents: &[u8]) -> Result<Value, Refusal>
    ensures value { IfOk result (λ value. (value_view value ≡ wide_view contents.now) × IsWideInteger contents.now) }
    ensures none { result ≡ Err Refusal.Contents → ¬ IsWideInteger contents.now }
    ensures numbers { IfErr result (λ refusal.
        (refusal ≡ Refusal.Contents) ⊎ (refusal ≡ Refusal.NoMemory)) }
{
    if !is_wide_integer(contents) {
        return Err(Refusal::Contents);
    }
    match Vec::from_slice(alloc, contents) {
        Ok(octets) => Ok(Value::WideInteger(octets)),
        Err(_) => Err(Refusal::NoMemory),
    }
}

// The item of an ENUMERATED whose number the contents octets are.
fn read_item(ty: &Ty, contents: &[u8]) -> Result<Value, Refusal>
    requires { IsEnumerated ty.now }
    ensures value { IfOk result (λ value. HoldsValue ber (ty_view ty.now) (value_view value) contents.now) }
    ensures none { IsErr result → HoldsNoValue ber (ty_view ty.now) contents.now }
    ensures numbers { IfErr result (λ refusal. refusal ≡ Refusal.Contents) }
{
    let Some(number) = read_integer(contents) else {
        return Err(Refusal::Contents);
    };
    let value = Value::Enumerated(number);
    if conforms(ty, &value) {
        Ok(value)
    } else {
        Err(Refusal::Contents)
    }
}

// The OCTET STRING whose octets the contents octets are (X.690 8.7.2).
fn read_octets(alloc: Global, contents: &[u8]) -> Result<Value, Refusal>
    ensures value { IfOk result (λ value. value_view value ≡ octets_view contents.now) }
    ensures numbers { IfErr result (λ refusal. refusal ≡ Refusal.NoMemory) }
{
    match Vec::from_slice(alloc, contents) {
        Ok(octets) => Ok(Value::Octets(octets)),
        Err(_) => Err(Refusal::NoMemory),
    }
}

// The text of a character string or a time that the contents octets are.
fn read_text(alloc: Global, ty: &Ty, contents: &[u8]) -> Result<Value, Refusal>
    requires { IsTextual ty.now }
    ensures value { IfOk result (λ value. HoldsValue ber (ty_view ty.now) (value_view value) contents.now) }
    ensures none { IfErr result (λ refusal. IsFinal refusal → HoldsNoValue ber (ty_view ty.now) contents.now) }
    ensures numbers { IfErr result IsOfContents }
{
    match Vec::from_slice(alloc, contents) {
        Ok(octets) => text_of(ty, octets),
        Err(_) => Err(Refusal::NoMemory),
    }
}

// The text of a character string or a time whose octets these are, if the type allows them.
pub fn text_of(ty: &Ty, octets: Vec<u8>) -> Result<Value, Refusal>
    requires { IsTextual ty.now }
    ensures value { IfOk result (λ value. (value_view value ≡ text_view octets.items)
        × Conforms (ty_view ty.now) (value_view value)) }
    ensures none { IsErr result → ¬ Conforms (ty_view ty.now) (text_view octets.items) }
    ensures numbers { IfErr result (λ refusal. refusal ≡ Refusal.Alphabet) }
{
    let value = Value::Text(octets);
    if conforms(ty, &value) {
        Ok(value)
    } else {
        Err(Refusal::Alphabet)
    }
}
