//! Values of the contents octets of primitive encodings.

ghost use Rattle.std.specs.Prelude.{◌≡◌, ◌↔◌, Bool, List, IsTrue, IsErr, IfOk, IfErr};
ghost use Rattle.octets.specs.Rule.{ber, der};
ghost use Rattle.primitives.specs.Bits.{IsBits};
ghost use Rattle.primitives.specs.Boolean.{IsBoolean};
ghost use Rattle.types.specs.Conforms.{Conforms};
ghost use Rattle.types.specs.Leaf.{IsLeaf};
ghost use Rattle.types.specs.Refusal.{IsFinal};
ghost use Rattle.types.specs.View.{ty_view, value_view};
ghost use Rattle.encoding_parts.specs.Contents.{HoldsNoValue, HoldsValue};
ghost use Rattle.strict.specs.Leaf.{IsBitString, IsOfSpelling, bits_view};

use encoding_parts::read_contents;
use primitives::{Bits, Fault, read_bits};
use std::alloc::Global;
use types::{Refusal, Ty, Value, conforms};

// The value of a type without parts that the contents octets are, as CER and DER have them (X.690 11.1 and 11.2).
//
// Refused as `encoding_parts::read_contents` does where they are those of no value, and with `NotCanonical` where they are,
// but not as the rules have them.
pub fn read_value(alloc: Global, ty: &Ty, contents: &[u8]) -> Result<Value, Refusal>
    requires { IsLeaf (ty_view ty.now) }
    ensures value { IfOk result (λ value. HoldsValue der (ty_view ty.now) (value_view value) contents.now) }
    ensures none { IfErr result (λ refusal. IsFinal refusal → HoldsNoValue der (ty_view ty.now) contents.now) }
    ensures numbers { IfErr result IsOfSpelling }
{
    match ty {
        Ty::Boolean(_) => Ok(Value::Boolean(read_truth(contents)?)),
        Ty::Bits(_) | Ty::NamedBits(_, _) => read_bit_string(alloc, ty, contents),
        _ => read_contents(alloc, ty, contents),
    }
}

// The truth value: TRUE is FF (X.690 11.1).
pub fn read_truth(contents: &[u8]) -> Result<bool, Refusal>
    ensures value { IfOk result (λ truth. IsBoolean der truth contents.now) }
    ensures none { IsErr result → (truth : Bool) → ¬ IsBoolean der truth contents.now }
    ensures numbers { IfErr result IsOfSpelling }
{
    match contents {
        [0x00] => Ok(false),
        [0xFF] => Ok(true),
        [_] => Err(Refusal::NotCanonical),
        _ => Err(Refusal::Contents),
    }
}

// The bits: unused ones are 0 (X.690 11.2.1).
fn read_bit_string(alloc: Global, ty: &Ty, contents: &[u8]) -> Result<Value, Refusal>
    requires { IsBitString (ty_view ty.now) }
    ensures value { IfOk result (λ value. HoldsValue der (ty_view ty.now) (value_view value) contents.now) }
    ensures none { IfErr result (λ refusal. IsFinal refusal → HoldsNoValue der (ty_view ty.now) contents.now) }
    ensures numbers { IfErr result IsOfSpelling }
{
    match read_bits(alloc, contents) {
        Ok(bits) => {
            if has_zeros_unused(contents) {
                bits_value(ty, bits)
            } else {
                Err(Refusal::NotCanonical)
            }
        }
        Err(Fault::Contents) => Err(Refusal::Contents),
        Err(Fault::NoMemory) => Err(Refusal::NoMemory),
    }
}

// Whether the unused bits in these contents octets of a BIT STRING are 0.
pub fn has_zeros_unused(contents: &[u8]) -> bool
    requires { (bits : List Bool) × IsBits ber bits contents.now }
    ensures { (bits : List Bool) → IsBits ber bits contents.now → IsTrue result ↔ IsBits der bits contents.now }
{
    match contents {
        [unused, .., last] => *last >> *unused << *unused == *last,
        _ => true,
    }
}

// The value of these bits: named ones end with a bit 1 (X.690 11.2.2).
pub fn bits_value(ty: &Ty, bits: Bits) -> Result<Value, Refusal>
    requires { IsBitString (ty_view ty.now) }
    ensures value { IfOk result (λ value. (value_view value ≡ bits_view bits)
        × Conforms (ty_view ty.now) (value_view value)) }
    ensures none { IsErr result → ¬ Conforms (ty_view ty.now) (bits_view bits) }
    ensures numbers { IfErr result (λ refusal. refusal ≡ Refusal.NotCanonical) }
{
    let value = Value::Bits(bits);
    if conforms(ty, &value) {
        Ok(value)
    } else {
        Err(Refusal::NotCanonical)
    }
}
