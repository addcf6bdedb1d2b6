//! Copies of values without parts.

ghost use Rattle.std.specs.Prelude.{◌≡◌, IfOk};
ghost use Rattle.types.specs.View.{value_view};
ghost use Rattle.canon.specs.Leaf.{IsLeafValue};

use octets::NoMemory;
use primitives::Bits;
use std::alloc::Global;
use types::Value;

// A value like this one.
pub(crate) fn copy_leaf(alloc: Global, value: &Value) -> Result<Value, NoMemory>
    requires { IsLeafValue (value_view value.now) }
    ensures { IfOk result (λ copy. value_view copy ≡ value_view value.now) }
{
    match value {
        Value::Boolean(truth) => Ok(Value::Boolean(*truth)),
        Value::Integer(number) => Ok(Value::Integer(*number)),
        Value::WideInteger(octets) => Ok(Value::WideInteger(Vec::from_slice(alloc, octets)?)),
        Value::Enumerated(number) => Ok(Value::Enumerated(*number)),
        Value::Null => Ok(Value::Null),
        Value::Oid(arcs) => Ok(Value::Oid(Vec::from_slice(alloc, arcs)?)),
        Value::RelativeOid(arcs) => Ok(Value::RelativeOid(Vec::from_slice(alloc, arcs)?)),
        Value::Bits(bits) => Ok(Value::Bits(copy_bits(alloc, bits)?)),
        Value::Octets(octets) => Ok(Value::Octets(Vec::from_slice(alloc, octets)?)),
        Value::Text(octets) => Ok(Value::Text(Vec::from_slice(alloc, octets)?)),
        Value::Fields(_) | Value::Items(_) | Value::Chosen(..) => unreachable!(),
    }
}

// Bits like these.
fn copy_bits(alloc: Global, bits: &Bits) -> Result<Bits, NoMemory>
    ensures { IfOk result (λ copy. copy ≡ bits.now) }
{
    let octets = Vec::from_slice(alloc, bits.octets())?;
    let Some(copy) = Bits::new(octets, bits.unused()) else {
        unreachable!()
    };
    Ok(copy)
}
