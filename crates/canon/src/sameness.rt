//! When two values of a type are the same.

ghost use Rattle.std.specs.Prelude.{◌↔◌, IsTrue, IfOk};
ghost use Rattle.types.specs.Conforms.{Conforms};
ghost use Rattle.types.specs.Same.{IsSame};
ghost use Rattle.types.specs.View.{ty_view, value_view};

use crate::writer::Writer;
use octets::{Canonical, NoMemory};
use std::alloc::Global;
use types::{Value, WellTyped};

/// Whether two values, which both conform to `ty`, are the same: equal, but for the order of the items
/// of each SET OF. Both are written under DER, however long, and compared; so it takes the time and the
/// memory of two calls of `put`.
pub fn same(alloc: Global, ty: &WellTyped, value: &Value, other: &Value) -> Result<bool, NoMemory>
    requires value { Conforms (ty_view ty.now) (value_view value.now) }
    requires other { Conforms (ty_view ty.now) (value_view other.now) }
    ensures { IfOk result (λ same. IsTrue same ↔
        IsSame (ty_view ty.now) (value_view value.now) (value_view other.now)) }
{
    let shape = ty.as_type();
    let rule = Canonical::Der;
    let writer = Writer { alloc, rule };
    let mut first = Vec::new(alloc);
    writer.put_value(shape, value, &mut first)?;
    let mut second = Vec::new(alloc);
    writer.put_value(shape, other, &mut second)?;
    Ok(first == second)
}
