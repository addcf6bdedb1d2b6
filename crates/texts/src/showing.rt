//! Texts of whole values.

ghost use Rattle.std.specs.Prelude.{IfOk, OnOk, string_bytes};
ghost use Rattle.octets.specs.Front.{Appends};
ghost use Rattle.types.specs.Conforms.{Conforms};
ghost use Rattle.types.specs.View.{ty_view, value_view};
ghost use Rattle.texts.specs.Shown.{IsShown};

use crate::plain::is_plain;
use crate::printing::put_value;
use canon::order;
use octets::NoMemory;
use std::alloc::Global;
use std::string::String;
use types::{Value, WellTyped};

/// The text of a value, which conforms to `ty`. The items of a SET OF stand in ascending order of their
/// DER encodings, so that the same values have one text (`same_values_have_one_text`).
///
/// A value with at most one item in each SET OF is printed as it is; any other is copied first, as
/// `canon::order` does it.
pub fn show(alloc: Global, ty: &WellTyped, value: &Value) -> Result<String, NoMemory>
    requires { Conforms (ty_view ty.now) (value_view value.now) }
    ensures { IfOk result (λ text. IsShown (ty_view ty.now) (value_view value.now) (string_bytes text)) }
{
    let mut text = String::new(alloc);
    put_shown(alloc, ty, value, &mut text)?;
    Ok(text)
}

/// Appends the text that `show` returns. Where memory runs out a front of it may stand there.
pub fn put_shown(
    alloc: Global,
    ty: &WellTyped,
    value: &Value,
    out: &mut String,
) -> Result<(), NoMemory>
    requires { Conforms (ty_view ty.now) (value_view value.now) }
    ensures { OnOk result (Appends
        (IsShown (ty_view ty.now) (value_view value.now)) (string_bytes out.old) (string_bytes out.new)) }
{
    let shape = ty.as_type();
    if is_plain(shape, value) {
        return put_value(shape, value, out);
    }
    let ordered = order(alloc, ty, value)?;
    put_value(shape, &ordered, out)
}
