//! Which defaults are good: a value of a type that takes one.

ghost use Rattle.std.specs.Prelude.{◌↔◌, IsTrue};
ghost use Rattle.types.specs.View.{ty_view, value_view, components_view, requirement_view};
ghost use Rattle.types.specs.WellFormed.{TakesDefault, IsNoWideInteger, IsGoodDefault, AreGoodDefaults, HasGoodDefaults};

use crate::{Field, Presence, Ty, Value, conforms};
use strings::TextKind;

// Whether each default of the outermost node's components is a value of a type that takes one.
pub fn has_good_defaults(ty: &Ty) -> bool
    ensures { IsTrue result ↔ HasGoodDefaults (ty_view ty.now) }
{
    match ty {
        Ty::Sequence(_, fields) => are_good_defaults(fields),
        Ty::Set(_, fields) => are_good_defaults(fields),
        _ => true,
    }
}

fn are_good_defaults(fields: &[Field]) -> bool
    ensures { IsTrue result ↔ AreGoodDefaults (components_view fields.now) }
{
    for field in fields {
        if !is_good_default(&field.ty, &field.presence) {
            return false;
        }
    }
    true
}

fn is_good_default(ty: &Ty, presence: &Presence) -> bool
    ensures { IsTrue result ↔ IsGoodDefault (ty_view ty.now) (requirement_view presence.now) }
{
    match presence {
        Presence::Required => true,
        Presence::Optional => true,
        Presence::Default(value) => {
            takes_default(ty) && conforms(ty, value) && is_no_wide_integer(value)
        }
    }
}

// Whether the type takes a DEFAULT, seen through explicit tags.
fn takes_default(ty: &Ty) -> bool
    ensures { IsTrue result ↔ TakesDefault (ty_view ty.now) }
{
    match ty {
        Ty::Boolean(_) | Ty::Integer(_) | Ty::Enumerated(_, _) => true,
        Ty::Bits(_) | Ty::NamedBits(_, _) | Ty::Octets(_) => true,
        Ty::Text(_, kind) => *kind != TextKind::Bmp,
        Ty::Explicit(_, inner) => takes_default(inner),
        _ => false,
    }
}

// Whether the value is no INTEGER past 128 bits.
fn is_no_wide_integer(value: &Value) -> bool
    ensures { IsTrue result ↔ IsNoWideInteger (value_view value.now) }
{
    !matches!(value, Value::WideInteger(_))
}
