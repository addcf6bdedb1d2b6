//! Which arcs are those of an OBJECT IDENTIFIER or a RELATIVE-OID within the limits.

ghost use Rattle.std.specs.Prelude.{◌↔◌, IsTrue};
ghost use Rattle.primitives.specs.Oid.{IsOidValue, IsRelativeOidValue};
ghost use Rattle.types.specs.Arcs.{CanShare};

use primitives::MAX_SUBIDENTIFIERS;

// Whether the first two arcs can share a subidentifier, 40 times the first and the second, and the
// subidentifiers are within the limits.
pub fn is_oid_value(arcs: &[u128]) -> bool
    ensures { IsTrue result ↔ IsOidValue arcs.now }
{
    let Some((first, others)) = arcs.split_first() else {
        return false;
    };
    let Some((second, rest)) = others.split_first() else {
        return false;
    };
    rest.len() < MAX_SUBIDENTIFIERS && can_share(*first, *second)
}

// Whether two arcs can share a subidentifier.
fn can_share(first: u128, second: u128) -> bool
    ensures { IsTrue result ↔ CanShare first second }
{
    match first {
        0 | 1 => second < 40,
        2 => second <= u128::MAX - 80,
        _ => false,
    }
}

pub fn is_relative_oid_value(arcs: &[u128]) -> bool
    ensures { IsTrue result ↔ IsRelativeOidValue arcs.now }
{
    !arcs.is_empty() && arcs.len() <= MAX_SUBIDENTIFIERS
}
