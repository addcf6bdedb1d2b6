//! Reads the canonical encoding at the front of some octets.

ghost use Rattle.std.specs.Prelude.{◌≡◌, ◌≤◌, ◌++◌, ℕ, List, length, take, IfOk, IfErr, IfSome, MatchOption};
ghost use Rattle.octets.specs.Front.{HasFront};
ghost use Rattle.types.specs.Encoding.{IsAccepted, IsSomeAccepted};
ghost use Rattle.types.specs.Refusal.{IsFinal};
ghost use Rattle.types.specs.Same.{IsSame};
ghost use Rattle.types.specs.Shape.{Val};
ghost use Rattle.types.specs.View.{ty_view, value_view};
ghost use Rattle.types.specs.WellFormed.{IsWellFormed};
ghost use Rattle.octets.specs.declared.TheConstants.{MAX_ENCODING};
ghost use Rattle.octets.specs.Rule.{rule_of};
ghost use Rattle.strict.specs.Refusal.{IsOfStrictReading};
ghost use Rattle.strict.specs.Begun.{IsBegun};
ghost use Rattle.strict.specs.Front.{ReadsFront};

use crate::parts::read_one;
use octets::{Canonical, MAX_ENCODING};
use std::alloc::Global;
use types::{Refusal, Value, WellTyped};

/// Reads the one encoding at the front of `octets` under DER (X.690 clauses 10 and 11), and returns the value of
/// `ty` and how many octets the encoding has. What stands behind it is not looked at.
///
/// Refused at the first fault that stands in the octets: as BER refuses it, or with `NotCanonical` where BER takes it
/// and DER does not. Refused with `Truncated` where the octets end inside the encoding, and so much of its identifier
/// octets and length octets as is there can be that of `ty`, and with `NoMemory`. Takes memory for the value alone.
pub fn read_der(alloc: Global, ty: &WellTyped, octets: &[u8]) -> Result<(Value, usize), Refusal>
    ensures front { ReadsFront Canonical.Der (ty_view ty.now) octets.now result }
    ensures well_formed { IsWellFormed (ty_view ty.now) }
{
    read_canonical(alloc, Canonical::Der, ty, octets)
}

/// Reads the one encoding at the front of `octets` under CER (X.690 clauses 9 and 11), as `read_der` does under DER.
pub fn read_cer(alloc: Global, ty: &WellTyped, octets: &[u8]) -> Result<(Value, usize), Refusal>
    ensures front { ReadsFront Canonical.Cer (ty_view ty.now) octets.now result }
    ensures well_formed { IsWellFormed (ty_view ty.now) }
{
    read_canonical(alloc, Canonical::Cer, ty, octets)
}

/// Reads the one encoding at the front of `octets` under the rule, as `read_der` does under DER.
pub fn read_canonical(
    alloc: Global,
    rule: Canonical,
    ty: &WellTyped,
    octets: &[u8],
) -> Result<(Value, usize), Refusal>
    ensures front { ReadsFront rule (ty_view ty.now) octets.now result }
    ensures well_formed { IsWellFormed (ty_view ty.now) }
{
    let mut slot = None;
    let used = read_into(alloc, rule, ty, octets, &mut slot)?;
    let Some(value) = slot else { unreachable!() };
    Ok((value, used))
}

/// Reads the one encoding at the front of `octets` under the rule into the slot, as `read_canonical` returns it, and
/// returns how many octets the encoding has. What the slot holds gives the value room. Where the octets are refused, the
/// slot may hold anything.
#[inline(always)]
pub fn read_into(
    alloc: Global,
    rule: Canonical,
    ty: &WellTyped,
    octets: &[u8],
    slot: &mut Option<Value>,
) -> Result<usize, Refusal>
    ensures value { IfOk result (λ used. (used ≤ length octets.now) × MatchOption slot.new ⊥ (λ value.
        IsAccepted (rule_of rule) (ty_view ty.now) (value_view value) (take used octets.now))) }
    ensures only { IfOk result (λ used. IfSome slot.new (λ value. (v : Val) (n : ℕ) → n ≤ length octets.now →
        IsAccepted (rule_of rule) (ty_view ty.now) v (take n octets.now) →
        (n ≡ used) × IsSame (ty_view ty.now) (value_view value) v)) }
    ensures truncated { result ≡ Err Refusal.Truncated →
        ¬ HasFront (IsSomeAccepted (rule_of rule) (ty_view ty.now)) octets.now }
    ensures begun { result ≡ Err Refusal.Truncated →
        IsBegun rule (ty_view ty.now) MAX_ENCODING octets.now }
    ensures never { IfErr result (λ refusal. IsFinal refusal → (more : List ℕ) →
        ¬ HasFront (IsSomeAccepted (rule_of rule) (ty_view ty.now)) (octets.now ++ more)) }
    ensures numbers { IfErr result IsOfStrictReading }
    ensures well_formed { IsWellFormed (ty_view ty.now) }
{
    let value = slot.get_or_insert_with(|| Value::Null);
    read_one(alloc, rule, ty.as_type(), MAX_ENCODING, octets, value)
}
