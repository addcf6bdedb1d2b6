//! One value from octets to octets.

ghost use Rattle.std.specs.Prelude.{◌≡◌, ◌≤◌, ◌++◌, ℕ, List, ◌⊎◌, length, take, IfOk, IfErr};
ghost use Rattle.octets.specs.Front.{Begins, HasFront};
ghost use Rattle.types.specs.Encoding.{IsAccepted, IsSomeAccepted};
ghost use Rattle.types.specs.Refusal.{IsFinal};
ghost use Rattle.types.specs.View.{ty_view, value_view};
ghost use Rattle.types.specs.WellFormed.{IsWellFormed};
ghost use Rattle.engine.specs.Refusal.{IsOfReadingBy, IsOfTranscoding};
ghost use Rattle.engine.specs.Rule.{rule_of, canonical_rule_of};
ghost use Rattle.engine.specs.Transcoding.{IsTranscoded, HasNoShortEncoding, EndsInside};

use crate::putting::{Encodings, Put};
use crate::{Canonical, Rule};
use berreader::read;
use std::alloc::Global;
use strict::{read_cer, read_der};
use types::{Refusal, Value, WellTyped};

/// Reads exactly one value of `ty`, whose encoding by the rule `from` fills `octets`, and returns its
/// one encoding by the rule `to`. Octets left over are refused with `Identifier`.
pub fn transcode(
    alloc: Global,
    ty: &WellTyped,
    from: Rule,
    to: Canonical,
    octets: &[u8],
) -> Result<Vec<u8>, Refusal>
    ensures value { IfOk result (λ out.
        IsTranscoded (rule_of from) (canonical_rule_of to) (ty_view ty.now) octets.now out.items) }
    ensures truncated { result ≡ Err Refusal.Truncated →
        ¬ IsSomeAccepted (rule_of from) (ty_view ty.now) octets.now }
    ensures begun { result ≡ Err Refusal.Truncated → EndsInside (rule_of from) (ty_view ty.now) octets.now }
    ensures never { IfErr result (λ refusal. IsFinal refusal →
        ¬ Begins (IsSomeAccepted (rule_of from) (ty_view ty.now)) octets.now) }
    ensures too_long { result ≡ Err Refusal.OutputTooLong →
        HasNoShortEncoding (rule_of from) (canonical_rule_of to) (ty_view ty.now) octets.now }
    ensures limit { HasNoShortEncoding (rule_of from) (canonical_rule_of to) (ty_view ty.now) octets.now →
        (result ≡ Err Refusal.OutputTooLong) ⊎ (result ≡ Err Refusal.NoMemory) }
    ensures numbers { IfErr result (IsOfTranscoding (rule_of from)) }
{
    let (value, used) = read_by(alloc, ty, from, octets)?;
    if used < octets.len() {
        return Err(Refusal::Identifier);
    }
    let mut out = Vec::new(alloc);
    Encodings { alloc, ty, to }.put(&value, &mut String::new(alloc), &mut out)?;
    Ok(out)
}

/// Reads the value at the front of `octets` by the rule `from`, and returns with it how many octets it has.
///
/// Refused as `read`, `read_cer` and `read_der` refuse. Takes memory as they do.
pub fn read_by(
    alloc: Global,
    ty: &WellTyped,
    from: Rule,
    octets: &[u8],
) -> Result<(Value, usize), Refusal>
    ensures value { IfOk result (λ p. (p.1 ≤ length octets.now)
        × IsAccepted (rule_of from) (ty_view ty.now) (value_view p.0) (take p.1 octets.now)) }
    ensures truncated { result ≡ Err Refusal.Truncated →
        ¬ HasFront (IsSomeAccepted (rule_of from) (ty_view ty.now)) octets.now }
    ensures begun { result ≡ Err Refusal.Truncated → EndsInside (rule_of from) (ty_view ty.now) octets.now }
    ensures never { IfErr result (λ refusal. IsFinal refusal → (more : List ℕ) →
        ¬ HasFront (IsSomeAccepted (rule_of from) (ty_view ty.now)) (octets.now ++ more)) }
    ensures numbers { IfErr result (IsOfReadingBy (rule_of from)) }
    ensures well_formed { IsWellFormed (ty_view ty.now) }
{
    match from {
        Rule::Ber => read(alloc, ty, octets),
        Rule::Cer => read_cer(alloc, ty, octets),
        Rule::Der => read_der(alloc, ty, octets),
    }
}
