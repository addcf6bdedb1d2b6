//! What the calls that write the first value write for it.

ghost use Rattle.std.specs.Prelude.{◌≡◌, ℕ, List, OnOk, IfOk, IfErr};
ghost use Rattle.octets.specs.Front.{Appends};
ghost use Rattle.types.specs.Conforms.{Conforms};
ghost use Rattle.types.specs.Encoding.{IsAccepted};
ghost use Rattle.types.specs.Refusal.{IsOfWriting};
ghost use Rattle.types.specs.View.{ty_view, value_view};
ghost use Rattle.texts.specs.Shown.{IsShown};
ghost use Rattle.engine.specs.Rule.{rule_of, canonical_rule_of};
ghost use Rattle.engine.specs.Stream.{IsLine};
ghost use Rattle.asn1x_c.specs.One.{IsEncoding, IsFirstLine, IsFirstWritten, RefusesFirst, RefusesFirstLine};

use convert::{Canon, Canonical, Cer, Der, Refusal, Rule, Value, WellTyped, show};
use engine::read_by;
use std::alloc::Global;

// The first value's encoding by the rule `to`, and how many octets it has as it stands.
pub(crate) fn encode_first(
    alloc: Global,
    ty: &WellTyped,
    from: Rule,
    to: Canonical,
    octets: &[u8],
) -> Result<(Vec<u8>, usize), Refusal>
    ensures value { IfOk result (λ p. IsFirstWritten (IsAccepted (canonical_rule_of to) (ty_view ty.now))
        (rule_of from) (ty_view ty.now) octets.now p.1 p.0.items) }
    ensures refused { IfErr result (RefusesFirst (IsAccepted (canonical_rule_of to) (ty_view ty.now))
        (rule_of from) (ty_view ty.now) octets.now) }
{
    let (value, used) = read_by(alloc, ty, from, octets)?;
    let mut written = Vec::new(alloc);
    put_by(alloc, ty, to, &value, &mut written)?;
    Ok((written, used))
}

// The first value's line of text, and how many octets it has.
pub(crate) fn print_first(
    alloc: Global,
    ty: &WellTyped,
    from: Rule,
    octets: &[u8],
) -> Result<(Vec<u8>, usize), Refusal>
    ensures value { IfOk result (λ p. IsFirstLine (rule_of from) (ty_view ty.now) octets.now p.1 p.0.items) }
    ensures refused { IfErr result (RefusesFirstLine (rule_of from) (ty_view ty.now) octets.now) }
{
    let (value, used) = read_by(alloc, ty, from, octets)?;
    let line = line_of(alloc, ty, &value)?;
    Ok((line, used))
}

// Appends the encoding of a value by the rule.
fn put_by(
    alloc: Global,
    ty: &WellTyped,
    to: Canonical,
    value: &Value,
    out: &mut Vec<u8>,
) -> Result<(), Refusal>
    requires { Conforms (ty_view ty.now) (value_view value.now) }
    ensures appended { OnOk result (Appends (IsEncoding to ty.now value.now) out.old.items out.new.items) }
    ensures too_long { result ≡ Err Refusal.OutputTooLong → (b : List ℕ) → ¬ IsEncoding to ty.now value.now b }
    ensures numbers { IfErr result IsOfWriting }
{
    match to {
        Canonical::Cer => Cer.put(alloc, ty, value, out),
        Canonical::Der => Der.put(alloc, ty, value, out),
    }
}

// The text of a value and a line feed.
fn line_of(alloc: Global, ty: &WellTyped, value: &Value) -> Result<Vec<u8>, Refusal>
    requires { Conforms (ty_view ty.now) (value_view value.now) }
    ensures line { IfOk result (λ line. IsLine (IsShown (ty_view ty.now)) (value_view value.now) line.items) }
    ensures refused { IfErr result (λ refusal. refusal ≡ Refusal.NoMemory) }
{
    let mut text = show(alloc, ty, value)?;
    text.push('\n')?;
    Ok(text.into_bytes())
}
