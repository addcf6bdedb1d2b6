//! What the numbers that C passes stand for.

ghost use Rattle.std.specs.Prelude.{◌≡◌, ◌⊎◌, Some, None, IfSome, IfNone, option_map};
ghost use Rattle.engine.specs.Rule.{rule_of, canonical_rule_of};
ghost use Rattle.asn1x_c.specs.Numbers.{canonical_numbered, name_numbered, refusal_numbered, rule_numbered};

use convert::{Canonical, Refusal, Rule, fault_name};

// The rule of a number.
pub(crate) fn rule_numbered(number: u32) -> Option<Rule>
    ensures { option_map rule_of result ≡ rule_numbered number }
{
    match number {
        0 => Some(Rule::Ber),
        1 => Some(Rule::Cer),
        2 => Some(Rule::Der),
        _ => None,
    }
}

// The canonical rule of a number.
fn canonical_numbered(number: u32) -> Option<Canonical>
    ensures { option_map canonical_rule_of result ≡ canonical_numbered number }
{
    match number {
        1 => Some(Canonical::Cer),
        2 => Some(Canonical::Der),
        _ => None,
    }
}

// The rules of two numbers, to read and to write by.
pub(crate) fn rules_numbered(from: u32, to: u32) -> Option<(Rule, Canonical)>
    ensures value { IfSome result (λ rules. (rule_numbered from ≡ Some (rule_of rules.0))
        × (canonical_numbered to ≡ Some (canonical_rule_of rules.1))) }
    ensures none { IfNone result ((rule_numbered from ≡ None) ⊎ (canonical_numbered to ≡ None)) }
{
    let from = rule_numbered(from)?;
    let to = canonical_numbered(to)?;
    Some((from, to))
}

// The refusal of a number.
fn refusal_numbered(number: u32) -> Option<Refusal>
    ensures { result ≡ refusal_numbered number }
{
    match number {
        1 => Some(Refusal::Truncated),
        2 => Some(Refusal::Identifier),
        3 => Some(Refusal::Form),
        4 => Some(Refusal::Length),
        5 => Some(Refusal::EndOfContents),
        6 => Some(Refusal::Contents),
        7 => Some(Refusal::Alphabet),
        8 => Some(Refusal::Missing),
        9 => Some(Refusal::Repeated),
        10 => Some(Refusal::TooDeep),
        11 => Some(Refusal::TooLong),
        12 => Some(Refusal::NotCanonical),
        13 => Some(Refusal::StreamTooLong),
        14 => Some(Refusal::OutputTooLong),
        15 => Some(Refusal::SourceFault),
        16 => Some(Refusal::SinkFault),
        17 => Some(Refusal::NoMemory),
        _ => None,
    }
}

// The name of a refusal or of a fault, and of other numbers none.
pub(crate) fn name_numbered(number: u32) -> &'static str
    ensures { result.now ≡ name_numbered number }
{
    match refusal_numbered(number) {
        Some(refusal) => refusal.name(),
        None if 20 < number && number < 34 => fault_name(number),
        None => "",
    }
}
