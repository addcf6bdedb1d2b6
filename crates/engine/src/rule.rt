//! The rules that octets are read by.

ghost use Rattle.std.specs.Prelude.{◌≡◌, ◌↔◌, IsTrue};
ghost use Rattle.engine.specs.Rule.{rule_of, canonical_rule_of};

use crate::Canonical;

/// The rule that octets are read by.
#[derive(Clone, Copy, Debug, PartialEq, Eq)]
pub enum Rule {
    /// The basic encoding rules (X.690 clause 8).
    Ber,
    /// The canonical encoding rules (X.690 clause 9).
    Cer,
    /// The distinguished encoding rules (X.690 clause 10).
    Der,
}

// Whether the two are one rule.
pub fn is_same(from: Rule, to: Canonical) -> bool
    ensures { IsTrue result ↔ (rule_of from ≡ canonical_rule_of to) }
{
    match (from, to) {
        (Rule::Cer, Canonical::Cer) | (Rule::Der, Canonical::Der) => true,
        (Rule::Cer, Canonical::Der) | (Rule::Der, Canonical::Cer) => false,
        (Rule::Ber, _) => false,
    }
}
