//! What a writer of canonical encodings promises, and the two that there are.

ghost use Rattle.std.specs.Prelude.{◌≡◌, ◌↔◌, ℕ, List, OnOk, OnErr, IfErr};
ghost use Rattle.octets.specs.Front.{Appends};
ghost use Rattle.octets.specs.declared.canonical.Canonical.{Canonical};
ghost use Rattle.octets.specs.Rule.{rule_of};
ghost use Rattle.types.specs.Conforms.{Conforms};
ghost use Rattle.types.specs.Encoding.{IsAccepted, IsEncoding};
ghost use Rattle.types.specs.Refusal.{IsOfWriting};
ghost use Rattle.types.specs.Same.{IsSame};
ghost use Rattle.types.specs.Shape.{Shape, Val};
ghost use Rattle.types.specs.View.{ty_view, value_view};
ghost use Rattle.types.specs.WellFormed.{IsWellFormed};

use crate::size_of::size_of;
use crate::writer::Writer;
use octets::{Canonical, MAX_ENCODING};
use std::alloc::Global;
use types::{Refusal, Value, WellTyped};

/// Writes values by an encoding rule that gives each of them one encoding.
pub trait Canon {
    ghost use Rattle.octets.proofs.RuleLemmas.{rule_is_canonical};
    ghost use Rattle.types.proofs.OneEncodingLemmas.{one_canonical};
    ghost use Rattle.types.proofs.SameExactlyLemmas.{equal_exactly_if_same as exactly_if_same};

    /// The rule that values are written by.
    const RULE: Canonical;

    ghost RULE: { Canonical };

    /// Appends the encoding of `value`, which conforms to `ty`: `conforms` tells. `OutputTooLong` says
    /// that it would have more than `MAX_ENCODING` octets, and being out of memory never hides that.
    #[inline(always)]
    fn put(
        &self,
        alloc: Global,
        ty: &WellTyped,
        value: &Value,
        out: &mut Vec<u8>,
    ) -> Result<(), Refusal>
        requires { Conforms (ty_view ty.now) (value_view value.now) }
        ensures appended { OnOk result
            (Appends (IsAccepted (rule_of RULE) (ty_view ty.now) (value_view value.now)) out.old.items out.new.items) }
        ensures unchanged { OnErr result (out.new.items ≡ out.old.items) }
        ensures too_long { (result ≡ Err Refusal.OutputTooLong) ↔
            ((b : List ℕ) → ¬ IsAccepted (rule_of RULE) (ty_view ty.now) (value_view value.now) b) }
        ensures numbers { IfErr result IsOfWriting }
    {
        let rule = Self::RULE;
        let shape = ty.as_type();
        let before = out.len();
        let put = Writer { alloc, rule }.put_value(shape, value, out);
        if put.is_ok() && out.len() - before <= MAX_ENCODING {
            return Ok(());
        }
        out.truncate(before);
        // The octets are counted, without memory.
        if size_of(rule, shape, value) > MAX_ENCODING {
            return Err(Refusal::OutputTooLong);
        }
        Err(Refusal::NoMemory)
    }

    // A value has one encoding.
    ghost one_spelling: { (shape : Shape) (v : Val) (a b : List ℕ) → IsWellFormed shape →
        IsEncoding (rule_of RULE) shape v a → IsEncoding (rule_of RULE) shape v b → a ≡ b } = { λ shape v a b well h g. one_canonical (rule_of RULE) shape v a b well (rule_is_canonical RULE) h g };

    // Two values have equal encodings exactly if they are the same.
    ghost equal_exactly_if_same: { (shape : Shape) (v w : Val) (a b : List ℕ) → IsWellFormed shape →
        IsEncoding (rule_of RULE) shape v a → IsEncoding (rule_of RULE) shape w b → (a ≡ b) ↔ IsSame shape v w } = { λ shape v w a b well h g. exactly_if_same (rule_of RULE) shape v w a b well (rule_is_canonical RULE) h g };
}

/// Writes CER (X.690 clause 9).
#[derive(Clone, Copy, Debug, PartialEq, Eq)]
pub struct Cer;

impl Canon for Cer {
    const RULE: Canonical = Canonical::Cer;

    ghost RULE = { Canonical.Cer };
}

/// Writes DER (X.690 clause 10).
#[derive(Clone, Copy, Debug, PartialEq, Eq)]
pub struct Der;

impl Canon for Der {
    const RULE: Canonical = Canonical::Der;

    ghost RULE = { Canonical.Der };
}
