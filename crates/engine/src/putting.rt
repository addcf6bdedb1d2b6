//! What is written for values.

ghost use Rattle.std.specs.Prelude.{◌≡◌, ⊤, ℕ, List, [], OnOk, OnErr, IfErr, IfSome};
ghost use Rattle.octets.specs.Front.{Appends};
ghost use Rattle.types.specs.Conforms.{Conforms};
ghost use Rattle.types.specs.Refusal.{IsOfWriting};
ghost use Rattle.types.specs.Shape.{Shape, Val};
ghost use Rattle.types.specs.View.{ty_view, value_view};
ghost use Rattle.types.specs.Encoding.{IsAccepted};
ghost use Rattle.engine.specs.Putting.{IsWritten};
ghost use Rattle.engine.specs.Rule.{canonical_rule_of};

use crate::Canonical;
use canon::{Canon, Cer, Der};
use std::alloc::Global;
use types::{Refusal, Value, WellTyped};

/// A writer of values of one type.
pub trait Put {
    // The type.
    ghost shape: { Self → Shape };

    // The octets stand for the value.
    ghost stands: { Self → Val → List ℕ → Type 0 };

    // There may be a value for which nothing stands.
    ghost can_be_too_long: { Type 0 };

    /// The type.
    fn ty(&self) -> &WellTyped
        ensures { ty_view result.now ≡ shape self.now };

    /// Whether what stands for a value can be far longer than its encodings, as a text by the names of the type.
    fn can_outgrow(&self) -> bool;

    /// Reads the octets at the front that stand for a value, and are an encoding of it in BER, into the slot, and returns
    /// how many they are. Returns None where they are not found: the slot may then hold anything.
    fn read_written(&self, octets: &[u8], slot: &mut Option<Value>) -> Option<usize>
        ensures { IfSome result (IsWritten (stands self.now) (shape self.now) slot.new octets.now) };

    /// Appends what stands for a value. What is in `room` is lost: a writer may use its memory.
    fn put(&self, value: &Value, room: &mut String, out: &mut Vec<u8>) -> Result<(), Refusal>
        requires { Conforms (shape self.now) (value_view value.now) }
        ensures appended { OnOk result
            (Appends (stands self.now (value_view value.now)) out.old.items out.new.items) }
        ensures unchanged { OnErr result (out.new.items ≡ out.old.items) }
        ensures too_long { result ≡ Err Refusal.OutputTooLong →
            (octets : List ℕ) → ¬ stands self.now (value_view value.now) octets }
        ensures long { result ≡ Err Refusal.OutputTooLong → can_be_too_long }
        ensures numbers { IfErr result IsOfWriting };
}

/// Writes a value's one encoding by a canonical rule.
#[derive(Drop)]
pub struct Encodings<'a> {
    pub alloc: Global,
    pub ty: &'a WellTyped,
    pub to: Canonical,
}

impl Put for Encodings<'_> {
    ghost shape = { λ writer. ty_view writer.ty.now };

    ghost stands = { λ writer. IsAccepted (canonical_rule_of writer.to) (ty_view writer.ty.now) };

    ghost can_be_too_long = { ⊤ };

    fn ty(&self) -> &WellTyped {
        self.ty
    }

    fn can_outgrow(&self) -> bool {
        false
    }

    #[inline(never)]
    fn read_written(&self, octets: &[u8], slot: &mut Option<Value>) -> Option<usize> {
        match strict::read_into(self.alloc, self.to, self.ty, octets, slot) {
            Ok(used) => Some(used),
            Err(_) => None,
        }
    }

    #[inline(always)]
    fn put(&self, value: &Value, _room: &mut String, out: &mut Vec<u8>) -> Result<(), Refusal> {
        match self.to {
            Canonical::Cer => Cer.put(self.alloc, self.ty, value, out),
            Canonical::Der => Der.put(self.alloc, self.ty, value, out),
        }
    }
}

/// Writes nothing for a value.
#[derive(Drop)]
pub struct Nothing<'a> {
    pub ty: &'a WellTyped,
}

impl Put for Nothing<'_> {
    ghost shape = { λ writer. ty_view writer.ty.now };

    ghost stands = { λ _ _ octets. octets ≡ [] };

    ghost can_be_too_long = { ⊥ };

    fn ty(&self) -> &WellTyped {
        self.ty
    }

    fn can_outgrow(&self) -> bool {
        false
    }

    fn read_written(&self, _octets: &[u8], _slot: &mut Option<Value>) -> Option<usize> {
        None
    }

    fn put(&self, _value: &Value, _room: &mut String, _out: &mut Vec<u8>) -> Result<(), Refusal> {
        Ok(())
    }
}
