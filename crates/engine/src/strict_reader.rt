//! A reader over pieces that takes the one encoding which CER or DER gives a value.

ghost use Rattle.std.specs.Prelude.{◌≡◌, ◌++◌, ◌≤◌, ℕ, List, [], OnOk, IfOk, IfErr, length};
ghost use Rattle.octets.specs.Rule.{ber};
ghost use Rattle.types.specs.Encoding.{IsSomeAccepted};
ghost use Rattle.types.specs.Shape.{Shape};
ghost use Rattle.types.specs.View.{ty_view};
ghost use Rattle.types.specs.WellFormed.{IsWellFormed};
ghost use Rattle.engine.specs.Feeding.{IsFed, IsFinished};
ghost use Rattle.engine.specs.Rule.{canonical_rule_of};
ghost use Rattle.engine.specs.StrictReader.{IsJudged, StandsStrictly};

use crate::Canonical;
use berreader::Reader;
use std::alloc::Global;
use strict::read_into;
use types::{Refusal, Value, WellTyped};

/// A reader of the one encoding that the rule gives each value. A value that is whole in a piece it reads there. Of
/// one that a piece cuts it keeps the octets until the BER reader finds its end, and then reads them.
#[derive(Drop)]
pub struct StrictReader<'a> {
    pub alloc: Global,
    /// The rule that octets are read by.
    pub rule: Canonical,
    /// The type of the values.
    pub ty: &'a WellTyped,
    /// Finds the end of a value that a piece cuts.
    pub reader: Reader<'a>,
    /// The octets that have come of such a value.
    pub begun: Vec<u8>,
}

impl<'a> StrictReader<'a> {
    /// A reader of values of the type, to which no octet has come.
    pub fn new(alloc: Global, rule: Canonical, ty: &'a WellTyped) -> Self
        ensures rule { result.rule ≡ rule }
        ensures fresh { StandsStrictly (ty_view ty.now) result [] }
        ensures well_formed { IsWellFormed (ty_view ty.now) }
    {
        StrictReader {
            alloc,
            rule,
            ty,
            reader: Reader::new(alloc, ty),
            begun: Vec::new(alloc),
        }
    }

    // Takes octets as `feed` does, by the BER reader. A refusal of BER is named as such, whatever the rule says.
    fn feed_begun(&mut self, piece: &[u8], slot: &mut Option<Value>) -> Result<usize, Refusal>
        requires { (shape : Shape) × (old : List ℕ) × StandsStrictly shape self.old old }
        ensures used { IfOk result (λ used. used ≤ length piece.now) }
        ensures rule_stays { OnOk result (self.new.rule ≡ self.old.rule) }
        ensures fed { (shape : Shape) (old : List ℕ) → StandsStrictly shape self.old old →
            IsFed (StandsStrictly shape self.new) (canonical_rule_of self.old.rule) shape result slot.new old piece.now }
    {
        let used = self.reader.feed_into(piece, slot)?;
        let Some(_) = slot else {
            keep(&mut self.begun, piece)?;
            return Ok(used);
        };
        let (last, _) = piece.split_at(used);
        judge(self.alloc, self.rule, self.ty, &mut self.begun, last, slot)?;
        Ok(used)
    }

    /// Takes octets as `AnyReader` does.
    #[inline(always)]
    pub fn feed(&mut self, piece: &[u8], slot: &mut Option<Value>) -> Result<usize, Refusal>
        requires { (shape : Shape) × (old : List ℕ) × StandsStrictly shape self.old old }
        ensures used { IfOk result (λ used. used ≤ length piece.now) }
        ensures rule_stays { OnOk result (self.new.rule ≡ self.old.rule) }
        ensures fed { (shape : Shape) (old : List ℕ) → StandsStrictly shape self.old old →
            IsFed (StandsStrictly shape self.new) (canonical_rule_of self.old.rule) shape result slot.new old piece.now }
    {
        if self.begun.is_empty() {
            match read_into(self.alloc, self.rule, self.ty, piece, slot) {
                Ok(used) => return Ok(used),
                Err(Refusal::NoMemory) => return Err(Refusal::NoMemory),
                Err(_) => {}
            }
        }
        self.feed_begun(piece, slot)
    }

    /// Tells whether no value is begun.
    pub fn finish(&self) -> Result<(), Refusal>
        ensures { (shape : Shape) (old : List ℕ) → StandsStrictly shape self.now old → IsFinished result old }
    {
        self.reader.finish()
    }
}

// Keeps octets of the value that is begun.
fn keep(begun: &mut Vec<u8>, octets: &[u8]) -> Result<(), Refusal>
    ensures kept { OnOk result (begun.new.items ≡ begun.old.items ++ octets.now) }
    ensures refused { IfErr result (λ refusal. refusal ≡ Refusal.NoMemory) }
{
    begun.extend_from_slice(octets)?;
    Ok(())
}

// Reads the value whose encoding by the rule the octets kept and the last ones are, which BER takes, into the slot: what
// BER has read gives it room. No octet is kept then.
fn judge(
    alloc: Global,
    rule: Canonical,
    ty: &WellTyped,
    begun: &mut Vec<u8>,
    last: &[u8],
    slot: &mut Option<Value>,
) -> Result<(), Refusal>
    requires { IsSomeAccepted ber (ty_view ty.now) (begun.old.items ++ last.now) }
    ensures judged { IsJudged (canonical_rule_of rule) (ty_view ty.now) (begun.old.items ++ last.now) slot.new result }
    ensures none_kept { OnOk result (begun.new.items ≡ []) }
{
    keep(begun, last)?;
    let octets = begun.as_slice();
    let judged = read_all(alloc, rule, ty, octets, slot);
    begun.clear();
    judged
}

// Reads the value whose encoding by the rule the octets are, which BER takes, into the slot.
fn read_all(
    alloc: Global,
    rule: Canonical,
    ty: &WellTyped,
    octets: &[u8],
    slot: &mut Option<Value>,
) -> Result<(), Refusal>
    requires { IsSomeAccepted ber (ty_view ty.now) octets.now }
    ensures { IsJudged (canonical_rule_of rule) (ty_view ty.now) octets.now slot.new result }
{
    match read_into(alloc, rule, ty, octets, slot) {
        Ok(_) => Ok(()),
        Err(refusal) => match refusal {
            Refusal::NoMemory => Err(Refusal::NoMemory),
            _ => Err(Refusal::NotCanonical),
        },
    }
}
