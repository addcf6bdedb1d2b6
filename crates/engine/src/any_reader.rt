//! A reader by the rule that is asked for, which is given octets piece by piece.

ghost use Rattle.std.specs.Prelude.{◌≡◌, ◌≤◌, ℕ, List, [], IsTrue, OnOk, IfOk, length};
ghost use Rattle.octets.specs.Rule.{ber};
ghost use Rattle.types.specs.Shape.{Shape};
ghost use Rattle.types.specs.View.{ty_view};
ghost use Rattle.types.specs.WellFormed.{IsWellFormed};
ghost use Rattle.engine.specs.AnyReader.{read_rule, StandsBy};
ghost use Rattle.engine.specs.Feeding.{IsFed, IsFinished};
ghost use Rattle.engine.specs.Rule.{rule_of};

use crate::strict_reader::StrictReader;
use crate::{Canonical, Rule};
use berreader::Reader;
use std::alloc::Global;
use types::{Refusal, Value, WellTyped};

/// A reader of values of one type by any of the rules.
#[derive(Drop)]
pub enum AnyReader<'a> {
    /// By BER.
    Ber(Reader<'a>),
    /// By CER or DER.
    Strict(StrictReader<'a>),
}

impl<'a> AnyReader<'a> {
    /// A reader by the rule, to which no octet has come.
    pub fn new(alloc: Global, from: Rule, ty: &'a WellTyped) -> Self
        ensures rule { read_rule result ≡ rule_of from }
        ensures fresh { StandsBy (ty_view ty.now) result [] }
        ensures well_formed { IsWellFormed (ty_view ty.now) }
    {
        match from {
            Rule::Ber => AnyReader::Ber(Reader::new(alloc, ty)),
            Rule::Cer => AnyReader::Strict(StrictReader::new(alloc, Canonical::Cer, ty)),
            Rule::Der => AnyReader::Strict(StrictReader::new(alloc, Canonical::Der, ty)),
        }
    }

    /// Takes octets of a piece up to the end of a value, which is then in the slot, in the room of the one that was
    /// there, and returns how many; or takes all of them, and empties the slot: the number then says nothing.
    #[inline(always)]
    pub fn feed(&mut self, piece: &[u8], slot: &mut Option<Value>) -> Result<usize, Refusal>
        requires { (shape : Shape) × (old : List ℕ) × StandsBy shape self.old old }
        ensures used { IfOk result (λ used. used ≤ length piece.now) }
        ensures rule_stays { OnOk result (read_rule self.new ≡ read_rule self.old) }
        ensures fed { (shape : Shape) (old : List ℕ) → StandsBy shape self.old old →
            IsFed (StandsBy shape self.new) (read_rule self.old) shape result slot.new old piece.now }
    {
        match self {
            AnyReader::Ber(reader) => reader.feed_into(piece, slot),
            AnyReader::Strict(reader) => reader.feed(piece, slot),
        }
    }

    /// Whether it reads by BER.
    #[inline(always)]
    pub(crate) fn reads_ber(&self) -> bool
        ensures { IsTrue result → read_rule self.now ≡ ber }
    {
        matches!(self, AnyReader::Ber(_))
    }

    /// Tells whether no value is begun.
    pub fn finish(&self) -> Result<(), Refusal>
        ensures { (shape : Shape) (old : List ℕ) → StandsBy shape self.now old → IsFinished result old }
    {
        match self {
            AnyReader::Ber(reader) => reader.finish(),
            AnyReader::Strict(reader) => reader.finish(),
        }
    }
}
