//! Reads values from octets that come in pieces.

use crate::cursor::Cursor;
use crate::pieces::Pieces;
use berslice::read_whole;
use encoding_parts::clear;
use std::alloc::Global;
use std::marker::Model;
use types::{Refusal, Value, WellTyped};

/// What a reader returns of a piece.
#[derive(Debug, Drop)]
pub enum Step {
    /// The whole piece was taken, and no value is complete.
    More,
    /// A value is complete.
    Done {
        /// The value.
        value: Value,
        /// How many octets of the piece complete it.
        used: usize,
    },
}

/// Reads values of a type under BER (X.690 clause 8), one after another, from octets that come in pieces.
#[derive(Debug, Drop)]
pub struct Reader<'a> {
    pieces: Pieces<'a>,
}

impl<'a> Model for Reader<'a> {
    ghost use Rattle.berreader.specs.declared.pieces.Pieces.{Pieces};
    ghost use Rattle.berreader.specs.contracts.pieces.Pieces as pieces_contract;
    ghost use Rattle.berreader.specs.Feeding.{IsSoundReader};
    ghost use Rattle.std.specs.Prelude.{[]};
    ghost use mir.Syntax.{named};

    ghost Value = { Pieces };

    ghost coded = { (pieces_contract.the_row record { mir = named 1; lft = [] }).coded };

    ghost view = { λ r. r.pieces };

    ghost invariant = { λ r. IsSoundReader r.pieces };
}

impl<'a> Reader<'a> {
    ghost use Rattle.std.specs.Prelude.{◌≡◌, ◌≤◌, ◌↔◌, ◌⊎◌, ◌++◌, ℕ, List, [], None, length, Some, IsOk, IfOk, IfErr, IfSome, OnErr, OnOk, ◌+◌};
    ghost use Rattle.types.specs.Refusal.{IsFinal};
    ghost use Rattle.types.specs.View.{ty_view, value_view};
    ghost use Rattle.types.specs.Weight.{weight_of};
    ghost use Rattle.types.specs.WellFormed.{IsWellFormed};
    ghost use Rattle.types.specs.Encoding.{most_nested};
    ghost use Rattle.berreader.specs.Weight.{IsLight, most_weight, open_encodings, weight_held};
    ghost use Rattle.berreader.specs.Feeding.{EndsStepWithin, HasBeenFed, HasValue, IsFed, IsFedStep, IsFinished, IsFresh, IsOfFeeding, shape_of};

    /// A reader of values of the type, to which no octet has come. It keeps `alloc`, and takes no memory now.
    pub fn new(alloc: Global, ty: &'a WellTyped) -> Reader<'a>
        ensures shape { shape_of result ≡ ty_view ty.now }
        ensures fresh { IsFresh result }
        ensures none { HasBeenFed result [] }
        ensures well_formed { IsWellFormed (ty_view ty.now) }
    {
        Reader {
            pieces: Pieces {
                alloc,
                cursor: Cursor::new(alloc, ty.as_type()),
                pending: Vec::new(alloc),
                refused: None,
                room: Vec::new(alloc),
            },
        }
    }

    /// Takes a piece, from where the one before it ended. `Done` comes with the piece that completes a value, says
    /// how many octets of the piece do, and leaves the reader as it was made; the octets behind them are not
    /// looked at. `More` says that the whole piece was taken. Until a refusal `More` comes of an empty piece, which
    /// changes nothing.
    ///
    /// Refused with one of the refusals 2 to 11 where no octets that begin with those that have come could be
    /// accepted, and with `NoMemory`. After a refusal it comes again, and nothing is taken.
    ///
    /// At most 64 constructed encodings are open at its end. What the reader then holds weighs at most as much as
    /// the type has nodes, times one more than the octets of the value that is begun; so does a value.
    pub fn feed(&mut self, piece: &[u8]) -> Result<Step, Refusal>
        ensures shape { OnOk result (shape_of self.new ≡ shape_of self.old) }
        ensures used { IfOk result (EndsStepWithin (length piece.now)) }
        ensures open { open_encodings self.new ≤ most_nested }
        ensures held { (octets : List ℕ) → HasBeenFed self.new octets → weight_held self.new ≤ most_weight (shape_of self.new) (length octets) }
        ensures light { IfOk result (λ step. (octets : List ℕ) → HasBeenFed self.old octets → IsLight (shape_of self.old) octets step) }
        ensures value { IfOk result (λ step. (octets : List ℕ) → HasBeenFed self.old octets → IsFedStep self.old self.new octets piece.now step) }
        ensures empty { piece.now ≡ [] → self.old.refused ≡ None → (result ≡ Ok Step.More) × (self.new ≡ self.old) }
        ensures never { self.old.refused ≡ None → IfErr result (λ refusal. IsFinal refusal → (octets more : List ℕ) →
            HasBeenFed self.old octets → ¬ HasValue (shape_of self.old) ((octets ++ piece.now) ++ more)) }
        ensures refused { IfErr result (λ refusal. self.new.refused ≡ Some refusal) }
        ensures again { (refusal : Refusal) → self.old.refused ≡ Some refusal → result ≡ Err refusal }
        ensures numbers { IfErr result IsOfFeeding }
    {
        let mut slot = None;
        let used = self.feed_into(piece, &mut slot)?;
        let Some(value) = slot else {
            return Ok(Step::More);
        };
        Ok(Step::Done { value, used })
    }

    /// Takes a piece as `feed` does, which returns `Done` where the slot then holds the value, of which so many octets
    /// of the piece are the last, and `More` where it is empty. The value goes into the room of the one that the slot
    /// held, as far as it has room there; one that pieces cut, into the items of a list alone, which the reader keeps
    /// until then, beside what `held` counts.
    ///
    /// Refused as `feed` refuses. The slot is then empty.
    #[inline(always)]
    pub fn feed_into(&mut self, piece: &[u8], slot: &mut Option<Value>) -> Result<usize, Refusal>
        ensures shape { OnOk result (shape_of self.new ≡ shape_of self.old) }
        ensures used { IfOk result (λ used. used ≤ length piece.now) }
        ensures open { open_encodings self.new ≤ most_nested }
        ensures held { (octets : List ℕ) → HasBeenFed self.new octets → weight_held self.new ≤ most_weight (shape_of self.new) (length octets) }
        ensures light { IfOk result (λ used. IfSome slot.new (λ value. (octets : List ℕ) → HasBeenFed self.old octets → weight_of (value_view value) ≤ most_weight (shape_of self.old) (length octets + used))) }
        ensures value { IfOk result (λ used. (octets : List ℕ) → HasBeenFed self.old octets → IsFed self.old self.new octets piece.now slot.new used) }
        ensures empty { piece.now ≡ [] → self.old.refused ≡ None → (result ≡ Ok 0) × (slot.new ≡ None) × (self.new ≡ self.old) }
        ensures never { self.old.refused ≡ None → IfErr result (λ refusal. IsFinal refusal → (octets more : List ℕ) →
            HasBeenFed self.old octets → ¬ HasValue (shape_of self.old) ((octets ++ piece.now) ++ more)) }
        ensures refused { IfErr result (λ refusal. self.new.refused ≡ Some refusal) }
        ensures none { OnErr result (slot.new ≡ None) }
        ensures again { (refusal : Refusal) → self.old.refused ≡ Some refusal → result ≡ Err refusal }
        ensures numbers { IfErr result IsOfFeeding }
    {
        let pieces = &mut self.pieces;
        if let Some(refusal) = pieces.refused {
            clear(slot);
            return Err(refusal);
        }
        if piece.is_empty() {
            clear(slot);
            return Ok(0);
        }
        if pieces.is_fresh() {
            let ty = pieces.cursor.nest.ty;
            if let Some(used) = read_whole(pieces.alloc, ty, piece, slot, &mut pieces.room) {
                return Ok(used);
            }
        }
        clear(slot);
        let used = match pieces.take_on(piece, slot) {
            Ok(used) => used,
            Err(refusal) => {
                clear(slot);
                pieces.refuse(refusal);
                return Err(refusal);
            }
        };
        Ok(used)
    }

    /// Whether no value is begun; else `Truncated`, or what an earlier piece was refused with. Takes no memory.
    pub fn finish(&self) -> Result<(), Refusal>
        ensures exact { IsOk result ↔ IsFinished self.now }
        ensures refused { IfErr result (λ refusal. (self.now.refused ≡ Some refusal) ⊎ ((self.now.refused ≡ None) × (refusal ≡ Refusal.Truncated))) }
    {
        if let Some(refusal) = self.pieces.refused {
            return Err(refusal);
        }
        if self.pieces.is_fresh() {
            Ok(())
        } else {
            Err(Refusal::Truncated)
        }
    }
}
