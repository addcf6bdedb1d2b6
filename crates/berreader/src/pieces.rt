//! The octets of a value that come in pieces.

ghost use Rattle.std.specs.Prelude.{◌≡◌, ◌↔◌, ◌⊎◌, IsTrue, ◌+◌, ◌<◌, ◌≤◌, ◌++◌, ℕ, List, Some, None, [], length, IfOk, IfErr, IsErr, OnOk};
ghost use Rattle.octets.specs.declared.TheConstants.{MAX_ENCODING};
ghost use Rattle.types.specs.Refusal.{IsFinal};
ghost use Rattle.berreader.specs.Stack.{layers_of};
ghost use Rattle.berreader.specs.Cursor.{taken_of};
ghost use Rattle.berreader.specs.Feeding.{GoesOn, HasBeenFed, HasValue, IsFed, IsGoingOn, IsOfFeeding, IsSoundPieces, IsTakenWhole, shape_of};

use crate::cursor::Cursor;
use berslice::MAX_NESTED;
use octets::MAX_ENCODING;
use std::alloc::Global;
use types::{Refusal, Value};

/// A value whose octets come in pieces.
#[derive(Debug, Drop)]
pub struct Pieces<'a> {
    pub alloc: Global,
    /// What has been taken of the value.
    pub cursor: Cursor<'a>,
    /// The octets of a head, of an encoding without parts, or of a segment, that the end of a piece has cut.
    pub pending: Vec<u8>,
    /// What an earlier piece was refused with.
    pub refused: Option<Refusal>,
    /// The room of a list that was read before, for the next one, with the items that are in it.
    pub room: Vec<Value>,
}

impl<'a> Pieces<'a> {
    // Keeps the refusal, and nothing else. A call of its own, since most pieces are not refused.
    #[inline(never)]
    pub fn refuse(&mut self, refusal: Refusal)
        ensures refused { self.new.refused ≡ Some refusal }
        ensures layers { layers_of self.new.cursor.nest.layers ≡ [] }
        ensures string { self.new.cursor.string ≡ None }
    {
        self.cursor = Cursor::new(self.alloc, self.cursor.nest.ty);
        self.pending = Vec::new(self.alloc);
        self.room = Vec::new(self.alloc);
        self.refused = Some(refusal);
    }

    // Whether no octet of a value has been taken, and none are kept.
    pub fn is_fresh(&self) -> bool
        ensures { IsTrue result ↔ (self.now.cursor.nest.taken ≡ 0) × (self.now.cursor.string ≡ None) × (self.now.pending.items ≡ []) }
    {
        let cursor = &self.cursor;
        cursor.nest.taken == 0 && cursor.string.is_none() && self.pending.is_empty()
    }

    // Takes octets, where none are kept, or there are none to take.
    pub fn take_rest(&mut self, octets: &[u8], whole: &mut Option<Value>) -> Result<usize, Refusal>
        requires accepts { self.old.refused ≡ None }
        requires sound { IsSoundPieces self.old }
        requires whole { whole.old ≡ None }
        requires either { (self.old.pending.items ≡ []) ⊎ (octets.now ≡ []) }
        ensures going_on { OnOk result (IsGoingOn self.old self.new) }
        ensures there { IfOk result (λ used. used ≤ length octets.now) }
        ensures value { IfOk result (λ used. (before : List ℕ) → HasBeenFed self.old before → IsFed self.old self.new before octets.now whole.new used) }
        ensures never { IfErr result (λ refusal. IsFinal refusal → (before more : List ℕ) →
            HasBeenFed self.old before → ¬ HasValue (shape_of self.old) ((before ++ octets.now) ++ more)) }
        ensures numbers { IfErr result IsOfFeeding }
    {
        if !self.keeps_none() {
            return self.more(octets.len());
        }
        let used = self.take_whole(octets, whole)?;
        match whole {
            None => self.more(used),
            Some(_) => Ok(used),
        }
    }

    // Takes the whole steps at the front, up to a value that is whole, and returns how many octets were taken. Of a list
    // it takes many items at once. Where no value is whole, it keeps the rest.
    pub fn take_whole(&mut self, octets: &[u8], whole: &mut Option<Value>) -> Result<usize, Refusal>
        requires accepts { self.old.refused ≡ None }
        requires sound { IsSoundPieces self.old }
        requires whole { whole.old ≡ None }
        requires kept { self.old.pending.items ≡ [] }
        ensures going_on { OnOk result (IsGoingOn self.old self.new) }
        ensures there { IfOk result (λ used. used ≤ length octets.now) }
        ensures value { IfOk result (λ used. (before : List ℕ) → GoesOn self.old.cursor before octets.now →
            IsTakenWhole self.old self.new before octets.now whole.new used) }
        ensures never { IfErr result (λ refusal. IsFinal refusal → (before more : List ℕ) →
            GoesOn self.old.cursor before octets.now → ¬ HasValue (shape_of self.old) (before ++ (octets.now ++ more))) }
        ensures numbers { IfErr result IsOfFeeding }
    {
        let mut at = 0;
        let mut stepped = MAX_NESTED;
        loop {
            at += self
                .cursor
                .take_items(self.alloc, &octets[at..], &mut stepped, &mut self.room);
            let rest = &octets[at..];
            match self.cursor.step(self.alloc, rest, whole) {
                Ok(used) => match whole {
                    None => at += used,
                    Some(_) => return Ok(at + used),
                },
                Err(refusal) => {
                    if !is_missing(refusal) {
                        return Err(refusal);
                    }
                    *whole = None;
                    self.keep(rest)?;
                    return Ok(octets.len());
                }
            }
        }
    }

    // No value is whole, and so many octets of a piece were taken: there may be more, unless there are too
    // many already.
    fn more(&self, used: usize) -> Result<usize, Refusal>
        requires { taken_of self.now.cursor ≤ MAX_ENCODING }
        ensures few { OnOk result (taken_of self.now.cursor + length self.now.pending.items ≤ MAX_ENCODING) }
        ensures used { IfOk result (λ n. n ≡ used) }
        ensures many { IsErr result → MAX_ENCODING < taken_of self.now.cursor + length self.now.pending.items }
        ensures numbers { IfErr result (λ refusal. refusal ≡ Refusal.TooLong) }
    {
        if self.pending.len() > MAX_ENCODING - self.cursor.taken() {
            Err(Refusal::TooLong)
        } else {
            Ok(used)
        }
    }
}

// Whether octets are missing.
pub fn is_missing(refusal: Refusal) -> bool
    ensures { IsTrue result ↔ (refusal ≡ Refusal.Truncated) }
{
    refusal == Refusal::Truncated
}
