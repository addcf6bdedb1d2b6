//! The octets that the end of a piece has cut: they are kept, and taken with those that come next.

ghost use Rattle.std.specs.Prelude.{◌≡◌, ◌↔◌, IsTrue, ◌≤◌, ◌++◌, ℕ, List, None, [], length, IfOk, IfErr, OnOk};
ghost use Rattle.types.specs.Refusal.{IsFinal};
ghost use Rattle.berreader.specs.Feeding.{HasBeenFed, HasValue, IsFed, IsGoingOn, IsOfFeeding, IsSoundPieces, IsTakenCut, shape_of};

use crate::pieces::{Pieces, is_missing};
use octets::{Head, Length, read_identifier, read_length};
use types::{Refusal, Value};

impl Pieces<'_> {
    // Takes a piece, behind those octets that are kept until none are. A call of its own, so that a value that is read at
    // once pays nothing for it.
    #[inline(never)]
    pub fn take_on(&mut self, piece: &[u8], whole: &mut Option<Value>) -> Result<usize, Refusal>
        requires accepts { self.old.refused ≡ None }
        requires sound { IsSoundPieces self.old }
        requires whole { whole.old ≡ None }
        ensures going_on { OnOk result (IsGoingOn self.old self.new) }
        ensures there { IfOk result (λ used. used ≤ length piece.now) }
        ensures value { IfOk result (λ used. (octets : List ℕ) → HasBeenFed self.old octets → IsFed self.old self.new octets piece.now whole.new used) }
        ensures never { IfErr result (λ refusal. IsFinal refusal → (octets more : List ℕ) →
            HasBeenFed self.old octets → ¬ HasValue (shape_of self.old) ((octets ++ piece.now) ++ more)) }
        ensures numbers { IfErr result IsOfFeeding }
    {
        let mut at = 0;
        while !self.keeps_none() && at < piece.len() {
            let (_, rest) = piece.split_at(at);
            let count = octets_missing(&self.pending).min(rest.len());
            let (next, _) = rest.split_at(count);
            let left = self.take_cut(next, whole)?;
            match whole {
                None => at += count,
                Some(_) => return Ok((at + count).saturating_sub(left)),
            }
        }
        let (_, rest) = piece.split_at(at);
        let used = self.take_rest(rest, whole)?;
        Ok(at + used)
    }

    // Takes octets behind those that are kept, and returns how many are left: none, unless a value is whole.
    fn take_cut(&mut self, octets: &[u8], whole: &mut Option<Value>) -> Result<usize, Refusal>
        requires accepts { self.old.refused ≡ None }
        requires sound { IsSoundPieces self.old }
        requires whole { whole.old ≡ None }
        ensures going_on { OnOk result (IsGoingOn self.old self.new) }
        ensures value { IfOk result (λ left. (before : List ℕ) → HasBeenFed self.old before →
            IsTakenCut self.old self.new (before ++ octets.now) whole.new left) }
        ensures never { IfErr result (λ refusal. IsFinal refusal → (before more : List ℕ) →
            HasBeenFed self.old before → ¬ HasValue (shape_of self.old) ((before ++ octets.now) ++ more)) }
        ensures numbers { IfErr result IsOfFeeding }
    {
        self.keep(octets)?;
        let used = match self.cursor.step(self.alloc, &self.pending, whole) {
            Ok(used) => used,
            Err(refusal) => {
                if is_missing(refusal) {
                    *whole = None;
                    return Ok(0);
                }
                return Err(refusal);
            }
        };
        if whole.is_some() {
            let left = self.pending.len() - used;
            self.pending.clear();
            return Ok(left);
        }
        let kept = std::mem::replace(&mut self.pending, Vec::new(self.alloc));
        let more = self.take_whole(&kept[used..], whole)?;
        Ok(kept.len() - used - more)
    }

    // Whether no octets are kept.
    pub fn keeps_none(&self) -> bool
        ensures { IsTrue result ↔ (self.now.pending.items ≡ []) }
    {
        self.pending.is_empty()
    }

    // Keeps octets behind those that are kept.
    pub fn keep(&mut self, octets: &[u8]) -> Result<(), Refusal>
        ensures kept { OnOk result (self.new.pending.items ≡ self.old.pending.items ++ octets.now) }
        ensures cursor { self.new.cursor ≡ self.old.cursor }
        ensures refused { self.new.refused ≡ self.old.refused }
        ensures numbers { IfErr result (λ refusal. refusal ≡ Refusal.NoMemory) }
    {
        self.pending.extend_from_slice(octets)?;
        Ok(())
    }
}

// How many octets are surely missing of what a piece's end has cut: at least one.
fn octets_missing(kept: &[u8]) -> usize
    ensures { 1 ≤ result }
{
    let Head::Done { used, .. } = read_identifier(kept) else {
        return 1;
    };
    match read_length(&kept[used..]) {
        Length::Definite {
            octets,
            used: counted,
        } => { (used + counted + octets).saturating_sub(kept.len()).max(1) }
        Length::Indefinite { .. } => usize::MAX,
        Length::More | Length::Bad => 1,
    }
}
