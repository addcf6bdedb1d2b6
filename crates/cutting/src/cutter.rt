//! A stream in files, its octets unchanged.

ghost use Rattle.std.specs.Prelude.{◌≡◌, ◌≢◌, ◌+◌, ◌^◌, ◌≤◌, ◌↔◌, ℕ, List, [], ◌∷◌, Option, None, IfSome, IsOk, IfErr, OnOk, length, take};
ghost use Rattle.std.specs.Io.KnownBytes.{Appends};
ghost use Rattle.cutting.specs.Refused.{IsOfCutting};
ghost use Rattle.cutting.specs.Inside.{IsInside, came};
ghost use Rattle.cutting.specs.Streams.{AreEndedBetween, Passes, NeverBetween};

use crate::Ends;
use devices::Failed;
use types::Refusal;

/// Files that are written one after another.
pub trait Outputs {
    // The octets of all files, one file behind another, where the files tell them.
    ghost taken: { Self → Option (List ℕ) };
    // How many octets all files had wherever one was ended, where the files tell it.
    ghost cuts: { Self → Option (List ℕ) } = { λ _. None };

    /// Ends the file that is written, if there is one. What is written next goes to another one.
    fn end_file(&mut self) -> Result<(), Failed>
        ensures taken { OnOk result (taken self.new ≡ taken self.old) }
        ensures cuts { OnOk result (IfSome (taken self.old) (λ all. Appends (cuts self.old) (cuts self.new) (length all ∷ []))) };

    /// Writes all octets to the file, which is made first if there is none.
    fn write(&mut self, octets: &[u8]) -> Result<(), Failed>
        ensures taken { OnOk result (Appends (taken self.old) (taken self.new) octets.now) }
        ensures cuts { OnOk result (cuts self.new ≡ cuts self.old) };
}

/// Why a stream is not cut to its end.
#[derive(Clone, Copy, Debug, PartialEq, Eq)]
pub enum CutFault {
    /// No encoding stands there.
    Refused(Refusal),
    /// A file cannot be made or written.
    Output,
}

/// Cuts a stream that comes in pieces.
#[derive(Drop)]
pub struct Cutter<K> {
    /// The files.
    pub outputs: K,
    /// How many octets a file has at least, but the last.
    pub least: u64,
    // how many octets the file has
    written: u64,
    // how many octets have been passed up to the end of the last encoding
    ended: u64,
    ends: Ends,
}

impl<K: Outputs> Cutter<K> {
    /// Nothing has been cut.
    pub fn new(outputs: K, least: u64) -> Cutter<K>
        ensures { (result.outputs ≡ outputs) × (result.least ≡ least) × (came result.ends ≡ 0) × (result.ended ≡ 0) × ¬ IsInside result }
    {
        Cutter {
            outputs,
            least,
            written: 0,
            ended: 0,
            ends: Ends::new(),
        }
    }

    /// How many octets have been passed, those of a head that is cut or refused left out.
    pub fn passed(&self) -> u64
        ensures { result ≡ self.now.ends.passed }
    {
        self.ends.passed()
    }

    /// How many octets have been passed before the encoding that is begun, or would begin next.
    pub fn ended(&self) -> u64
        ensures { result ≡ self.now.ended }
    {
        self.ended
    }

    /// Writes a piece of the stream, and ends a file behind each encoding with which it has so many octets. Where no
    /// encoding stands, what is before is written.
    pub fn take(&mut self, piece: &[u8]) -> Result<(), CutFault>
        ensures whole { OnOk result (Appends (K.taken self.old.outputs) (K.taken self.new.outputs) piece.now) }
        ensures front { IfErr result (λ fault. (refusal : Refusal) → fault ≡ CutFault.Refused refusal →
            (n : ℕ) × (n ≤ length piece.now) × Appends (K.taken self.old.outputs) (K.taken self.new.outputs) (take n piece.now)) }
        ensures between { OnOk result (IfSome (K.taken self.old.outputs) (λ all.
            AreEndedBetween self.old.ends piece.now (length all) (K.cuts self.old.outputs) (K.cuts self.new.outputs))) }
        ensures passed { OnOk result (Passes self.old.ends self.new.ends piece.now) }
        ensures counted { OnOk result (came self.new.ends ≡ came self.old.ends + length piece.now) }
        ensures never { IfErr result (λ fault. (refusal : Refusal) → fault ≡ CutFault.Refused refusal →
            refusal ≢ Refusal.StreamTooLong → NeverBetween self.old.ends piece.now) }
        ensures too_long { IfErr result (λ fault. fault ≡ CutFault.Refused Refusal.StreamTooLong →
            2 ^ 64 ≤ came self.old.ends + length piece.now) }
        ensures numbers { IfErr result IsOfCutting }
        ensures least { self.new.least ≡ self.old.least }
    {
        let mut from = 0;
        let mut at = 0;
        while at < piece.len() {
            match self.ends.take(&piece[at..]) {
                Ok(Some(used)) => {
                    at += used;
                    self.ended = self.ends.passed();
                }
                Ok(None) => return self.write(&piece[from..]),
                Err(refusal) => {
                    self.write(&piece[from..at])?;
                    return Err(CutFault::Refused(refusal));
                }
            }
            if self.is_full(at - from) {
                self.write(&piece[from..at])?;
                self.end_file()?;
                from = at;
            }
        }
        self.write(&piece[from..])
    }

    /// Tells whether the stream may end here.
    pub fn finish(&self) -> Result<(), CutFault>
        ensures exact { IsOk result ↔ ¬ IsInside self.now }
        ensures numbers { IfErr result (λ fault. fault ≡ CutFault.Refused Refusal.Truncated) }
    {
        if self.ends.is_inside() {
            return Err(CutFault::Refused(Refusal::Truncated));
        }
        Ok(())
    }

    // Whether the file has enough octets, with so many more.
    fn is_full(&self, more: usize) -> bool {
        self.written.saturating_add(more as u64) >= self.least
    }

    fn write(&mut self, octets: &[u8]) -> Result<(), CutFault>
        ensures taken { OnOk result (Appends (K.taken self.old.outputs) (K.taken self.new.outputs) octets.now) }
        ensures cuts { OnOk result (K.cuts self.new.outputs ≡ K.cuts self.old.outputs) }
        ensures ends { (self.new.ends ≡ self.old.ends) × (self.new.ended ≡ self.old.ended) }
        ensures numbers { IfErr result (λ fault. fault ≡ CutFault.Output) }
        ensures least { self.new.least ≡ self.old.least }
    {
        match self.outputs.write(octets) {
            Ok(()) => {
                self.written = self.written.saturating_add(octets.len() as u64);
                Ok(())
            }
            Err(_) => Err(CutFault::Output),
        }
    }

    fn end_file(&mut self) -> Result<(), CutFault>
        ensures taken { OnOk result (K.taken self.new.outputs ≡ K.taken self.old.outputs) }
        ensures cuts { OnOk result (IfSome (K.taken self.old.outputs) (λ all.
            Appends (K.cuts self.old.outputs) (K.cuts self.new.outputs) (length all ∷ []))) }
        ensures ends { (self.new.ends ≡ self.old.ends) × (self.new.ended ≡ self.old.ended) }
        ensures numbers { IfErr result (λ fault. fault ≡ CutFault.Output) }
        ensures least { self.new.least ≡ self.old.least }
    {
        match self.outputs.end_file() {
            Ok(()) => {
                self.written = 0;
                Ok(())
            }
            Err(_) => Err(CutFault::Output),
        }
    }
}
