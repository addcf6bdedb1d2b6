//! A constructed string, read part by part.

ghost use Rattle.std.specs.Prelude.{◌≡◌, ◌≢◌, ◌↔◌, IsTrue, ◌+◌, ◌<◌, ◌≤◌, ◌++◌, ℕ, List, [], true, false, take, length, IfOk, IfErr, IfSome, OnOk, MatchOption, ◌⊎◌};
ghost use Rattle.types.specs.Refusal.{IsFinal, IsOfReading};
ghost use Rattle.encoding_parts.specs.Completing.{IsEndOf};
ghost use Rattle.encoding_parts.specs.Cut.{Advances, IsCutInside, IsEndCut, IsStringCut};
ghost use Rattle.encoding_parts.specs.Head.{IsPrimitiveAt};
ghost use Rattle.encoding_parts.specs.Joined.{segment_of};
ghost use Rattle.encoding_parts.specs.Refuses.{Refuses};
ghost use Rattle.encoding_parts.specs.Segments.{BeginsAboveZero, CanComplete, EndsAt, IsOpened, IsRun, IsSegmentDue, IsShortSegment, IsSound, IsTaken, IsTop, Passes};

use crate::frame::{Frame, INLINE_FRAMES, close, open, top};
use crate::head::{END_OF_CONTENTS, read_tag, refusal_inside};
use crate::joined::{Joined, SegmentKind, segment_tag};
use crate::parts::{read_contents_place, read_opening};
use crate::short::short_primitive;
use smallvec::SmallVec;
use std::alloc::Global;
use types::Refusal;

/// A constructed string whose parts are being read.
#[derive(Debug, Drop)]
pub struct Segments {
    /// The open encodings, the outermost first.
    pub frames: SmallVec<Frame, INLINE_FRAMES>,
    /// How many of them may nest.
    pub levels: usize,
    /// How many octets have been taken, counted from the front of the outermost encoding.
    pub taken: usize,
    /// The string so far.
    pub joined: Joined,
}

impl Segments {
    // A string of which only this encoding's identifier octets and length octets have been taken.
    pub(crate) fn new(
        alloc: Global,
        levels: usize,
        frame: Frame,
        taken: usize,
    ) -> Result<Segments, Refusal>
        ensures opened { IfOk result (λ segments. IsOpened levels frame taken segments) }
        ensures numbers { IfErr result (λ refusal. refusal ≡ Refusal.NoMemory) }
    {
        let mut frames = SmallVec::new(alloc);
        match open(&mut frames, frame) {
            Ok(()) => Ok(Segments {
                frames,
                levels,
                taken,
                joined: Joined::new(alloc),
            }),
            Err(_) => Err(Refusal::NoMemory),
        }
    }

    /// Whether the last of its ends has come. Takes no memory.
    pub fn is_closed(&self) -> bool
        ensures { IsTrue result ↔ (self.now.frames.items ≡ []) }
    {
        self.frames.is_empty()
    }

    /// Takes what stands next at the front of `octets`, and returns how many octets it has: the end of the
    /// innermost open encoding, a primitive segment or several that two octets each stand before, or the identifier
    /// octets and length octets of a constructed one (X.690 8.6.4 and 8.7.3). After `Truncated` nothing has been taken.
    ///
    /// Refused with `Truncated` where octets are missing, with another of the refusals 2 to 11 where no octets
    /// after these complete the string, and with `NoMemory`: what is joined takes memory, and so do more than
    /// eight open encodings.
    #[inline(always)]
    pub fn pass(&mut self, kind: SegmentKind, octets: &[u8]) -> Result<usize, Refusal>
        requires open { self.old.frames.items ≢ [] }
        requires sound { IsSound kind self.old }
        ensures taken { IfOk result (λ used. IsTaken kind self.old self.new octets.now used) }
        ensures sound { OnOk result (IsSound kind self.new) }
        ensures smaller { IfOk result (λ used.
            length self.new.frames.items < length self.old.frames.items + used) }
        ensures truncated { result ≡ Err Refusal.Truncated →
            ¬ CanComplete kind self.old octets.now }
        ensures cut { result ≡ Err Refusal.Truncated → IsStringCut kind self.old octets.now }
        ensures never { IfErr result (λ refusal. IsFinal refusal → (more : List ℕ) →
            ¬ CanComplete kind self.old (octets.now ++ more)) }
        ensures unchanged { result ≡ Err Refusal.Truncated → self.new ≡ self.old }
        ensures numbers { IfErr result IsOfReading }
    {
        let Some(frame) = top(&self.frames) else {
            return Ok(0);
        };
        match self.step(kind, frame, octets) {
            Ok(used) => Ok(used),
            Err(refusal) => {
                let is_inside_definite = self.frames.iter().any(|frame| frame.definite);
                Err(refusal_inside(is_inside_definite, refusal))
            }
        }
    }

    // Takes what stands next in the innermost open encoding, and returns how many octets it has: its
    // end, a primitive segment, or the identifier octets and length octets of a constructed one.
    #[inline(always)]
    fn step(&mut self, kind: SegmentKind, frame: Frame, octets: &[u8]) -> Result<usize, Refusal>
        requires top { IsTop frame self.old.frames.items }
        requires sound { IsSound kind self.old }
        ensures passed { IfOk result (Passes kind self.old self.new octets.now) }
        ensures refused { IfErr result (Refuses (CanComplete kind self.old) (IsCutInside kind self.old frame) octets.now) }
        ensures unchanged { result ≡ Err Refusal.Truncated → self.new ≡ self.old }
    {
        match read_end(frame, self.taken, octets) {
            Ok(Some(used)) => {
                close(&mut self.frames);
                self.taken += used;
                Ok(used)
            }
            Ok(None) => self.segment(kind, frame, octets),
            Err(refusal) => Err(refusal),
        }
    }

    // Takes a primitive segment, or the beginning of a constructed one.
    #[inline(always)]
    fn segment(&mut self, kind: SegmentKind, frame: Frame, octets: &[u8]) -> Result<usize, Refusal>
        requires top { IsTop frame self.old.frames.items }
        requires sound { IsSound kind self.old }
        requires no_end { (more : List ℕ) →
            ¬ EndsAt frame self.old.taken (octets.now ++ more) }
        ensures passed { IfOk result (Passes kind self.old self.new octets.now) }
        ensures refused { IfErr result (Refuses (CanComplete kind self.old) (IsCutInside kind self.old frame) octets.now) }
        ensures unchanged { result ≡ Err Refusal.Truncated → self.new ≡ self.old }
    {
        if let Some(end) = self.short(kind, frame, octets) {
            let used = self.join(kind, frame, octets, &octets[2..end], end)?;
            return Ok(used + self.join_run(kind, frame, &octets[used..]));
        }
        let (constructed, identifier) = read_tag(segment_tag(kind), frame.end, self.taken, octets)?;
        if self.joined.unused != 0 {
            return Err(Refusal::Contents);
        }
        if constructed {
            return self.constructed(kind, frame, identifier, octets);
        }
        let (start, end) = read_contents_place(frame.end, self.taken, identifier, octets)?;
        self.join(kind, frame, octets, &octets[start..end], end)
    }

    // How many octets the primitive segment at the front has, if two octets stand before its contents octets.
    #[inline(always)]
    fn short(&self, kind: SegmentKind, frame: Frame, octets: &[u8]) -> Option<usize>
        ensures { IfSome result (IsShortSegment kind self.now frame octets.now) }
    {
        if self.joined.unused > 0 {
            return None;
        }
        let room = frame.end.saturating_sub(self.taken);
        short_primitive(segment_tag(kind), room, octets)
    }

    // Takes the short primitive segments that follow one another at the front, and returns how many octets they have.
    // One that is refused, or for which there is no memory, is left to the call that finds it first, which says why.
    fn join_run(&mut self, kind: SegmentKind, frame: Frame, octets: &[u8]) -> usize
        requires top { IsTop frame self.old.frames.items }
        requires sound { IsSound kind self.old }
        ensures run { IsRun kind self.old self.new octets.now result }
    {
        let mut at = 0;
        while let Some(end) = self.short(kind, frame, &octets[at..]) {
            match self.joined.join(kind, &octets[at + 2..at + end]) {
                Ok(()) => {
                    self.taken += end;
                    at += end;
                }
                Err(_) => break,
            }
        }
        at
    }

    // Takes the primitive segment of these contents octets, which ends behind so many octets.
    #[inline(always)]
    fn join(
        &mut self,
        kind: SegmentKind,
        frame: Frame,
        octets: &[u8],
        contents: &[u8],
        end: usize,
    ) -> Result<usize, Refusal>
        requires due { (identifier : ℕ) × IsSegmentDue kind self.old frame octets.now false identifier }
        requires place { IsPrimitiveAt (segment_of kind) frame.end self.old.taken octets.now contents.now end }
        ensures { Advances kind self.old self.new frame octets.now result }
    {
        self.joined.join(kind, contents)?;
        self.taken += end;
        Ok(end)
    }

    // Takes the length octets of a constructed segment, and opens it.
    fn constructed(
        &mut self,
        kind: SegmentKind,
        frame: Frame,
        identifier: usize,
        octets: &[u8],
    ) -> Result<usize, Refusal>
        requires due { IsSegmentDue kind self.old frame octets.now true identifier }
        ensures passed { IfOk result (Passes kind self.old self.new octets.now) }
        ensures refused { IfErr result (Refuses (CanComplete kind self.old) (IsCutInside kind self.old frame) octets.now) }
        ensures unchanged { result ≡ Err Refusal.Truncated → self.new ≡ self.old }
    {
        if self.frames.len() >= self.levels {
            return Err(Refusal::TooDeep);
        }
        let after = self.taken + identifier;
        let (used, opened) = read_opening(frame.end, after, &octets[identifier..])?;
        match open(&mut self.frames, opened) {
            Ok(()) => {
                self.taken = after + used;
                Ok(identifier + used)
            }
            Err(_) => Err(Refusal::NoMemory),
        }
    }
}

/// How many octets the end of the open encoding has, if it ends at the front of `octets`, with `taken` octets
/// before them: none in the definite form, and two in the indefinite one (X.690 8.1.5).
///
/// Refused with `Truncated` where octets are missing, and with `EndOfContents` where the octet 00 begins no end
/// that fits. Takes no memory.
pub fn read_end(frame: Frame, taken: usize, octets: &[u8]) -> Result<Option<usize>, Refusal>
    ensures value { IfOk result (λ found. MatchOption found
        ((more : List ℕ) → ¬ EndsAt frame taken (octets.now ++ more))
        (λ used. (used ≤ length octets.now) × IsEndOf frame taken (take used octets.now))) }
    ensures truncated { result ≡ Err Refusal.Truncated →
        ¬ (EndsAt frame taken octets.now ⊎ BeginsAboveZero octets.now) }
    ensures cut { result ≡ Err Refusal.Truncated → IsEndCut frame taken octets.now }
    ensures never { IfErr result (λ refusal. IsFinal refusal → (more : List ℕ) →
        ¬ (EndsAt frame taken (octets.now ++ more) ⊎ BeginsAboveZero (octets.now ++ more))) }
    ensures numbers { IfErr result IsOfReading }
{
    if frame.definite {
        return Ok(if taken == frame.end { Some(0) } else { None });
    }
    let fits = taken <= frame.end;
    let Some((&first, others)) = octets.split_first() else {
        return if fits {
            Err(Refusal::Truncated)
        } else {
            Ok(None)
        };
    };
    if first != 0 {
        return Ok(None);
    }
    match others.first() {
        Some(0) if fits => Ok(Some(END_OF_CONTENTS)),
        None if fits => Err(Refusal::Truncated),
        _ => Err(Refusal::EndOfContents),
    }
}
