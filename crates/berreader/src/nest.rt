//! The open encodings of a value that is being read, each inside the next, and the steps by which it is
//! read, from one part to the next.

ghost use Rattle.std.specs.Prelude.{◌≡◌, ◌≢◌, ◌≤◌, ◌++◌, ℕ, List, [], take, length, IfOk, IfErr, OnOk, OnErr, None};
ghost use Rattle.types.specs.Refusal.{IsFinal, IsOfReading};
ghost use Rattle.encoding_parts.specs.Refuses.{Refuses};
ghost use Rattle.berreader.specs.Stack.{layers_of};
ghost use Rattle.berreader.specs.Cut.{IsNestCut};
ghost use Rattle.berreader.specs.Nest.{CanFinish, EndsInside, IsEndHere, IsEndInside, IsSoundNest, IsStep};
ghost use Rattle.berreader.specs.Strings.{IsClosed, IsFound, IsSoundString, IsString};

use crate::stack::{Open, Stack};
use encoding_parts::{SegmentKind, Segments, read_end, refusal_inside};
use octets::Tag;
use std::alloc::Global;
use types::{Refusal, Ty, Value};

/// Behind so many octets of a value, a list that ends gives back the room that it does not need.
const MOST_KEPT: usize = 4096;

/// A value that is being read.
#[derive(Debug, Drop)]
pub struct Nest<'a> {
    /// Its type.
    pub ty: &'a Ty,
    /// The encodings of it that are open.
    pub layers: Stack<'a>,
    /// How many octets of the value have been taken.
    pub taken: usize,
}

/// The part that comes next, as its identifier octets say.
#[derive(Clone, Copy, Debug)]
pub struct Next<'a> {
    /// Its tag.
    pub tag: Tag,
    /// Whether its encoding is constructed.
    pub constructed: bool,
    /// How many identifier octets there are.
    pub identifier: usize,
    /// Which part it is of what is open.
    pub which: usize,
    /// Its type.
    pub ty: &'a Ty,
    /// The type itself, or the alternative of a CHOICE that begins with the tag.
    pub node: &'a Ty,
}

/// A constructed string that has begun.
#[derive(Debug, Drop)]
pub struct OpenString<'a> {
    /// The part that it is.
    pub next: Next<'a>,
    /// Which strings its segments are.
    pub kind: SegmentKind,
    /// What has come of it.
    pub segments: Segments,
}

impl<'a> Nest<'a> {
    // Takes what stands next, and returns how many octets it has: the end of the innermost open encoding, a
    // part without parts, or the identifier octets and length octets of another. A constructed string is begun
    // in `string`: its identifier octets and length octets are counted, and the nest stays before them. A
    // value that is whole with them is put into `whole`.
    pub fn step(
        &mut self,
        alloc: Global,
        octets: &[u8],
        string: &mut Option<OpenString<'a>>,
        whole: &mut Option<Value>,
    ) -> Result<usize, Refusal>
        requires sound { IsSoundNest self.old }
        requires none { string.old ≡ None }
        requires whole { whole.old ≡ None }
        ensures taken { IfOk result (λ used. IsFound self.old self.new octets.now string.new whole.new used) }
        ensures sound { OnOk result (IsSoundNest self.new) }
        ensures refused { IfErr result (Refuses (CanFinish self.old) (IsNestCut self.old) octets.now) }
        ensures unchanged { result ≡ Err Refusal.Truncated → self.new ≡ self.old }
        ensures kept { OnErr result (string.new ≡ None) }
    {
        match self.end_here(octets)? {
            Some(used) => self.close(alloc, used, whole),
            None => match self.part(alloc, octets, string, whole) {
                Ok(used) => Ok(used),
                Err(refusal) => Err(self.refusal_inside(refusal)),
            },
        }
    }

    // Takes a constructed string whose last end has come. All octets of it are counted.
    pub fn close_string(
        &mut self,
        alloc: Global,
        string: OpenString<'a>,
        whole: &mut Option<Value>,
    ) -> Result<usize, Refusal>
        requires sound { IsSoundNest self.old }
        requires whole { whole.old ≡ None }
        requires string { IsSoundString self.old string }
        requires closed { string.segments.frames.items ≡ [] }
        ensures taken { IfOk result (λ used. (passed : List ℕ) → IsString self.old string.entry passed →
            IsClosed self.old self.new passed whole.new used) }
        ensures sound { OnOk result (IsSoundNest self.new) }
        ensures layers { OnOk result (length (layers_of self.new.layers) ≤ length (layers_of self.old.layers)) }
        ensures never { IfErr result (λ refusal. IsFinal refusal → (passed more : List ℕ) →
            IsString self.old string.entry passed → ¬ CanFinish self.old (passed ++ more)) }
        ensures numbers { IfErr result (λ refusal. IsOfReading refusal × (refusal ≢ Refusal.Truncated)) }
    {
        let OpenString {
            next,
            kind: _,
            segments,
        } = string;
        let used = segments.taken - self.taken;
        let value = segments.joined.into_value(next.node)?;
        self.layers.set_which(next.which);
        Ok(self.place_value(alloc, next.ty, next.tag, value, used, whole)?)
    }

    // How many octets the end of the innermost open encoding has, if it ends here.
    fn end_here(&self, octets: &[u8]) -> Result<Option<usize>, Refusal>
        requires { IsSoundNest self.now }
        ensures value { IfOk result (IsEndHere self.now octets.now) }
        ensures refused { IfErr result (Refuses (CanFinish self.now) (IsNestCut self.now) octets.now) }
    {
        match self.layers.top() {
            Some(open) => read_end(open.frame, self.taken, octets),
            None => Ok(None),
        }
    }

    // Ends the innermost open encoding.
    fn close(
        &mut self,
        alloc: Global,
        used: usize,
        whole: &mut Option<Value>,
    ) -> Result<usize, Refusal>
        requires sound { IsSoundNest self.old }
        requires whole { whole.old ≡ None }
        requires ends { (octets : List ℕ) × (used ≤ length octets) × IsEndInside (layers_of self.old.layers) self.old.taken (take used octets) }
        ensures taken { IfOk result (λ n. (octets : List ℕ) → used ≤ length octets →
            IsEndInside (layers_of self.old.layers) self.old.taken (take used octets) → IsStep self.old self.new octets whole.new n) }
        ensures sound { OnOk result (IsSoundNest self.new) }
        ensures never { IfErr result (λ refusal. IsFinal refusal → (octets : List ℕ) →
            EndsInside (layers_of self.old.layers) self.old.taken octets → ¬ CanFinish self.old octets) }
        ensures numbers { IfErr result (λ refusal. IsOfReading refusal × (refusal ≢ Refusal.Truncated)) }
    {
        let Some(open) = self.layers.pop() else {
            return Err(Refusal::EndOfContents);
        };
        let Open {
            frame,
            tag,
            ty,
            held_parts,
            which: _,
        } = open;
        let value = held_parts.into_value(frame.definite, self.taken > MOST_KEPT)?;
        Ok(self.place_value(alloc, ty, tag, value, used, whole)?)
    }

    // Why a part is refused: one that goes on too long inside a definite encoding passes its end.
    pub fn refusal_inside(&self, refusal: Refusal) -> Refusal
        ensures truncated { result ≡ Refusal.Truncated → refusal ≡ Refusal.Truncated }
        ensures never { IsFinal result → IsFinal refusal }
        ensures numbers { IsOfReading refusal → IsOfReading result }
    {
        refusal_inside(self.layers.any_definite(), refusal)
    }
}
