//! The part that stands next in the innermost open encoding: one without parts is taken, and another is opened.

ghost use Rattle.std.specs.Prelude.{◌≡◌, ◌++◌, ℕ, List, true, false, IfOk, IfErr, OnOk, OnErr, None};
ghost use Rattle.types.specs.Leaf.{IsLeaf};
ghost use Rattle.types.specs.Shape.{Shape};
ghost use Rattle.types.specs.View.{ty_view};
ghost use Rattle.berreader.specs.Stack.{layers_of};
ghost use Rattle.encoding_parts.specs.HeldParts.{IsOfDue};
ghost use Rattle.encoding_parts.specs.Refuses.{Refuses};
ghost use Rattle.berreader.specs.Cut.{IsNestCut};
ghost use Rattle.berreader.specs.Nest.{end_inside, BeginsNext, CanFinish, EndsInside, IsPartNext, IsSoundNest, IsStep, IsTaken};
ghost use Rattle.berreader.specs.Strings.{IsFound};

use crate::nest::{Nest, Next, OpenString};
use crate::stack::Open;
use berslice::MAX_NESTED;
use encoding_parts::{
    OUTSIDE, begin_string, begins, held_parts_of, node_within, not_due, read_head_tag, read_leaf,
    read_opening,
};
use octets::Tag;
use std::alloc::Global;
use types::{Refusal, Ty, Value};

impl<'a> Nest<'a> {
    // Takes a part without parts, or the beginning of another. A constructed string is begun in `string`.
    pub fn part(
        &mut self,
        alloc: Global,
        octets: &[u8],
        string: &mut Option<OpenString<'a>>,
        whole: &mut Option<Value>,
    ) -> Result<usize, Refusal>
        requires sound { IsSoundNest self.old }
        requires no_end { (more : List ℕ) →
            ¬ EndsInside (layers_of self.old.layers) self.old.taken (octets.now ++ more) }
        requires none { string.old ≡ None }
        requires whole { whole.old ≡ None }
        ensures taken { IfOk result (λ used. IsFound self.old self.new octets.now string.new whole.new used) }
        ensures sound { OnOk result (IsSoundNest self.new) }
        ensures refused { IfErr result (Refuses (CanFinish self.old) (IsNestCut self.old) octets.now) }
        ensures unchanged { result ≡ Err Refusal.Truncated → self.new ≡ self.old }
        ensures kept { OnErr result (string.new ≡ None) }
    {
        let next = self.next(octets)?;
        if !next.node.has_no_parts() {
            self.open(alloc, next, octets)
        } else if next.constructed {
            self.begin(alloc, next, octets, string)
        } else {
            self.leaf(alloc, next, octets, whole)
        }
    }

    // The part whose identifier octets stand at the front.
    fn next(&self, octets: &[u8]) -> Result<Next<'a>, Refusal>
        requires sound { IsSoundNest self.now }
        requires no_end { (more : List ℕ) →
            ¬ EndsInside (layers_of self.now.layers) self.now.taken (octets.now ++ more) }
        ensures value { IfOk result (IsPartNext self.now octets.now) }
        ensures refused { IfErr result (Refuses (CanFinish self.now) (IsNestCut self.now) octets.now) }
    {
        let (tag, constructed, identifier) = read_head_tag(self.end(), self.taken, octets)?;
        let (which, ty) = self.due(tag)?;
        let Some(node) = node_within(ty, tag) else {
            return Err(Refusal::Identifier);
        };
        Ok(Next {
            tag,
            constructed,
            identifier,
            which,
            ty,
            node,
        })
    }

    // Which part may come next that begins with the tag, and its type.
    fn due(&self, tag: Tag) -> Result<(usize, &'a Ty), Refusal>
        ensures value { IfOk result (λ p. BeginsNext self.now tag p.0 (ty_view p.1.now)) }
        ensures never { IfErr result (λ refusal. (which : ℕ) (type : Shape) → ¬ BeginsNext self.now tag which type) }
        ensures numbers { IfErr result IsOfDue }
    {
        match self.layers.top() {
            Some(open) => open.held_parts.due(tag),
            None if begins(self.ty, tag) => Ok((0, self.ty)),
            None => Err(not_due(tag)),
        }
    }

    // Where the parts of the innermost open encoding end.
    fn end(&self) -> usize
        ensures { result ≡ end_inside (layers_of self.now.layers) }
    {
        match self.layers.top() {
            Some(open) => open.frame.end,
            None => OUTSIDE.end,
        }
    }

    // Begins the constructed string at the front in `string`, and returns how many identifier octets and length
    // octets it has. A call of its own, since a string is large and the callers have other parts mostly.
    #[inline(never)]
    fn begin(
        &self,
        alloc: Global,
        next: Next<'a>,
        octets: &[u8],
        string: &mut Option<OpenString<'a>>,
    ) -> Result<usize, Refusal>
        requires next { IsPartNext self.now octets.now next }
        requires none { string.old ≡ None }
        requires leaf { IsLeaf (ty_view next.node.now) }
        requires constructed { next.constructed ≡ true }
        ensures begun { IfOk result (λ used. IsFound self.now self.now octets.now string.new None used) }
        ensures refused { IfErr result (Refuses (CanFinish self.now) (IsNestCut self.now) octets.now) }
        ensures kept { OnErr result (string.new ≡ None) }
    {
        let levels = MAX_NESTED - self.layers.depth();
        let (kind, segments, used) = begin_string(
            alloc,
            next.node,
            next.identifier,
            self.end(),
            self.taken,
            levels,
            octets,
        )?;
        *string = Some(OpenString {
            next,
            kind,
            segments,
        });
        Ok(used)
    }

    // Takes the primitive encoding of a part without parts.
    fn leaf(
        &mut self,
        alloc: Global,
        next: Next<'a>,
        octets: &[u8],
        whole: &mut Option<Value>,
    ) -> Result<usize, Refusal>
        requires next { IsPartNext self.old octets.now next }
        requires whole { whole.old ≡ None }
        requires leaf { IsLeaf (ty_view next.node.now) }
        requires primitive { next.constructed ≡ false }
        ensures taken { IfOk result (λ used. IsStep self.old self.new octets.now whole.new used) }
        ensures sound { OnOk result (IsSoundNest self.new) }
        ensures refused { IfErr result (Refuses (CanFinish self.old) (IsNestCut self.old) octets.now) }
        ensures unchanged { result ≡ Err Refusal.Truncated → self.new ≡ self.old }
    {
        let (value, used) = read_leaf(
            alloc,
            next.node,
            next.identifier,
            self.end(),
            self.taken,
            self.layers.any_definite(),
            octets,
        )?;
        self.layers.set_which(next.which);
        Ok(self.place_value(alloc, next.ty, next.tag, value, used, whole)?)
    }

    // Takes the identifier octets and length octets of a constructed encoding, and opens it.
    fn open(&mut self, alloc: Global, next: Next<'a>, octets: &[u8]) -> Result<usize, Refusal>
        requires next { IsPartNext self.old octets.now next }
        requires parts { ¬ IsLeaf (ty_view next.node.now) }
        ensures taken { IfOk result (λ used. IsTaken self.old self.new octets.now used) }
        ensures sound { OnOk result (IsSoundNest self.new) }
        ensures refused { IfErr result (Refuses (CanFinish self.old) (IsNestCut self.old) octets.now) }
        ensures unchanged { result ≡ Err Refusal.Truncated → self.new ≡ self.old }
    {
        if !next.constructed {
            return Err(Refusal::Form);
        }
        if self.layers.depth() >= MAX_NESTED {
            return Err(Refusal::TooDeep);
        }
        let after = self.taken + next.identifier;
        let (size, frame) = read_opening(self.end(), after, &octets[next.identifier..])?;
        let Some(held_parts) = held_parts_of(alloc, next.node)? else {
            return Err(Refusal::Form);
        };
        let opened = Open {
            frame,
            tag: next.tag,
            ty: next.ty,
            held_parts,
            which: 0,
        };
        self.layers.set_which(next.which);
        self.layers.push(opened)?;
        self.taken = after + size;
        Ok(next.identifier + size)
    }
}
