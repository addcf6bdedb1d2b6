//! The stack of open constructed encodings, each with its parts.

ghost use Rattle.std.specs.Prelude.{◌≡◌, ◌≤◌, ◌∷◌, [], List, length, OnOk, MatchOption};
ghost use Rattle.encoding_parts.specs.Renewed.{new_items};
ghost use Rattle.berreader.specs.Items.{AreItemsInside};
ghost use Rattle.berreader.specs.Nest.{AreSound};
ghost use Rattle.berreader.specs.Stack.{Layer, layer_view, layers_of, with_which, IsCounted};

use berslice::read_items;
use encoding_parts::{Frame, HeldParts, INLINE_FRAMES, Renewed};
use octets::{NoMemory, Tag};
use smallvec::SmallVec;
use std::alloc::Global;
use types::{Ty, Value};

/// An open constructed encoding.
#[derive(Debug, Drop)]
pub struct Open<'a> {
    /// Where it ends.
    pub frame: Frame,
    /// Its tag.
    pub tag: Tag,
    /// The type that it is of.
    pub ty: &'a Ty,
    /// Its parts.
    pub held_parts: HeldParts<'a>,
    /// Which of them is open, if one is.
    pub which: usize,
}

/// The open encodings of a value.
#[derive(Debug, Drop)]
pub struct Stack<'a> {
    /// The innermost one; None where none is open.
    pub top: Option<Open<'a>>,
    /// What `top` was as each of them opened, the outermost first.
    pub outer: SmallVec<Option<Open<'a>>, INLINE_FRAMES>,
}

impl<'a> Stack<'a> {
    // No encoding is open.
    pub fn new(alloc: Global) -> Stack<'a>
        ensures layers { layers_of result ≡ [] }
        ensures counted { IsCounted result }
    {
        Stack {
            top: None,
            outer: SmallVec::new(alloc),
        }
    }

    // How many encodings are open.
    pub fn depth(&self) -> usize
        requires { IsCounted self.now }
        ensures { result ≡ length (layers_of self.now) }
    {
        self.outer.len()
    }

    // The innermost one.
    pub fn top(&self) -> Option<&Open<'a>>
        ensures { MatchOption result (layers_of self.now ≡ [])
            (λ top. (others : List Layer) × (layers_of self.now ≡ layer_view top.now ∷ others)) }
    {
        self.top.as_ref()
    }

    // Whether one of them has the definite form.
    pub fn any_definite(&self) -> bool {
        is_definite(&self.top) || self.outer.iter().any(|place| is_definite(place))
    }

    // Opens an encoding inside the innermost one.
    pub fn push(&mut self, opened: Open<'a>) -> Result<(), NoMemory>
        ensures layers { OnOk result (layers_of self.new ≡ layer_view opened.entry ∷ layers_of self.old) }
        ensures counted { IsCounted self.old → OnOk result (IsCounted self.new) }
    {
        let below = std::mem::replace(&mut self.top, Some(opened));
        self.outer.push(below)?;
        Ok(())
    }

    // Takes the innermost one out.
    pub fn pop(&mut self) -> Option<Open<'a>>
        ensures layers { MatchOption result (layers_of self.old ≡ [])
            (λ top. layers_of self.old ≡ layer_view top ∷ layers_of self.new) }
        ensures counted { IsCounted self.old → IsCounted self.new }
    {
        let below = match self.outer.pop() {
            Some(below) => below,
            None => None,
        };
        std::mem::replace(&mut self.top, below)
    }

    // Notes which part of the innermost one comes.
    pub fn set_which(&mut self, which: usize)
        ensures layers { layers_of self.new ≡ with_which (layers_of self.old) which }
        ensures counted { IsCounted self.old → IsCounted self.new }
    {
        if let Some(top) = &mut self.top {
            top.which = which;
        }
    }

    // Whether the innermost one is a list.
    pub fn is_list(&self) -> bool {
        match &self.top {
            Some(top) => matches!(top.held_parts, HeldParts::Items(_, _)),
            None => false,
        }
    }

    // Takes the items at the front that are read at once, behind so many octets of the value, if the innermost one is a
    // list and they end within it, and returns how many octets they have.
    pub fn take_items(
        &mut self,
        alloc: Global,
        levels: usize,
        taken: usize,
        octets: &[u8],
        room: &mut Vec<Value>,
    ) -> usize
        requires { AreSound (layers_of self.old) }
        ensures there { result ≤ length octets.now }
        ensures items { AreItemsInside levels (layers_of self.old) (layers_of self.new) taken octets.now result }
        ensures counted { IsCounted self.old → IsCounted self.new }
    {
        let Some(top) = &mut self.top else {
            return 0;
        };
        if taken > top.frame.end {
            return 0;
        }
        let inside = &octets[..octets.len().min(top.frame.end - taken)];
        match &mut top.held_parts {
            HeldParts::Items(inner, list) => {
                move_in(list, room);
                read_items(alloc, inner, levels, inside, top.frame.definite, list)
            }
            HeldParts::Explicit(_, _) | HeldParts::Sequence(_, _) | HeldParts::Set(_) => 0,
        }
    }
}

// Gives a list that has no items yet the room of an older one, with the items that are in it.
fn move_in(list: &mut Renewed, room: &mut Vec<Value>)
    ensures { new_items list.new ≡ new_items list.old }
{
    if list.count == 0 && room.capacity() > list.items.capacity() {
        std::mem::swap(&mut list.items, room);
    }
}

// Whether an encoding of the definite form is open there.
fn is_definite(place: &Option<Open<'_>>) -> bool {
    match place {
        Some(top) => top.frame.definite,
        None => false,
    }
}
