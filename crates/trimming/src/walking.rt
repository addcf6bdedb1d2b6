//! Makes the type that is asked for, after all that it refers to.

use crate::node::State;
use crate::trimmer::{Trimmer, Work};
use std::alloc::{AllocError, Global};
use std::mem::{self, drop};

/// The most turns: types that are made or found made.
const MAX_TURNS: usize = 1 << 22;

impl<'a> Trimmer<'a> {
    /// Makes the type, and all that it refers to before. A type waits, open, for those that it refers to; one
    /// that refers to itself is told by that.
    pub fn walk(&mut self, alloc: Global, root: usize) -> Result<(), AllocError> {
        let mut waiting = Vec::new(alloc);
        waiting.push(root)?;
        for _turn in 0..MAX_TURNS {
            let Some(top) = waiting.last() else {
                break;
            };
            let top = *top;
            if self.is_done(top) || self.make(alloc, top)? {
                waiting.pop();
            } else {
                waiting.extend_from_slice(self.work.pending.as_slice())?;
            }
        }
        Ok(())
    }

    // Whether the type is made.
    fn is_done(&self, node: usize) -> bool {
        match self.nodes.get(node) {
            Some(node) => node.state == State::Done,
            None => true,
        }
    }

    // Makes a type, where all is known that it refers to. Whether it was.
    fn make(&mut self, alloc: Global, place: usize) -> Result<bool, AllocError> {
        let Some(node) = self.nodes.get_mut(place) else {
            return Ok(true);
        };
        node.state = State::Open;
        let body = node.body;
        drop(mem::replace(&mut self.work, Work::new(alloc)));
        self.begin(place)?;
        let root = self.root_of(alloc, body)?;
        let draft = self.draft(alloc, body)?;
        let is_made = self.work.pending.is_empty();
        match self.nodes.get_mut(place) {
            Some(node) if is_made => node.finish(root, draft, &mut self.work),
            _ => drop(draft),
        }
        Ok(is_made)
    }

    // Notes which type is being made.
    fn begin(&mut self, place: usize) -> Result<(), AllocError> {
        if let Some(node) = self.nodes.get(place) {
            self.work.module = node.spot.module;
            self.work.level = node.level;
            self.work.path.push(node.word.name.as_str())?;
            if let Some(module) = self.sources.module_at(node.spot.module) {
                self.work.tagging = module.tagging;
            }
        }
        Ok(())
    }
}
