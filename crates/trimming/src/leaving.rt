//! Parts that are left out, and why.

use crate::trimmer::Trimmer;
use published::Place;
use std::alloc::{AllocError, Global};
use trim_sources::{Cause, Kind, MAX_STEPS, Message};

/// How much was noted of a type before a part of it.
#[derive(Clone, Copy)]
pub struct Mark {
    /// Of what is wrong.
    pub faults: usize,
    /// Of what is left out.
    pub messages: usize,
    /// Of the types that it refers to.
    pub uses: usize,
}

impl<'a> Trimmer<'a> {
    /// How much is noted so far.
    pub fn mark(&self) -> Mark {
        Mark {
            faults: self.work.made.faults.len(),
            messages: self.work.made.messages.len(),
            uses: self.work.made.uses.len(),
        }
    }

    /// Whether all that is wrong since then allows that the part is left out.
    pub fn can_leave_out_since(&self, mark: Mark) -> bool {
        let faults = &self.work.made.faults;
        faults
            .iter()
            .skip(mark.faults)
            .all(|fault| fault.can_be_left_out)
    }

    /// The first that is wrong since then, in words.
    pub fn why_since(&self, alloc: Global, mark: Mark) -> Result<String, AllocError> {
        match self.work.made.faults.get(mark.faults) {
            Some(fault) => match fault.cause {
                Cause::Within(_, node) => self.why_of(alloc, node),
                _ => fault.why(alloc),
            },
            None => Ok(String::new(alloc)),
        }
    }

    /// Leaves out the part that what was noted since then is about, and notes that, and why.
    pub fn leave_out(
        &mut self,
        alloc: Global,
        place: Place,
        mark: Mark,
        why: &str,
    ) -> Result<(), AllocError> {
        self.forget(mark);
        self.work.made.is_narrowed = true;
        if !self.tell() {
            self.note(alloc, place, Cause::TooLarge)?;
        }
        let path = self.path(alloc)?;
        self.work.made.messages.push(Message {
            place: Some(place),
            kind: Kind::Narrowed,
            text: format!(in alloc; "{path} is left out: {why}")?,
        })?;
        Ok(())
    }

    /// Forgets what was noted since then.
    pub fn forget(&mut self, mark: Mark) {
        self.work.made.faults.truncate(mark.faults);
        self.work.made.messages.truncate(mark.messages);
        self.work.made.uses.truncate(mark.uses);
    }

    // What is wrong with a type, in words.
    fn why_of(&self, alloc: Global, node: usize) -> Result<String, AllocError> {
        let last = self.last_of(node);
        match self.nodes.get(last) {
            Some(node) => match node.made.faults.first() {
                Some(fault) => fault.why(alloc),
                None => Ok(String::new(alloc)),
            },
            None => Ok(String::new(alloc)),
        }
    }

    // The type that one is not taken for in the end, as far as it is looked for.
    fn last_of(&self, node: usize) -> usize {
        let mut node = node;
        for _step in 0..MAX_STEPS {
            match self.next_of(node) {
                Some(next) => node = next,
                None => break,
            }
        }
        node
    }

    // The type that one is not taken for, if that is what is wrong with it first.
    fn next_of(&self, node: usize) -> Option<usize> {
        match self.nodes.get(node)?.made.faults.first()?.cause {
            Cause::Within(_, next) => Some(next),
            _ => None,
        }
    }
}
