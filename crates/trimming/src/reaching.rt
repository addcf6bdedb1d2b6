//! Types that are reached from others.

use crate::node::{Made, Node, State};
use crate::trimmer::Trimmer;
use published::{Assignment, Body, LeftOut, Reference, Type, Word};
use std::alloc::{AllocError, Global};
use trim_rules::Root;
use trim_sources::{Cause, Spot};

/// The most types that are reached, copies of one that refers to itself counted.
const MAX_NODES: usize = 4_096;

impl<'a> Trimmer<'a> {
    /// The type that a name refers to, at the level of the one that is being made, or the next one where
    /// that is in the midst of being made itself.
    pub fn refer(
        &mut self,
        alloc: Global,
        reference: &'a Reference,
    ) -> Result<Result<usize, Cause<'a>>, AllocError> {
        match self.sources.find(self.work.module, reference) {
            Ok(spot) => self.reach(alloc, spot),
            Err(cause) => Ok(Err(cause)),
        }
    }

    /// The type that is assigned there, as `refer` has it.
    pub fn reach(
        &mut self,
        alloc: Global,
        spot: Spot,
    ) -> Result<Result<usize, Cause<'a>>, AllocError> {
        let Some(assignment) = self.sources.assignment_at(spot) else {
            return Ok(Err(Cause::TooLarge));
        };
        let word = &assignment.name;
        let Some(body) = self.sources.type_at(spot) else {
            return Ok(Err(cause_against(assignment)));
        };
        let Some(level) = self.level_for(spot) else {
            self.work.is_finite = false;
            return Ok(Err(Cause::Recursion(word.name.as_str())));
        };
        let node = self.node_of(alloc, spot, level, word, body)?;
        Ok(node.ok_or(Cause::TooLarge))
    }

    // The level of the copy to use of the type that is assigned there: the one of the type that is being made,
    // or the next where the copy of that is in the midst of being made; of a type that does not refer to itself
    // the first copy, once it is made. None: no level is left.
    fn level_for(&self, spot: Spot) -> Option<usize> {
        let first = self.request.unroll;
        if self.is_finite_at(spot, first) {
            return Some(first);
        }
        let level = self.work.level;
        match self.state_of(spot, level) {
            Some(State::Open) => level.checked_sub(1),
            _ => Some(level),
        }
    }

    // Whether the copy of this level is made, and does not refer to itself.
    fn is_finite_at(&self, spot: Spot, level: usize) -> bool {
        match self.places.get(&(spot.module, spot.assignment, level)) {
            Some(place) => match self.nodes.get(*place) {
                Some(node) => node.state == State::Done && node.is_finite,
                None => false,
            },
            None => false,
        }
    }

    // How far the type is that is assigned there, at this level.
    fn state_of(&self, spot: Spot, level: usize) -> Option<State> {
        let place = *self.places.get(&(spot.module, spot.assignment, level))?;
        Some(self.nodes.get(place)?.state)
    }

    /// The place of the type among those that are reached, where it is entered if it is new. None: there
    /// are too many.
    pub fn node_of(
        &mut self,
        alloc: Global,
        spot: Spot,
        level: usize,
        word: &'a Word,
        body: &'a Type,
    ) -> Result<Option<usize>, AllocError> {
        let key = (spot.module, spot.assignment, level);
        if let Some(place) = self.places.get(&key) {
            let place = *place;
            self.wait_for(place)?;
            return Ok(Some(place));
        }
        let place = self.nodes.len();
        if place >= MAX_NODES {
            return Ok(None);
        }
        let name = self.naming.name_for(alloc, word.name.as_str())?;
        self.places.insert(key, place)?;
        self.nodes.push(Node {
            spot,
            level,
            word,
            body,
            name,
            state: State::New,
            root: Root::Other,
            is_cut: false,
            is_finite: false,
            made: Made::new(alloc),
        })?;
        self.work.pending.push(place)?;
        Ok(Some(place))
    }

    // Has the type that is being made wait for another that has not been looked at.
    fn wait_for(&mut self, place: usize) -> Result<(), AllocError> {
        if let Some(node) = self.nodes.get(place) {
            let is_below = node.level < self.work.level;
            if is_below || (node.state == State::Done && !node.is_finite) {
                self.work.is_finite = false;
            }
            if node.state == State::New {
                self.work.pending.push(place)?;
            }
        }
        Ok(())
    }
}

// Why the assignment gives no type.
fn cause_against(assignment: &Assignment) -> Cause<'_> {
    let name = assignment.name.name.as_str();
    match &assignment.body {
        Body::LeftOut(LeftOut::Set) => Cause::ValueSet(name),
        _ => Cause::NoType(name),
    }
}
