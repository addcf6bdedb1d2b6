//! The cause to refuse a name that reaches a cycle of references.

ghost use Rattle.std.specs.Prelude.{◌≤◌};

use crate::references::references_of;
use crate::scope::Scope;
use std::alloc::{AllocError, Global};

/// Why nothing is known of a name.
#[derive(Clone, Copy, Debug, PartialEq, Eq)]
pub enum Unresolved {
    /// It refers to a name that is not assigned, or reaches one.
    NotAssigned,
    /// It reaches itself, or a name that does.
    Cycle,
}

impl Unresolved {
    /// The number of the fault.
    pub fn number(self) -> u32
        ensures range { (24 ≤ result) × (result ≤ 25) }
    {
        match self {
            Unresolved::NotAssigned => 24,
            Unresolved::Cycle => 25,
        }
    }
}

/// The assignments that are reached from one.
#[derive(Drop)]
struct Reached {
    /// Of each assignment, whether it is reached.
    marks: Vec<bool>,
    /// The places of those that are reached, in the order in which they were found.
    places: Vec<usize>,
}

impl Reached {
    fn add(&mut self, place: usize) -> Result<(), AllocError> {
        if let Some(mark) = self.marks.get_mut(place) {
            if !*mark {
                *mark = true;
                self.places.push(place)?;
            }
        }
        Ok(())
    }
}

impl Scope<'_> {
    /// The cause to refuse the assignment at this place, which is not known once all that can be are: a
    /// reference that is not assigned, or else a cycle.
    pub fn cause_to_refuse(&self, alloc: Global, place: usize) -> Result<Unresolved, AllocError> {
        let mut reached = Reached {
            marks: Vec::new(alloc),
            places: Vec::new(alloc),
        };
        for _known in &self.seen {
            reached.marks.push(false)?;
        }
        reached.add(place)?;
        for turn in 0..self.seen.len() {
            let Some(place) = reached.places.get(turn) else {
                return Ok(Unresolved::Cycle);
            };
            if !self.reach(alloc, *place, &mut reached)? {
                return Ok(Unresolved::NotAssigned);
            }
        }
        Ok(Unresolved::Cycle)
    }

    /// Adds what the assignment at this place refers to. Whether all of it is assigned.
    fn reach(
        &self,
        alloc: Global,
        place: usize,
        reached: &mut Reached,
    ) -> Result<bool, AllocError> {
        let Some(body) = self.body_at(place) else {
            return Ok(true);
        };
        for name in &references_of(alloc, body)? {
            let Some(used) = self.place_of(name) else {
                return Ok(false);
            };
            reached.add(used)?;
        }
        Ok(true)
    }
}
