//! Numbers of the parts of a type, by which texts of them can be kept.

use octets::NoMemory;
use std::alloc::Global;
use types::Ty;

// How many parts of a type have numbers.
const NUMBERED: usize = 1_024;

/// The numbers of the parts of a type. Components get theirs when an encoding that holds them opens for the first time,
/// and alternatives when one of them is chosen.
#[derive(Drop)]
pub struct Places {
    // of each number that is given, the first of those in it; 0 where there are none
    firsts: Vec<usize>,
}

impl Places {
    /// No part has a number. Takes no memory.
    pub fn new(alloc: Global) -> Places {
        Places {
            firsts: Vec::new(alloc),
        }
    }

    /// The number of the first component or alternative of a part that has this number, if those of the type have
    /// numbers.
    pub fn first_in(&mut self, place: Option<usize>, ty: &Ty) -> Result<Option<usize>, NoMemory> {
        let Some(place) = place else {
            return Ok(None);
        };
        match self.firsts.get(place) {
            Some(first) if *first > 0 => Ok(Some(*first)),
            _ => self.give(place, count_in(ty)),
        }
    }

    // Gives numbers to so many in a part, if so many are left.
    fn give(&mut self, place: usize, count: usize) -> Result<Option<usize>, NoMemory> {
        let first = self.firsts.len().max(1);
        let end = first.saturating_add(count);
        if count == 0 || end > NUMBERED {
            return Ok(None);
        }
        self.firsts.resize(end, 0)?;
        if let Some(of_part) = self.firsts.get_mut(place) {
            *of_part = first;
        }
        Ok(Some(first))
    }
}

// How many have a path of their own in the type. Items of a list have none.
fn count_in(ty: &Ty) -> usize {
    match ty {
        Ty::Sequence(_, fields) | Ty::Set(_, fields) => fields.len(),
        Ty::Choice(alternatives) => alternatives.len(),
        Ty::Explicit(_, _) => 1,
        _ => 0,
    }
}

/// The number of the part that stands behind so many others, if they have numbers.
pub fn place_behind(first: Option<usize>, count: usize) -> Option<usize> {
    Some(first?.saturating_add(count))
}
