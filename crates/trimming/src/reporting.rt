//! What is told of the types that are made.

use crate::node::Made;
use crate::trimmer::Trimmer;
use crate::trimming::Refusal;
use std::alloc::{AllocError, Global};
use trim_sources::{Cause, Kind, Message};

/// Types in the order in which they are found.
#[derive(Drop)]
struct Found {
    /// Of each type, whether it is found.
    marks: Vec<bool>,
    /// Those that are.
    places: Vec<usize>,
}

impl Found {
    // None of so many.
    fn new(alloc: Global, count: usize) -> Result<Found, AllocError> {
        Ok(Found {
            marks: vec![in alloc; false; count]?,
            places: Vec::new(alloc),
        })
    }

    fn add(&mut self, place: usize) -> Result<(), AllocError> {
        if let Some(mark) = self.marks.get_mut(place) {
            if !*mark {
                *mark = true;
                self.places.push(place)?;
            }
        }
        Ok(())
    }

    fn add_all(&mut self, places: &[usize]) -> Result<(), AllocError> {
        for place in places {
            self.add(*place)?;
        }
        Ok(())
    }
}

/// What leads from a type to others.
#[derive(Clone, Copy)]
enum Link {
    /// It refers to them.
    Use,
    /// It has their components.
    Inclusion,
}

impl Link {
    // The types that it leads to.
    fn of<'a>(self, made: &'a Made<'_>) -> &'a [usize] {
        match self {
            Link::Use => made.uses.as_slice(),
            Link::Inclusion => made.included.as_slice(),
        }
    }
}

impl<'a> Trimmer<'a> {
    /// All that is wrong with a type, in order of place; nothing, where it is made.
    pub fn refusals(&self, alloc: Global, root: usize) -> Result<Refusal, AllocError> {
        let mut found = Found::new(alloc, self.nodes.len())?;
        found.add(root)?;
        let mut refusal = Refusal {
            messages: Vec::new(alloc),
            is_name_missing: false,
        };
        for turn in 0..self.nodes.len() {
            let Some(place) = found.places.get(turn) else {
                break;
            };
            let place = *place;
            self.refusals_at(alloc, place, &mut found, &mut refusal)?;
        }
        refusal
            .messages
            .sort_by_key(|message: &Message| place_of(message))?;
        Ok(refusal)
    }

    // What is wrong with one type itself; those that it is not taken for are found.
    fn refusals_at(
        &self,
        alloc: Global,
        place: usize,
        found: &mut Found,
        refusal: &mut Refusal,
    ) -> Result<(), AllocError> {
        let Some(node) = self.nodes.get(place) else {
            return Ok(());
        };
        for fault in &node.made.faults {
            refusal.is_name_missing |= matches!(&fault.cause, Cause::NotAssigned(_));
            match fault.cause {
                Cause::Within(_, other) => found.add(other)?,
                _ => refusal.messages.push(Message {
                    place: Some(fault.place),
                    kind: Kind::Refused,
                    text: fault.text(alloc, self.request)?,
                })?,
            }
        }
        Ok(())
    }

    /// The types that are written: the one that is asked for, and all that are reached from it.
    pub fn kept(&self, alloc: Global, root: usize) -> Result<Vec<usize>, AllocError> {
        self.found_from(alloc, &[root], Link::Use)
    }

    // These types, and all that are found from them by such links.
    fn found_from(
        &self,
        alloc: Global,
        first: &[usize],
        link: Link,
    ) -> Result<Vec<usize>, AllocError> {
        let mut found = Found::new(alloc, self.nodes.len())?;
        found.add_all(first)?;
        for turn in 0..self.nodes.len() {
            let Some(place) = found.places.get(turn) else {
                break;
            };
            if let Some(node) = self.nodes.get(*place) {
                found.add_all(link.of(&node.made))?;
            }
        }
        Ok(found.places)
    }

    /// What the request gives to places at which no open type takes it.
    pub fn not_taken(&self, alloc: Global, refusal: &mut Refusal) -> Result<(), AllocError> {
        for (place, given) in self.request.given.iter().enumerate() {
            if self.taken.get(place) == Some(&true) {
                continue;
            }
            let path = given.path.as_str();
            let text = match &given.module {
                Some(module) => format!(in alloc; "no open type takes --as {module}.{path}")?,
                None => format!(in alloc; "no open type takes --as {path}")?,
            };
            refusal.messages.push(Message {
                place: None,
                kind: Kind::Refused,
                text,
            })?;
        }
        Ok(())
    }

    /// Notes under which name a type is written, where its own cannot stand in the profile.
    pub fn note_name(&mut self, alloc: Global, node: usize) -> Result<(), AllocError> {
        let Some(node) = self.nodes.get_mut(node) else {
            return Ok(());
        };
        let asked = node.word.name.as_str();
        let name = node.name.as_str();
        if !is_same(asked, name) {
            let text = format!(in alloc; "{asked} is written as {name}")?;
            node.made.messages.push(Message {
                place: Some(node.word.place),
                kind: Kind::Renamed,
                text,
            })?;
        }
        Ok(())
    }

    /// What is told of these types, in order of place.
    pub fn left_out(&mut self, alloc: Global, kept: &[usize]) -> Result<Vec<Message>, AllocError> {
        let mut messages = Vec::new(alloc);
        let found = self.found_from(alloc, kept, Link::Inclusion)?;
        for place in &found {
            self.take_messages(*place, &mut messages)?;
        }
        messages.sort_by_key(|message: &Message| place_of(message))?;
        Ok(messages)
    }

    // Moves what is told of a type behind these messages.
    fn take_messages(
        &mut self,
        place: usize,
        messages: &mut Vec<Message>,
    ) -> Result<(), AllocError> {
        match self.nodes.get_mut(place) {
            Some(node) => messages.append(&mut node.made.messages),
            None => Ok(()),
        }
    }
}

// Where a message is about, in order of text.
fn place_of(message: &Message) -> (u32, u32, u32) {
    match message.place {
        Some(place) => (place.file, place.line, place.column),
        None => (0, 0, 0),
    }
}

// Whether the two are one name.
fn is_same<'b>(asked: &'b str, name: &'b str) -> bool {
    asked == name
}
