//! The types that are reached, and the one that is being made.

use crate::node::{Made, Node};
use published::Place;
use std::alloc::{AllocError, Global};
use std::collections::BTreeMap;
use syntax::{Expr, Simple, Tagging};
use trim_sources::{Budget, Cause, Fault, Kind, Message, Naming, Request, Sources, Spot, parts_in};

/// The most types that are looked at.
const MAX_LOOKS: usize = 262_144;

/// The most faults and messages that are told with their paths.
const MAX_TOLD: usize = 10_000;

/// The most types that are looked at for their tags, and tags.
const MAX_TAGS: usize = 1 << 19;

/// The most octets of a path.
const MAX_PATH: usize = 256;

/// The types that are reached, and what is made of one of them.
#[derive(Drop)]
pub struct Trimmer<'a> {
    /// The modules.
    pub sources: Sources<'a>,
    /// What is asked for.
    pub request: &'a Request,
    /// The types that are reached.
    pub nodes: Vec<Node<'a>>,
    /// Their places, by module, assignment and level.
    pub places: BTreeMap<(usize, usize, usize), usize>,
    /// Their names.
    pub naming: Naming,
    /// The type that is being made.
    pub work: Work<'a>,
    /// How many types have been looked at.
    pub looks: usize,
    /// How many names may still be compared.
    pub budget: Budget,
    /// How many faults and messages are told.
    pub told: usize,
    /// How many types may still be looked at for their tags, and tags.
    pub tags_left: usize,
    /// Of each type that the request gives, whether an open type took it.
    pub taken: Vec<bool>,
    /// Of each, where it is assigned, if one module alone assigns its name.
    pub alone: Vec<Option<Spot>>,
}

/// What is made of one type.
#[derive(Drop)]
pub struct Work<'a> {
    /// Its module.
    pub module: usize,
    /// What a tag without a keyword means there.
    pub tagging: Tagging,
    /// How often it may still refer to itself.
    pub level: usize,
    /// Its name, and those of components down to what is being made.
    pub path: Vec<&'a str>,
    /// What came of it so far.
    pub made: Made<'a>,
    /// Types that it refers to of which nothing is known yet.
    pub pending: Vec<usize>,
    /// Whether it neither refers to itself nor to a type that does.
    pub is_finite: bool,
    /// Of each part of the lists that are being made, whether it shares a tag with another part of its list.
    pub shared: Vec<bool>,
}

/// What is made of a type.
#[derive(Drop)]
pub struct Draft {
    /// The type. Where something is wrong with it, any.
    pub expr: Expr,
    /// Whether it is an untagged CHOICE without some of its alternatives.
    pub is_cut: bool,
}

impl Draft {
    /// A type that is whole.
    pub fn whole(expr: Expr) -> Self {
        Draft {
            expr,
            is_cut: false,
        }
    }

    /// What stands where something is wrong.
    pub fn nothing() -> Self {
        Draft::whole(Expr::Simple(Simple::Null))
    }
}

impl<'a> Work<'a> {
    /// Nothing of a type.
    pub fn new(alloc: Global) -> Self {
        Work {
            module: 0,
            tagging: Tagging::Explicit,
            level: 0,
            path: Vec::new(alloc),
            made: Made::new(alloc),
            pending: Vec::new(alloc),
            is_finite: true,
            shared: Vec::new(alloc),
        }
    }
}

impl<'a> Trimmer<'a> {
    /// Nothing reached.
    pub fn new(alloc: Global, sources: Sources<'a>, request: &'a Request) -> Self {
        Trimmer {
            sources,
            request,
            nodes: Vec::new(alloc),
            places: BTreeMap::new(alloc),
            naming: Naming::new(alloc),
            work: Work::new(alloc),
            looks: 0,
            budget: Budget::new(),
            told: 0,
            tags_left: MAX_TAGS,
            taken: Vec::new(alloc),
            alone: Vec::new(alloc),
        }
    }

    /// Counts a type that is looked at. Whether there were not too many.
    pub fn look(&mut self) -> bool {
        self.looks = self.looks.saturating_add(1);
        self.looks <= MAX_LOOKS
    }

    /// Counts a text as several types that are looked at. Whether there were not too many.
    pub fn look_at_text(&mut self, text: &str) -> bool {
        self.looks = self.looks.saturating_add(parts_in(text));
        self.looks <= MAX_LOOKS
    }

    /// How many types may still be looked at.
    pub fn looks_left(&self) -> usize {
        MAX_LOOKS.saturating_sub(self.looks)
    }

    /// Counts types as looked at until so many are left.
    pub fn look_until(&mut self, left: usize) {
        self.looks = MAX_LOOKS.saturating_sub(left);
    }

    /// The name of the type that is being made, with those of components, as far as they are not too long.
    pub fn path(&self, alloc: Global) -> Result<String, AllocError> {
        path_of(alloc, self.work.path.as_slice())
    }

    /// Counts a fault or a message that is told. Whether there were not too many.
    pub fn tell(&mut self) -> bool {
        self.told = self.told.saturating_add(1);
        self.told <= MAX_TOLD
    }

    /// Notes what is wrong with the type that is being made, at this place. What stands there then.
    pub fn refuse(
        &mut self,
        alloc: Global,
        place: Place,
        cause: Cause<'a>,
    ) -> Result<Draft, AllocError> {
        self.note(alloc, place, cause)?;
        Ok(Draft::nothing())
    }

    /// Notes what is wrong with the type that is being made, at this place.
    pub fn note(
        &mut self,
        alloc: Global,
        place: Place,
        cause: Cause<'a>,
    ) -> Result<(), AllocError> {
        let can_be_left_out = self.can_be_left_out(cause);
        self.work.made.can_be_left_out &= can_be_left_out;
        let path = if self.tell() {
            self.path(alloc)?
        } else {
            String::new(alloc)
        };
        self.work.made.faults.push(Fault {
            place,
            path,
            cause: cause.shortened(),
            can_be_left_out,
        })?;
        Ok(())
    }

    // Whether a component or an alternative with this may be left out.
    fn can_be_left_out(&self, cause: Cause<'a>) -> bool {
        match cause {
            Cause::Recursion(_) => self.request.narrow || self.request.unroll > 0,
            Cause::Within(_, node) => match self.nodes.get(node) {
                Some(node) => node.made.can_be_left_out,
                None => false,
            },
            Cause::NoSubstitute(_) => false,
            Cause::TooLarge
            | Cause::RepeatedModule(_)
            | Cause::Repeated(_)
            | Cause::ImportedTwice(_) => false,
            _ => self.request.narrow,
        }
    }

    /// Notes what is left out, at this place: what it is, and the name of the type that it stood in.
    pub fn drop_part(&mut self, alloc: Global, place: Place, what: &str) -> Result<(), AllocError> {
        if self.request.verbose && self.tell() {
            let path = self.path(alloc)?;
            self.work.made.messages.push(Message {
                place: Some(place),
                kind: Kind::Dropped,
                text: format!(in alloc; "{what} of {path}")?,
            })?;
        }
        Ok(())
    }
}

/// These names with points between, as far as they are not too long.
pub fn path_of(alloc: Global, names: &[&str]) -> Result<String, AllocError> {
    let mut path = String::new(alloc);
    for name in names {
        if path.len().saturating_add(name.len()) > MAX_PATH {
            break;
        }
        if !path.is_empty() {
            path.push('.')?;
        }
        path.push_str(name)?;
    }
    Ok(path)
}
