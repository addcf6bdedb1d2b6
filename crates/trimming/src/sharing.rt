//! Parts of a list that share a tag, so that a value of one could be taken for the other.

use crate::giving::Front;
use crate::trimmer::Trimmer;
use published::{
    Alternative, Alternatives, Body, Component, Components, Form, Group, Presence, Type,
};
use std::alloc::{AllocError, Global};
use std::collections::BTreeMap;
use trim_rules::{MAX_PARTS, Section};
use trim_sources::{Base, Tags};

/// The most components of a list that are looked at, those that COMPONENTS OF stands for among them.
const MAX_TURNS: usize = 1_024;

/// A component as its list has it.
#[derive(Clone, Copy)]
struct Part<'a> {
    /// How many components of the list are written before it, or before the COMPONENTS OF that stands for it.
    place: usize,
    /// The section of the list.
    section: Section,
    /// The module that it is written in.
    module: usize,
    /// The name of the type that it is written in, where COMPONENTS OF stands for it.
    owner: Option<&'a str>,
    /// The component.
    written: &'a Component,
}

/// What the parts of a list share.
#[derive(Drop)]
struct Sharing<'a> {
    /// SEQUENCE or SET, as which a CHOICE counts.
    group: Group,
    /// How many components came that are always there.
    required: usize,
    /// The tags that came, behind how many of those, each with the first part that has it.
    seen: BTreeMap<(usize, usize, u128), usize>,
    /// Of each part whether it shares a tag.
    marks: Vec<bool>,
    /// Whether one outside of the root has tags that are not known.
    has_unknown: bool,
    /// Components that are still to come, the next one last.
    waiting: Vec<Part<'a>>,
}

impl<'a> Trimmer<'a> {
    /// Notes of each component of a list, in the order of root, additions and tail, whether it shares a tag with another
    /// that may stand at its place; additions may be absent. Equal tags would be hidden by a part that is left out.
    pub fn note_shared(
        &mut self,
        alloc: Global,
        group: Group,
        components: &'a Components,
    ) -> Result<(), AllocError> {
        if !self.leaves_out() {
            return Ok(());
        }
        let root = components.root.len();
        let behind = root.saturating_add(components.additions.len());
        let count = behind.saturating_add(components.tail.len());
        let mut sharing = Sharing::new(alloc, group, count)?;
        let module = self.work.module;
        sharing.have_wait(module, Section::Tail, behind, &components.tail)?;
        sharing.have_wait(module, Section::Additions, root, &components.additions)?;
        sharing.have_wait(module, Section::Root, 0, &components.root)?;
        for _turn in 0..self.tags_left.min(MAX_TURNS) {
            let Some(part) = sharing.waiting.pop() else {
                break;
            };
            self.enter_part(alloc, part, &mut sharing)?;
        }
        if sharing.has_unknown && group == Group::Sequence && count > root.saturating_add(1) {
            sharing.mark_from(root);
        }
        self.end_sharing(sharing)
    }

    /// Notes of each alternative whether it shares a tag with another one.
    pub fn note_shared_of_choice(
        &mut self,
        alloc: Global,
        alternatives: &'a Alternatives,
    ) -> Result<(), AllocError> {
        if !self.leaves_out() || self.is_automatic_choice(alternatives) {
            return Ok(());
        }
        let root = alternatives.root.len();
        let count = root.saturating_add(alternatives.additions.len());
        let mut sharing = Sharing::new(alloc, Group::Set, count)?;
        self.enter_alternatives(alloc, 0, &alternatives.root, &mut sharing)?;
        self.enter_alternatives(alloc, root, &alternatives.additions, &mut sharing)?;
        self.end_sharing(sharing)
    }

    /// Whether the part whose mark stands at this place shares a tag.
    pub fn shares_tag(&self, place: usize) -> bool {
        self.work.shared.get(place) == Some(&true)
    }

    // Whether parts may be left out.
    fn leaves_out(&self) -> bool {
        self.request.narrow || self.request.unroll > 0
    }

    // Notes the marks behind those of the lists that this one stands in: all, where not all tags were found.
    fn end_sharing(&mut self, sharing: Sharing<'a>) -> Result<(), AllocError> {
        let mut sharing = sharing;
        if self.tags_left == 0 || !sharing.waiting.is_empty() {
            sharing.mark_from(0);
        }
        self.work.shared.extend_from_slice(sharing.marks.as_slice())
    }

    // Enters the tags of a component, or has those wait that COMPONENTS OF stands for.
    fn enter_part(
        &mut self,
        alloc: Global,
        part: Part<'a>,
        sharing: &mut Sharing<'a>,
    ) -> Result<(), AllocError> {
        let written = part.written;
        let Some(word) = &written.name else {
            self.tags_left = self.tags_left.saturating_sub(1);
            return self.have_included_wait(part, sharing);
        };
        let base = Base {
            module: part.module,
            ty: &written.body,
        };
        let tags = self.tags_at(alloc, base, part.owner, word.name.as_str())?;
        sharing.enter(part.place, &tags)?;
        if part.section != Section::Root {
            sharing.has_unknown |= !tags.are_all;
        }
        let is_required = matches!(&written.presence, Presence::Required);
        if is_required && part.section != Section::Additions && sharing.group == Group::Sequence {
            sharing.required = sharing.required.saturating_add(1);
        }
        Ok(())
    }

    // Has the components wait that COMPONENTS OF stands for: those of the root of a list.
    fn have_included_wait(
        &self,
        part: Part<'a>,
        sharing: &mut Sharing<'a>,
    ) -> Result<(), AllocError> {
        let Form::Reference(reference) = &part.written.body.form else {
            return Ok(());
        };
        let Ok(spot) = self.sources.find(part.module, reference) else {
            return Ok(());
        };
        let Some(assignment) = self.sources.assignment_at(spot) else {
            return Ok(());
        };
        match &assignment.body {
            Body::Type(
                Type {
                    form: Form::List(_, components),
                    ..
                },
            ) => {
                let part = Part {
                    module: spot.module,
                    owner: Some(assignment.name.name.as_str()),
                    ..part
                };
                sharing.have_included(part, &components.tail)?;
                sharing.have_included(part, &components.root)
            }
            _ => Ok(()),
        }
    }

    // Enters the tags of alternatives, of which so many stand before.
    fn enter_alternatives(
        &mut self,
        alloc: Global,
        before: usize,
        alternatives: &'a [Alternative],
        sharing: &mut Sharing<'a>,
    ) -> Result<(), AllocError> {
        for (at, written) in alternatives.iter().enumerate() {
            let base = Base {
                module: self.work.module,
                ty: &written.body,
            };
            let tags = self.tags_at(alloc, base, None, written.name.name.as_str())?;
            sharing.enter(before.saturating_add(at), &tags)?;
        }
        Ok(())
    }

    // The tags of the part of this name, those of types that the request gives among them. It is written in its
    // owner, or else in what is being made.
    fn tags_at(
        &mut self,
        alloc: Global,
        base: Base<'a>,
        owner: Option<&'a str>,
        name: &'a str,
    ) -> Result<Tags<'a>, AllocError> {
        let mut tags = self
            .sources
            .tags_of(alloc, base, &mut self.tags_left, &mut self.budget)?;
        if !tags.are_all && !self.request.given.is_empty() {
            let mut path = Vec::new(alloc);
            match owner {
                Some(owner) => path.push(owner)?,
                None => path.extend_from_slice(self.work.path.as_slice())?,
            }
            path.push(name)?;
            self.add_given_tags(alloc, Front { base, path }, &mut tags)?;
        }
        Ok(tags)
    }
}

impl<'a> Sharing<'a> {
    // Nothing of a list with so many parts.
    fn new(alloc: Global, group: Group, count: usize) -> Result<Self, AllocError> {
        Ok(Sharing {
            group,
            required: 0,
            seen: BTreeMap::new(alloc),
            marks: vec![in alloc; false; count]?,
            has_unknown: false,
            waiting: Vec::new(alloc),
        })
    }

    // Has the components of a section wait, of which so many stand before.
    fn have_wait(
        &mut self,
        module: usize,
        section: Section,
        before: usize,
        components: &'a [Component],
    ) -> Result<(), AllocError> {
        for (at, written) in components.iter().enumerate().rev() {
            self.waiting.push(Part {
                place: before.saturating_add(at),
                section,
                module,
                owner: None,
                written,
            })?;
        }
        Ok(())
    }

    // Has components wait in place of this one, that stand where it says. A list of too many is not taken itself.
    fn have_included(
        &mut self,
        part: Part<'a>,
        components: &'a [Component],
    ) -> Result<(), AllocError> {
        if components.len() > MAX_PARTS {
            return Ok(());
        }
        for written in components.iter().rev() {
            self.waiting.push(Part { written, ..part })?;
        }
        Ok(())
    }

    // Enters the tags of a part, and marks it and another one where they share one.
    fn enter(&mut self, place: usize, tags: &Tags<'a>) -> Result<(), AllocError> {
        for tag in &tags.known {
            let (class, number) = *tag;
            let key = (self.required, class, number);
            match self.seen.get(&key).copied() {
                Some(other) if other != place => {
                    self.mark(place);
                    self.mark(other);
                }
                Some(_) => {}
                None => {
                    self.seen.insert(key, place)?;
                }
            }
        }
        Ok(())
    }

    fn mark(&mut self, place: usize) {
        if let Some(mark) = self.marks.get_mut(place) {
            *mark = true;
        }
    }

    // Marks all from this place on.
    fn mark_from(&mut self, first: usize) {
        for mark in self.marks.iter_mut().skip(first) {
            *mark = true;
        }
    }
}
