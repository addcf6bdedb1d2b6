//! COMPONENTS OF (X.680 25.5).

use crate::lists::has_tags;
use crate::node::{Node, State};
use crate::trimmer::Trimmer;
use published::{Components, Form, Type};
use std::alloc::{AllocError, Global};
use syntax::{Component, Expr, Group};
use trim_rules::{MAX_PARTS, Section, is_automatic, is_written_out};
use trim_sources::{Cause, Copier};

/// Where COMPONENTS OF stands.
#[derive(Clone, Copy)]
pub struct Inclusion {
    /// SEQUENCE or SET.
    pub group: Group,
    /// Whether its list is tagged automatically.
    pub is_automatic: bool,
    /// The section of its list.
    pub section: Section,
    /// Whether one of its components shares a tag with another component of the list.
    pub shares_tag: bool,
}

impl<'a> Trimmer<'a> {
    /// COMPONENTS OF this type: the components of its root, in its place. The type is made first, by the tags
    /// of its own module.
    pub fn include(
        &mut self,
        alloc: Global,
        at: Inclusion,
        body: &'a Type,
        made: &mut Vec<Component>,
    ) -> Result<(), AllocError> {
        match self.to_include(alloc, at, body)? {
            Ok(node) => self.put_in(alloc, node, body, made),
            Err(cause) => self.note(alloc, body.place, cause),
        }
    }

    // The type whose components are put in there, or why they are not.
    fn to_include(
        &mut self,
        alloc: Global,
        at: Inclusion,
        body: &'a Type,
    ) -> Result<Result<usize, Cause<'a>>, AllocError> {
        let Form::Reference(reference) = &body.form else {
            return Ok(Err(Cause::ComponentsOf("a type without a name")));
        };
        match self.refer(alloc, reference)? {
            Ok(node) => match self.cause_against(at, node) {
                Some(cause) => Ok(Err(cause)),
                None => Ok(Ok(node)),
            },
            Err(cause) => Ok(Err(cause)),
        }
    }

    // Why the components of a type are not put in there, if it is known already.
    fn cause_against(&self, at: Inclusion, place: usize) -> Option<Cause<'a>> {
        let node = self.nodes.get(place)?;
        if node.state != State::Done {
            return None;
        }
        if !node.made.faults.is_empty() {
            return Some(Cause::Within(node.word.name.as_str(), place));
        }
        match &node.body.form {
            Form::List(group, components) if *group == at.group => {
                self.cause_against_list(at, node, components)
            }
            _ => Some(Cause::ComponentsOf("a type that is no list of the same kind")),
        }
    }

    // Why these components of a type are not put in there.
    fn cause_against_list(
        &self,
        at: Inclusion,
        node: &Node<'a>,
        components: &Components,
    ) -> Option<Cause<'a>> {
        let module = self.sources.module_at(node.spot.module)?;
        let is_named_automatic = is_automatic(module.tagging, has_tags(components));
        if !is_written_out(at.is_automatic, is_named_automatic) {
            return Some(Cause::ComponentsOf("a list, where tags are automatic in one of the two"));
        }
        if at.section == Section::Additions {
            return Some(Cause::ComponentsOf("a list, among additions"));
        }
        if node.made.has_open_end {
            return Some(Cause::ComponentsOf("a list without the open type at its end"));
        }
        if node.made.is_narrowed && at.shares_tag {
            return Some(Cause::ComponentsOf(
                "a list without all of its parts, beside a part with one of their tags",
            ));
        }
        None
    }

    // Puts in the components of the root of a type, where it is made.
    fn put_in(
        &mut self,
        alloc: Global,
        place: usize,
        body: &'a Type,
        made: &mut Vec<Component>,
    ) -> Result<(), AllocError> {
        let mut copier = Copier::new(alloc, self.looks_left());
        if let Some(node) = self.nodes.get(place) {
            if let Some(Expr::List(_, components)) = &node.made.expr {
                for (at, component) in components.iter().enumerate() {
                    if node.made.additions.has_root_at(at) && made.len() <= MAX_PARTS {
                        made.push(copier.component(component)?)?;
                    }
                }
            }
            for (at, used) in node.made.uses.iter().enumerate() {
                if node.made.uses_of_additions.has_root_at(at) {
                    self.work.made.uses.push(*used)?;
                }
            }
            self.work.made.included.push(place)?;
            self.work.made.is_narrowed |= node.made.is_narrowed;
        }
        self.look_until(copier.left);
        if copier.left == 0 {
            self.note(alloc, body.place, Cause::TooLarge)?;
        }
        if made.len() > MAX_PARTS {
            self.note(alloc, body.place, Cause::Parts)?;
        }
        Ok(())
    }
}
