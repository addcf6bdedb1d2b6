//! Tags that values of a type begin with (X.680 clause 8).

use crate::simple::{in_profile, universal_number};
use crate::sources::Sources;
use crate::values::{Base, Budget};
use published::{Alternative, Alternatives, Form, Group, Reference, Simple, Tag, TagClass};
use std::alloc::{AllocError, Global};
use trim_rules::{MAX_PARTS, is_automatic};

/// A tag: its class, as identifier octets have it (X.690 8.1.2.2), and its number.
pub type ClassAndNumber = (usize, u128);

/// The tags that values of a type begin with.
#[derive(Drop)]
pub struct Tags<'a> {
    /// Those that are known.
    pub known: Vec<ClassAndNumber>,
    /// Whether there are no others.
    pub are_all: bool,
    /// Types that are still to be looked at.
    waiting: Vec<Base<'a>>,
}

impl<'a> Sources<'a> {
    /// The tags that values of the type may begin with. Each type that is looked at, and each tag, is taken from those
    /// that are left.
    pub fn tags_of(
        &self,
        alloc: Global,
        base: Base<'a>,
        left: &mut usize,
        budget: &mut Budget,
    ) -> Result<Tags<'a>, AllocError> {
        let mut tags = Tags {
            known: Vec::new(alloc),
            are_all: true,
            waiting: Vec::new(alloc),
        };
        tags.waiting.push(base)?;
        for _step in 0..*left {
            let Some(base) = tags.waiting.pop() else {
                break;
            };
            let before = tags.known.len();
            self.add_tags(base, &mut tags, budget)?;
            let found = tags.known.len().saturating_sub(before);
            *left = left.saturating_sub(found).saturating_sub(1);
            if *left == 0 {
                break;
            }
        }
        tags.are_all &= tags.waiting.is_empty();
        Ok(tags)
    }

    // Adds the tag of the type, or has others wait that its tags are those of.
    fn add_tags(
        &self,
        base: Base<'a>,
        tags: &mut Tags<'a>,
        budget: &mut Budget,
    ) -> Result<(), AllocError> {
        match &base.ty.form {
            Form::Tagged(tag, _) => tags.add(self.tag_at(base.module, tag, budget)),
            Form::Reference(reference) => tags.wait_for(self.base_at(base.module, reference)),
            Form::Simple(simple) => self.add_simple(base.module, *simple, tags),
            Form::Choice(alternatives) => self.add_choice(base.module, alternatives, tags),
            Form::List(group, _) | Form::Of(group, _, _) => tags.add(Some(tag_of_group(*group))),
            Form::Enumerated(_) => tags.add(Some((0, 10))),
            Form::NamedNumbers(_) => tags.add(Some((0, 2))),
            Form::NamedBits(_) => tags.add(Some((0, 3))),
            Form::InstanceOf(_) => tags.add(Some((0, 8))),
            Form::Parameterised(_) | Form::Selection(_, _) | Form::Field(_, _) | Form::Any(_) =>
                tags.add(None),
        }
    }

    // The tag that is written in front of a type.
    fn tag_at(&self, module: usize, tag: &'a Tag, budget: &mut Budget) -> Option<ClassAndNumber> {
        let number = self.number_of(module, &tag.number, budget)?;
        Some((number_of_class(tag.class), number.magnitude))
    }

    // The type that the name stands for.
    fn base_at(&self, module: usize, reference: &'a Reference) -> Option<Base<'a>> {
        let spot = self.find(module, reference).ok()?;
        let ty = self.type_at(spot)?;
        let module = spot.module;
        Some(Base { module, ty })
    }

    // The tags of a type that reserved words name.
    fn add_simple(
        &self,
        module: usize,
        simple: Simple,
        tags: &mut Tags<'a>,
    ) -> Result<(), AllocError> {
        match self.assigned_for(module, simple) {
            Ok(None) => tags.add(Some((0, own_number(simple)))),
            Ok(Some(spot)) => {
                let module = spot.module;
                tags.wait_for(self.type_at(spot).map(|ty| Base { module, ty }))
            }
            Err(_) => tags.add(None),
        }
    }

    // The tags of the alternatives of a CHOICE.
    fn add_choice(
        &self,
        module: usize,
        alternatives: &'a Alternatives,
        tags: &mut Tags<'a>,
    ) -> Result<(), AllocError> {
        if self.is_automatic_at(module, alternatives) {
            let count = alternatives
                .root
                .len()
                .saturating_add(alternatives.additions.len());
            return tags.add_numbers(count);
        }
        tags.wait_for_all(module, &alternatives.root)?;
        tags.wait_for_all(module, &alternatives.additions)
    }

    // Whether alternatives that are written in this module are tagged automatically.
    fn is_automatic_at(&self, module: usize, alternatives: &Alternatives) -> bool {
        let is_tag_written = has_tag(&alternatives.root) || has_tag(&alternatives.additions);
        match self.module_at(module) {
            Some(module) => is_automatic(module.tagging, is_tag_written),
            None => false,
        }
    }
}

impl<'a> Tags<'a> {
    // Adds a tag, if it is known.
    fn add(&mut self, tag: Option<ClassAndNumber>) -> Result<(), AllocError> {
        match tag {
            Some(tag) => self.known.push(tag)?,
            None => self.are_all = false,
        }
        Ok(())
    }

    // Adds so many automatic tags, if the profile takes as many.
    fn add_numbers(&mut self, count: usize) -> Result<(), AllocError> {
        if count > MAX_PARTS {
            return self.add(None);
        }
        for number in 0..count {
            self.known.push((2, number as u128))?;
        }
        Ok(())
    }

    // Has a type wait, if it is known.
    fn wait_for(&mut self, base: Option<Base<'a>>) -> Result<(), AllocError> {
        match base {
            Some(base) => self.waiting.push(base)?,
            None => self.are_all = false,
        }
        Ok(())
    }

    // Has the types of all alternatives wait.
    fn wait_for_all(
        &mut self,
        module: usize,
        alternatives: &'a [Alternative],
    ) -> Result<(), AllocError> {
        for alternative in alternatives {
            let ty = &alternative.body;
            self.waiting.push(Base { module, ty })?;
        }
        Ok(())
    }
}

fn has_tag(alternatives: &[Alternative]) -> bool {
    alternatives.iter().any(|alternative| matches!(&alternative.body.form, Form::Tagged(_, _)))
}

fn number_of_class(class: TagClass) -> usize {
    match class {
        TagClass::Universal => 0,
        TagClass::Application => 1,
        TagClass::ContextSpecific => 2,
        TagClass::Private => 3,
    }
}

fn tag_of_group(group: Group) -> ClassAndNumber {
    match group {
        Group::Sequence => (0, 16),
        Group::Set => (0, 17),
    }
}

// The number of the type's own tag (X.680 table 1).
fn own_number(simple: Simple) -> u128 {
    match in_profile(simple) {
        Some(simple) => universal_number(simple),
        None => number_of_left_out(simple),
    }
}

// That of a type that the profile does not have: the last is RELATIVE-OID-IRI.
fn number_of_left_out(simple: Simple) -> u128 {
    match simple {
        Simple::ObjectDescriptor => 7,
        Simple::External => 8,
        Simple::Real => 9,
        Simple::EmbeddedPdv => 11,
        Simple::Time => 14,
        Simple::TeletexString => 20,
        Simple::VideotexString => 21,
        Simple::GraphicString => 25,
        Simple::GeneralString => 27,
        Simple::UniversalString => 28,
        Simple::CharacterString => 29,
        Simple::Date => 31,
        Simple::TimeOfDay => 32,
        Simple::DateTime => 33,
        Simple::Duration => 34,
        Simple::OidIri => 35,
        _ => 36,
    }
}
