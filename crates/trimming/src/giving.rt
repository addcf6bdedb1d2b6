//! Tags of the types that the request gives to open types which values of a part may begin with.

use crate::choices::has_tag;
use crate::trimmer::{Trimmer, path_of};
use published::{Alternative, Alternatives, Form};
use std::alloc::{AllocError, Global};
use trim_rules::is_automatic;
use trim_sources::{Base, Spot, Tags, universal_number};

/// A type that values of a part may begin with, at its place.
#[derive(Drop)]
pub struct Front<'a> {
    /// The type, and its module.
    pub base: Base<'a>,
    /// The name of the type that it is written in, and those of components and alternatives down to it.
    pub path: Vec<&'a str>,
}

impl<'a> Trimmer<'a> {
    /// Adds the tags of the types that the request gives to open types which values of this one may begin with: behind
    /// names, among alternatives, and in the types that are given. Each type that is looked at is taken from those
    /// that are left.
    pub fn add_given_tags(
        &mut self,
        alloc: Global,
        front: Front<'a>,
        tags: &mut Tags<'a>,
    ) -> Result<(), AllocError> {
        let mut waiting = Vec::new(alloc);
        waiting.push(front)?;
        for _step in 0..self.tags_left {
            let Some(front) = waiting.pop() else {
                break;
            };
            self.tags_left = self.tags_left.saturating_sub(1);
            self.look_behind(alloc, front, &mut waiting, tags)?;
            if self.tags_left == 0 {
                break;
            }
        }
        Ok(())
    }

    // Has the types wait that values of this one may begin with, and adds the tags of the one that it is given.
    fn look_behind(
        &mut self,
        alloc: Global,
        front: Front<'a>,
        waiting: &mut Vec<Front<'a>>,
        tags: &mut Tags<'a>,
    ) -> Result<(), AllocError> {
        let Base { module, ty } = front.base;
        match &ty.form {
            Form::Any(_) | Form::Field(_, _) => self.add_given(alloc, front, waiting, tags),
            Form::Choice(alternatives) => self.have_alternatives_wait(
                alloc,
                front,
                alternatives,
                waiting,
            ),
            Form::Reference(reference) => match self.sources.find(module, reference) {
                Ok(spot) => self.have_assigned_wait(alloc, spot, waiting),
                Err(_) => Ok(()),
            },
            Form::Simple(simple) => match self.sources.assigned_for(module, *simple) {
                Ok(Some(spot)) => self.have_assigned_wait(alloc, spot, waiting),
                Ok(None) | Err(_) => Ok(()),
            },
            _ => Ok(()),
        }
    }

    // Adds the tags of the type that the request gives to an open type, and has it wait for those in it.
    fn add_given(
        &mut self,
        alloc: Global,
        front: Front<'a>,
        waiting: &mut Vec<Front<'a>>,
        tags: &mut Tags<'a>,
    ) -> Result<(), AllocError> {
        let module = front.base.module;
        let path = path_of(alloc, front.path.as_slice())?;
        let Some(at) = self.given_at(module, path.as_str()) else {
            return Ok(());
        };
        let Some(given) = self.request.given.get(at) else {
            return Ok(());
        };
        if let Some(simple) = self.simple_given(module, &given.ty) {
            tags.known.push((0, universal_number(simple)))?;
            return Ok(());
        }
        match self.spot_of(module, at, &given.ty) {
            Some(spot) => self.add_assigned(alloc, spot, waiting, tags),
            None => Ok(()),
        }
    }

    // Adds the tags of the type that is assigned there, and has it wait.
    fn add_assigned(
        &mut self,
        alloc: Global,
        spot: Spot,
        waiting: &mut Vec<Front<'a>>,
        tags: &mut Tags<'a>,
    ) -> Result<(), AllocError> {
        let Some(ty) = self.sources.type_at(spot) else {
            return Ok(());
        };
        let module = spot.module;
        let base = Base { module, ty };
        let mut found = self
            .sources
            .tags_of(alloc, base, &mut self.tags_left, &mut self.budget)?;
        tags.known.append(&mut found.known)?;
        self.have_assigned_wait(alloc, spot, waiting)
    }

    // Has the type wait that is assigned there.
    fn have_assigned_wait(
        &self,
        alloc: Global,
        spot: Spot,
        waiting: &mut Vec<Front<'a>>,
    ) -> Result<(), AllocError> {
        let Some(assignment) = self.sources.assignment_at(spot) else {
            return Ok(());
        };
        let Some(ty) = self.sources.type_at(spot) else {
            return Ok(());
        };
        let module = spot.module;
        let mut path = Vec::new(alloc);
        path.push(assignment.name.name.as_str())?;
        waiting.push(Front {
            base: Base { module, ty },
            path,
        })?;
        Ok(())
    }

    // Has the alternatives of a CHOICE wait. Automatic tags stand in front of them, which are known.
    fn have_alternatives_wait(
        &self,
        alloc: Global,
        front: Front<'a>,
        alternatives: &'a Alternatives,
        waiting: &mut Vec<Front<'a>>,
    ) -> Result<(), AllocError> {
        let is_tag_written = has_tag(&alternatives.root) || has_tag(&alternatives.additions);
        match self.sources.module_at(front.base.module) {
            Some(module) if !is_automatic(module.tagging, is_tag_written) => {
                front.have_wait(alloc, &alternatives.root, waiting)?;
                front.have_wait(alloc, &alternatives.additions, waiting)
            }
            _ => Ok(()),
        }
    }
}

impl<'a> Front<'a> {
    // Has alternatives wait that are written in it.
    fn have_wait(
        &self,
        alloc: Global,
        alternatives: &'a [Alternative],
        waiting: &mut Vec<Front<'a>>,
    ) -> Result<(), AllocError> {
        let module = self.base.module;
        for written in alternatives {
            let ty = &written.body;
            let mut path = Vec::from_slice(alloc, self.path.as_slice())?;
            path.push(written.name.name.as_str())?;
            waiting.push(Front {
                base: Base { module, ty },
                path,
            })?;
        }
        Ok(())
    }
}
