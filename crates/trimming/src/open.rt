//! Open types, to which the request gives types.

use crate::trimmer::{Draft, Trimmer};
use published::{Place, Reference, Word};
use std::alloc::{AllocError, Global};
use syntax::{Expr, Simple};
use trim_rules::Root;
use trim_sources::{Cause, Spot, Substitute, simple_of_words};

impl<'a> Trimmer<'a> {
    /// An open type, or a field of a class: the type that the request gives to its place. Without one it is
    /// refused for this cause.
    pub fn open(
        &mut self,
        alloc: Global,
        place: Place,
        cause: Cause<'a>,
    ) -> Result<Draft, AllocError> {
        let Some(at) = self.take_given(alloc)? else {
            return self.refuse(alloc, place, cause);
        };
        let Some(given) = self.request.given.get(at) else {
            return self.refuse(alloc, place, cause);
        };
        if let Some(simple) = self.simple_given(self.work.module, &given.ty) {
            return Ok(Draft::whole(Expr::Simple(simple)));
        }
        let name = given.ty.name.as_str();
        let Some(spot) = self.spot_of(self.work.module, at, &given.ty) else {
            return self.refuse(alloc, place, Cause::NoSubstitute(name));
        };
        match self.reach(alloc, spot)? {
            Ok(node) => self.of_node(alloc, place, node),
            Err(Cause::NoType(_) | Cause::ValueSet(_)) => self.refuse(
                alloc,
                place,
                Cause::NoSubstitute(name),
            ),
            Err(cause) => self.refuse(alloc, place, cause),
        }
    }

    /// What a field of a class is at its root (X.681 clause 14): an open type, or else the type of the field,
    /// which is the one that the request gives.
    pub fn root_of_field(
        &mut self,
        alloc: Global,
        class: &'a Reference,
        field: &'a Option<Word>,
    ) -> Result<Root, AllocError> {
        let Some(field) = field else {
            return Ok(Root::Field);
        };
        match self.sources.is_open_field(self.work.module, class, field) {
            Some(true) => Ok(Root::Open),
            Some(false) => self.root_of_given(alloc),
            None => Ok(Root::Field),
        }
    }

    // What the type is at its root that the request gives to this place.
    fn root_of_given(&mut self, alloc: Global) -> Result<Root, AllocError> {
        let Some(place) = self.given_here(alloc)? else {
            return Ok(Root::Field);
        };
        let Some(given) = self.request.given.get(place) else {
            return Ok(Root::Field);
        };
        if self.simple_given(self.work.module, &given.ty).is_some() {
            return Ok(Root::Other);
        }
        let Some(spot) = self.spot_of(self.work.module, place, &given.ty) else {
            return Ok(Root::Field);
        };
        match self.reach(alloc, spot)? {
            Ok(node) => Ok(self.root_at(node)),
            Err(_) => Ok(Root::Other),
        }
    }

    /// The type that reserved words name which the request gives to a place in this module. None: it gives another, or
    /// the module assigns another one to the word.
    pub fn simple_given(&self, module: usize, ty: &'a Substitute) -> Option<Simple> {
        if ty.module.is_some() {
            return None;
        }
        let words = ty.name.as_str();
        match self.sources.assigned_for_word(module, words) {
            Ok(None) => simple_of_words(words),
            Ok(Some(_)) | Err(_) => None,
        }
    }

    // What the request gives to the place that is being made, which is taken then: how many stand before it.
    fn take_given(&mut self, alloc: Global) -> Result<Option<usize>, AllocError> {
        let Some(place) = self.given_here(alloc)? else {
            return Ok(None);
        };
        if let Some(is_taken) = self.taken.get_mut(place) {
            *is_taken = true;
        }
        Ok(Some(place))
    }

    // What the request gives to the place that is being made: how many stand before it.
    fn given_here(&self, alloc: Global) -> Result<Option<usize>, AllocError> {
        let path = self.path(alloc)?;
        Ok(self.given_at(self.work.module, path.as_str()))
    }

    /// What the request gives to the place of this path in this module: how many stand before it.
    pub fn given_at(&self, module: usize, path: &str) -> Option<usize> {
        let module = self.sources.module_at(module)?;
        let module = module.name.name.as_str();
        self.request.given.iter().position(|given| {
            let is_there = match &given.module {
                Some(named) => named.as_str() == module,
                None => true,
            };
            is_there && given.path.as_str() == path
        })
    }

    /// Where the type is assigned that the request gives behind so many, to a place in this module: in the module
    /// that is given, or in that of the place, or else in the only one that assigns the name.
    pub fn spot_of(&self, from: usize, at: usize, ty: &'a Substitute) -> Option<Spot> {
        let name = ty.name.as_str();
        if let Some(module) = &ty.module {
            return self.sources.find_in(module.as_str(), name).ok();
        }
        if let Ok(spot) = self.sources.find_from(from, name) {
            return Some(spot);
        }
        match self.alone.get(at) {
            Some(spot) => *spot,
            None => None,
        }
    }

    /// Looks once for the types that the request gives, in all modules.
    pub fn look_for_given(&mut self, alloc: Global) -> Result<(), AllocError> {
        for given in &self.request.given {
            let name = given.ty.name.as_str();
            let modules = self.sources.assigning(alloc, name)?;
            let spot = match modules.as_slice() {
                [module] => self.sources.find_from(*module, name).ok(),
                _ => None,
            };
            self.alone.push(spot)?;
        }
        Ok(())
    }
}
