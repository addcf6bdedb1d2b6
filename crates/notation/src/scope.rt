//! The assignments of a module, and what is known of each.

ghost use Rattle.std.specs.Prelude.{◌≡◌, IfOk, IfErr, IfSome, Some, map, slice_get, option_map, None as Nothing};
ghost use Rattle.syntax.specs.View.{form, tree};
ghost use Rattle.syntax.specs.Tree.{reference};
ghost use Rattle.builtin_types.specs.Names.{IsFirstRepeat};
ghost use Rattle.builtin_types.specs.Tagging.{has_automatic_tags};
ghost use Rattle.notation.specs.Known.{LeadsTo, StandsAt, IsScope, IsNewScope};
ghost use Rattle.notation.specs.Settled.{place_in, known_at, known_of};

use crate::root::Root;
use crate::weight::Weight;
use builtin_types::{enter, is_automatic};
use indexmap::IndexSet;
use std::alloc::{AllocError, Global};
use syntax::{Expr, Module};

/// What is known of an assigned name without its type being made.
#[derive(Clone, Copy)]
pub struct Seen<'a> {
    /// What its type is at the root.
    pub root: Root<'a>,
    /// How large its type is.
    pub weight: Weight,
}

/// The assignments of a module whose names differ, and what is known of each so far.
#[derive(Drop)]
pub struct Scope<'a> {
    /// The module.
    pub module: &'a Module,
    /// The names of its assignments, each at the place of its assignment.
    pub names: IndexSet<&'a str>,
    /// What is known of each assignment.
    pub seen: Vec<Option<Seen<'a>>>,
}

impl<'a> Scope<'a> {
    /// The assignments of the module, with nothing known of them yet. The place of the first name that
    /// repeats an earlier one, where there is one.
    pub fn new(alloc: Global, module: &'a Module) -> Result<Result<Scope<'a>, usize>, AllocError>
        ensures value { IfOk result (λ made. IfOk made (λ scope. IsNewScope «module».now scope)) }
        ensures repeated { IfOk result (λ made. IfErr made (λ place. IsFirstRepeat (map (λ a. a.0) (tree «module».now).assignments) place)) }
    {
        let mut names = IndexSet::new(alloc);
        let mut seen = Vec::new(alloc);
        for (place, assignment) in module.assignments.iter().enumerate() {
            if !enter(&mut names, assignment.name.as_str())? {
                return Ok(Err(place));
            }
            seen.push(None)?;
        }
        Ok(Ok(Scope {
            module,
            names,
            seen,
        }))
    }

    /// Whether a list is tagged automatically: in a module with AUTOMATIC TAGS, where no part of it is
    /// written with a tag.
    pub fn is_automatic(&self, tagged: bool) -> bool
        ensures { result ≡ has_automatic_tags self.now.module.now.tagging tagged }
    {
        is_automatic(self.module.tagging, tagged)
    }

    /// The place of the assignment of the name.
    pub fn place_of(&self, name: &str) -> Option<usize>
        ensures stands { IfSome result (λ place. IsScope self.now.module.now self.now → StandsAt self.now.module.now name.now place) }
        ensures place { IsScope self.now.module.now self.now → result ≡ place_in (tree self.now.module.now) name.now }
    {
        self.names.get_index_of(name)
    }

    /// The type expression at the place.
    pub fn body_at(&self, place: usize) -> Option<&'a Expr>
        ensures { option_map (λ body. form body.now) result ≡ option_map (λ a. a.1) (slice_get (tree self.now.module.now).assignments place) }
    {
        match self.module.assignments.get(place) {
            Some(assignment) => Some(&assignment.body),
            None => None,
        }
    }

    /// What is known of the assignment at the place.
    pub fn seen_at(&self, place: usize) -> Option<Seen<'a>>
        ensures seen { IfSome result (λ seen. slice_get self.now.seen.items place ≡ Some (Some seen)) }
        ensures known { result ≡ known_at self.now.seen.items place }
    {
        *self.seen.get(place)?
    }

    /// What is known of the name.
    #[tactic(auto, using(crate::proofs::KnownLemmas::reference_leads))]
    pub fn seen_of(&self, name: &str) -> Option<Seen<'a>>
        ensures leads { IfSome result (λ seen. IsScope self.now.module.now self.now → LeadsTo (tree self.now.module.now) Nothing (reference name.now) seen.root) }
        ensures known { IsScope self.now.module.now self.now → result ≡ known_of (tree self.now.module.now) self.now.seen.items name.now }
    {
        self.seen_at(self.place_of(name)?)
    }
}
