//! What is known of the names of a module without any type being made.

ghost use Rattle.std.specs.Prelude.{◌≡◌, IfOk, OnOk, IfSome, Some, None as Nothing, slice_get, slice_set, List, ℕ};
ghost use Rattle.syntax.specs.Tree.{Form};
ghost use Rattle.syntax.specs.View.{form, tree};
ghost use Rattle.notation.specs.Known.{LeadsTo, IsScope, IsNewScope};
ghost use Rattle.notation.specs.Settled.{NamesTold, MeansNothing, IsSettled};
ghost use Rattle.notation.specs.Apart.{IsApart, AreApart};
ghost use Rattle.notation.specs.Weighed.{IsWeight, IsLimited, AreWeighed, CanWeigh};

use crate::scope::{Scope, Seen};
use crate::weight::Weight;
use builtin_types::Cause;
use std::alloc::{AllocError, Global};
use types::{MAX_LEVELS, MAX_NODES};

impl<'a> Scope<'a> {
    /// Learns what each name is at its root and how large its type is, but for names that reach a cycle
    /// of references. Each type expression is looked at once, after those of the names in it.
    pub fn settle(&mut self, alloc: Global) -> Result<(), AllocError>
        ensures module { self.new.module ≡ self.old.module }
        ensures settled { OnOk result (IsNewScope self.old.module.now self.old → IsSettled self.old.module.now self.new) }
        ensures weighed { OnOk result (IsNewScope self.old.module.now self.old → AreWeighed self.old.module.now self.new) }
        ensures apart { OnOk result (IsNewScope self.old.module.now self.old → AreApart self.new) }
    {
        let mut waits = self.waits(alloc)?;
        let mut ready = waits.ready(alloc)?;
        for turn in 0..self.seen.len() {
            let place = match ready.get(turn) {
                Some(place) => *place,
                None => return Ok(()),
            };
            let seen = self.look(alloc, place)?;
            self.tell(place, seen);
            waits.settle(place, &mut ready)?;
        }
        Ok(())
    }

    /// Keeps what is known of the assignment at this place.
    fn tell(&mut self, place: usize, seen: Option<Seen<'a>>)
        ensures module { self.new.module ≡ self.old.module }
        ensures names { self.new.names ≡ self.old.names }
        ensures seen { self.new.seen.items ≡ slice_set self.old.seen.items place seen.entry }
    {
        if let Some(known) = self.seen.get_mut(place) {
            *known = seen;
        }
    }

    /// What the assignment at this place is, the names in it being known.
    fn look(&self, alloc: Global, place: usize) -> Result<Option<Seen<'a>>, AllocError>
        ensures leads { IfOk result (λ told. IfSome told (λ seen. IsScope self.now.module.now self.now → (a : List ℕ × Form) → slice_get (tree self.now.module.now).assignments place ≡ Some a → LeadsTo (tree self.now.module.now) Nothing a.1 seen.root)) }
        ensures unknown { IfOk result (λ told. told ≡ Nothing → IsScope self.now.module.now self.now → (a : List ℕ × Form) → slice_get (tree self.now.module.now).assignments place ≡ Some a → NamesTold (tree self.now.module.now) self.now.seen.items a.1 → MeansNothing (tree self.now.module.now) a.1) }
        ensures weighed { IfOk result (λ told. IfSome told (λ seen. (a : List ℕ × Form) → slice_get (tree self.now.module.now).assignments place ≡ Some a → CanWeigh self.now.module.now self.now a.1 → IsWeight (tree self.now.module.now) a.1 seen.weight)) }
        ensures apart { IfOk result (λ told. IfSome told (λ seen. IsScope self.now.module.now self.now → AreApart self.now → seen.weight.cause ≡ Nothing → IsApart self.now (form seen.root.expr.now))) }
    {
        let Some(body) = self.body_at(place) else {
            return Ok(None);
        };
        let weight = self.weight_of(alloc, body)?;
        let Some(root) = self.root_of(body, None) else {
            return Ok(None);
        };
        Ok(Some(Seen {
            root,
            weight: limited(weight),
        }))
    }
}

/// The weight, refused where there are too many nodes or levels.
fn limited(weight: Weight) -> Weight
    ensures { IsLimited weight result }
{
    let fits = weight.nodes <= MAX_NODES && weight.levels <= MAX_LEVELS;
    weight.unless(fits, Cause::TooLarge)
}
