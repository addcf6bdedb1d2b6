//! The names of a module in the order in which their types can be known: each after the names that it
//! refers to. A name that is in a cycle of references, or reaches one, is not among them.

ghost use Rattle.std.specs.Prelude.{◌≡◌, ◌+◌, ◌-◌, ◌<◌, ◌↔◌, [], ◌∷◌, ◌++◌, ℕ, IfOk, OnOk, IsTrue, length, slice_index, slice_set};
ghost use Rattle.syntax.specs.View.{form, tree};
ghost use Rattle.notation.specs.Known.{IsScope};
ghost use Rattle.notation.specs.Settled.{places_in};
ghost use Rattle.notation.specs.Ordering.{users_at, AllWait};
ghost use Rattle.notation.specs.Waiting.{times, AreReady, AreWaiting, Extends};

use crate::references::references_of;
use crate::scope::Scope;
use std::alloc::{AllocError, Global};
use syntax::Expr;

/// Which assignments wait for which.
#[derive(Drop)]
pub struct Waits {
    /// For each assignment, how many references to others it waits for.
    pub waiting: Vec<usize>,
    /// For each assignment, the places of those that refer to it, one for each reference.
    pub users: Vec<Vec<usize>>,
}

impl Scope<'_> {
    /// What each assignment waits for while nothing is known of any.
    pub fn waits(&self, alloc: Global) -> Result<Waits, AllocError>
        ensures { IfOk result (λ waits. IsScope self.now.module.now self.now → AllWait (tree self.now.module.now) (length (tree self.now.module.now).assignments) waits.waiting.items waits.users.items) }
    {
        let mut waits = Waits {
            waiting: Vec::new(alloc),
            users: self.no_users(alloc)?,
        };
        for (place, assignment) in self.module.assignments.iter().enumerate() {
            let used = self.places_of(alloc, &assignment.body)?;
            waits.waiting.push(used.len())?;
            waits.note(place, used.as_slice())?;
        }
        Ok(waits)
    }

    /// For each assignment, that none refers to it.
    fn no_users(&self, alloc: Global) -> Result<Vec<Vec<usize>>, AllocError>
        ensures long { IfOk result (λ users. length users.items ≡ length self.now.module.now.assignments.items) }
        ensures none { IfOk result (λ users. (place : ℕ) → users_at users.items place ≡ []) }
    {
        let mut users = Vec::new(alloc);
        for _assignment in self.module.assignments.as_slice() {
            users.push(Vec::new(alloc))?;
        }
        Ok(users)
    }

    /// The places of the assignments that the expression refers to, in order of text, one that stands
    /// twice taken twice.
    fn places_of(&self, alloc: Global, body: &Expr) -> Result<Vec<usize>, AllocError>
        ensures { IfOk result (λ places. IsScope self.now.module.now self.now → places.items ≡ places_in (tree self.now.module.now) (form body.now)) }
    {
        let mut places = Vec::new(alloc);
        for name in &references_of(alloc, body)? {
            match self.place_of(name) {
                Some(place) => places.push(place)?,
                None => {}
            }
        }
        Ok(places)
    }
}

impl Waits {
    /// Notes that the assignment at one place refers to those at the others.
    fn note(&mut self, user: usize, used: &[usize]) -> Result<(), AllocError>
        ensures waiting { self.new.waiting ≡ self.old.waiting }
        ensures long { length self.new.users.items ≡ length self.old.users.items }
        ensures others { OnOk result ((place other : ℕ) → (user ≡ other → ⊥) → times other (users_at self.new.users.items place) ≡ times other (users_at self.old.users.items place)) }
        ensures own { OnOk result ((place : ℕ) → place < length self.old.users.items → times user (users_at self.new.users.items place) ≡ times user (users_at self.old.users.items place) + times place used.now) }
    {
        for place in used {
            add_user(&mut self.users, *place, user)?;
        }
        Ok(())
    }

    /// The places of the assignments that wait for nothing.
    pub fn ready(&self, alloc: Global) -> Result<Vec<usize>, AllocError>
        ensures { IfOk result (λ ready. AreReady self.now.waiting.items (length self.now.waiting.items) ready.items) }
    {
        let mut ready = Vec::new(alloc);
        for (place, waiting) in self.waiting.iter().enumerate() {
            if *waiting == 0 {
                ready.push(place)?;
            }
        }
        Ok(ready)
    }

    /// Adds the places of the assignments that wait for nothing once the one at this place is known.
    pub fn settle(&mut self, used: usize, ready: &mut Vec<usize>) -> Result<(), AllocError>
        ensures users { self.new.users ≡ self.old.users }
        ensures waiting { OnOk result ((left : ℕ → ℕ) → AreWaiting left (users_at self.old.users.items used) self.old.waiting.items ready.old.items → AreWaiting left [] self.new.waiting.items ready.new.items) }
        ensures length { length self.new.waiting.items ≡ length self.old.waiting.items }
        ensures ready { Extends ready.old.items ready.new.items }
    {
        match self.users.get(used) {
            Some(users) => release(&mut self.waiting, users.as_slice(), ready),
            None => Ok(()),
        }
    }
}

/// Adds a user of the assignment at the place.
fn add_user(users: &mut Vec<Vec<usize>>, place: usize, user: usize) -> Result<(), AllocError>
    ensures long { length users.new.items ≡ length users.old.items }
    ensures others { OnOk result ((other : ℕ) → (place ≡ other → ⊥) → users_at users.new.items other ≡ users_at users.old.items other) }
    ensures own { OnOk result (place < length users.old.items → users_at users.new.items place ≡ users_at users.old.items place ++ user ∷ []) }
{
    match users.get_mut(place) {
        Some(users) => Ok(users.push(user)?),
        None => Ok(()),
    }
}

/// Takes from each of the users one reference to wait for, and adds those that wait for nothing then.
fn release(
    waiting: &mut Vec<usize>,
    users: &[usize],
    ready: &mut Vec<usize>,
) -> Result<(), AllocError>
    ensures waiting { OnOk result ((left : ℕ → ℕ) → AreWaiting left users.now waiting.old.items ready.old.items → AreWaiting left [] waiting.new.items ready.new.items) }
    ensures length { length waiting.new.items ≡ length waiting.old.items }
    ensures ready { Extends ready.old.items ready.new.items }
{
    for user in users {
        if release_one(waiting, *user) {
            ready.push(*user)?;
        }
    }
    Ok(())
}

/// Takes one reference to wait for. Whether there was one and it was the last.
fn release_one(waiting: &mut Vec<usize>, user: usize) -> bool
    ensures waiting { waiting.new.items ≡ slice_set waiting.old.items user (slice_index waiting.old.items user - 1) }
    ensures last { IsTrue result ↔ ((user < length waiting.old.items) × (slice_index waiting.new.items user ≡ 0)) }
{
    match waiting.get_mut(user) {
        Some(count) => {
            *count = count.saturating_sub(1);
            *count == 0
        }
        None => false,
    }
}
