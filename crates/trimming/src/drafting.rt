//! What a type is in the profile (X.680 clauses 17 to 31).

use crate::node::State;
use crate::trimmer::{Draft, Trimmer};
use published::{Alternative, Alternatives, Form, Place, Reference, Simple, Type};
use std::alloc::{AllocError, Global};
use syntax::{Expr, Group};
use trim_rules::Root;
use trim_sources::{Cause, Spot, in_profile, is_left_out_string, name_of_left_out};

impl<'a> Trimmer<'a> {
    /// What the type is in the profile. What is wrong with it is noted.
    ///
    /// Constraints are left out: no encoding depends on them under BER, CER and DER.
    #[cycle(drafting)]
    pub fn draft(&mut self, alloc: Global, ty: &'a Type) -> Result<Draft, AllocError> {
        if !self.look() {
            return self.refuse(alloc, ty.place, Cause::TooLarge);
        }
        if let Some(place) = ty.constraint {
            self.drop_part(alloc, place, "a constraint")?;
        }
        match &ty.form {
            Form::Simple(simple) => self.simple(alloc, ty.place, *simple),
            Form::Reference(reference) => self.reference(alloc, reference),
            Form::Tagged(tag, inner) => self.tagged(alloc, ty.place, tag, inner),
            Form::List(group, components) => self.list(alloc, ty.place, *group, components),
            Form::Of(group, _, inner) => self.of(alloc, *group, inner),
            Form::Choice(alternatives) => self.choice(alloc, ty.place, alternatives),
            _ => self.other(alloc, ty),
        }
    }

    // SEQUENCE OF or SET OF.
    #[cycle(drafting)]
    fn of(&mut self, alloc: Global, group: Group, inner: &'a Type) -> Result<Draft, AllocError> {
        let inner = self.draft(alloc, inner)?.expr;
        let inner = Box::new(alloc, inner)?;
        Ok(Draft::whole(Expr::Of(group, inner)))
    }

    // What a type without types in it is in the profile.
    fn other(&mut self, alloc: Global, ty: &'a Type) -> Result<Draft, AllocError> {
        let place = ty.place;
        match &ty.form {
            Form::Enumerated(items) => self.enumerated(alloc, place, items),
            Form::NamedNumbers(_) => {
                self.drop_part(alloc, place, "names of numbers")?;
                Ok(Draft::whole(Expr::Simple(syntax::Simple::Integer)))
            }
            Form::NamedBits(bits) => self.named_bits(alloc, place, bits),
            Form::Any(_) => self.open(alloc, place, Cause::Open),
            Form::Field(_, _) => self.field(alloc, ty),
            Form::Parameterised(_) => self.refuse(alloc, place, Cause::Parameterised),
            Form::Selection(_, _) => self.refuse(alloc, place, Cause::Selection),
            Form::InstanceOf(_) => self.refuse(alloc, place, Cause::InstanceOf),
            _ => self.refuse(alloc, place, Cause::TooLarge),
        }
    }

    // A field of a class.
    fn field(&mut self, alloc: Global, ty: &'a Type) -> Result<Draft, AllocError> {
        let cause = if self.sources.is_fixed_field(self.work.module, ty) {
            Cause::FixedField
        } else {
            Cause::Open
        };
        self.open(alloc, ty.place, cause)
    }

    // A type that is named by reserved words alone, or that the module assigns to such a word.
    fn simple(&mut self, alloc: Global, place: Place, simple: Simple) -> Result<Draft, AllocError> {
        match self.sources.assigned_for(self.work.module, simple) {
            Ok(None) => {}
            Ok(Some(spot)) => return self.assigned_at(alloc, place, spot),
            Err(cause) => return self.refuse(alloc, place, cause),
        }
        match in_profile(simple) {
            Some(simple) => Ok(Draft::whole(Expr::Simple(simple))),
            None => self.refuse(alloc, place, Cause::NotInProfile(name_of_left_out(simple))),
        }
    }

    // The type that is assigned there, which is used at this place.
    fn assigned_at(
        &mut self,
        alloc: Global,
        place: Place,
        spot: Spot,
    ) -> Result<Draft, AllocError> {
        match self.reach(alloc, spot)? {
            Ok(node) => self.of_node(alloc, place, node),
            Err(cause) => self.refuse(alloc, place, cause),
        }
    }

    // The type that a name refers to.
    fn reference(&mut self, alloc: Global, reference: &'a Reference) -> Result<Draft, AllocError> {
        match self.refer(alloc, reference)? {
            Ok(node) => self.of_node(alloc, reference.place, node),
            Err(cause) => self.refuse(alloc, reference.place, cause),
        }
    }

    /// The name of a type that is reached, which is used at this place.
    pub fn of_node(
        &mut self,
        alloc: Global,
        place: Place,
        used: usize,
    ) -> Result<Draft, AllocError> {
        let Some(node) = self.nodes.get(used) else {
            return self.refuse(alloc, place, Cause::TooLarge);
        };
        if !node.made.faults.is_empty() {
            let cause = Cause::Within(node.word.name.as_str(), used);
            return self.refuse(alloc, place, cause);
        }
        let is_cut = node.is_cut;
        let name = String::from_str(alloc, node.name.as_str())?;
        self.work.made.uses.push(used)?;
        let expr = Expr::Reference(name);
        Ok(Draft { expr, is_cut })
    }

    /// What the type is at its root, where that is known.
    #[cycle(rooting)]
    pub fn root_of(&mut self, alloc: Global, ty: &'a Type) -> Result<Root, AllocError> {
        match &ty.form {
            Form::Choice(alternatives) => self.root_of_choice(alloc, alternatives),
            Form::Any(_) => Ok(Root::Open),
            Form::Field(class, field) => self.root_of_field(alloc, class, field),
            Form::Simple(simple) => self.root_of_simple(alloc, *simple),
            Form::Reference(reference) => match self.refer(alloc, reference)? {
                Ok(node) => Ok(self.root_at(node)),
                Err(_) => Ok(Root::Other),
            },
            _ => Ok(Root::Other),
        }
    }

    // What an untagged CHOICE is at its root: an open type where an alternative without a tag is one, since it takes any
    // value then.
    #[cycle(rooting)]
    fn root_of_choice(
        &mut self,
        alloc: Global,
        alternatives: &'a Alternatives,
    ) -> Result<Root, AllocError> {
        let is_open = !self.is_automatic_choice(alternatives)
            && (self.has_open_one(alloc, &alternatives.root)?
                || self.has_open_one(alloc, &alternatives.additions)?);
        Ok(if is_open { Root::Open } else { Root::Choice })
    }

    // Whether one of the alternatives takes any value.
    #[cycle(rooting)]
    fn has_open_one(
        &mut self,
        alloc: Global,
        alternatives: &'a [Alternative],
    ) -> Result<bool, AllocError> {
        for written in alternatives {
            if self.root_of(alloc, &written.body)?.takes_any() {
                return Ok(true);
            }
        }
        Ok(false)
    }

    // What a type that reserved words name is at its root.
    fn root_of_simple(&mut self, alloc: Global, simple: Simple) -> Result<Root, AllocError> {
        match self.sources.assigned_for(self.work.module, simple) {
            Ok(None) if is_left_out_string(simple) => Ok(Root::LeftOutString),
            Ok(None) | Err(_) => Ok(Root::Other),
            Ok(Some(spot)) => match self.reach(alloc, spot)? {
                Ok(node) => Ok(self.root_at(node)),
                Err(_) => Ok(Root::Other),
            },
        }
    }

    /// What a type that is reached is at its root, once it is made.
    pub fn root_at(&self, node: usize) -> Root {
        match self.nodes.get(node) {
            Some(node) if node.state == State::Done => node.root,
            _ => Root::Other,
        }
    }
}
