//! Values that names stand for, and numbers (X.680 clauses 16, 19, 20 and 22).

use crate::cause::Cause;
use crate::sources::{MAX_STEPS, Sources, Spot};
use published::{Form, Number, Reference, SignedNumber, Type, Value, ValueForm};

/// A type, and the module that it stands in.
#[derive(Clone, Copy)]
pub struct Base<'a> {
    /// The module.
    pub module: usize,
    /// The type, which is no name of another and has no tag.
    pub ty: &'a Type,
}

/// A value, the type that it is of, and the module that it stands in.
#[derive(Clone, Copy)]
pub struct ValueOf<'a> {
    /// The type.
    pub base: Base<'a>,
    /// The value, which is no name of another.
    pub value: &'a Value,
}

/// How many names may still be compared with those that types give to numbers and items.
#[derive(Drop)]
pub struct Budget {
    left: usize,
}

impl Budget {
    /// All of it.
    pub fn new() -> Self {
        Budget { left: 1 << 26 }
    }

    // Takes so many. Whether they were there.
    fn spend(&mut self, count: usize) -> bool {
        match self.left.checked_sub(count) {
            Some(left) => {
                self.left = left;
                true
            }
            None => false,
        }
    }
}

impl<'a> Sources<'a> {
    /// What is left of the type without its tags, and of a name what it stands for.
    pub fn base_of(&self, module: usize, ty: &'a Type) -> Result<Base<'a>, Cause<'a>> {
        let mut base = Base { module, ty };
        for _step in 0..MAX_STEPS {
            match &base.ty.form {
                Form::Tagged(_, inner) => base.ty = inner,
                Form::Reference(reference) => {
                    base = self.assigned_at(self.find(base.module, reference)?)?;
                }
                Form::Simple(simple) => match self.assigned_for(base.module, *simple)? {
                    Some(spot) => base = self.assigned_at(spot)?,
                    None => return Ok(base),
                },
                _ => return Ok(base),
            }
        }
        Err(Cause::TooLarge)
    }

    // The type that is assigned there.
    fn assigned_at(&self, spot: Spot) -> Result<Base<'a>, Cause<'a>> {
        match self.type_at(spot) {
            Some(ty) => Ok(Base {
                module: spot.module,
                ty,
            }),
            None => Err(Cause::Default),
        }
    }

    /// The value that stands behind names, each looked for first among those that its type gives.
    pub fn value_of(
        &self,
        base: Base<'a>,
        module: usize,
        value: &'a Value,
        budget: &mut Budget,
    ) -> Option<ValueOf<'a>> {
        let mut at = module;
        let mut found = ValueOf { base, value };
        for _step in 0..MAX_STEPS {
            let ValueForm::Name(reference) = &found.value.form else {
                return Some(found);
            };
            if !budget.spend(names_of(found.base.ty)) {
                return None;
            }
            if has_name(found.base.ty, reference) {
                return Some(found);
            }
            let spot = self.find(at, reference).ok()?;
            found = self.value_there(spot)?;
            at = spot.module;
        }
        None
    }

    // The value that is assigned there.
    fn value_there(&self, spot: Spot) -> Option<ValueOf<'a>> {
        let (ty, value) = self.value_at(spot)?;
        let base = self.base_of(spot.module, ty).ok()?;
        Some(ValueOf { base, value })
    }

    /// The number that is written, or that a name stands for.
    pub fn number_of(
        &self,
        module: usize,
        number: &'a Number,
        budget: &mut Budget,
    ) -> Option<SignedNumber> {
        match number {
            Number::Literal(number) => Some(*number),
            Number::Name(reference) => {
                let found = self.value_named(module, reference, budget)?;
                self.integer_of(found, budget)
            }
        }
    }

    // The value that a name stands for which is used in this module.
    fn value_named(
        &self,
        module: usize,
        reference: &'a Reference,
        budget: &mut Budget,
    ) -> Option<ValueOf<'a>> {
        let spot = self.find(module, reference).ok()?;
        let found = self.value_there(spot)?;
        self.value_of(found.base, spot.module, found.value, budget)
    }

    /// The number of a value of an INTEGER. That of a named number may be a name in turn.
    pub fn integer_of(&self, found: ValueOf<'a>, budget: &mut Budget) -> Option<SignedNumber> {
        let mut found = found;
        for _step in 0..MAX_STEPS {
            let reference = match &found.value.form {
                ValueForm::Number(number) => return Some(*number),
                ValueForm::Name(reference) => reference,
                _ => return None,
            };
            match named_number(found.base.ty, reference, budget)? {
                Number::Literal(number) => return Some(*number),
                Number::Name(other) => {
                    found = self.value_named(found.base.module, other, budget)?
                }
            }
        }
        None
    }
}

// The number that an INTEGER gives to this name.
fn named_number<'a>(
    ty: &'a Type,
    reference: &Reference,
    budget: &mut Budget,
) -> Option<&'a Number> {
    let Form::NamedNumbers(numbers) = &ty.form else {
        return None;
    };
    if !budget.spend(numbers.len()) {
        return None;
    }
    let named = numbers
        .iter()
        .find(|named| named.name.name == reference.name)?;
    Some(&named.number)
}

// How many names the type gives to numbers or items.
fn names_of(ty: &Type) -> usize {
    match &ty.form {
        Form::NamedNumbers(numbers) => numbers.len(),
        Form::Enumerated(items) => items.root.len().saturating_add(items.additions.len()),
        _ => 0,
    }
}

// Whether the type gives this name to a number or an item.
fn has_name(ty: &Type, reference: &Reference) -> bool {
    if reference.module.is_some() {
        return false;
    }
    let name = &reference.name;
    match &ty.form {
        Form::NamedNumbers(numbers) => numbers.iter().any(|named| named.name.name == *name),
        Form::Enumerated(items) => {
            items.root.iter().any(|item| item.name.name == *name)
                || items.additions.iter().any(|item| item.name.name == *name)
        }
        _ => false,
    }
}
