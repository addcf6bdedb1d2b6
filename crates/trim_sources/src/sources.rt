//! The modules of all files, and what names in them stand for (X.680 clause 13).

use crate::cause::Cause;
use published::{Assignment, Body, Field, Form, Module, Reference, Type, Value, Word};
use std::alloc::{AllocError, Global};
use std::collections::BTreeMap;

/// The most modules that a name is imported through, and the most names in a row that stand for others.
pub const MAX_STEPS: usize = 64;

/// Where an assignment stands: its module, and its place among the assignments of that.
#[derive(Clone, Copy)]
pub struct Spot {
    /// The module.
    pub module: usize,
    /// The assignment.
    pub assignment: usize,
}

/// One, or several.
#[derive(Clone, Copy)]
enum Found {
    One(usize),
    Several,
}

/// The names of a module.
#[derive(Drop)]
struct Scope<'a> {
    assigned: BTreeMap<&'a str, Found>,
    // from which module, or None: from several
    imported: BTreeMap<&'a str, Option<&'a Word>>,
    // of classes, by the place of the class and the name
    fields: BTreeMap<(usize, &'a str), &'a Field>,
}

/// The modules of all files, with their names.
#[derive(Drop)]
pub struct Sources<'a> {
    modules: &'a [Module],
    by_name: BTreeMap<&'a str, Found>,
    scopes: Vec<Scope<'a>>,
}

impl<'a> Sources<'a> {
    /// The modules, with their names. Takes memory for these.
    pub fn new(alloc: Global, modules: &'a [Module]) -> Result<Sources<'a>, AllocError> {
        let mut by_name = BTreeMap::new(alloc);
        let mut scopes = Vec::new(alloc);
        for (place, module) in modules.iter().enumerate() {
            enter(&mut by_name, module.name.name.as_str(), place)?;
            scopes.push(scope_of(alloc, module)?)?;
        }
        Ok(Sources {
            modules,
            by_name,
            scopes,
        })
    }

    /// The module of this place.
    pub fn module_at(&self, place: usize) -> Option<&'a Module> {
        self.modules.get(place)
    }

    /// The assignment that stands there.
    pub fn assignment_at(&self, spot: Spot) -> Option<&'a Assignment> {
        let module = self.module_at(spot.module)?;
        module.assignments.get(spot.assignment)
    }

    /// Where the name is assigned that a module uses.
    pub fn find(&self, module: usize, reference: &'a Reference) -> Result<Spot, Cause<'a>> {
        let name = reference.name.as_str();
        match &reference.module {
            Some(named) => self.find_in(named.as_str(), name),
            None => self.find_from(module, name),
        }
    }

    /// Where the name is assigned that is used in this module without another one in front.
    pub fn find_from(&self, module: usize, name: &'a str) -> Result<Spot, Cause<'a>> {
        let mut module = module;
        for _step in 0..MAX_STEPS {
            let Some(scope) = self.scopes.get(module) else {
                return Err(Cause::NotAssigned(name));
            };
            match scope.assigned.get(&name) {
                Some(Found::One(assignment)) => {
                    let assignment = *assignment;
                    return Ok(Spot { module, assignment });
                }
                Some(Found::Several) => return Err(Cause::Repeated(name)),
                None => {}
            }
            match scope.imported.get(&name) {
                Some(Some(from)) => module = self.module_of(from.name.as_str(), name)?,
                Some(None) => return Err(Cause::ImportedTwice(name)),
                None => return Err(Cause::NotAssigned(name)),
            }
        }
        Err(Cause::ImportedFar(name))
    }

    /// Whether the module assigns or imports the name.
    pub fn has_name(&self, module: usize, name: &'a str) -> bool {
        match self.scopes.get(module) {
            Some(scope) => {
                scope.assigned.get(&name).is_some() || scope.imported.get(&name).is_some()
            }
            None => false,
        }
    }

    /// Where the name is assigned that a module gives by its own name.
    pub fn find_in(&self, module: &'a str, name: &'a str) -> Result<Spot, Cause<'a>> {
        let module = self.module_of(module, name)?;
        self.find_from(module, name)
    }

    // The module of this name, from which another name is wanted.
    fn module_of(&self, module: &'a str, wanted: &'a str) -> Result<usize, Cause<'a>> {
        match self.by_name.get(&module) {
            Some(Found::One(place)) => Ok(*place),
            Some(Found::Several) => Err(Cause::RepeatedModule(module)),
            None => Err(Cause::NotGiven(wanted, module)),
        }
    }

    /// The modules that assign a type to the name, or assign the name more than once, in order of place.
    pub fn assigning(&self, alloc: Global, name: &'a str) -> Result<Vec<usize>, AllocError> {
        let mut modules = Vec::new(alloc);
        for module in 0..self.scopes.len() {
            if self.is_assigned_in(module, name) {
                modules.push(module)?;
            }
        }
        Ok(modules)
    }

    // Whether the module assigns a type to the name, or assigns the name more than once.
    fn is_assigned_in(&self, module: usize, name: &'a str) -> bool {
        let Some(scope) = self.scopes.get(module) else {
            return false;
        };
        match scope.assigned.get(&name) {
            Some(Found::One(assignment)) => {
                let assignment = *assignment;
                self.type_at(Spot { module, assignment }).is_some()
            }
            Some(Found::Several) => true,
            None => false,
        }
    }

    /// The type that is assigned there.
    pub fn type_at(&self, spot: Spot) -> Option<&'a Type> {
        match &self.assignment_at(spot)?.body {
            Body::Type(ty) => Some(ty),
            Body::Value(_, _) | Body::Class(_) | Body::LeftOut(_) => None,
        }
    }

    /// The value that is assigned there, and its type.
    pub fn value_at(&self, spot: Spot) -> Option<(&'a Type, &'a Value)> {
        match &self.assignment_at(spot)?.body {
            Body::Value(ty, value) => Some((ty, value)),
            Body::Type(_) | Body::Class(_) | Body::LeftOut(_) => None,
        }
    }

    /// Whether a type that is written as this field of a class is open (X.681 clause 14). None: it is not
    /// known.
    pub fn is_open_field(
        &self,
        module: usize,
        class: &'a Reference,
        field: &'a Word,
    ) -> Option<bool> {
        let (mut module, mut class, mut field) = (module, class, field);
        for _step in 0..MAX_STEPS {
            let spot = self.find(module, class).ok()?;
            let found = self.field_at(spot, field)?;
            let Some(other) = &found.other else {
                return Some(found.is_open);
            };
            module = spot.module;
            class = &other.class;
            field = other.field.as_ref()?;
        }
        None
    }

    // The field of this name of the class that is assigned there.
    fn field_at(&self, spot: Spot, field: &'a Word) -> Option<&'a Field> {
        let scope = self.scopes.get(spot.module)?;
        let key = (spot.assignment, field.name.as_str());
        scope.fields.get(&key).copied()
    }

    /// Whether the type is a field of a class that has a type of its own, behind names perhaps.
    pub fn is_fixed_field(&self, module: usize, ty: &'a Type) -> bool {
        let Ok(base) = self.base_of(module, ty) else {
            return false;
        };
        match &base.ty.form {
            Form::Field(class, Some(field)) => {
                self.is_open_field(base.module, class, field) == Some(false)
            }
            _ => false,
        }
    }
}

// The names of a module.
fn scope_of<'a>(alloc: Global, module: &'a Module) -> Result<Scope<'a>, AllocError> {
    let mut assigned = BTreeMap::new(alloc);
    let mut fields = BTreeMap::new(alloc);
    for (place, assignment) in module.assignments.iter().enumerate() {
        enter(&mut assigned, assignment.name.name.as_str(), place)?;
        if let Body::Class(found) = &assignment.body {
            enter_fields(&mut fields, place, found)?;
        }
    }
    let mut imported = BTreeMap::new(alloc);
    for import in &module.imports {
        for word in &import.names {
            enter_imported(&mut imported, word.name.as_str(), &import.module)?;
        }
    }
    Ok(Scope {
        assigned,
        imported,
        fields,
    })
}

// Enters the fields of the class that is assigned at this place. Of a name that repeats the first one counts.
fn enter_fields<'a>(
    fields: &mut BTreeMap<(usize, &'a str), &'a Field>,
    class: usize,
    found: &'a [Field],
) -> Result<(), AllocError> {
    for field in found {
        let key = (class, field.name.name.as_str());
        if fields.get(&key).is_none() {
            fields.insert(key, field)?;
        }
    }
    Ok(())
}

// Enters a name that is imported from this module.
fn enter_imported<'a>(
    names: &mut BTreeMap<&'a str, Option<&'a Word>>,
    name: &'a str,
    from: &'a Word,
) -> Result<(), AllocError> {
    let only = match names.get(&name) {
        Some(Some(other)) if other.name == from.name => Some(from),
        Some(_) => None,
        None => Some(from),
    };
    names.insert(name, only)?;
    Ok(())
}

// Enters a name with its place, or that it stands for several.
fn enter<'a>(
    names: &mut BTreeMap<&'a str, Found>,
    name: &'a str,
    place: usize,
) -> Result<(), AllocError> {
    let found = match names.get(&name) {
        Some(_) => Found::Several,
        None => Found::One(place),
    };
    names.insert(name, found)?;
    Ok(())
}
