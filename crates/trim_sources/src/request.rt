//! What is asked for.

use std::alloc::{AllocError, Global};

/// What is asked for.
#[derive(Drop)]
pub struct Request {
    /// The module of the type, where it is given.
    pub module: Option<String>,
    /// The name of the type.
    pub name: String,
    /// The types of open types at their places.
    pub given: Vec<Given>,
    /// Whether OPTIONAL components and alternatives that are not taken are left out.
    pub narrow: bool,
    /// How deep a type that refers to itself is written out.
    pub unroll: usize,
    /// Whether what is dropped is told.
    pub verbose: bool,
}

/// The type of an open type at a place.
#[derive(Drop)]
pub struct Given {
    /// The module of the place, where it is given.
    pub module: Option<String>,
    /// The place: the name of a type, and those of components.
    pub path: String,
    /// The type.
    pub ty: Substitute,
}

/// The type of an open type.
#[derive(Drop)]
pub struct Substitute {
    /// Its module, where it is given.
    pub module: Option<String>,
    /// Its name, or the reserved words of a type that has no other.
    pub name: String,
}

/// The type of an open type that a word of the form `[MODULE.]TYPE.COMPONENT=[MODULE.]TYPE` gives. None: it
/// has another form.
pub fn given_of(alloc: Global, word: &str) -> Result<Option<Given>, AllocError> {
    let Some((place, ty)) = word.split_once('=') else {
        return Ok(None);
    };
    if place.is_empty() || ty.is_empty() {
        return Ok(None);
    }
    let (module, path) = with_module(place);
    let (ty_module, ty_name) = with_module(ty);
    Ok(Some(Given {
        module: text_of(alloc, module)?,
        path: String::from_str(alloc, path)?,
        ty: Substitute {
            module: text_of(alloc, ty_module)?,
            name: String::from_str(alloc, ty_name)?,
        },
    }))
}

/// What stands before the first point, where a capital letter follows it, and the rest: the module in front
/// of a name, and the name.
pub fn with_module(word: &str) -> (Option<&str>, &str) {
    match word.split_once('.') {
        Some((module, rest)) if rest.starts_with(|c: char| c.is_ascii_uppercase()) => {
            (Some(module), rest)
        }
        _ => (None, word),
    }
}

fn text_of(alloc: Global, word: Option<&str>) -> Result<Option<String>, AllocError> {
    match word {
        Some(word) => Ok(Some(String::from_str(alloc, word)?)),
        None => Ok(None),
    }
}
