//! From modules as they are published to a module of the profile.

use crate::node::Node;
use crate::trimmer::Trimmer;
use published::{Module, Place};
use std::alloc::{AllocError, AllocFailed, Global};
use std::mem::drop;
use trim_sources::{Cause, Kind, Message, Request, Sources, Spot, put_expr, spelled};

/// A module that is trimmed to the profile.
#[derive(Drop)]
pub struct Trimmed {
    /// Its text.
    pub text: String,
    /// The name of the type that was asked for, in it.
    pub name: String,
    /// What is narrowed, dropped and renamed, in order of place.
    pub messages: Vec<Message>,
}

/// A module that is trimmed, whose text is not read again yet.
#[derive(Drop)]
pub struct Drafted {
    /// The module.
    pub trimmed: Trimmed,
    /// Where the type stands that was asked for.
    pub place: Option<Place>,
}

/// What is not taken.
#[derive(Debug, Drop)]
pub struct Refusal {
    /// All of it, in order of place.
    pub messages: Vec<Message>,
    /// Whether a name is among it that was not found, which a part that is no ASN.1 may have assigned.
    pub is_name_missing: bool,
}

/// Why nothing is written.
#[derive(Debug, Drop)]
pub enum Stop {
    /// Something is not taken.
    Refused(Refusal),
    /// A growth was refused.
    NoMemory,
}

impl From<AllocError> for Stop {
    fn from(_refused: AllocError) -> Stop {
        Stop::NoMemory
    }
}

impl<T: Drop> From<AllocFailed<T>> for Stop {
    fn from(_refused: AllocFailed<T>) -> Stop {
        Stop::NoMemory
    }
}

/// The module that has the type that is asked for, and what it reaches. Its text is not read again yet.
pub fn draft_module<'a>(
    alloc: Global,
    modules: &'a [Module],
    request: &'a Request,
) -> Result<Drafted, Stop> {
    let sources = Sources::new(alloc, modules)?;
    let mut trimmer = Trimmer::new(alloc, sources, request);
    let drafted = drafted_by(alloc, &mut trimmer, request);
    drop(trimmer);
    drafted
}

// The module that has the type that is asked for, and what it reaches.
fn drafted_by<'a>(
    alloc: Global,
    trimmer: &mut Trimmer<'a>,
    request: &'a Request,
) -> Result<Drafted, Stop> {
    let spot = asked(alloc, &trimmer.sources, request)?;
    let root = made(alloc, trimmer, request, spot)?;
    trimmer.note_name(alloc, root)?;
    let kept = trimmer.kept(alloc, root)?;
    let messages = trimmer.left_out(alloc, kept.as_slice())?;
    let text = text_of(alloc, trimmer, spot, kept.as_slice())?;
    let name = name_of(alloc, trimmer, root)?;
    Ok(Drafted {
        trimmed: Trimmed {
            text,
            name,
            messages,
        },
        place: place_of(trimmer, spot),
    })
}

// Where the type stands that is asked for.
fn asked<'a>(alloc: Global, sources: &Sources<'a>, request: &'a Request) -> Result<Spot, Stop> {
    let name = request.name.as_str();
    let found = match &request.module {
        Some(module) => sources.find_in(module.as_str(), name),
        None => found_alone(alloc, sources, name)?,
    };
    match found {
        Ok(spot) => Ok(spot),
        Err(cause) => Err(not_found(alloc, request, cause)?),
    }
}

// Where the type of this name stands, without the name of a module, or why it is not taken.
fn found_alone<'a>(
    alloc: Global,
    sources: &Sources<'a>,
    name: &'a str,
) -> Result<Result<Spot, Cause<'a>>, Stop> {
    let modules = sources.assigning(alloc, name)?;
    match modules.as_slice() {
        [] => {
            let text = format!(in alloc; "no module assigns a type {name}")?;
            Err(refused_for(alloc, None, text, true))
        }
        [module] => Ok(sources.find_from(*module, name)),
        modules => match repeated_module(sources, modules) {
            Some(cause) => Ok(Err(cause)),
            None => Err(refused(alloc, None, modules_with(alloc, sources, name, modules)?)),
        },
    }
}

// That what is asked for is not found, for this reason, and what to do.
fn not_found(alloc: Global, request: &Request, cause: Cause<'_>) -> Result<Stop, AllocError> {
    let to_do = cause.to_do(request);
    let text = format!(in alloc; "{cause}{to_do}")?;
    let is_name_missing = matches!(cause, Cause::NotAssigned(_) | Cause::NotGiven(_, _));
    Ok(refused_for(alloc, None, text, is_name_missing))
}

// That all of these modules have one name, if they do.
fn repeated_module<'a>(sources: &Sources<'a>, modules: &[usize]) -> Option<Cause<'a>> {
    let first = sources.module_at(*modules.first()?)?;
    for module in modules {
        if sources.module_at(*module)?.name.name != first.name.name {
            return None;
        }
    }
    Some(Cause::RepeatedModule(first.name.name.as_str()))
}

// That several modules assign the name, and which.
fn modules_with(
    alloc: Global,
    sources: &Sources<'_>,
    name: &str,
    modules: &[usize],
) -> Result<String, AllocError> {
    let mut text = format!(in alloc; "{name} stands in several modules; give one of ")?;
    for (place, module) in modules.iter().enumerate() {
        if place > 0 {
            text.push_str(", ")?;
        }
        if let Some(module) = sources.module_at(*module) {
            text.push_str(module.name.name.as_str())?;
            text.push('.')?;
            text.push_str(name)?;
        }
    }
    Ok(text)
}

// Makes the type that stands there, and all that it refers to.
fn made<'a>(
    alloc: Global,
    trimmer: &mut Trimmer<'a>,
    request: &Request,
    spot: Spot,
) -> Result<usize, Stop> {
    trimmer.work.level = request.unroll;
    let root = match trimmer.reach(alloc, spot)? {
        Ok(root) => root,
        Err(cause) => return Err(refused(alloc, None, format!(in alloc; "{cause}")?)),
    };
    trimmer.taken = vec![in alloc; false; request.given.len()]?;
    trimmer.look_for_given(alloc)?;
    trimmer.walk(alloc, root)?;
    let mut refusal = trimmer.refusals(alloc, root)?;
    trimmer.not_taken(alloc, &mut refusal)?;
    if refusal.messages.is_empty() {
        Ok(root)
    } else {
        Err(Stop::Refused(refusal))
    }
}

// The name of a type that is written.
fn name_of(alloc: Global, trimmer: &Trimmer<'_>, node: usize) -> Result<String, AllocError> {
    match trimmer.nodes.get(node) {
        Some(node) => String::from_str(alloc, node.name.as_str()),
        None => Ok(String::new(alloc)),
    }
}

// The text of the module with these types.
fn text_of(
    alloc: Global,
    trimmer: &Trimmer<'_>,
    spot: Spot,
    kept: &[usize],
) -> Result<String, AllocError> {
    let mut text = String::new(alloc);
    if let Some(module) = trimmer.sources.module_at(spot.module) {
        text = spelled(alloc, module.name.name.as_str())?;
    }
    text.push_str(" DEFINITIONS EXPLICIT TAGS ::= BEGIN\n")?;
    for place in kept {
        if let Some(node) = trimmer.nodes.get(*place) {
            put_assignment(&mut text, node)?;
        }
    }
    text.push_str("\nEND\n")?;
    Ok(text)
}

// Appends the assignment of a type.
fn put_assignment(text: &mut String, node: &Node<'_>) -> Result<(), AllocError> {
    let Some(expr) = &node.made.expr else {
        return Ok(());
    };
    text.push('\n')?;
    text.push_str(node.name.as_str())?;
    text.push_str(" ::= ")?;
    put_expr(text, expr, 0)?;
    text.push('\n')
}

// Where the type stands that was asked for.
fn place_of(trimmer: &Trimmer<'_>, spot: Spot) -> Option<Place> {
    let assignment = trimmer.sources.assignment_at(spot)?;
    Some(assignment.name.place)
}

/// One refusal, which is about no name that is missing.
pub fn refused(alloc: Global, place: Option<Place>, text: String) -> Stop {
    refused_for(alloc, place, text, false)
}

// One refusal, and whether it is about a name that is missing.
fn refused_for(alloc: Global, place: Option<Place>, text: String, is_name_missing: bool) -> Stop {
    let mut messages = Vec::new(alloc);
    let message = Message {
        place,
        kind: Kind::Refused,
        text,
    };
    match messages.push(message) {
        Ok(()) => Stop::Refused(Refusal {
            messages,
            is_name_missing,
        }),
        Err(_) => Stop::NoMemory,
    }
}
