//! Where the octets of a value are refused, and why.

use crate::fronts::Fronts;
use crate::printing::{Style, put_line};
use octets::NoMemory;
use std::alloc::Global;
use std::string::String;
use types::{Refusal, WellTyped};
use walking::Walk;

/// Where and why octets are refused.
#[derive(Drop)]
pub struct Found {
    /// How many octets of the value stand before the fault.
    pub at: usize,
    /// The path of the part in which it stands.
    pub path: String,
    /// Why it is refused, in words.
    pub reason: String,
}

/// Appends a line for each identifier of the value with which the walk has begun, before which `base` octets of the
/// input stand. Of octets that are refused, these are the lines up to the fault.
pub fn put_lines(
    alloc: Global,
    walk: &mut Walk<'_>,
    octets: &[u8],
    base: u64,
    style: &Style<'_>,
    fronts: &mut Fronts,
    out: &mut String,
) -> Result<(), NoMemory> {
    for _ in 0..=octets.len() {
        match walk.next_line(octets) {
            Ok(true) => put_line(alloc, walk, octets, base, style, fronts, out)?,
            Ok(false) | Err(_) => return Ok(()),
        }
    }
    Ok(())
}

/// Where and why these octets are refused: where the refusal says that they are not canonical, at the first place that
/// is not.
pub fn find(
    alloc: Global,
    ty: &WellTyped,
    octets: &[u8],
    refusal: Refusal,
    style: &Style<'_>,
) -> Result<Option<Found>, NoMemory> {
    find_by(
        alloc,
        &mut Walk::new(alloc, style.rule, ty),
        octets,
        refusal,
        style,
    )
}

// The walk is lent, so that the loop has nothing to drop on its ways out.
fn find_by(
    alloc: Global,
    walk: &mut Walk<'_>,
    octets: &[u8],
    refusal: Refusal,
    style: &Style<'_>,
) -> Result<Option<Found>, NoMemory> {
    for _ in 0..=octets.len() {
        match walk.next_line(octets) {
            Ok(true) => {
                if refusal == Refusal::NotCanonical && !walk.line().notes.is_empty() {
                    return of_note(alloc, walk, style);
                }
            }
            Ok(false) => return Ok(None),
            Err(_) => return of_stop(alloc, walk),
        }
    }
    Ok(None)
}

// The place of what is not canonical.
fn of_note(alloc: Global, walk: &Walk<'_>, style: &Style<'_>) -> Result<Option<Found>, NoMemory> {
    let line = walk.line();
    let Some(note) = line.notes.first() else {
        return Ok(None);
    };
    let mut path = String::new(alloc);
    walk.put_path(line.depth, Some(&line.part), &mut path)?;
    let rule = style.rule_word();
    let words = note.words();
    let reason = format!(in alloc; "not {rule}: {words}")?;
    let at = line.at;
    Ok(Some(Found { at, path, reason }))
}

// The place where a walk stops.
fn of_stop(alloc: Global, walk: &Walk<'_>) -> Result<Option<Found>, NoMemory> {
    let Some(stop) = walk.stop() else {
        return Ok(None);
    };
    let mut path = String::new(alloc);
    walk.put_path(walk.depth(), stop.part.as_ref(), &mut path)?;
    let reason = stop.reason;
    let reason = format!(in alloc; "{reason}")?;
    let at = stop.at;
    Ok(Some(Found { at, path, reason }))
}
