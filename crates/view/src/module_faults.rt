//! `module`: all faults of a module that can be told apart.
//!
//! The text is cut at its assignments, and each is parsed by itself, so that one fault does not hide the next.

use crate::fault_places::FaultPlaces;
use crate::module_text::{ModuleText, Part};
use lexis::{Fault, MAX_TEXT, tokens};
use notation::{Module, parse, resolve};
use octets::NoMemory;
use simdutf8::basic::from_utf8;
use std::alloc::Global;
use std::string::String;
use view_faults::{FaultLine, words_of_fault};

// The most names that are resolved. For each the whole module is looked at.
const MOST_RESOLVED: usize = 1_000;

// What is said of the names behind these.
const UNRESOLVED: &str = "names behind the first 1,000 are not looked at";

// How many times a module is judged to find the places of its faults.
const MOST_JUDGED: usize = 1_000;

/// Appends a line for each fault of a module's file, in the order of their places, and returns how many there are.
pub fn put_faults(
    alloc: Global,
    path: &str,
    octets: &[u8],
    out: &mut String,
) -> Result<usize, NoMemory> {
    let mut text = String::new(alloc);
    let mut lines = FaultLine {
        path,
        out: &mut text,
        places: Vec::new(alloc),
    };
    put_unordered(alloc, octets, &mut lines)?;
    put_in_order(&mut lines, out)?;
    Ok(lines.places.len())
}

// Appends the lines in the order of their places.
fn put_in_order(lines: &mut FaultLine<'_, '_>, out: &mut String) -> Result<(), NoMemory> {
    lines.places.sort()?;
    for (_, _, start) in lines.places.iter() {
        let behind = lines.out.as_str().get(*start..).unwrap_or("");
        if let Some((line, _)) = behind.split_once('\n') {
            out.push_str(line)?;
            out.push('\n')?;
        }
    }
    Ok(())
}

// The faults of the octets of a module: those of its text, then those of names that stand in it, then those of types.
fn put_unordered(
    alloc: Global,
    octets: &[u8],
    lines: &mut FaultLine<'_, '_>,
) -> Result<(), NoMemory> {
    if octets.len() > MAX_TEXT {
        let words = "the file has more than 262,144 octets (the limit is asn1x's own)";
        return lines.put(1, 1, 31, "", words);
    }
    let Ok(text) = from_utf8(octets) else {
        return lines.put(1, 1, 21, "", "the file is not UTF-8");
    };
    let found = match tokens(alloc, text) {
        Ok(found) => found,
        Err(fault) => {
            let more = ", and what stands behind it is not looked at";
            return lines.put_number(alloc, fault, "", more);
        }
    };
    let module = ModuleText::new(alloc, octets, found)?;
    put_parts(alloc, &module, lines)?;
    let is_parsed = lines.places.is_empty();
    module.put_names(alloc, lines)?;
    if is_parsed {
        put_unresolved(alloc, text, &module, lines)?;
    }
    Ok(())
}

// The faults of the parts of a module, each by itself.
fn put_parts(
    alloc: Global,
    module: &ModuleText<'_>,
    lines: &mut FaultLine<'_, '_>,
) -> Result<(), NoMemory> {
    for part in module.parts.iter() {
        let text = module.text_of(alloc, part)?;
        match parse(alloc, text.as_str()).err() {
            None => {}
            Some(Fault { number: 33, .. }) => return Err(NoMemory),
            Some(fault) => module.put_fault(alloc, part, fault, lines)?,
        }
    }
    Ok(())
}

// The faults of the names of a module whose text has none, each at the name or the tag that it is of.
fn put_unresolved(
    alloc: Global,
    text: &str,
    whole: &ModuleText<'_>,
    lines: &mut FaultLine<'_, '_>,
) -> Result<(), NoMemory> {
    match parse(alloc, text) {
        Ok(module) => put_unresolved_names(alloc, &module, whole, lines),
        Err(fault) => lines.put_number(alloc, fault, "", ""),
    }
}

// Each name is asked for by itself, since `resolve` tells one fault of all that a name reaches.
fn put_unresolved_names(
    alloc: Global,
    module: &Module,
    whole: &ModuleText<'_>,
    lines: &mut FaultLine<'_, '_>,
) -> Result<(), NoMemory> {
    let mut places = FaultPlaces {
        alloc,
        module: whole,
        left: MOST_JUDGED,
    };
    // the part at the place 0 is the header
    for (place, part) in whole.parts.iter().enumerate() {
        if part.is_header || !whole.is_assigned(part.first) {
            continue;
        }
        let name = whole.spelling(part.first);
        if place > MOST_RESOLVED {
            return lines.put_note(part.line, part.column, name, UNRESOLVED);
        }
        match resolve(alloc, module, name).err() {
            None => {}
            Some(Fault { number: 33, .. }) => return Err(NoMemory),
            // `put_names` has told both: a name is not assigned, ..
            Some(Fault { number: 24, .. }) => {}
            // .. or one is assigned twice, for which each name is refused
            Some(fault) if fault.number == 26 && !part.is_at(fault) => return Ok(()),
            Some(fault) => put_unresolved_name(&mut places, part, fault.number, lines)?,
        }
    }
    Ok(())
}

// The fault of a name that is refused with the number, unless it is another assignment's.
fn put_unresolved_name(
    places: &mut FaultPlaces<'_, '_>,
    part: &Part,
    number: u32,
    lines: &mut FaultLine<'_, '_>,
) -> Result<(), NoMemory> {
    let Some(token) = places.find(part, number)? else {
        return Ok(());
    };
    let name = places.module.spelling(part.first);
    let words = words_of_fault(number);
    let words = format!(in places.alloc; "in {name}: {words}")?;
    let (line, column) = places.module.place(token);
    let subject = places.module.subject(token);
    lines.put(line, column, number, subject, words.as_str())
}
