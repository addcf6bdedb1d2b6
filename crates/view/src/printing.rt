//! The printed lines of encodings.

use crate::columns::{Columns, put_offset};
use crate::fronts::Fronts;
use engine::Canonical;
use octets::NoMemory;
use std::alloc::Global;
use std::string::String;
use types::Ty;
use walking::{Line, NOTES, Notes, Walk, What, put_contents, put_string};

// The most octets of a value that are shown, unless all are asked for.
const MOST_SHOWN: usize = 32;

/// How lines are printed.
#[derive(Clone, Copy)]
pub struct Style<'a> {
    /// The name of the type.
    pub name: &'a str,
    /// The rule that says what is not canonical.
    pub rule: Canonical,
    /// Texts of columns.
    pub columns: &'a Columns,
    /// Whether long values are shown whole.
    pub wide: bool,
}

impl Style<'_> {
    /// The rule's name.
    pub fn rule_word(&self) -> &'static str {
        match self.rule {
            Canonical::Cer => "CER",
            Canonical::Der => "DER",
        }
    }
}

/// Appends the line of an encoding to which a walk over these octets has gone, before which `base` octets of the input
/// stand.
pub fn put_line(
    alloc: Global,
    walk: &Walk<'_>,
    octets: &[u8],
    base: u64,
    style: &Style<'_>,
    fronts: &mut Fronts,
    out: &mut String,
) -> Result<(), NoMemory> {
    let line = walk.line();
    put_offset(base.saturating_add(line.at as u64), out)?;
    match line.what {
        What::End => put_end(line, style, out)?,
        What::Parts => fronts.put(walk, style, out)?,
        What::Leaf | What::Segment => {
            fronts.put(walk, style, out)?;
            put_value(alloc, line, line.contents_in(octets), style, out)?;
        }
    }
    put_notes(line.notes, style.rule, out)?;
    out.push('\n')?;
    Ok(())
}

// Appends what is told of end-of-contents octets.
fn put_end(line: &Line<'_>, style: &Style<'_>, out: &mut String) -> Result<(), NoMemory> {
    let columns = style.columns;
    columns.put_head(line.depth, line.head, line.contents, out)?;
    out.push_str("[UNIVERSAL 0]    end of contents")?;
    Ok(())
}

// Appends what is not canonical.
fn put_notes(notes: Notes, rule: Canonical, out: &mut String) -> Result<(), NoMemory> {
    if notes.is_empty() {
        return Ok(());
    }
    let lead = match rule {
        Canonical::Cer => "  (not CER: ",
        Canonical::Der => "  (not DER: ",
    };
    let mut left = notes;
    for _ in NOTES {
        let Some(note) = left.take_first() else {
            return Ok(());
        };
        out.push_str(lead)?;
        out.push_str(note.words())?;
        out.push(')')?;
    }
    Ok(())
}

// Appends the text of contents octets, cut where it is long.
fn put_value(
    alloc: Global,
    line: &Line<'_>,
    contents: &[u8],
    style: &Style<'_>,
    out: &mut String,
) -> Result<(), NoMemory> {
    let node = line.part.node;
    let (shown, omitted) = split_shown(node, contents, style);
    if let What::Segment = line.what {
        out.push_str(" segment  ")?;
        put_string(node, shown, out)?;
    } else {
        out.push_str("  ")?;
        put_contents(alloc, node, shown, out)?;
    }
    if omitted > 0 {
        write!(out, " (more octets: {omitted})")?;
    }
    Ok(())
}

// The contents octets that are shown, and how many stand behind them. Octets of a long number are shown as such.
fn split_shown<'a>(node: &Ty, contents: &'a [u8], style: &Style<'_>) -> (&'a [u8], usize) {
    let is_cut = match node {
        Ty::Integer(_) | Ty::Octets(_) | Ty::Text(_, _) | Ty::Time(_, _) => !style.wide,
        _ => false,
    };
    if !is_cut || contents.len() <= MOST_SHOWN {
        return (contents, 0);
    }
    let (shown, omitted) = contents.split_at(MOST_SHOWN);
    (shown, omitted.len())
}
