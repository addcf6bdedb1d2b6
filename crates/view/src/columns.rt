//! The columns of numbers and tags in a line. Texts of those that most encodings have are made once.

use itoa::Buffer;
use octets::{Class, NoMemory, Tag};
use std::alloc::Global;
use std::string::String;
use walking::PrintedTag;

// How wide the columns are.
const WIDTH_OF_LENGTHS: usize = 8;

const WIDTH_OF_TAG: usize = 17;

// At depths below this the texts of heads of two and of three octets are kept, ..
const SHALLOW: usize = 4;

// .. with fewer contents octets than this, or of the indefinite form.
const SHORT: usize = 128;

// How many texts are kept of a depth and a count of octets in the head.
const KEPT: usize = SHORT + 1;

// Of universal and of context-specific tags the texts are kept, with numbers below this.
const LOW: u32 = 32;

/// Texts of columns.
#[derive(Drop)]
pub struct Columns {
    heads: Vec<String>,
    tags: Vec<String>,
}

impl Columns {
    /// No text is kept. Takes no memory.
    pub fn none(alloc: Global) -> Columns {
        Columns {
            heads: Vec::new(alloc),
            tags: Vec::new(alloc),
        }
    }

    /// The texts that are kept.
    pub fn new(alloc: Global) -> Result<Columns, NoMemory> {
        let mut columns = Columns::none(alloc);
        for depth in 0..SHALLOW {
            columns.keep_heads(alloc, depth, 2)?;
            columns.keep_heads(alloc, depth, 3)?;
        }
        columns.keep_tags(alloc, Class::Universal)?;
        columns.keep_tags(alloc, Class::Context)?;
        Ok(columns)
    }

    // Keeps the heads of a depth and a size by how many contents octets follow, the indefinite form last, as
    // `place_of` counts.
    fn keep_heads(&mut self, alloc: Global, depth: usize, head: usize) -> Result<(), NoMemory> {
        for size in 0..SHORT {
            self.keep_head(alloc, depth, head, Some(size))?;
        }
        self.keep_head(alloc, depth, head, None)
    }

    fn keep_head(
        &mut self,
        alloc: Global,
        depth: usize,
        head: usize,
        contents: Option<usize>,
    ) -> Result<(), NoMemory> {
        let mut text = String::new(alloc);
        put_depth(depth, &mut text)?;
        put_lengths(head, contents, &mut text)?;
        self.heads.push(text)?;
        Ok(())
    }

    // Keeps the tags of a class by their numbers. Universal ones must come first, as `Columns::put_tag` counts.
    fn keep_tags(&mut self, alloc: Global, class: Class) -> Result<(), NoMemory> {
        for number in 0..LOW {
            let mut text = String::new(alloc);
            put_tag(Tag { class, number }, &mut text)?;
            self.tags.push(text)?;
        }
        Ok(())
    }

    /// Appends in how many encodings one stands, and how many octets its head and its contents have.
    pub fn put_head(
        &self,
        depth: usize,
        head: usize,
        contents: Option<usize>,
        out: &mut String,
    ) -> Result<(), NoMemory> {
        let kept = match place_of(depth, head, contents) {
            Some(place) => self.heads.get(place),
            None => None,
        };
        if let Some(text) = kept {
            out.push_str(text.as_str())?;
            return Ok(());
        }
        put_depth(depth, out)?;
        put_lengths(head, contents, out)
    }

    /// Appends a tag.
    pub fn put_tag(&self, tag: Tag, out: &mut String) -> Result<(), NoMemory> {
        let place = tag.number as usize;
        let kept = match tag.class {
            Class::Universal if tag.number < LOW => self.tags.get(place),
            Class::Context if tag.number < LOW => self.tags.get(place.saturating_add(LOW as usize)),
            Class::Universal | Class::Application | Class::Context | Class::Private => None,
        };
        match kept {
            Some(text) => Ok(out.push_str(text.as_str())?),
            None => put_tag(tag, out),
        }
    }
}

// The place of a kept text of a depth, a head and contents.
fn place_of(depth: usize, head: usize, contents: Option<usize>) -> Option<usize> {
    let place = match contents {
        Some(size) if size < SHORT => size,
        Some(_) => return None,
        None => SHORT,
    };
    match head {
        2 if depth < SHALLOW => Some(2 * KEPT * depth + place),
        3 if depth < SHALLOW => Some(2 * KEPT * depth + KEPT + place),
        _ => None,
    }
}

// Appends how many octets a head and its contents have, as `2+5`, filled up to the column's width.
fn put_lengths(head: usize, contents: Option<usize>, out: &mut String) -> Result<(), NoMemory> {
    let start = out.len();
    put_number(head as u64, out)?;
    out.push_str("+")?;
    match contents {
        Some(size) => put_number(size as u64, out)?,
        None => out.push_str("indef")?,
    }
    pad(start, WIDTH_OF_LENGTHS, out)
}

// Appends a tag, filled up to the column's width.
fn put_tag(tag: Tag, out: &mut String) -> Result<(), NoMemory> {
    let start = out.len();
    out.push_str(PrintedTag(tag).word())?;
    put_number(u64::from(tag.number), out)?;
    out.push_str("]")?;
    pad(start, WIDTH_OF_TAG, out)
}

/// Appends an offset in decimal, of at least 4 digits.
pub fn put_offset(offset: u64, out: &mut String) -> Result<(), NoMemory> {
    let mut buffer = Buffer::new();
    let digits = buffer.format(offset);
    match digits.len() {
        1 => out.push_str("000")?,
        2 => out.push_str("00")?,
        3 => out.push_str("0")?,
        _ => {}
    }
    out.push_str(digits)?;
    Ok(())
}

fn put_depth(depth: usize, out: &mut String) -> Result<(), NoMemory> {
    out.push_str(": ")?;
    put_number(depth as u64, out)?;
    out.push_str(" ")?;
    Ok(())
}

// Appends a number in decimal.
fn put_number(number: u64, out: &mut String) -> Result<(), NoMemory> {
    let mut buffer = Buffer::new();
    out.push_str(buffer.format(number))?;
    Ok(())
}

// Appends spaces up to a width, and one at least.
fn pad(start: usize, width: usize, out: &mut String) -> Result<(), NoMemory> {
    out.push_str(" ")?;
    let there = out.len().saturating_sub(start);
    for _ in there..width {
        out.push_str(" ")?;
    }
    Ok(())
}
