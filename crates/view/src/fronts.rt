//! What stands in a line between the offset and the value. Texts of parts that have a number are kept.

use crate::printing::Style;
use octets::NoMemory;
use std::alloc::Global;
use std::string::String;
use walking::{Line, Walk, name_of};

// How many texts are kept.
const KEPT: usize = 1_021;

// The most octets of a text that is kept.
const MOST_KEPT: usize = 256;

// What stands in a key for the contents octets of the indefinite form, of which there are never so many.
const INDEFINITE: usize = 0xFF_FFFF;

/// Texts of lines, for one walk. Each place of the table has the text that was made last of those that belong there.
#[derive(Drop)]
pub struct Fronts {
    alloc: Global,
    table: Vec<Kept>,
}

// A text, and what it is made of; the key is 0 where there is none.
#[derive(Drop)]
struct Kept {
    key: usize,
    text: String,
}

impl Fronts {
    /// No text is kept. Takes no memory.
    pub fn new(alloc: Global) -> Fronts {
        Fronts {
            alloc,
            table: Vec::new(alloc),
        }
    }

    /// Appends the depth, the lengths, the tag, the path and the type of the encoding to which the walk has gone.
    pub fn put(
        &mut self,
        walk: &Walk<'_>,
        style: &Style<'_>,
        out: &mut String,
    ) -> Result<(), NoMemory> {
        let Some(key) = key_of(walk.line()) else {
            return put_front(walk, style, out);
        };
        match self.table.get(key % KEPT) {
            Some(kept) if kept.key == key => Ok(out.push_str(kept.text.as_str())?),
            _ => self.put_anew(key, walk, style, out),
        }
    }

    // Appends a text that is not kept, and keeps it.
    #[inline(never)]
    fn put_anew(
        &mut self,
        key: usize,
        walk: &Walk<'_>,
        style: &Style<'_>,
        out: &mut String,
    ) -> Result<(), NoMemory> {
        let start = out.len();
        put_front(walk, style, out)?;
        let text = out.as_str().get(start..).unwrap_or("");
        if text.len() <= MOST_KEPT {
            self.keep(key, text)?;
        }
        Ok(())
    }

    // Keeps a text at its place. Until it is whole the place has none: a growth may be refused.
    fn keep(&mut self, key: usize, text: &str) -> Result<(), NoMemory> {
        if self.table.is_empty() {
            self.make_table()?;
        }
        if let Some(kept) = self.table.get_mut(key % KEPT) {
            kept.key = 0;
            kept.text.clear();
            kept.text.push_str(text)?;
            kept.key = key;
        }
        Ok(())
    }

    fn make_table(&mut self) -> Result<(), NoMemory> {
        for _ in 0..KEPT {
            let text = String::new(self.alloc);
            self.table.push(Kept { key: 0, text })?;
        }
        Ok(())
    }
}

// What the text of a part is made of: the part's number, with which its depth goes, and the lengths.
fn key_of(line: &Line<'_>) -> Option<usize> {
    let contents = line.contents.unwrap_or(INDEFINITE);
    Some(line.place? << 32 | line.head << 24 | contents)
}

// Appends the depth, the lengths, the tag, the path, or the name of the type where that is empty, and the words that
// name the part's type.
fn put_front(walk: &Walk<'_>, style: &Style<'_>, out: &mut String) -> Result<(), NoMemory> {
    let line = walk.line();
    let columns = style.columns;
    columns.put_head(line.depth, line.head, line.contents, out)?;
    columns.put_tag(line.part.tag, out)?;
    let start = out.len();
    walk.put_path(line.depth, Some(&line.part), out)?;
    if out.len() == start {
        out.push_str(style.name)?;
        out.push_str(" ::=")?;
    }
    out.push(' ')?;
    out.push_str(name_of(line.part.node))?;
    Ok(())
}
