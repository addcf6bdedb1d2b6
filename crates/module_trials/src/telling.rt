//! Rows that begin with a text, and what is told of texts.
//!
//! A text that is scanned or parsed stands there as it is, blanks and bars in it too, with ` | ` behind it; `\n` in it
//! is a line feed.

use lexis::Fault;
use std::alloc::{AllocError, Global};
use std::test::Fail;
use test_tables::{Table, four};

/// The text that a row begins with, as it is, and the last column.
pub fn text_and_last(row: &str) -> Result<(&str, &str), Fail> {
    around(row, " | ")
}

/// What stands on both sides of the last mark of a row.
pub fn around<'a>(row: &'a str, mark: &str) -> Result<(&'a str, &'a str), Fail> {
    match row.rsplit_once(mark) {
        Some(sides) => Ok(sides),
        None => Err(Fail::new(format_args!("no {mark}: {row}"))),
    }
}

/// What a column has between `'`, the blanks at its ends too.
pub fn quoted(column: &str) -> &str {
    column.trim_matches('\'')
}

/// The text that a column spells, in which `\n` is a line feed.
pub fn spelled(alloc: Global, column: &str) -> Result<String, AllocError> {
    column.replace(alloc, "\\n", "\n")
}

/// What stands in front, the text so many times, and what stands behind.
pub fn repeated(
    alloc: Global,
    front: &str,
    text: &str,
    count: usize,
    behind: &str,
) -> Result<String, AllocError> {
    let mut all = String::from_str(alloc, front)?;
    for _ in 0..count {
        all.push_str(text)?;
    }
    all.push_str(behind)?;
    Ok(all)
}

/// The text with what stands on both sides of it.
pub fn between(alloc: Global, front: &str, text: &str, behind: &str) -> Result<String, AllocError> {
    let mut all = String::from_str(alloc, front)?;
    all.push_str(text)?;
    all.push_str(behind)?;
    Ok(all)
}

// The text that four columns spell: what stands in front, what is repeated, how often, and what stands behind.
fn text_of(alloc: Global, columns: &str) -> Result<String, Fail> {
    let (front, part, count, behind) = four(columns)?;
    let count = count.parse::<usize>()?;
    Ok(repeated(alloc, quoted(front), quoted(part), count, quoted(behind))?)
}

/// What tells something of texts.
pub trait Tells {
    /// What is told of a text.
    fn told(&self, alloc: Global, text: &str) -> Result<String, AllocError>;
}

/// The four columns of a text that is built | what is told of it.
pub struct Built<T>(pub T);

impl<T: Tells> Table for Built<T> {
    fn holds(&self, alloc: Global, row: &str) -> Result<bool, Fail> {
        let (columns, wanted) = text_and_last(row)?;
        let text = text_of(alloc, columns)?;
        Ok(self.0.told(alloc, text.as_str())?.as_str() == wanted)
    }
}

/// Whether this is told of 65,536 comments, each in the one before.
pub fn is_told_of_comments<T: Tells>(
    alloc: Global,
    teller: &T,
    wanted: &str,
) -> Result<bool, AllocError> {
    let ends = repeated(alloc, "", "*/", 65_536, "")?;
    let text = repeated(alloc, "", "/*", 65_536, ends.as_str())?;
    Ok(teller.told(alloc, text.as_str())?.as_str() == wanted)
}

/// The number and the place of a fault.
pub fn placed(alloc: Global, fault: Fault) -> Result<String, AllocError> {
    let number = fault.number;
    let line = fault.line;
    let column = fault.column;
    format!(in alloc; "{number} at {line}:{column}")
}
