//! How the tables of octets are read, whose rows stand below types (`tables`).
//!
//! A row has octets, what they become under DER, what under CER, and the text of their value, with bars between. All
//! columns but the first may be empty, and the last ones missing. What octets become is octets, `kept` for the same
//! ones, `refused` and a number, or `left over` where a value ends before the octets do. What a reader refuses stands in
//! the second column alone, and `refused 14` means one writer.
//!
//! The columns are X.690's, by a converter that shares nothing with these crates. A row that is taken has all of
//! them, but for texts of a thousand characters and more: `show` returns what `IsShown` says, by its own clause, and
//! shorter rows of the same types hold that definition to literals.

use convert::WellTyped;
use std::alloc::Global;
use std::test::Fail;
use test_tables::octets_of;

/// A row of a table.
#[derive(Drop)]
pub struct Row<'a> {
    pub ty: &'a WellTyped,
    pub line: &'a str,
    pub octets: Vec<u8>,
    pub der: Becomes,
    pub cer: Becomes,
    pub text: &'a str,
}

impl<'a> Row<'a> {
    /// Whether the octets are too many to be read often.
    pub fn is_long(&self) -> bool {
        self.octets.len() > 1_100
    }
}

/// What octets become under a rule.
#[derive(Drop)]
pub enum Becomes {
    Octets(Vec<u8>),
    Refused(u8),
    LeftOver,
    NotSaid,
}

/// The row that a line is.
pub fn row_of<'a>(alloc: Global, ty: &'a WellTyped, line: &'a str) -> Result<Row<'a>, Fail> {
    let (octets, columns) = line.split_once('|').ok_or("one column")?;
    let octets = octets_of(alloc, octets)?;
    let (der, columns) = columns.split_once('|').unwrap_or((columns, ""));
    let (cer, text) = columns.split_once('|').unwrap_or((columns, ""));
    let der = outcome_of(alloc, octets.as_slice(), der.trim())?;
    let cer = outcome_of(alloc, octets.as_slice(), cer.trim())?;
    Ok(Row {
        ty,
        line,
        octets,
        der,
        cer,
        text: text.trim(),
    })
}

// What a column says that octets become.
fn outcome_of(alloc: Global, octets: &[u8], column: &str) -> Result<Becomes, Fail> {
    if let Some(number) = column.strip_prefix("refused ") {
        return Ok(Becomes::Refused(number.parse::<u8>()?));
    }
    Ok(match column {
        "" => Becomes::NotSaid,
        "left over" => Becomes::LeftOver,
        "kept" => Becomes::Octets(Vec::from_slice(alloc, octets)?),
        _ => Becomes::Octets(octets_of(alloc, column)?),
    })
}
