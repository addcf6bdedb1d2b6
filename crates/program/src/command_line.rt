//! The program's command line.

use convert::{Canonical, Rule};

/// What the program is asked to do.
#[derive(Clone, Copy, Debug, PartialEq, Eq)]
pub enum Verb {
    /// To write the text of each value.
    Show,
    /// To count the values.
    Check,
    /// To write each value's canonical encoding.
    Convert,
}

/// A command line.
#[derive(Debug, Drop)]
pub struct Line {
    /// What is asked.
    pub verb: Verb,
    /// The module's file, or `@builtin`.
    pub module: String,
    /// The name of the type.
    pub name: String,
    /// The file of the values.
    pub input: String,
    /// The rule that they are read by.
    pub from: Rule,
    /// The rule that they are written by.
    pub to: Option<Canonical>,
    /// Whether the file is hexadecimal text.
    pub hex: bool,
}
