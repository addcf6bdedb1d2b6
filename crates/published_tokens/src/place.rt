//! Where a token begins.

/// Where a token begins.
#[derive(Clone, Copy, Debug, PartialEq, Eq)]
pub struct Place {
    /// The number of its file, counted from 0.
    pub file: u32,
    /// The line, counted from 1.
    pub line: u32,
    /// The octet of the line, counted from 1.
    pub column: u32,
}
