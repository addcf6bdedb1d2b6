//! Terminals of the grammar, each with the place where it stands.

use lexis::Lexeme;

/// What a token stands for, and its place in the text.
#[derive(Clone, Copy)]
pub struct Terminal<'a> {
    /// What stands there.
    pub lexeme: Lexeme<'a>,
    /// Its line, counted from 1.
    pub line: u32,
    /// The octet of the line where it begins, counted from 1.
    pub column: u32,
}
