//! Paths as programs print them.

use std::fmt;

/// A path that prints in one line: each control character as `\u{..}`, with its number in hexadecimal,
/// and every other character as it is.
#[derive(Clone, Copy, Debug)]
pub struct PrintedPath<'a>(pub &'a str);

impl fmt::Display for PrintedPath<'_> {
    fn fmt<W: fmt::Write>(&self, f: &mut fmt::Formatter<W>) -> fmt::Result {
        for character in self.0.chars() {
            if character.is_control() {
                let number = u32::from(character);
                write!(f, "\\u{{{number:x}}}")?;
            } else {
                f.write_char(character)?;
            }
        }
        Ok(())
    }
}
