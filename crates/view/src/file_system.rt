//! What the program reads and writes, as a process gives it.

use std::io::{self, Read, Write};

/// Files by their names.
pub trait FileSystem {
    /// A file that is read.
    type Input: Read + Drop;

    /// A file that is written.
    type Output: Write + Drop;

    /// Opens a file to be read; `-` is the standard input.
    fn open(&self, path: &str) -> io::Result<Self::Input>;

    /// Makes a file, or empties the one that is there.
    fn create(&self, path: &str) -> io::Result<Self::Output>;
}
