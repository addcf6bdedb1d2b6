//! FileSystem in memory.

use std::alloc::{AllocError, Global};
use std::cell::RefCell;
use std::io::{self, Error, ErrorKind, Read, Write};
use view::FileSystem;

/// Files by their names: `m` is a module's text, any other name but `none` the input, which `whole` gives at once. Of
/// files that are written the names and the octets are kept, those that begin with `full` take nothing, and `none0001` cannot be made.
#[derive(Drop)]
pub struct Fake<'a> {
    pub alloc: Global,
    pub module: &'a str,
    pub input: &'a [u8],
    pub written: &'a RefCell<String>,
}

/// A file that is read, a few octets at once.
#[derive(Drop)]
pub struct Dripping {
    octets: Vec<u8>,
    at: usize,
    most: usize,
}

impl Read for Dripping {
    fn read(&mut self, room: &mut [u8]) -> io::Result<usize> {
        let left = self.octets.get(self.at..).unwrap_or(&[]);
        let count = left.len().min(room.len()).min(self.most);
        room[..count].copy_from_slice(&left[..count]);
        self.at = self.at.saturating_add(count);
        Ok(count)
    }
}

/// A file that is written, a few octets at once, and kept as its name and hexadecimal text.
#[derive(Drop)]
pub struct Kept<'a> {
    written: &'a RefCell<String>,
    is_full: bool,
}

impl Write for Kept<'_> {
    fn write(&mut self, octets: &[u8]) -> io::Result<usize> {
        if self.is_full {
            return Err(Error::from(ErrorKind::StorageFull));
        }
        let count = octets.len().min(5);
        match put_hex(&octets[..count], self.written) {
            Ok(()) => Ok(count),
            Err(_) => Err(Error::from(ErrorKind::OutOfMemory)),
        }
    }

    fn flush(&mut self) -> io::Result<()> {
        Ok(())
    }
}

fn put_hex(octets: &[u8], written: &RefCell<String>) -> Result<(), AllocError> {
    if let Ok(mut text) = written.try_borrow_mut() {
        let text = &mut *text;
        for octet in octets {
            write!(text, "{octet:02x}")?;
        }
    }
    Ok(())
}

// Begins the text of a file, with a space before each but the first.
fn put_name(path: &str, written: &RefCell<String>) -> Result<(), AllocError> {
    if let Ok(mut text) = written.try_borrow_mut() {
        let space = if text.is_empty() { "" } else { " " };
        write!(text, "{space}{path} ")?;
    }
    Ok(())
}

impl<'a> FileSystem for Fake<'a> {
    type Input = Dripping;

    type Output = Kept<'a>;

    fn open(&self, path: &str) -> io::Result<Dripping> {
        let octets = match path {
            "m" => self.module.as_bytes(),
            "none" => return Err(Error::from(ErrorKind::NotFound)),
            _ => self.input,
        };
        let most = if path == "whole" { octets.len() } else { 7 };
        let at = 0;
        match Vec::from_slice(self.alloc, octets) {
            Ok(octets) => Ok(Dripping { octets, at, most }),
            Err(_) => Err(Error::from(ErrorKind::OutOfMemory)),
        }
    }

    fn create(&self, path: &str) -> io::Result<Kept<'a>> {
        if path == "none0001" {
            return Err(Error::from(ErrorKind::NotFound));
        }
        if put_name(path, self.written).is_err() {
            return Err(Error::from(ErrorKind::OutOfMemory));
        }
        Ok(Kept {
            written: self.written,
            is_full: path.starts_with("full"),
        })
    }
}
