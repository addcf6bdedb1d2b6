//! Readers and writers of few octets a call, which fail once so many calls went well.

use std::alloc::Global;
use std::io;
use std::io::{ErrorKind, Read, Write};

/// A reader that gives one octet a call.
#[derive(Drop)]
pub struct Dripping<'a> {
    pub octets: &'a [u8],
    pub good_calls: usize,
    pub then: ErrorKind,
}

impl<'a> Dripping<'a> {
    pub fn new(octets: &'a [u8], good_calls: usize) -> Self {
        Dripping {
            octets,
            good_calls,
            then: ErrorKind::Other,
        }
    }
}

impl Read for Dripping<'_> {
    fn read(&mut self, buf: &mut [u8]) -> io::Result<usize> {
        if self.good_calls == 0 {
            return Err(io::Error::from(self.then));
        }
        self.good_calls -= 1;
        match (self.octets.split_first(), buf.first_mut()) {
            (Some((octet, rest)), Some(place)) => {
                *place = *octet;
                self.octets = rest;
                Ok(1)
            }
            _ => Ok(0),
        }
    }
}

/// A writer that takes so many octets a call at most.
#[derive(Drop)]
pub struct Filling {
    pub taken: Vec<u8>,
    pub most: usize,
    pub good_calls: usize,
    pub then: ErrorKind,
}

impl Filling {
    /// One that takes one octet a call.
    pub fn new(alloc: Global, good_calls: usize) -> Self {
        Filling {
            taken: Vec::new(alloc),
            most: 1,
            good_calls,
            then: ErrorKind::StorageFull,
        }
    }
}

impl Write for Filling {
    fn write(&mut self, buf: &[u8]) -> io::Result<usize> {
        if self.good_calls == 0 {
            return Err(io::Error::from(self.then));
        }
        self.good_calls -= 1;
        let count = buf.len().min(self.most);
        self.taken.extend_from_slice(&buf[..count])?;
        Ok(count)
    }

    fn flush(&mut self) -> io::Result<()> {
        Ok(())
    }
}
