//! A source over a slice.

ghost use Rattle.std.specs.Prelude.{◌≡◌, ℕ, List, Some};
ghost use Rattle.std.specs.Io.{ReadsAtMost};
ghost use Rattle.std.specs.Io.KnownBytes.{ReadConsumes};
ghost use Rattle.devices.specs.Failures.{CountsFailure};

use crate::{Failed, Source};
use std::marker::Model;

/// A source over a slice: it gives the slice's octets in order and never fails.
#[derive(Drop)]
pub struct FromSlice<'a> {
    // what no read has given yet
    octets: &'a [u8],
}

impl<'a> Model for FromSlice<'a> {
    ghost Value = { List ℕ };

    ghost view = { λ source. source.octets.now };
}

impl<'a> FromSlice<'a> {
    /// A source of all of `octets`. Takes no memory.
    pub fn new(octets: &'a [u8]) -> Self
        ensures { result ≡ octets.now }
    {
        FromSlice { octets }
    }
}

impl Source for FromSlice<'_> {
    ghost left = { λ source. Some source };

    ghost failures = { λ _. 0 };

    fn failed(&self) -> bool {
        false
    }

    // The clauses of every source, and that none fails.
    fn read(&mut self, buffer: &mut [u8]) -> Result<usize, Failed>
        ensures bound { ReadsAtMost result buffer.new }
        ensures octets { ReadConsumes (Some self.old) (Some self.new) result buffer.new }
        ensures never_fails { CountsFailure result 0 }
    {
        let count = self.octets.len().min(buffer.len());
        let (given, rest) = self.octets.split_at(count);
        buffer[..count].copy_from_slice(given);
        self.octets = rest;
        Ok(count)
    }
}
