//! A source over a reader.

ghost use Rattle.std.specs.Prelude.{◌≡◌};
ghost use Rattle.devices.specs.Failures.{count_of};

use crate::{Failed, Source};
use std::io::Read;

/// A source over a reader. It tells the octets that the reader tells, and fails where the reader
/// returns an error, also one that says that the call was interrupted.
#[derive(Drop)]
pub struct FromReader<R> {
    inner: R,
    failed: bool,
}

impl<R: Read> FromReader<R> {
    /// A source over `inner` that has not failed. Takes no memory.
    pub fn new(inner: R) -> Self
        ensures left { ⟦<FromReader<R> as Source>⟧.left result ≡ R.remaining inner }
        ensures failures { ⟦<FromReader<R> as Source>⟧.failures result ≡ 0 }
    {
        FromReader {
            inner,
            failed: false,
        }
    }

    /// The reader, from where the source stopped.
    pub fn into_inner(self) -> R
        ensures { R.remaining result ≡ ⟦<FromReader<R> as Source>⟧.left self }
    {
        self.inner
    }
}

impl<R: Read> Source for FromReader<R> {
    ghost left = { λ source. R.remaining source.inner };

    ghost failures = { λ source. count_of source.failed };

    fn failed(&self) -> bool {
        self.failed
    }

    fn read(&mut self, buffer: &mut [u8]) -> Result<usize, Failed> {
        match self.inner.read(buffer) {
            Ok(count) => Ok(count),
            Err(_) => {
                self.failed = true;
                Err(Failed)
            }
        }
    }
}
