//! A sink over a writer.

use crate::{Failed, Sink};
use std::io::Write;

/// A sink over a writer. It tells the octets that the writer tells, and fails where the writer takes
/// none of a slice that is not empty or returns an error, also one that says that the call was
/// interrupted. It never flushes the writer.
#[derive(Drop)]
pub struct ToWriter<W> {
    failed: bool,
    inner: W,
}

impl<W: Write> Sink for ToWriter<W> {
    ghost use Rattle.devices.specs.Failures.{count_of};

    ghost taken = { λ sink. W.contents sink.inner };

    ghost failures = { λ sink. count_of sink.failed };

    fn failed(&self) -> bool {
        self.failed
    }

    fn write(&mut self, octets: &[u8]) -> Result<usize, Failed> {
        match self.inner.write(octets) {
            Ok(count) if count > 0 || octets.is_empty() => Ok(count),
            _ => {
                self.failed = true;
                Err(Failed)
            }
        }
    }
}

impl<W: Write> ToWriter<W> {
    ghost use Rattle.std.specs.Prelude.{◌≡◌};

    /// A sink over `inner` that has not failed. Takes no memory.
    pub fn new(inner: W) -> Self
        ensures taken { ⟦<ToWriter<W> as Sink>⟧.taken result ≡ W.contents inner }
        ensures failures { ⟦<ToWriter<W> as Sink>⟧.failures result ≡ 0 }
    {
        ToWriter {
            failed: false,
            inner,
        }
    }

    /// The writer, with what it took.
    pub fn into_inner(self) -> W
        ensures { W.contents result ≡ ⟦<ToWriter<W> as Sink>⟧.taken self }
    {
        self.inner
    }
}
