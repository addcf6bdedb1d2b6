//! The program's output, under a sink.

ghost use Rattle.program.specs.Output.{with_name};

use std::io::{self, Write};

/// A writer that is lent, and tells which one it is: a call over a sink promises what it took, and not that it still
/// writes to the same writer.
#[derive(Drop)]
pub struct Output<'a, W> {
    /// The writer.
    pub writer: &'a mut W,
}

impl<W: Write> Write for Output<'_, W> {
    ghost contents = { λ output. with_name output.writer.ghost_name (W.contents output.writer.now) };

    fn write(&mut self, octets: &[u8]) -> io::Result<usize> {
        self.writer.write(octets)
    }

    fn flush(&mut self) -> io::Result<()> {
        self.writer.flush()
    }
}
