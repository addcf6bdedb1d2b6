//! The output, below what gathers its lines.

use std::io::{self, ErrorKind, Write};

/// A writer that keeps of what kind its first failure was.
#[derive(Drop)]
pub struct WatchedOutput<W> {
    writer: W,
    failure: Option<ErrorKind>,
}

impl<W> WatchedOutput<W> {
    /// Nothing has failed.
    pub fn new(writer: W) -> WatchedOutput<W> {
        WatchedOutput {
            writer,
            failure: None,
        }
    }

    /// Whether the output failed, and not since its reader is gone.
    pub fn has_failed(&self) -> bool {
        !matches!(self.failure, None | Some(ErrorKind::BrokenPipe))
    }

    // A call that was interrupted is made again.
    fn note(&mut self, kind: ErrorKind) {
        if self.failure.is_none() && kind != ErrorKind::Interrupted {
            self.failure = Some(kind);
        }
    }
}

impl<W: Write> Write for WatchedOutput<W> {
    fn write(&mut self, octets: &[u8]) -> io::Result<usize> {
        let written = self.writer.write(octets);
        match &written {
            // It is not made again.
            Ok(0) if !octets.is_empty() => self.note(ErrorKind::WriteZero),
            Ok(_) => {}
            Err(error) => self.note(error.kind()),
        }
        written
    }

    fn flush(&mut self) -> io::Result<()> {
        let flushed = self.writer.flush();
        if let Err(error) = &flushed {
            self.note(error.kind());
        }
        flushed
    }
}
