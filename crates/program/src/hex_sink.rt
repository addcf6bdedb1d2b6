//! A sink that prints octets as hexadecimal text.

ghost use Rattle.std.specs.Prelude.{None, false, ◌≡◌, ◌≤◌, ◌<◌, ◌*◌, length, IfOk};
ghost use Rattle.devices.specs.Failures.{count_of, CountsFailure};

use devices::{Failed, Sink};
use std::io::Write;

// How many octets are printed at once.
const AT_ONCE: usize = 2048;

/// A sink that prints the octets that it takes as lower-case hexadecimal text, without white space. It
/// tells no octets, and fails where the writer returns an error or takes none of some text.
#[derive(Drop)]
pub struct HexSink<W> {
    inner: W,
    failed: bool,
    // whether the first digit of the next octet is printed
    half: bool,
}

impl<W: Write> HexSink<W> {
    /// A sink that prints to `inner` and has not failed. Takes no memory.
    pub fn new(inner: W) -> Self
        ensures inner { result.inner ≡ inner }
        ensures failures { ⟦<HexSink<W> as Sink>⟧.failures result ≡ 0 }
    {
        HexSink {
            inner,
            failed: false,
            half: false,
        }
    }

    /// The writer.
    pub fn into_inner(self) -> W
        ensures { result ≡ self.inner }
    {
        self.inner
    }

    // Prints digits of octets from the one that is due, up to the end of one octet at least, and returns
    // how many octets are printed.
    fn print(&mut self, digits: &[u8]) -> Result<usize, Failed>
        requires { self.old.failed ≡ false }
        ensures bound { IfOk result (λ count. 2 * count ≤ length digits.now) }
        ensures some { IfOk result (λ count. 2 ≤ length digits.now → 0 < count) }
        ensures count { CountsFailure result (count_of self.new.failed) }
    {
        let mut at = usize::from(self.half);
        while at < 2 && at < digits.len() {
            match self.inner.write(&digits[at..]) {
                Ok(count) if count > 0 => at += count,
                _ => {
                    self.half = at == 1;
                    self.failed = true;
                    return Err(Failed);
                }
            }
        }
        self.half = at % 2 == 1;
        Ok(at / 2)
    }
}

impl<W: Write> Sink for HexSink<W> {
    ghost taken = { λ _. None };

    ghost failures = { λ sink. count_of sink.failed };

    fn failed(&self) -> bool {
        self.failed
    }

    fn write(&mut self, octets: &[u8]) -> Result<usize, Failed> {
        let mut room = [0; 2 * AT_ONCE];
        let count = octets.len().min(AT_ONCE);
        let digits = &mut room[..2 * count];
        let _ = hex::encode_to_slice(&octets[..count], digits);
        self.print(&room[..2 * count])
    }
}
