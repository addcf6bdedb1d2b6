//! What octets come from.

ghost use Rattle.std.specs.Prelude.{◌≡◌, ℕ, List, Option};
ghost use Rattle.std.specs.Io.{ReadsAtMost};
ghost use Rattle.std.specs.Io.KnownBytes.{ReadConsumes};
ghost use Rattle.devices.specs.Failures.{count_of, CountsFailure};

use crate::Failed;

/// What octets come from, in order and once.
pub trait Source {
    // The octets that reads will give from here to the end, where they are told.
    ghost left: { Self → Option (List ℕ) };

    // How many reads have failed.
    ghost failures: { Self → ℕ };

    /// Whether a read has failed. Takes no memory.
    fn failed(&self) -> bool
        ensures { failures self.now ≡ count_of result };

    /// Reads octets into the front of `buffer` and returns how many: 0 into a buffer that is not empty
    /// means the end. Asks for a source that has not failed (`failed` is the test).
    fn read(&mut self, buffer: &mut [u8]) -> Result<usize, Failed>
        requires { failures self.old ≡ 0 }
        ensures bound { ReadsAtMost result buffer.new }
        ensures octets { ReadConsumes (left self.old) (left self.new) result buffer.new }
        ensures count { CountsFailure result (failures self.new) };
}
