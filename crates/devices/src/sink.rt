//! What octets go to.

ghost use Rattle.std.specs.Prelude.{◌≡◌, ℕ, List, Option};
ghost use Rattle.std.specs.Io.{WritesAtMost};
ghost use Rattle.std.specs.Io.KnownBytes.{WriteAppends};
ghost use Rattle.devices.specs.Failures.{count_of, CountsFailure, TakesSome};

use crate::Failed;

/// What octets go to, in order.
pub trait Sink {
    // The octets taken so far, where they are told.
    ghost taken: { Self → Option (List ℕ) };

    // How many writes have failed.
    ghost failures: { Self → ℕ };

    /// Whether a write has failed. Takes no memory.
    fn failed(&self) -> bool
        ensures { failures self.now ≡ count_of result };

    /// Takes octets from the front of `octets` and returns how many, at least one of any. Asks for a
    /// sink that has not failed (`failed` is the test).
    fn write(&mut self, octets: &[u8]) -> Result<usize, Failed>
        requires { failures self.old ≡ 0 }
        ensures bound { WritesAtMost result octets.now }
        ensures some { TakesSome result octets.now }
        ensures octets { WriteAppends (taken self.old) (taken self.new) result octets.now }
        ensures count { CountsFailure result (failures self.new) };
}
