//! A sink that appends to a vector.

ghost use Rattle.std.specs.Prelude.{◌≡◌, Some};
ghost use Rattle.devices.specs.Failures.{count_of};

use crate::{Failed, Sink};

/// A sink that appends to a vector what it takes, and nothing else. It fails where the vector's growth
/// is refused.
#[derive(Drop)]
pub struct ToVec {
    octets: Vec<u8>,
    failed: bool,
}

impl ToVec {
    /// A sink that appends to `octets` and has not failed. Takes no memory.
    pub fn new(octets: Vec<u8>) -> Self
        ensures taken { ⟦<ToVec as Sink>⟧.taken result ≡ Some octets.items }
        ensures failures { ⟦<ToVec as Sink>⟧.failures result ≡ 0 }
    {
        ToVec {
            octets,
            failed: false,
        }
    }

    /// The octets that the vector had, and behind them those taken.
    pub fn as_slice(&self) -> &[u8]
        ensures { ⟦<ToVec as Sink>⟧.taken self.now ≡ Some result.now }
    {
        self.octets.as_slice()
    }

    /// The vector.
    pub fn into_vec(self) -> Vec<u8>
        ensures { ⟦<ToVec as Sink>⟧.taken self ≡ Some result.items }
    {
        self.octets
    }
}

impl Sink for ToVec {
    ghost taken = { λ sink. Some sink.octets.items };

    ghost failures = { λ sink. count_of sink.failed };

    fn failed(&self) -> bool {
        self.failed
    }

    fn write(&mut self, octets: &[u8]) -> Result<usize, Failed> {
        match self.octets.extend_from_slice(octets) {
            Ok(()) => Ok(octets.len()),
            Err(_) => {
                self.failed = true;
                Err(Failed)
            }
        }
    }
}
