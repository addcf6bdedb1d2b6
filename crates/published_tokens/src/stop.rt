//! Why the parser stops.

use crate::fault::Fault;
use std::alloc::{AllocError, AllocFailed};

/// Why the parser stops.
#[derive(Clone, Copy, Debug)]
pub enum Stop {
    /// What stands next is refused.
    Refused(Fault),
    /// A growth was refused.
    NoMemory,
}

impl From<AllocError> for Stop {
    fn from(_error: AllocError) -> Stop {
        Stop::NoMemory
    }
}

impl<T: Drop> From<AllocFailed<T>> for Stop {
    fn from(_error: AllocFailed<T>) -> Stop {
        Stop::NoMemory
    }
}
