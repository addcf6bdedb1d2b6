//! Where a call over a stream stopped.

use thiserror::Error;
use types::Refusal;

/// A call over a stream stopped within it.
#[derive(Clone, Copy, Debug, PartialEq, Eq, Error)]
#[error("refused {refusal} after {done} values")]
pub struct Stopped {
    /// How many values were done before.
    pub done: u64,
    /// Why the next one was not.
    pub refusal: Refusal,
}
