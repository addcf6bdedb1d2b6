//! That a device failed.

use thiserror::Error;

/// A device gave or took nothing, and is asked for no more. Why, the device alone knows.
#[derive(Clone, Copy, Debug, PartialEq, Eq, Error)]
#[error("a device failed")]
pub struct Failed;
