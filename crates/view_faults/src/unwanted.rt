//! Why no more values are wanted.

/// The output takes no more, or the program is out of memory.
#[derive(Clone, Copy, Debug, PartialEq, Eq)]
pub enum Unwanted {
    /// The output failed, or its reader is gone.
    Output,
    /// A growth was refused.
    NoMemory,
}
