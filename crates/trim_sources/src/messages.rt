//! What is told of a module that is trimmed, line by line.

use published::Place;

/// What a message is about.
#[derive(Clone, Copy, Debug)]
pub enum Kind {
    /// Something is not taken, and nothing is written.
    Refused,
    /// Values that hold something are refused from then on.
    Narrowed,
    /// Something is left out that no encoding depends on.
    Dropped,
    /// The type that is asked for is written under another name.
    Renamed,
}

impl Kind {
    /// The word for it.
    pub fn as_str(self) -> &'static str {
        match self {
            Kind::Refused => "refused",
            Kind::Narrowed => "narrowed",
            Kind::Dropped => "dropped",
            Kind::Renamed => "renamed",
        }
    }
}

/// A line that is told.
#[derive(Debug, Drop)]
pub struct Message {
    /// Where it is about; None: about no place in a file.
    pub place: Option<Place>,
    /// What kind it is of.
    pub kind: Kind,
    /// What is told.
    pub text: String,
}
