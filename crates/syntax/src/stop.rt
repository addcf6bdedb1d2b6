//! Why the parser stops.

ghost use Rattle.std.specs.Prelude.{◌≡◌};
ghost use Rattle.syntax.specs.declared.stop.Stop.TheVariants.{NoMemory};

use std::alloc::{AllocError, AllocFailed};

/// What is wrong with the terminal at which the parser stops.
#[derive(Clone, Copy, Debug, PartialEq, Eq)]
pub enum Cause {
    /// It cannot stand there.
    Syntax,
    /// It is a reserved word of the profile where a name must stand.
    Reserved,
    /// It passes a limit.
    TooLarge,
    /// It begins a construct that is left out of the profile.
    NotInProfile,
}

/// Why the parser stops.
#[derive(Clone, Copy, Debug, PartialEq, Eq)]
pub enum Stop {
    /// The text is refused at the terminal of this index, or at its end.
    Refused(Cause, usize),
    /// A growth was refused.
    NoMemory,
}

impl<T: Drop> From<AllocFailed<T>> for Stop {
    ghost from_gives = { λ _ stop. stop ≡ NoMemory };

    fn from(_error: AllocFailed<T>) -> Stop {
        Stop::NoMemory
    }
}

impl From<AllocError> for Stop {
    ghost from_gives = { λ _ stop. stop ≡ NoMemory };

    fn from(_error: AllocError) -> Stop {
        Stop::NoMemory
    }
}
