//! Why a name is refused.

ghost use Rattle.std.specs.Prelude.{◌≡◌, ◌≤◌};
ghost use Rattle.builtin_types.specs.Cause.{cause_number};
ghost use Rattle.builtin_types.specs.declared.stop.Stop.TheVariants.{NoMemory, Refused};

use std::alloc::{AllocError, AllocFailed};

/// What is wrong with what a name reaches. Of several causes the first of this list is named.
#[derive(Clone, Copy, Debug, PartialEq, Eq, PartialOrd, Ord)]
pub enum Cause {
    /// A reference is not assigned.
    UnknownType,
    /// Two names of one list are equal.
    RepeatedName,
    /// IMPLICIT is written around an untagged CHOICE.
    ImplicitChoice,
    /// A limit on types is not kept.
    TooLarge,
    /// Two items of an ENUMERATED, or two named bits, have one number.
    RepeatedNumber,
    /// A DEFAULT that its type does not take.
    BadDefault,
    /// Tags that must differ are equal.
    TagsNotDistinct,
}

impl Cause {
    /// The number of the fault, from 24 to 31, but not that of a cycle.
    pub fn number(self) -> u32
        ensures number { result ≡ cause_number self }
        ensures range { (24 ≤ result) × (result ≤ 31) }
        ensures no_cycle { result ≡ 25 → ⊥ }
    {
        match self {
            Cause::UnknownType => 24,
            Cause::RepeatedName => 26,
            Cause::RepeatedNumber => 27,
            Cause::TagsNotDistinct => 28,
            Cause::ImplicitChoice => 29,
            Cause::BadDefault => 30,
            Cause::TooLarge => 31,
        }
    }
}

/// Why no type is made.
#[derive(Clone, Copy, Debug, PartialEq, Eq)]
pub enum Stop {
    /// The name is refused.
    Refused(Cause),
    /// A growth was refused.
    NoMemory,
}

impl From<AllocError> for Stop {
    ghost from_gives = { λ _ stop. stop ≡ NoMemory };

    fn from(_error: AllocError) -> Stop {
        Stop::NoMemory
    }
}

impl From<Cause> for Stop {
    ghost from_gives = { λ cause stop. stop ≡ Refused cause };

    fn from(cause: Cause) -> Stop {
        Stop::Refused(cause)
    }
}

impl<T: Drop> From<AllocFailed<T>> for Stop {
    ghost from_gives = { λ _ stop. stop ≡ NoMemory };

    fn from(_error: AllocFailed<T>) -> Stop {
        Stop::NoMemory
    }
}
