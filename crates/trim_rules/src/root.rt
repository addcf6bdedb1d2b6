//! What a type is at its root: behind names, but not behind tags.

ghost use Rattle.std.specs.Prelude.{◌≡◌};
ghost use Rattle.trim_rules.specs.Root.{is_open, takes_any};

/// What a type is at its root.
#[derive(Clone, Copy, Debug, PartialEq, Eq)]
pub enum Root {
    /// An untagged CHOICE.
    Choice,
    /// An untagged open type.
    Open,
    /// An untagged field of a class of which it is not known whether its type is open.
    Field,
    /// An untagged character string type that the profile does not have.
    LeftOutString,
    /// Anything else.
    Other,
}

impl Root {
    /// Whether a tag without a keyword in front of it is explicit (X.680 31.2.7).
    pub fn is_open(self) -> bool
        ensures { result ≡ is_open self }
    {
        match self {
            Root::Choice | Root::Open | Root::Field => true,
            Root::LeftOutString | Root::Other => false,
        }
    }

    /// Whether values of any type may stand there.
    pub fn takes_any(self) -> bool
        ensures { result ≡ takes_any self }
    {
        match self {
            Root::Open | Root::Field => true,
            Root::Choice | Root::LeftOutString | Root::Other => false,
        }
    }
}
