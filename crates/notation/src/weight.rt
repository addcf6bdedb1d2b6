//! How large a type is before it is made, and what is wrong with it.

ghost use Rattle.std.specs.Prelude.{◌≡◌, ◌≢◌, ◌+◌, ◌↔◌, IsTrue, max, None as Nothing};
ghost use Rattle.notation.specs.Size.{counted};

use builtin_types::Cause;

/// The nodes and levels of a type, and the first cause to refuse it, where there is one. Counts that
/// pass what a `usize` holds stay at its greatest.
#[derive(Clone, Copy, Debug, PartialEq, Eq)]
pub struct Weight {
    /// How many nodes it has.
    pub nodes: usize,
    /// How many constructed encodings nest in an encoding of it.
    pub levels: usize,
    /// The first cause to refuse it.
    pub cause: Option<Cause>,
}

impl Weight {
    /// Of no parts.
    pub const NOTHING: Weight = Weight {
        nodes: 0,
        levels: 0,
        cause: None,
    };

    /// Of a type that is refused.
    pub fn refused(cause: Cause) -> Weight
        ensures { result.cause ≢ Nothing }
    {
        Weight {
            cause: Some(cause),
            ..Weight::NOTHING
        }
    }

    /// Of one node more, which is no constructed encoding.
    pub fn with_node(self) -> Weight
        ensures nodes { result.nodes ≡ counted (self.nodes + 1) }
        ensures levels { result.levels ≡ self.levels }
        ensures cause { result.cause ≡ self.cause }
    {
        Weight {
            nodes: self.nodes.saturating_add(1),
            ..self
        }
    }

    /// Of a constructed encoding around parts that have this weight.
    pub fn as_constructed(self) -> Weight
        ensures nodes { result.nodes ≡ counted (self.nodes + 1) }
        ensures levels { result.levels ≡ counted (self.levels + 1) }
        ensures cause { result.cause ≡ self.cause }
    {
        Weight {
            nodes: self.nodes.saturating_add(1),
            levels: self.levels.saturating_add(1),
            cause: self.cause,
        }
    }

    /// Of this part and another one beside it.
    pub fn beside(self, other: Weight) -> Weight
        ensures nodes { result.nodes ≡ counted (self.nodes + other.nodes) }
        ensures levels { result.levels ≡ max self.levels other.levels }
        ensures cause { result.cause ≡ Nothing ↔ ((self.cause ≡ Nothing) × (other.cause ≡ Nothing)) }
    {
        Weight {
            nodes: self.nodes.saturating_add(other.nodes),
            levels: self.levels.max(other.levels),
            cause: first_of(self.cause, other.cause),
        }
    }

    /// This weight, refused for the cause too where a condition does not hold.
    pub fn unless(self, holds: bool, cause: Cause) -> Weight
        ensures kept { IsTrue holds → result ≡ self }
        ensures refused { result.cause ≡ Nothing → IsTrue holds }
    {
        if holds {
            return self;
        }
        Weight {
            cause: first_of(self.cause, Some(cause)),
            ..self
        }
    }
}

fn first_of(one: Option<Cause>, other: Option<Cause>) -> Option<Cause>
    ensures { result ≡ Nothing ↔ ((one ≡ Nothing) × (other ≡ Nothing)) }
{
    match (one, other) {
        (Some(a), Some(b)) => Some(a.min(b)),
        (Some(a), None) => Some(a),
        (None, cause) => cause,
    }
}
