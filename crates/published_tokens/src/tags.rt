//! The keywords of tags (X.680 clause 31.2).

ghost use Rattle.std.specs.Prelude.{◌≡◌};
ghost use Rattle.published_tokens.specs.Tags.{class_of, mode_of};

use crate::token::Kind;
use lexis::Word as Reserved;
use syntax::TagMode;

/// The class word of a tag.
#[derive(Clone, Copy, Debug, PartialEq, Eq)]
pub enum TagClass {
    /// `UNIVERSAL`.
    Universal,
    /// `APPLICATION`.
    Application,
    /// No word: context-specific.
    ContextSpecific,
    /// `PRIVATE`.
    Private,
}

/// The class of a tag, by the token behind its `[` (X.680 31.2): that of a class word, and context-specific
/// before any other token. Takes no memory.
pub fn class_of(kind: Kind) -> TagClass
    ensures { result ≡ class_of kind }
{
    match kind {
        Kind::Reserved(Reserved::Universal) => TagClass::Universal,
        Kind::Reserved(Reserved::Application) => TagClass::Application,
        Kind::Reserved(Reserved::Private) => TagClass::Private,
        _ => TagClass::ContextSpecific,
    }
}

/// The keyword of a tag, by the token behind its `]` (X.680 31.2): IMPLICIT, EXPLICIT, and none before any
/// other token. Takes no memory.
pub fn mode_of(kind: Kind) -> TagMode
    ensures { result ≡ mode_of kind }
{
    match kind {
        Kind::Reserved(Reserved::Implicit) => TagMode::Implicit,
        Kind::Reserved(Reserved::Explicit) => TagMode::Explicit,
        _ => TagMode::Unmarked,
    }
}
