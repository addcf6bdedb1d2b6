//! Fields of classes of information objects (X.681 clause 9), as far as it is told which of them are open types.

ghost use Rattle.std.specs.Prelude.{◌≡◌};
ghost use Rattle.published_tokens.specs.Fields.{is_open_before};

use crate::symbol::Symbol;
use crate::token::Kind;
use lexis::Word as Reserved;

/// Whether the name of a field stands for an open type where this token is behind it in its class (X.681
/// clause 9): there is no type, or that of another field. Takes no memory.
pub fn is_open_before(kind: Kind) -> bool
    ensures { result ≡ is_open_before kind }
{
    match kind {
        Kind::Field => true,
        Kind::Reserved(Reserved::Optional | Reserved::Default) => true,
        Kind::Symbol(Symbol::Comma | Symbol::CloseBrace) => true,
        _ => false,
    }
}
