//! What is refused, and where.

ghost use Rattle.std.specs.Prelude.{◌≡◌};
ghost use Rattle.published_tokens.specs.Reasons.{reason_of};

use crate::place::Place;
use crate::token::Kind;

/// What is refused, and where.
#[derive(Clone, Copy, Debug, PartialEq, Eq)]
pub struct Fault {
    /// Where it begins.
    pub place: Place,
    /// Why it is refused.
    pub reason: Reason,
}

/// Why something is refused.
#[derive(Clone, Copy, Debug, PartialEq, Eq)]
pub enum Reason {
    /// The file is longer than `MAX_FILE` octets.
    FileTooLong,
    /// No token begins here.
    NoToken,
    /// A comment or a string begins here that does not end.
    Unclosed,
    /// A number above 2 to the power of 127.
    NumberTooGreat,
    /// The token cannot stand here.
    Unexpected,
    /// Types nest deeper than `MAX_LEVELS`, or brackets that are skipped do.
    TooDeep,
    /// The file has more parts than `MAX_PARTS`.
    TooManyParts,
    /// A module ends here, before its `END`.
    NoEnd,
}

impl Reason {
    /// The reason in words.
    pub fn as_str(self) -> &'static str {
        match self {
            Reason::FileTooLong => "the file is longer than 16,777,216 octets",
            Reason::NoToken => "no token of ASN.1 begins so",
            Reason::Unclosed => "what begins here does not end",
            Reason::NumberTooGreat => "the number is above 2^127",
            Reason::Unexpected => "this cannot stand here",
            Reason::TooDeep => "types or brackets nest deeper than 64 levels",
            Reason::TooManyParts => "the file has more than 131,072 types, names and values",
            Reason::NoEnd => "the module has no END",
        }
    }
}

/// Why a token of this kind is refused, where another must stand.
pub(crate) fn reason_of(kind: Kind) -> Reason
    ensures { result ≡ reason_of kind }
{
    match kind {
        Kind::Bad => Reason::NoToken,
        Kind::Unclosed => Reason::Unclosed,
        Kind::TooGreat => Reason::NumberTooGreat,
        _ => Reason::Unexpected,
    }
}
