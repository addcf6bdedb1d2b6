//! The token in front of some octets, the longest that can stand there.

ghost use Rattle.std.specs.Prelude.{◌≡◌, ◌≤◌, length, ◌⊎◌};
ghost use Rattle.lexis.specs.Fronts.{StandsApart, AnswersToken, fault_number};

use crate::Kind;
use crate::name::word_in_front;
use crate::number::number_in_front;
use crate::quoted::{character_string_in_front, digit_string_in_front};
use crate::symbol::symbol_in_front;

// Why no token stands in front.
#[derive(Clone, Copy, Debug, PartialEq, Eq)]
pub(crate) enum Refused {
    // No token begins so.
    Token,
    // A number above the limit.
    TooLarge,
}

impl Refused {
    // The number of the fault.
    pub(crate) fn fault_number(self) -> u32
        ensures value { result ≡ fault_number self }
        ensures numbers { (result ≡ 21) ⊎ (result ≡ 31) }
    {
        match self {
            Refused::Token => 21,
            Refused::TooLarge => 31,
        }
    }
}

// The token in front, and how many octets it has.
pub(crate) fn token_in_front(octets: &[u8]) -> Result<(Kind, usize), Refused>
    requires apart { StandsApart octets.now }
    requires room { 1 ≤ length octets.now }
    ensures { AnswersToken octets.now result }
{
    match octets[0] {
        b'A'..=b'Z' | b'a'..=b'z' => Ok(word_in_front(octets)),
        b'0'..=b'9' => number_in_front(octets),
        b'\'' => digit_string_in_front(octets),
        b'"' => character_string_in_front(octets),
        _ => symbol_in_front(octets),
    }
}
