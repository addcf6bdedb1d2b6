//! The token in front of some octets.

ghost use Rattle.std.specs.Prelude.{◌≡◌, ◌≤◌, length};

use crate::number::number_in_front;
use crate::quoted::{chars_in_front, digits_in_front};
use crate::symbol::symbol_in_front;
use crate::token::Kind;
use crate::word::{word_in_front, word_octets};

/// The token in front, and how many octets it has.
pub(crate) fn token_in_front(octets: &[u8]) -> (Kind, usize)
    ensures { result.1 ≤ length octets.now }
{
    match octets {
        [] => (Kind::End, 0),
        [b'A'..=b'Z' | b'a'..=b'z', ..] => word_in_front(octets),
        [b'0'..=b'9', ..] => number_in_front(octets),
        [b'"', ..] => chars_in_front(octets),
        [b'\'', ..] => digits_in_front(octets),
        [b'&', b'A'..=b'Z' | b'a'..=b'z', ..] => (Kind::Field, 1 + word_octets(&octets[1..])),
        [_, ..] => mark_in_front(octets),
    }
}

// The symbol in front, or the octet with which no token begins.
fn mark_in_front(octets: &[u8]) -> (Kind, usize)
    requires { 1 ≤ length octets.now }
    ensures { result.1 ≤ length octets.now }
{
    match symbol_in_front(octets) {
        Some((symbol, used)) => (Kind::Symbol(symbol), used),
        None => (Kind::Bad, 1),
    }
}
