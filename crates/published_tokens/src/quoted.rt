//! Strings (X.680 clause 12). They may go on over lines. Small letters are taken in binary and hexadecimal ones, as
//! modules for network management have them.

ghost use Rattle.std.specs.Prelude.{◌≡◌, ◌≤◌, length, IfSome};

use crate::gap::is_white;
use crate::token::Kind;

// How many octets of a character string follow its first quotation mark. Two marks are one character.
fn string_rest(octets: &[u8]) -> Option<usize>
    ensures { IfSome result (λ n. n ≤ length octets.now) }
{
    let mut is_half = false;
    for (count, octet) in octets.iter().enumerate() {
        if *octet == b'"' {
            is_half = !is_half;
        } else if is_half {
            return Some(count);
        }
    }
    if is_half { Some(octets.len()) } else { None }
}

/// The character string in front, behind whose first mark these octets stand.
pub(crate) fn chars_in_front(octets: &[u8]) -> (Kind, usize)
    requires { 1 ≤ length octets.now }
    ensures some { 1 ≤ result.1 }
    ensures within { result.1 ≤ length octets.now }
{
    match string_rest(&octets[1..]) {
        Some(rest) => (Kind::Chars, 1 + rest),
        None => (Kind::Unclosed, octets.len()),
    }
}

// Whether the octet may stand in a hexadecimal string.
fn is_of_digits(octet: u8) -> bool {
    octet.is_ascii_hexdigit() || is_white(octet)
}

// Whether these are the digits of a binary string.
fn are_bits(digits: &[u8]) -> bool {
    digits
        .iter()
        .all(|digit| matches!(*digit, b'0'..=b'1') || is_white(*digit))
}

// How many octets of digits and white space stand in front.
fn digits(octets: &[u8]) -> usize
    ensures { result ≤ length octets.now }
{
    octets
        .iter()
        .take_while(|octet| is_of_digits(**octet))
        .count()
}

/// The binary or hexadecimal string in front.
pub(crate) fn digits_in_front(octets: &[u8]) -> (Kind, usize)
    requires { 1 ≤ length octets.now }
    ensures some { 1 ≤ result.1 }
    ensures within { result.1 ≤ length octets.now }
{
    let inside = &octets[1..];
    let count = digits(inside);
    let (digits, behind) = inside.split_at(count);
    match behind {
        [b'\'', b'H' | b'h', ..] => (Kind::Hex, count + 3),
        [b'\'', b'B' | b'b', ..] if are_bits(digits) => (Kind::Binary, count + 3),
        _ => (Kind::Bad, 1),
    }
}
