//! Numbers.

ghost use Rattle.std.specs.Prelude.{◌≡◌, ◌≤◌, ◌^◌, length, IfSome};
ghost use Rattle.std.specs.Str.Parse.{digits_value};

use crate::token::Kind;
use lexis::MAX_NUMBER;

// How many digits stand in front.
fn digits(octets: &[u8]) -> usize
    ensures { result ≤ length octets.now }
{
    octets
        .iter()
        .take_while(|octet| octet.is_ascii_digit())
        .count()
}

// The value of the digits. None: it is above the limit, or an octet is no digit.
fn value_of(digits: &[u8]) -> Option<u128>
    ensures value { IfSome result (λ value. value ≡ digits_value 10 digits.now) }
    ensures limit { IfSome result (λ value. value ≤ 2 ^ 127) }
{
    let mut value = 0u128;
    for octet in digits {
        if !octet.is_ascii_digit() {
            return None;
        }
        let digit = u128::from(*octet - b'0');
        if value > (MAX_NUMBER - digit) / 10 {
            return None;
        }
        value = value * 10 + digit;
    }
    Some(value)
}

/// The number in front. Digits 0 before others are taken.
pub(crate) fn number_in_front(octets: &[u8]) -> (Kind, usize)
    ensures { result.1 ≤ length octets.now }
{
    let used = digits(octets);
    match value_of(&octets[..used]) {
        Some(value) => (Kind::Number(value), used),
        None => (Kind::TooGreat, used),
    }
}
