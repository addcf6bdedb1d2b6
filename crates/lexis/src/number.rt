//! Numbers (X.680, clause 12): `0`, or digits of which the first is not `0`.

ghost use Rattle.std.specs.Prelude.{◌≡◌, ◌↔◌, ◌<◌, ◌≤◌, ◌^◌, take, slice_index, true, IsTrue, IfSome, IfNone};
ghost use Rattle.std.specs.Char.{is_ascii_digit};
ghost use Rattle.std.specs.List.{prefix_len};
ghost use Rattle.std.specs.Str.Parse.{digits_value};
ghost use Rattle.lexis.specs.Fronts.{IsLedByZero, StandsApart, AnswersToken};

use crate::front::Refused;
use crate::{Kind, MAX_NUMBER};

// The value of the digits in front, and how many there are. None: the value is above the limit.
pub(crate) fn digits(octets: &[u8]) -> Option<(u128, usize)>
    ensures count { IfSome result (λ found. found.1 ≡ prefix_len is_ascii_digit octets.now) }
    ensures value { IfSome result (λ found. found.0 ≡ digits_value 10 (take found.1 octets.now)) }
    ensures limit { IfSome result (λ found. found.0 ≤ 2 ^ 127) }
    ensures above { IfNone result
        (2 ^ 127 < digits_value 10 (take (prefix_len is_ascii_digit octets.now) octets.now)) }
{
    let mut value = 0u128;
    let mut count = 0;
    while count < octets.len() && octets[count].is_ascii_digit() {
        let digit = u128::from(octets[count] - b'0');
        if value > (MAX_NUMBER - digit) / 10 {
            return None;
        }
        value = value * 10 + digit;
        count += 1;
    }
    Some((value, count))
}

// Whether a digit stands behind a 0 in front.
fn is_led_by_zero(octets: &[u8]) -> bool
    ensures { IsTrue result ↔ IsLedByZero octets.now }
{
    octets.len() >= 2 && octets[0] == b'0' && octets[1].is_ascii_digit()
}

// The number in front.
pub(crate) fn number_in_front(octets: &[u8]) -> Result<(Kind, usize), Refused>
    requires apart { StandsApart octets.now }
    requires first { is_ascii_digit (slice_index octets.now 0) ≡ true }
    ensures { AnswersToken octets.now result }
{
    if is_led_by_zero(octets) {
        return Err(Refused::Token);
    }
    match digits(octets) {
        Some((value, count)) => Ok((Kind::Number(value), count)),
        None => Err(Refused::TooLarge),
    }
}
