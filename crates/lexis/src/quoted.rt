//! Binary, hexadecimal and character strings (X.680, clause 12).
//!
//! That each stands on one line and that the first two have no white space is this project's own choice
//! (`docs/PROFILE.md`).

ghost use Rattle.std.specs.Prelude.{◌≡◌, ◌≤◌, ◌&&◌, ◌||◌, length, codes, slice_index, Some, if◌then◌else◌};
ghost use Rattle.std.specs.List.{prefix_len, list_all};
ghost use Rattle.lexis.specs.Octets.{begins, is_line_end};
ghost use Rattle.lexis.specs.Spelling.{is_bit, is_hex_digit};
ghost use Rattle.lexis.specs.Fronts.{StandsApart, AnswersToken, AnswersString};

use crate::Kind;
use crate::front::Refused;
use crate::gap::is_line_end;

// Whether the octet is 0 or 1.
fn is_bit(octet: u8) -> bool
    ensures { result ≡ is_bit octet }
{
    matches!(octet, b'0'..=b'1')
}

// Whether the octet is 0 to 9, or A to F.
fn is_hex_digit(octet: u8) -> bool
    ensures { result ≡ is_hex_digit octet }
{
    matches!(octet, b'0'..=b'9' | b'A'..=b'F')
}

// How many octets of a character string follow its first quotation mark: the most that can. A mark may
// be the last, or with the next one the first of a pair.
fn string_rest(octets: &[u8]) -> Option<usize>
    ensures { AnswersString octets.now result }
{
    let mut end = None;
    let mut is_half = false;
    for (count, octet) in octets.iter().enumerate() {
        end = end_at(is_half, count, end);
        if *octet == b'"' {
            is_half = !is_half;
        } else if is_no_character(is_half, *octet) {
            return end;
        }
    }
    end_at(is_half, octets.len(), end)
}

// Whether the octet, which is no mark, cannot stand in the string: behind half a pair, or as a line end.
fn is_no_character(is_half: bool, octet: u8) -> bool
    ensures { result ≡ (is_half || is_line_end octet) }
{
    is_half || is_line_end(octet)
}

// Where the string can end: here, if a mark stands before that is no second one of a pair.
fn end_at(is_half: bool, here: usize, before: Option<usize>) -> Option<usize>
    ensures { result ≡ (if is_half then Some here else before) }
{
    if is_half { Some(here) } else { before }
}

// The character string in front.
pub(crate) fn character_string_in_front(octets: &[u8]) -> Result<(Kind, usize), Refused>
    requires apart { StandsApart octets.now }
    requires first { slice_index octets.now 0 ≡ 34 }
    ensures { AnswersToken octets.now result }
{
    match string_rest(&octets[1..]) {
        Some(rest) => Ok((Kind::Chars, 1 + rest)),
        None => Err(Refused::Token),
    }
}

// How many hexadecimal digits stand in front.
fn count_of_digits(octets: &[u8]) -> usize
    ensures value { result ≡ prefix_len is_hex_digit octets.now }
    ensures within { result ≤ length octets.now }
{
    octets
        .iter()
        .take_while(|octet| is_hex_digit(**octet))
        .count()
}

// Whether the digits are those of a binary string, which the octets behind them end.
fn is_binary(digits: &[u8], behind: &[u8]) -> bool
    ensures { result ≡ (begins (codes "'B") behind.now && list_all is_bit digits.now) }
{
    behind.starts_with(b"'B") && are_bits(digits)
}

// Whether each of the digits is 0 or 1.
fn are_bits(digits: &[u8]) -> bool
    ensures { result ≡ list_all is_bit digits.now }
{
    digits.iter().all(|digit| is_bit(*digit))
}

// The binary or hexadecimal string in front.
pub(crate) fn digit_string_in_front(octets: &[u8]) -> Result<(Kind, usize), Refused>
    requires apart { StandsApart octets.now }
    requires first { slice_index octets.now 0 ≡ 39 }
    ensures { AnswersToken octets.now result }
{
    let inside = &octets[1..];
    let count = count_of_digits(inside);
    let (digits, behind) = inside.split_at(count);
    if behind.starts_with(b"'H") {
        Ok((Kind::Hex, count + 3))
    } else if is_binary(digits, behind) {
        Ok((Kind::Binary, count + 3))
    } else {
        Err(Refused::Token)
    }
}
