//! Why octets are no UTCTime or GeneralizedTime.

use crate::Reason;
use strings::TimeKind;

// The names of the two-digit numbers behind the year, and the least and the greatest that each may be.
const NUMBERS: [(&str, u8, u8); 5] = [
    ("month", 1, 12),
    ("day", 1, 31),
    ("hour", 0, 23),
    ("minute", 0, 59),
    ("second", 0, 59),
];

/// Why octets are no time, and which of them shows it.
pub fn why_no_time<'a>(kind: TimeKind, octets: &[u8]) -> (usize, Reason<'a>) {
    let year = match kind {
        TimeKind::Utc => 2usize,
        TimeKind::Generalized => 4usize,
    };
    let digits = year + 10;
    if let Some(place) = other_than_digit(octets, digits) {
        return (place, Reason::Words("a digit must stand here"));
    }
    match wrong_number(octets, year) {
        Some((place, name, number)) => (place, Reason::Number(name, number)),
        None => {
            let (place, words) = why_no_end(kind, digits, octets);
            (place, Reason::Words(words))
        }
    }
}

// The first of so many octets that is no digit.
fn other_than_digit(octets: &[u8], count: usize) -> Option<usize> {
    for (place, octet) in octets.iter().take(count).enumerate() {
        if !octet.is_ascii_digit() {
            return Some(place);
        }
    }
    None
}

// The first number behind the year that is not within its bounds: its place, its name and the number.
fn wrong_number(octets: &[u8], year: usize) -> Option<(usize, &'static str, u8)> {
    for (which, (name, least, most)) in NUMBERS.iter().enumerate() {
        let place = year.saturating_add(which.saturating_mul(2));
        let number = number_at(octets, place);
        if number < *least || number > *most {
            return Some((place, *name, number));
        }
    }
    None
}

// Why the end of a time is none, where the numbers before it are within their bounds.
fn why_no_end(kind: TimeKind, digits: usize, octets: &[u8]) -> (usize, &'static str) {
    let behind = octets.get(digits..).unwrap_or(&[]);
    let day = digits.saturating_sub(8);
    match (kind, behind) {
        (_, [b'Z']) => (day, "the month does not have this day"),
        (TimeKind::Generalized, [b'.', .., b'Z']) => (
            digits,
            "a fraction has 1 to 12 digits, and the last is not 0",
        ),
        (TimeKind::Generalized, _) => (digits, "Z, or a point and a fraction, must stand here"),
        (TimeKind::Utc, _) => (digits, "Z must stand here, and nothing behind it"),
    }
}

// The number of the two digits at the place.
fn number_at(octets: &[u8], place: usize) -> u8 {
    let tens = digit_at(octets, place);
    let ones = digit_at(octets, place.saturating_add(1));
    tens.saturating_mul(10).saturating_add(ones)
}

fn digit_at(octets: &[u8], place: usize) -> u8 {
    octets
        .get(place)
        .copied()
        .unwrap_or(b'0')
        .saturating_sub(b'0')
}
