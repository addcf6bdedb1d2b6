//! UTCTime and GeneralizedTime, in the forms that X.690 11.7 and 11.8 ask of CER and DER.
//!
//! Four rules are this project's own (`docs/PROFILE.md`): BER takes no other form, no second is the 60th
//! of a minute, a fraction has at most twelve digits, and a UTCTime has a 29 February where its two
//! digits of the year are divisible by 4.

ghost use Rattle.std.specs.Prelude.{◌≡◌, ℕ, ◌≤◌, ◌↔◌, List, ◌++◌, IsTrue, IfSome, IfNone};
ghost use Rattle.strings.specs.Time.{IsTime, IsMoment, AreFractionDigits, IsDate, IsEnd, IsLeapYear, Spells, year_digits};

/// A type of times.
#[derive(Clone, Copy, Debug, PartialEq, Eq)]
pub enum TimeKind {
    /// UTCTime: two digits of the year, and no fraction of a second.
    Utc,
    /// GeneralizedTime: four digits of the year, and perhaps a fraction of a second.
    Generalized,
}

// What two digits 0 add up to as octets, the first of them ten times.
const ZEROS: u32 = 528;

/// Whether these are the contents octets of some time of the type. Takes no memory.
pub fn is_time(kind: TimeKind, contents: &[u8]) -> bool
    ensures { IsTrue result ↔ IsTime kind contents.now }
{
    match split_moment(kind, contents) {
        Some(rest) => is_end(kind, rest),
        None => false,
    }
}

// What follows the date and the time of day at the front of the octets.
fn split_moment(kind: TimeKind, octets: &[u8]) -> Option<&[u8]>
    ensures found { IfSome result (λ rest.
        (moment : List ℕ) × IsMoment kind moment × (octets.now ≡ moment ++ rest.now)) }
    ensures none { IfNone result
        ((moment rest : List ℕ) → IsMoment kind moment → ¬ (octets.now ≡ moment ++ rest)) }
{
    let (year, rest) = split_year(kind, octets)?;
    // Asked once, so that none of the five pairs asks again.
    if rest.len() < 10 {
        return None;
    }
    let (month, rest) = split_pair(rest, 1, 12)?;
    let (day, rest) = split_pair(rest, 1, 31)?;
    let (hour, rest) = split_pair(rest, 0, 23)?;
    let (minute, rest) = split_pair(rest, 0, 59)?;
    let (second, rest) = split_pair(rest, 0, 59)?;
    if is_date(kind, year, month, day) {
        Some(rest)
    } else {
        None
    }
}

// The year at the front of the octets, and the octets after it.
#[inline(always)]
fn split_year(kind: TimeKind, octets: &[u8]) -> Option<(u32, &[u8])>
    ensures found { IfSome result (λ found. Spells (year_digits kind) found.0 octets.now found.1.now) }
    ensures none { IfNone result
        ((number : ℕ) (rest : List ℕ) → ¬ Spells (year_digits kind) number octets.now rest) }
{
    let (first, rest) = split_pair(octets, 0, 99)?;
    match kind {
        TimeKind::Utc => Some((first, rest)),
        TimeKind::Generalized => {
            let (last, rest) = split_pair(rest, 0, 99)?;
            Some((first * 100 + last, rest))
        }
    }
}

// The number from `least` to `most` that the first two octets spell, and the octets after them.
#[inline(always)]
fn split_pair(octets: &[u8], least: u32, most: u32) -> Option<(u32, &[u8])>
    requires { most ≤ 99 }
    ensures found { IfSome result (λ found.
        (least ≤ found.0) × (found.0 ≤ most) × Spells 2 found.0 octets.now found.1.now) }
    ensures none { IfNone result
        ((number : ℕ) (rest : List ℕ) → least ≤ number → number ≤ most → ¬ Spells 2 number octets.now rest) }
{
    match octets {
        [tens, ones @ b'0'..=b'9', rest @ ..] => {
            // In place of the tens, what is no digit puts the number out of its bounds.
            let number = (u32::from(*tens) * 10 + u32::from(*ones)).wrapping_sub(ZEROS);
            if least <= number && number <= most {
                Some((number, rest))
            } else {
                None
            }
        }
        _ => None,
    }
}

// Whether the year has the day.
#[inline(always)]
fn is_date(kind: TimeKind, year: u32, month: u32, day: u32) -> bool
    ensures { IsTrue result ↔ IsDate kind year month day }
{
    if day <= 28 {
        return 1 <= day && matches!(month, 1..=12);
    }
    match day {
        29 if month == 2 => is_leap_year(kind, year),
        29 | 30 => matches!(month, 1 | 3..=12),
        31 => matches!(month, 1 | 3 | 5 | 7 | 8 | 10 | 12),
        _ => false,
    }
}

// Whether the year has a 29 February.
fn is_leap_year(kind: TimeKind, year: u32) -> bool
    ensures { IsTrue result ↔ IsLeapYear kind year }
{
    match kind {
        TimeKind::Utc => year % 4 == 0,
        TimeKind::Generalized => (year % 4 == 0 && year % 100 != 0) || year % 400 == 0,
    }
}

// Whether the octets may follow the seconds.
fn is_end(kind: TimeKind, octets: &[u8]) -> bool
    ensures { IsTrue result ↔ IsEnd kind octets.now }
{
    match (kind, octets) {
        (_, [b'Z']) => true,
        (TimeKind::Generalized, [b'.', digits @ .., b'Z']) => is_fraction(digits),
        _ => false,
    }
}

// Whether the digits may follow the point.
fn is_fraction(digits: &[u8]) -> bool
    ensures { IsTrue result ↔ AreFractionDigits digits.now }
{
    match digits {
        [] | [.., b'0'] => false,
        _ => digits.len() <= 12 && digits.iter().all(|digit| digit.is_ascii_digit()),
    }
}
