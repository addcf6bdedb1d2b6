//! Words (X.680, clause 12): names of types, identifiers and reserved words.

ghost use Rattle.std.specs.Prelude.{◌≡◌, ℕ, ◌<◌, ◌≤◌, length, slice_index, true, false};
ghost use Rattle.std.specs.Char.{is_ascii_alphabetic};
ghost use Rattle.lexis.specs.Spelling.{goes_on};
ghost use Rattle.lexis.specs.Tokens.{IsToken};
ghost use Rattle.lexis.specs.Fronts.{StandsApart};

use crate::{Kind, word_of};

// Whether the word goes on at this octet.
fn goes_on(octets: &[u8], at: usize) -> bool
    ensures value { result ≡ goes_on octets.now at }
    ensures there { result ≡ true → at < length octets.now }
{
    if at >= octets.len() {
        return false;
    }
    match &octets[at..] {
        [b'-', next, ..] => next.is_ascii_alphanumeric(),
        [octet, ..] => octet.is_ascii_alphanumeric(),
        [] => false,
    }
}

// How many octets the word has that begins in front.
fn word_octets(octets: &[u8]) -> usize
    requires { 1 ≤ length octets.now }
    ensures some { 1 ≤ result }
    ensures within { result ≤ length octets.now }
    ensures value { (i : ℕ) → 1 ≤ i → i < result → goes_on octets.now i ≡ true }
    ensures whole { goes_on octets.now result ≡ false }
{
    let mut count = 1;
    while goes_on(octets, count) {
        count += 1;
    }
    count
}

// The word in front.
pub(crate) fn word_in_front(octets: &[u8]) -> (Kind, usize)
    requires apart { StandsApart octets.now }
    requires first { is_ascii_alphabetic (slice_index octets.now 0) ≡ true }
    ensures { IsToken octets.now result.0 result.1 }
{
    let used = word_octets(octets);
    if octets[0].is_ascii_lowercase() {
        return (Kind::Identifier, used);
    }
    match word_of(&octets[..used]) {
        Some(_) => (Kind::Reserved, used),
        None => (Kind::TypeName, used),
    }
}
