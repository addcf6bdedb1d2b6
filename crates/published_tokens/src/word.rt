//! Words: names, reserved words, and the names of fields behind `&`.

ghost use Rattle.std.specs.Prelude.{◌≡◌, ◌≤◌, length, true};

use crate::token::Kind;
use lexis::word_of;

// Whether a word goes on with the octets that stand here: a letter, a digit or `_`, or a hyphen that one
// of these follows.
fn goes_on(octets: &[u8]) -> bool
    ensures { result ≡ true → 1 ≤ length octets.now }
{
    match octets {
        [b'-', next, ..] => is_of_word(*next),
        [octet, ..] => is_of_word(*octet),
        [] => false,
    }
}

fn is_of_word(octet: u8) -> bool {
    octet.is_ascii_alphanumeric() || octet == b'_'
}

/// How many octets the word has that begins in front.
pub(crate) fn word_octets(octets: &[u8]) -> usize
    requires { 1 ≤ length octets.now }
    ensures some { 1 ≤ result }
    ensures within { result ≤ length octets.now }
{
    let mut count = 1;
    while goes_on(&octets[count..]) {
        count += 1;
    }
    count
}

/// The word in front.
pub(crate) fn word_in_front(octets: &[u8]) -> (Kind, usize)
    requires { 1 ≤ length octets.now }
    ensures some { 1 ≤ result.1 }
    ensures within { result.1 ≤ length octets.now }
{
    let used = word_octets(octets);
    if octets[0].is_ascii_lowercase() {
        return (Kind::Lower, used);
    }
    match word_of(&octets[..used]) {
        Some(word) => (Kind::Reserved(word), used),
        None => (Kind::Upper, used),
    }
}
