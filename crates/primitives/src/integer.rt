//! Contents octets of an INTEGER and of an ENUMERATED number (X.690 8.3 and 8.4).

ghost use Rattle.std.specs.Prelude.{◌≡◌, ◌^◌, ◌<◌, ◌≤◌, ◌↔◌, ℤ, length, drop, FitsSigned, IsTrue, IfSome, IfNone, OnOk, OnErr};
ghost use Rattle.std.specs.Int.{w128};
ghost use Rattle.octets.specs.Front.{Appends};
ghost use Rattle.primitives.specs.Integer.{integer_of, IsInteger, IsWideInteger, NineBitsDiffer, number_at, last_octet_at};

use crate::MAX_INTEGER_OCTETS;
use octets::NoMemory;

/// The number of an INTEGER's contents octets, from -2^127 to 2^127 - 1. Takes no memory.
#[inline(always)]
pub fn read_integer(contents: &[u8]) -> Option<i128>
    ensures value { IfSome result (λ number. IsInteger number contents.now) }
    ensures none { IfNone result ((number : ℤ) → FitsSigned w128 number → ¬ IsInteger number contents.now) }
{
    // Two octets do not spell a number that one would (X.690 8.3.2).
    if let [first, second] = contents {
        let number = i16::from_be_bytes([*first, *second]);
        return if -0x80 <= number && number < 0x80 {
            None
        } else {
            Some(i128::from(number))
        };
    }
    if contents.len() > 16 || !is_shortest(contents) {
        return None;
    }
    if let Some(number) = few_octets(contents) {
        return Some(i128::from(number));
    }
    if contents.is_empty() {
        return None;
    }
    Some(up_to_sixteen_octets(contents))
}

/// Whether these are contents octets of a number below -2^127 or above 2^127 - 1, at most
/// `MAX_INTEGER_OCTETS` of them. Takes no memory.
pub fn is_wide_integer(contents: &[u8]) -> bool
    ensures { IsTrue result ↔ IsWideInteger contents.now }
{
    if contents.len() <= 16 || contents.len() > MAX_INTEGER_OCTETS {
        return false;
    }
    is_shortest(contents)
}

// Whether the first nine bits are neither all 0 nor all 1.
fn is_shortest(contents: &[u8]) -> bool
    ensures { IsTrue result ↔ NineBitsDiffer contents.now }
{
    match contents {
        [0x00, second, ..] => *second >= 0x80,
        [0xFF, second, ..] => *second < 0x80,
        _ => true,
    }
}

// The number of up to sixteen contents octets. Bit 8 of the first fills the octets that are left free before them.
#[inline(never)]
fn up_to_sixteen_octets(contents: &[u8]) -> i128
    requires { (1 ≤ length contents.now) × (length contents.now ≤ 16) }
    ensures { integer_of contents.now ≡ result }
{
    let fill = if contents[0] < 0x80 { 0x00 } else { 0xFF };
    let mut sixteen = [fill; 16];
    sixteen[16 - contents.len()..].copy_from_slice(contents);
    i128::from_be_bytes(sixteen)
}

// The number of one, three or four contents octets. No branch tells its sign, since nobody guesses which comes next.
#[inline(always)]
fn few_octets(contents: &[u8]) -> Option<i32>
    ensures { IfSome result (λ number. (1 ≤ length contents.now) × (integer_of contents.now ≡ number)) }
{
    match contents {
        [a] => Some(i32::from(a.cast_signed())),
        [a, b, c] => Some(i32::from(i16::from_be_bytes([*a, *b])) * 256 + i32::from(*c)),
        [a, b, c, d] => Some(i32::from_be_bytes([*a, *b, *c, *d])),
        _ => None,
    }
}

/// Appends the contents octets of `number`.
pub fn put_integer(out: &mut Vec<u8>, number: i128) -> Result<(), NoMemory>
    ensures appended { OnOk result (Appends (IsInteger number) out.old.items out.new.items) }
    ensures unchanged { OnErr result (out.new.items ≡ out.old.items) }
{
    let mut room = [0u8; 16];
    let start = integer_at_end(number, &mut room);
    out.extend_from_slice(&room[start..])?;
    Ok(())
}

// Puts the contents octets of `number` at the end of the room, and returns where they begin.
fn integer_at_end(number: i128, room: &mut [u8; 16]) -> usize
    ensures { IsInteger number (drop result room.new) }
{
    if number < 0 {
        signed_at_end(true, (-1 - number) as u128, room)
    } else {
        signed_at_end(false, number as u128, room)
    }
}

// Puts the contents octets there of the number that stands `distance` above 0, or below -1.
fn signed_at_end(negative: bool, distance: u128, room: &mut [u8; 16]) -> usize
    requires { distance < 2 ^ 127 }
    ensures { IsInteger (number_at negative distance) (drop result room.new) }
{
    // The octets come from the last to the first.
    let mut start = 16usize;
    let mut rest = distance;
    while rest >= 0x80 {
        start -= 1;
        room[start] = last_octet(negative, rest);
        rest /= 256;
    }
    start -= 1;
    room[start] = last_octet(negative, rest);
    start
}

// The last octet of that number.
fn last_octet(negative: bool, distance: u128) -> u8
    ensures { result ≡ last_octet_at negative distance }
{
    let digit = (distance % 256) as u8;
    if negative { 0xFF - digit } else { digit }
}
