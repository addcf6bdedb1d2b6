//! What the strings behind DEFAULT spell, quotes included (X.680 12.10, 12.12 and 12.14).

ghost use Rattle.std.specs.Prelude.{◌≡◌, ◌≢◌, ◌<◌, ◌≤◌, ◌+◌, ◌-◌, ◌%◌, ℕ, Bool, false, List, ◌∷◌, [], ◌++◌, map, length, replicate, if◌then◌else◌, IfOk, IfSome, IsNone};
ghost use Rattle.std.specs.List.{flat_map};
ghost use Rattle.primitives.specs.Bits.{bits_of_octet, IsPadded};
ghost use Rattle.lexis.specs.Spelling.{doubled};
ghost use Rattle.builtin_types.specs.Defaults.{bit_digit, binary_string, character_string, digit_string, hex_digit, four_bits, two_digits, IsHexString};
ghost use Rattle.builtin_types.specs.Digits.{AreHexDigits, packed};

use primitives::Bits;
use std::alloc::{AllocError, Global};

/// The digits of a binary or hexadecimal string that ends in this letter.
fn digits_of(spelled: &[u8], letter: u8) -> Option<&[u8]>
    ensures value { IfSome result (λ digits. spelled.now ≡ digit_string digits.now letter) }
    ensures none { IsNone result → (digits : List ℕ) → spelled.now ≢ digit_string digits letter }
{
    spelled
        .strip_prefix(&[b'\''])?
        .strip_suffix(&[b'\'', letter])
}

/// The bits of a binary string.
pub fn binary_bits(alloc: Global, spelled: &str) -> Result<Option<Bits>, AllocError>
    ensures value { IfOk result (λ found. IfSome found (λ bits. spelled.now ≡ binary_string bits)) }
    ensures none { IfOk result (λ found. IsNone found → (bits : List Bool) → spelled.now ≢ binary_string bits) }
{
    let Some(digits) = digits_of(spelled.as_bytes(), b'B') else {
        return Ok(None);
    };
    match binary_octets(alloc, digits)? {
        Some(octets) => Ok(Bits::new(octets, unused_behind(digits.len() % 8))),
        None => Ok(None),
    }
}

/// The bits of a hexadecimal string, four a digit, the most significant first.
pub fn hex_bits(alloc: Global, spelled: &str) -> Result<Option<Bits>, AllocError>
    ensures value { IfOk result (λ found. IfSome found (λ bits. (values : List ℕ) × IsHexString spelled.now values × (bits ≡ flat_map four_bits values))) }
    ensures none { IfOk result (λ found. IsNone found → (values : List ℕ) → ¬ IsHexString spelled.now values) }
{
    let Some(digits) = digits_of(spelled.as_bytes(), b'H') else {
        return Ok(None);
    };
    match octets_of(alloc, digits)? {
        Some(octets) => Ok(Bits::new(octets, unused_behind(digits.len() % 2 * 4))),
        None => Ok(None),
    }
}

/// The octets of a hexadecimal string of an even number of digits.
pub fn hex_octets(alloc: Global, spelled: &str) -> Result<Option<Vec<u8>>, AllocError>
    ensures value { IfOk result (λ found. IfSome found (λ octets. IsHexString spelled.now (flat_map two_digits octets.items))) }
    ensures none { IfOk result (λ found. IsNone found → (octets : List ℕ) → ¬ IsHexString spelled.now (flat_map two_digits octets)) }
{
    let Some(digits) = digits_of(spelled.as_bytes(), b'H') else {
        return Ok(None);
    };
    if digits.len() % 2 == 1 {
        return Ok(None);
    }
    octets_of(alloc, digits)
}

/// The octets of a character string, each doubled quote standing for one.
pub fn quoted_octets(alloc: Global, spelled: &str) -> Result<Option<Vec<u8>>, AllocError>
    ensures value { IfOk result (λ found. IfSome found (λ octets. spelled.now ≡ character_string octets.items)) }
    ensures none { IfOk result (λ found. IsNone found → (octets : List ℕ) → spelled.now ≢ character_string octets) }
{
    match spelled.as_bytes() {
        [b'"', quoted @ .., b'"'] => undoubled(alloc, quoted),
        _ => Ok(None),
    }
}

/// The octets, one quote for each two; None where a quote stands alone.
fn undoubled(alloc: Global, quoted: &[u8]) -> Result<Option<Vec<u8>>, AllocError>
    ensures value { IfOk result (λ found. IfSome found (λ octets. quoted.now ≡ doubled octets.items)) }
    ensures none { IfOk result (λ found. IsNone found → (octets : List ℕ) → quoted.now ≢ doubled octets) }
{
    let mut octets = Vec::new(alloc);
    let mut is_first = false;
    for octet in quoted {
        let is_quote = *octet == b'"';
        if is_first {
            if !is_quote {
                return Ok(None);
            }
            is_first = false;
        } else {
            octets.push(*octet)?;
            is_first = is_quote;
        }
    }
    Ok(if is_first { None } else { Some(octets) })
}

/// How many bits are unused in the last octet, of which so many are used, 0 of a whole one.
fn unused_behind(used: usize) -> u8
    ensures { used < 8 → result ≡ (8 - used) % 8 }
{
    match u8::try_from(used) {
        Ok(used) if 1 <= used && used <= 8 => 8 - used,
        _ => 0,
    }
}

/// The octets of binary digits, with bits that are 0 behind them.
fn binary_octets(alloc: Global, digits: &[u8]) -> Result<Option<Vec<u8>>, AllocError>
    ensures value { IfOk result (λ found. IfSome found (λ octets. (bits : List Bool) × (digits.now ≡ map bit_digit bits) × ((unused : ℕ) × IsPadded bits octets.items unused))) }
    ensures none { IfOk result (λ found. IsNone found → (bits : List Bool) → digits.now ≢ map bit_digit bits) }
{
    let mut octets = Vec::new(alloc);
    for eight in digits.chunks(8) {
        let Some(octet) = binary_octet(eight) else {
            return Ok(None);
        };
        octets.push(octet)?;
    }
    Ok(Some(octets))
}

/// The octet that begins with these bits, the others being 0.
fn binary_octet(digits: &[u8]) -> Option<u8>
    ensures value { IfSome result (λ octet. length digits.now ≤ 8 → (bits : List Bool) × (digits.now ≡ map bit_digit bits) × (bits_of_octet octet ≡ bits ++ replicate (8 - length bits) false)) }
    ensures none { IsNone result → (bits : List Bool) → digits.now ≢ map bit_digit bits }
{
    let mut octet = 0;
    for digit in digits.iter().rev() {
        octet = octet / 2 + bit_of(*digit)? * 0x80;
    }
    Some(octet)
}

/// The value of a binary digit.
fn bit_of(digit: u8) -> Option<u8>
    ensures value { IfSome result (λ value. (bit : Bool) × (bit_digit bit ≡ digit) × (value ≡ (if bit then 1 else 0))) }
    ensures none { IsNone result → (bit : Bool) → bit_digit bit ≢ digit }
{
    match digit {
        b'0' => Some(0),
        b'1' => Some(1),
        _ => None,
    }
}

/// The octets of hexadecimal digits, with a 0 behind an odd number of them.
fn octets_of(alloc: Global, digits: &[u8]) -> Result<Option<Vec<u8>>, AllocError>
    ensures value { IfOk result (λ found. IfSome found (λ octets. (values : List ℕ) × AreHexDigits digits.now values × (octets.items ≡ packed values))) }
    ensures none { IfOk result (λ found. IsNone found → (values : List ℕ) → ¬ AreHexDigits digits.now values) }
{
    let mut octets = Vec::new(alloc);
    for two in digits.chunks(2) {
        let Some(octet) = octet_of(two) else {
            return Ok(None);
        };
        octets.push(octet)?;
    }
    Ok(Some(octets))
}

/// The octet of one or two hexadecimal digits.
fn octet_of(digits: &[u8]) -> Option<u8>
    ensures value { IfSome result (λ octet. (values : List ℕ) × AreHexDigits digits.now values × (octet ∷ [] ≡ packed values)) }
    ensures none { IsNone result → 1 ≤ length digits.now → length digits.now ≤ 2 → (values : List ℕ) → ¬ AreHexDigits digits.now values }
{
    match digits {
        [high, low] => Some(digit_of(*high)? * 16 + digit_of(*low)?),
        [high] => Some(digit_of(*high)? * 16),
        [] | [_, _, _, ..] => None,
    }
}

/// The value of a hexadecimal digit.
fn digit_of(letter: u8) -> Option<u8>
    ensures below { IfSome result (λ value. value < 16) }
    ensures value { IfSome result (λ value. hex_digit value ≡ letter) }
    ensures none { IsNone result → (value : ℕ) → value < 16 → hex_digit value ≢ letter }
{
    match letter {
        b'0'..=b'9' => Some(letter - b'0'),
        b'A'..=b'F' => Some(letter - b'A' + 10),
        _ => None,
    }
}
