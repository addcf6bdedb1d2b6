//! Texts of strings.

ghost use Rattle.std.specs.Prelude.{◌≡◌, ◌≤◌, ◌<◌, ◌*◌, ◌++◌, IsAscii, IsTrue, OnOk, drop, flat_map, length, map, string_bytes, take, true};
ghost use Rattle.primitives.specs.Bits.{bits_of, bits_of_octet, bits_before};
ghost use Rattle.texts.specs.Leaf.{bit_digit as digit_of_bit, hex_digit as digit_of_hex, bits_text, octets_text, hex_digits, quoted_octet, quoted_text, are_printable, readable_text, text_of_kind};

use octets::NoMemory;
use primitives::Bits;
use std::str::from_utf8_unchecked;
use std::string::String;
use strings::TextKind;

// How many octets become digits before these are appended.
const AT_ONCE: usize = 64;

// How many octets of a longer string become hexadecimal digits before these are appended.
const MANY: usize = 512;

// Appends a digit for each bit, in quotes.
pub(crate) fn put_bits(bits: &Bits, out: &mut String) -> Result<(), NoMemory>
    ensures { OnOk result (string_bytes out.new ≡ string_bytes out.old ++ bits_text bits.now) }
{
    put_bits_before(bits.octets(), bits.unused(), out)
}

/// Appends a digit for each bit of octets but the last `unused`, in quotes.
pub fn put_bits_before(octets: &[u8], unused: u8, out: &mut String) -> Result<(), NoMemory>
    requires { unused ≤ 7 }
    ensures { OnOk result (string_bytes out.new ≡ string_bytes out.old ++ bits_text (bits_before octets.now unused)) }
{
    out.reserve(octets.len().saturating_mul(8).saturating_add(3))?;
    out.push_str("'")?;
    put_digits(octets, unused, out)?;
    out.push_str("'B")?;
    Ok(())
}

// Appends a digit for each bit of octets but the last `unused`.
fn put_digits(octets: &[u8], unused: u8, out: &mut String) -> Result<(), NoMemory>
    requires { unused ≤ 7 }
    ensures { OnOk result (string_bytes out.new ≡ string_bytes out.old ++ map digit_of_bit (bits_before octets.now unused)) }
{
    let Some((last, front)) = octets.split_last() else {
        return Ok(());
    };
    for chunk in front.chunks(AT_ONCE) {
        put_bit_digits(chunk, out)?;
    }
    put_ascii(&eight_digits(*last)[..8 - unused as usize], out)
}

// Appends a digit for each bit of a few octets.
fn put_bit_digits(octets: &[u8], out: &mut String) -> Result<(), NoMemory>
    requires { length octets.now ≤ 64 }
    ensures { OnOk result (string_bytes out.new ≡ string_bytes out.old ++ map digit_of_bit (bits_of octets.now)) }
{
    let mut digits = [0u8; 8 * AT_ONCE];
    for (place, octet) in octets.iter().enumerate() {
        digits[8 * place..8 * place + 8].copy_from_slice(&eight_digits(*octet));
    }
    put_ascii(&digits[..8 * octets.len()], out)
}

// A digit for each bit of an octet.
fn eight_digits(octet: u8) -> [u8; 8]
    ensures { result ≡ map digit_of_bit (bits_of_octet octet) }
{
    let mut digits = [0u8; 8];
    digits[..4].copy_from_slice(four_digits(octet / 16));
    digits[4..].copy_from_slice(four_digits(octet % 16));
    digits
}

// A digit for each of the last four bits.
#[tactic(auto, unfolding(primitives::specs::Bits::bits_of_octet))]
fn four_digits(value: u8) -> &'static [u8; 4]
    requires { value < 16 }
    ensures { result.now ≡ map digit_of_bit (drop 4 (bits_of_octet value)) }
{
    match value {
        0 => b"0000",
        1 => b"0001",
        2 => b"0010",
        3 => b"0011",
        4 => b"0100",
        5 => b"0101",
        6 => b"0110",
        7 => b"0111",
        8 => b"1000",
        9 => b"1001",
        10 => b"1010",
        11 => b"1011",
        12 => b"1100",
        13 => b"1101",
        14 => b"1110",
        _ => b"1111",
    }
}

/// Appends two hexadecimal digits for each octet, in quotes.
pub fn put_octets(octets: &[u8], out: &mut String) -> Result<(), NoMemory>
    ensures { OnOk result (string_bytes out.new ≡ string_bytes out.old ++ octets_text octets.now) }
{
    out.reserve(octets.len().saturating_mul(2).saturating_add(3))?;
    out.push_str("'")?;
    if octets.len() <= AT_ONCE {
        put_hex_digits(octets, out)?;
    } else {
        put_many_hex_digits(octets, out)?;
    }
    out.push_str("'H")?;
    Ok(())
}

// Appends the digits of a few octets.
fn put_hex_digits(octets: &[u8], out: &mut String) -> Result<(), NoMemory>
    requires { length octets.now ≤ 64 }
    ensures { OnOk result (string_bytes out.new ≡ string_bytes out.old ++ flat_map hex_digits octets.now) }
{
    let mut digits = [0u8; 2 * AT_ONCE];
    write_hex_digits(octets, &mut digits);
    put_ascii(&digits[..2 * octets.len()], out)
}

// Appends the digits of many octets. It has a function of its own, since few octets need no such room.
#[inline(never)]
fn put_many_hex_digits(octets: &[u8], out: &mut String) -> Result<(), NoMemory>
    ensures { OnOk result (string_bytes out.new ≡ string_bytes out.old ++ flat_map hex_digits octets.now) }
{
    let mut digits = [0u8; 2 * MANY];
    for chunk in octets.chunks(MANY) {
        write_hex_digits(chunk, &mut digits);
        put_ascii(&digits[..2 * chunk.len()], out)?;
    }
    Ok(())
}

// Writes the digits of octets to the front of a room of ASCII.
fn write_hex_digits(octets: &[u8], digits: &mut [u8])
    requires room { 2 * length octets.now ≤ length digits.old }
    requires ascii { IsAscii digits.old }
    ensures value { take (2 * length octets.now) digits.new ≡ flat_map hex_digits octets.now }
    ensures length { length digits.new ≡ length digits.old }
    ensures ascii { IsAscii digits.new }
{
    for (place, octet) in octets.iter().enumerate() {
        let at = 2 * place;
        digits[at] = hex_digit(octet / 16);
        digits[at + 1] = hex_digit(octet % 16);
    }
}

fn hex_digit(value: u8) -> u8
    requires { value < 16 }
    ensures value { result ≡ digit_of_hex value }
    ensures ascii { result < 128 }
{
    match value {
        0..=9 => b'0' + value,
        _ => b'A' + (value - 10),
    }
}

// Appends characters of ASCII.
fn put_ascii(octets: &[u8], out: &mut String) -> Result<(), NoMemory>
    requires { IsAscii octets.now }
    ensures { OnOk result (string_bytes out.new ≡ string_bytes out.old ++ octets.now) }
{
    out.push_str(unsafe { from_utf8_unchecked(octets) })?;
    Ok(())
}

/// Appends the characters of a character string in double quotes, or where they are not readable its
/// octets.
pub fn put_text(kind: TextKind, octets: &[u8], out: &mut String) -> Result<(), NoMemory>
    ensures { OnOk result (string_bytes out.new ≡ string_bytes out.old ++ text_of_kind kind octets.now) }
{
    match kind {
        TextKind::Bmp => put_octets(octets, out),
        TextKind::Utf8
        | TextKind::Numeric
        | TextKind::Printable
        | TextKind::Ia5
        | TextKind::Visible => put_readable(octets, out),
    }
}

/// Appends octets in double quotes where each is a space or a visible character of ASCII, and else as those of an OCTET
/// STRING.
pub fn put_readable(octets: &[u8], out: &mut String) -> Result<(), NoMemory>
    ensures { OnOk result (string_bytes out.new ≡ string_bytes out.old ++ readable_text octets.now) }
{
    if is_written_once(octets) {
        put_once(octets, out)
    } else if is_readable(octets) {
        put_quoted(octets, out)
    } else {
        put_octets(octets, out)
    }
}

// Whether each octet is a space or a visible character of ASCII, and none a quote.
fn is_written_once(octets: &[u8]) -> bool
    ensures { IsTrue result → (are_printable octets.now ≡ true) × (flat_map quoted_octet octets.now ≡ octets.now) }
{
    let mut are_once = true;
    for octet in octets {
        if *octet < 32 || *octet > 126 || *octet == b'"' {
            are_once = false;
        }
    }
    are_once
}

// Appends characters in double quotes, of which none is a quote.
fn put_once(octets: &[u8], out: &mut String) -> Result<(), NoMemory>
    requires printable { are_printable octets.now ≡ true }
    requires once { flat_map quoted_octet octets.now ≡ octets.now }
    ensures { OnOk result (string_bytes out.new ≡ string_bytes out.old ++ quoted_text octets.now) }
{
    out.reserve(octets.len().saturating_add(2))?;
    out.push_str("\"")?;
    put_ascii(octets, out)?;
    out.push_str("\"")?;
    Ok(())
}

// Whether each octet is a space or a visible character of ASCII.
fn is_readable(octets: &[u8]) -> bool
    ensures { result ≡ are_printable octets.now }
{
    let mut are_readable = true;
    for octet in octets {
        if *octet < 32 || *octet > 126 {
            are_readable = false;
        }
    }
    are_readable
}

fn put_quoted(octets: &[u8], out: &mut String) -> Result<(), NoMemory>
    requires { are_printable octets.now ≡ true }
    ensures { OnOk result (string_bytes out.new ≡ string_bytes out.old ++ quoted_text octets.now) }
{
    out.reserve(octets.len().saturating_add(2))?;
    out.push_str("\"")?;
    for chunk in octets.chunks(AT_ONCE) {
        put_characters(chunk, out)?;
    }
    out.push_str("\"")?;
    Ok(())
}

// Appends the characters of a few octets, each quote twice.
fn put_characters(octets: &[u8], out: &mut String) -> Result<(), NoMemory>
    requires few { length octets.now ≤ 64 }
    requires ascii { IsAscii octets.now }
    ensures { OnOk result (string_bytes out.new ≡ string_bytes out.old ++ flat_map quoted_octet octets.now) }
{
    if is_written_once(octets) {
        return put_ascii(octets, out);
    }
    let mut characters = [0u8; 2 * AT_ONCE];
    let mut count = 0;
    for octet in octets {
        characters[count] = *octet;
        count += 1;
        if *octet == b'"' {
            characters[count] = *octet;
            count += 1;
        }
    }
    put_ascii(&characters[..count], out)
}
