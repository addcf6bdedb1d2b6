//! The character string types, each with the octets that its values may have.
//!
//! That a BMPString has no surrogates is this project's own rule (`docs/PROFILE.md`).

ghost use Rattle.std.specs.Prelude.{◌↔◌, IsTrue, IsUtf8};
ghost use Rattle.strings.specs.Alphabet.{IsText, IsNumericOctet, IsPrintableOctet, IsVisibleOctet, IsBmp, BeginsCharacter};

/// A character string type.
#[derive(Clone, Copy, Debug, PartialEq, Eq)]
pub enum TextKind {
    /// UTF8String.
    Utf8,
    /// NumericString: digits and space.
    Numeric,
    /// PrintableString: letters, digits, space and some marks.
    Printable,
    /// IA5String: the octets below 128.
    Ia5,
    /// VisibleString: the octets of IA5String that are no control characters.
    Visible,
    /// BMPString: two octets a character.
    Bmp,
}

/// Whether these are the contents octets of some string of the type. Takes no memory.
pub fn allowed(kind: TextKind, contents: &[u8]) -> bool
    ensures { IsTrue result ↔ IsText kind contents.now }
{
    match kind {
        TextKind::Utf8 => is_utf8(contents),
        TextKind::Numeric => contents.iter().all(|octet| is_numeric(*octet)),
        TextKind::Printable => contents.iter().all(|octet| is_printable(*octet)),
        TextKind::Ia5 => contents.iter().all(|octet| *octet < 0x80),
        TextKind::Visible => contents.iter().all(|octet| is_visible(*octet)),
        TextKind::Bmp => is_bmp(contents),
    }
}

// Whether a UTF8String may have the octets. A function of its own, since the results of its two calls
// take room on the stack.
#[inline(never)]
fn is_utf8(contents: &[u8]) -> bool
    ensures { IsTrue result ↔ IsUtf8 contents.now }
{
    // Below this `simdutf8` calls the other too, behind a frame for its blocks.
    if contents.len() < 64 {
        std::str::from_utf8(contents).is_ok()
    } else {
        simdutf8::basic::from_utf8(contents).is_ok()
    }
}

// Whether a NumericString may have the octet.
fn is_numeric(octet: u8) -> bool
    ensures { IsTrue result ↔ IsNumericOctet octet }
{
    matches!(octet, b'0'..=b'9' | b' ')
}

// Whether a PrintableString may have the octet.
fn is_printable(octet: u8) -> bool
    ensures { IsTrue result ↔ IsPrintableOctet octet }
{
    octet.is_ascii_alphanumeric() || b" '()+,-./:=?".contains(&octet)
}

// Whether a VisibleString may have the octet.
fn is_visible(octet: u8) -> bool
    ensures { IsTrue result ↔ IsVisibleOctet octet }
{
    matches!(octet, b' '..=b'~')
}

// Whether the octets are those of some characters.
fn is_bmp(contents: &[u8]) -> bool
    ensures { IsTrue result ↔ IsBmp contents.now }
{
    contents.len() % 2 == 0
        && contents
            .iter()
            .step_by(2)
            .all(|high| begins_character(*high))
}

// Whether the octet is the first of a character.
fn begins_character(high: u8) -> bool
    ensures { IsTrue result ↔ BeginsCharacter high }
{
    !matches!(high, 0xD8..=0xDF)
}
