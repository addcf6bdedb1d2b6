//! What an input that is refused looks like in place of encodings.

// How many octets at the front are looked at.
const LOOKED_AT: usize = 16;

/// What to do with an input that begins with these octets, if it looks like a text of encodings: PEM or hexadecimal.
pub fn hint_of(octets: &[u8]) -> Option<&'static str> {
    if octets.starts_with(b"-----BEGIN ") {
        return Some("looks like PEM: `openssl asn1parse -in FILE -noout -out FILE.der` unwraps it");
    }
    let front = octets.get(..LOOKED_AT)?;
    if front.iter().all(|octet| is_of_hexadecimal(*octet)) {
        return Some("looks like hexadecimal text, which --hex reads");
    }
    None
}

// Whether an octet may stand in hexadecimal text.
fn is_of_hexadecimal(octet: u8) -> bool {
    octet.is_ascii_hexdigit() || octet.is_ascii_whitespace()
}
