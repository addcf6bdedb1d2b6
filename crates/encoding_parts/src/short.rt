//! Primitive encodings that two octets stand before: one identifier octet (X.690 8.1.2.2), and one length octet (8.1.3.4).
//! Most are such, and are found by one look; of all others nothing is said here.

ghost use Rattle.std.specs.Prelude.{◌∷◌, [], IsTrue, IfSome};
ghost use Rattle.octets.specs.Identifier.{IsIdentifier};
ghost use Rattle.encoding_parts.specs.Head.{IsShortPrimitive};

use octets::{Tag, leading_octet};

/// How many octets the primitive encoding at the front has, if it has the tag and at most `room` octets. Its contents
/// octets begin behind two of them. Takes no memory.
#[inline(always)]
pub fn short_primitive(tag: Tag, room: usize, octets: &[u8]) -> Option<usize>
    ensures { IfSome result (IsShortPrimitive tag room octets.now) }
{
    if octets.len() < 2 || octets[1] >= 0x80 || !is_identifier(tag, false, octets[0]) {
        return None;
    }
    let stop = 2 + usize::from(octets[1]);
    if stop > room || stop > octets.len() {
        return None;
    }
    Some(stop)
}

/// Whether the octet alone is the identifier octets of the tag and the form. Takes no memory.
#[inline(always)]
pub fn is_identifier(tag: Tag, constructed: bool, octet: u8) -> bool
    ensures { IsTrue result → IsIdentifier tag constructed (octet ∷ []) }
{
    let form = if constructed { 0x20 } else { 0x00 };
    tag.number < 31 && octet == leading_octet(tag) + form
}
