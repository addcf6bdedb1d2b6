//! Constructed encodings that two octets stand before what is inside: one identifier octet (X.690 8.1.2.2), and one length
//! octet (8.1.3.4) or the octet 80 (8.1.3.6). Most are such, and are found by one look; of all others nothing is said here.

ghost use Rattle.std.specs.Prelude.{◌≤◌, ◌∷◌, [], true, length, get_or, IfSome};
ghost use Rattle.octets.specs.Identifier.{IsIdentifier};
ghost use Rattle.octets.specs.Rule.{cer, der, rule_of};
ghost use Rattle.strict.specs.Head.{IsOpened};

use crate::head::Inside;
use encoding_parts::is_identifier;
use octets::{Canonical, Tag};

// What stands inside the constructed encoding at the front, if it has the tag, the form of the rule and at most `room`
// octets.
#[inline(always)]
pub fn short_opened(rule: Canonical, tag: Tag, room: usize, octets: &[u8]) -> Option<Inside>
    ensures { IfSome result (λ inside. IsOpened (rule_of rule) tag room octets.now inside) }
{
    if octets.len() < 2 || !is_identifier(tag, true, octets[0]) {
        return None;
    }
    match rule {
        Canonical::Der => short_definite(tag, room, octets),
        Canonical::Cer => short_indefinite(tag, room, octets),
    }
}

// What stands inside it under DER, whose length has one octet.
#[inline(always)]
fn short_definite(tag: Tag, room: usize, octets: &[u8]) -> Option<Inside>
    requires there { 2 ≤ length octets.now }
    requires tagged { IsIdentifier tag true (get_or octets.now 0 0 ∷ []) }
    ensures { IfSome result (λ inside. IsOpened der tag room octets.now inside) }
{
    let size = usize::from(octets[1]);
    if size >= 0x80 || 2 + size > room {
        return None;
    }
    Some(Inside {
        start: 2,
        room: size,
        definite: true,
    })
}

// What stands inside it under CER, up to end-of-contents octets.
#[inline(always)]
fn short_indefinite(tag: Tag, room: usize, octets: &[u8]) -> Option<Inside>
    requires there { 2 ≤ length octets.now }
    requires tagged { IsIdentifier tag true (get_or octets.now 0 0 ∷ []) }
    ensures { IfSome result (λ inside. IsOpened cer tag room octets.now inside) }
{
    if octets[1] != 0x80 || room < 4 {
        return None;
    }
    Some(Inside {
        start: 2,
        room: room - 2 - 2,
        definite: false,
    })
}
