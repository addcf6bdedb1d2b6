//! Contents octets of types without parts: their values, why they have none, and what is not canonical in them.

ghost use Rattle.std.specs.Prelude.{◌≡◌, ◌↔◌, ◌⊎◌, IsTrue, IfOk, IfErr, Some, option_map};
ghost use Rattle.encoding_parts.specs.Contents.{HoldsNoValue, HoldsValue, IsOfContents, IsTextual};
ghost use Rattle.octets.specs.Rule.{ber};
ghost use Rattle.octets.specs.declared.tag.Tag.{Tag};
ghost use Rattle.strings.specs.Alphabet.{IsText};
ghost use Rattle.strings.specs.Time.{IsTime};
ghost use Rattle.strings.specs.declared.text.TextKind.{TextKind};
ghost use Rattle.strings.specs.declared.time.TimeKind.{TimeKind};
ghost use Rattle.types.specs.Refusal.{IsFinal};
ghost use Rattle.types.specs.View.{ty_view, value_view};

use crate::Reason;
use crate::times::why_no_time;
use encoding_parts::read_contents;
use primitives::read_integer;
use std::alloc::Global;
use strings::{TextKind, TimeKind, allowed, is_time};
use types::{Refusal, Ty, Value, are_equal};

/// The value of contents octets, or why there is none and which of them shows it.
pub fn value_of<'a>(
    alloc: Global,
    node: &'a Ty,
    octets: &[u8],
) -> Result<Value, (Refusal, usize, Reason<'a>)>
    ensures value { IfOk result (λ value. HoldsValue ber (ty_view node.now) (value_view value) octets.now) }
    ensures none { IfErr result (λ why. IsFinal why.0 → HoldsNoValue ber (ty_view node.now) octets.now) }
    ensures numbers { IfErr result (λ why. (why.0 ≡ Refusal.Form) ⊎ IsOfContents why.0) }
    ensures memory { IfErr result (λ why. why.0 ≡ Refusal.NoMemory → why.2 ≡ Reason.NoMemory) }
{
    if !node.has_no_parts() {
        return Err((Refusal::Form, 0, Reason::Primitive(node)));
    }
    match read_contents(alloc, node, octets) {
        Ok(value) => Ok(value),
        Err(refusal) => {
            let (place, reason) = why_refused(refusal, node, octets);
            Err((refusal, place, reason))
        }
    }
}

/// Why contents octets are refused so: out of memory, or why they have no value and which of them shows it.
pub fn why_refused<'a>(refusal: Refusal, node: &'a Ty, octets: &[u8]) -> (usize, Reason<'a>)
    ensures { refusal ≡ Refusal.NoMemory → result.1 ≡ Reason.NoMemory }
{
    match refusal {
        Refusal::NoMemory => (0, Reason::NoMemory),
        _ => why_no_value(node, octets),
    }
}

/// Why contents octets have no value of the type, and which of them shows it.
pub fn why_no_value<'a>(node: &'a Ty, octets: &[u8]) -> (usize, Reason<'a>) {
    let words = match node {
        Ty::Text(_, kind) => return why_no_text(node, *kind, octets),
        Ty::Time(_, kind) => return why_no_time(*kind, octets),
        Ty::Enumerated(_, _) => match read_integer(octets) {
            Some(number) => return (0, Reason::NoItem(number)),
            None => "the first nine bits of an ENUMERATED are equal",
        },
        Ty::Integer(_) => "the first nine bits of an INTEGER are equal",
        Ty::Bits(_) | Ty::NamedBits(_, _) => why_no_bits(octets),
        _ => why_no_arcs(octets),
    };
    (0, Reason::Words(words))
}

fn why_no_bits(octets: &[u8]) -> &'static str {
    match octets {
        [] => "a BIT STRING has at least 1 contents octet",
        [unused] if *unused <= 7 => "bits are unused, and no octet has bits",
        _ => "the first octet says how many bits are unused, at most 7",
    }
}

fn why_no_arcs(octets: &[u8]) -> &'static str {
    let mut is_first = true;
    for octet in octets {
        if is_first && *octet == 0x80 {
            return "a subidentifier begins with 80";
        }
        is_first = *octet < 0x80;
    }
    if is_first {
        "more than 128 subidentifiers, or one of 2^128 or more (the limits are asn1x's own)"
    } else {
        "the last subidentifier does not end"
    }
}

// Why octets are no characters: the first octet, of a BMPString the first pair, that cannot stand there.
fn why_no_text<'a>(node: &'a Ty, kind: TextKind, octets: &[u8]) -> (usize, Reason<'a>) {
    let size = match kind {
        TextKind::Utf8 => return (0, Reason::Words("the octets are no UTF-8")),
        TextKind::Bmp => 2usize,
        TextKind::Numeric | TextKind::Printable | TextKind::Ia5 | TextKind::Visible => 1usize,
    };
    let mut place = 0usize;
    for character in octets.chunks(size) {
        if !allowed(kind, character) {
            let octet = character.first().copied().unwrap_or(0);
            return (place, Reason::Octet(node, octet));
        }
        place = place.saturating_add(size);
    }
    (0, Reason::Words("the octets are no characters of the type"))
}

/// Whether the octets of a string, all its segments joined, are those of a value.
pub fn is_string(node: &Ty, octets: &[u8]) -> bool
    ensures text { (tag : Tag) (kind : TextKind) → node.now ≡ Ty.Text tag kind → IsTrue result ↔ IsText kind octets.now }
    ensures time { (tag : Tag) (kind : TimeKind) → node.now ≡ Ty.Time tag kind → IsTrue result ↔ IsTime kind octets.now }
    ensures other { ¬ IsTextual node.now → IsTrue result }
{
    match node {
        Ty::Text(_, kind) => allowed(*kind, octets),
        Ty::Time(_, kind) => is_time(*kind, octets),
        _ => true,
    }
}

/// Whether the value is the default.
pub fn is_spelt_out(default: Option<&Value>, value: &Value) -> bool
    ensures { IsTrue result ↔ (option_map (λ d. value_view d.now) default.entry ≡ Some (value_view value.now)) }
{
    match default {
        Some(default) => are_equal(default, value),
        None => false,
    }
}
