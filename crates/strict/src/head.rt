//! Identifier octets and length octets as CER and DER have them (X.690 9.1 and 10.1).

ghost use Rattle.std.specs.Prelude.{◌≡◌, ◌↔◌, ◌+◌, ◌^◌, ◌<◌, ◌≤◌, ℕ, List, length, drop, true, false, IsTrue, IfOk, IfErr};
ghost use Rattle.octets.specs.declared.TheConstants.{MAX_ENCODING, MAX_TAG_NUMBER};
ghost use Rattle.octets.specs.declared.tag.Tag.{Tag};
ghost use Rattle.octets.specs.Length.{IsLength, IsShortestLength};
ghost use Rattle.octets.specs.Rule.{rule_of};
ghost use Rattle.encoding_parts.specs.Head.{IsExtentWithin, IsReadDefinite, IsReadTag, IsTagWithin};
ghost use Rattle.strict.specs.Bars.{RefusesStrictly, StandsFor};
ghost use Rattle.strict.specs.Head.{IsDefiniteAt, HasDefinite, IsInsideDefinite, IsOpened, HasConstructed, mark};
ghost use Rattle.encoding_parts.specs.Cut.{IsIdentifierCut, IsLengthCut};
ghost use Rattle.strict.specs.Begun.{IsConstructedCut};

use crate::short::short_opened;
use encoding_parts::{Extent, not_due, read_extent, read_head_tag};
use octets::{Canonical, MAX_ENCODING, Tag};
use types::Refusal;

/// A constructed encoding of which the identifier octets and length octets have been read.
#[derive(Clone, Copy)]
pub struct Inside {
    /// How many they are.
    pub start: usize,
    /// How many contents octets there can be; of the definite form, how many there are.
    pub room: usize,
    /// Whether the encoding has the definite form.
    pub definite: bool,
}

// Whether the encoding at the front is constructed, and how many identifier octets it has, where they are those of the
// tag.
#[inline(always)]
pub fn read_its_tag(tag: Tag, room: usize, octets: &[u8]) -> Result<(bool, usize), Refusal>
    requires { tag.number ≤ MAX_TAG_NUMBER }
    ensures value { IfOk result (λ p. IsReadTag tag room 0 octets.now p.0 p.1) }
    ensures refused { IfErr result (RefusesStrictly (IsTagWithin tag room 0) (IsIdentifierCut room 0) octets.now) }
{
    let (found, constructed, used) = read_head_tag(room, 0, octets)?;
    if found != tag {
        return Err(not_due(found));
    }
    Ok((constructed, used))
}

// How many octets stand before the contents octets of the constructed encoding of the definite form at the front, and
// how many contents octets it has. The encoding has the tag, the shortest length, and at most `room` octets.
fn definite(tag: Tag, room: usize, octets: &[u8]) -> Result<(usize, usize), Refusal>
    requires tag { tag.number ≤ MAX_TAG_NUMBER }
    requires room { room ≤ MAX_ENCODING }
    ensures value { IfOk result (λ p. IsDefiniteAt tag true room octets.now p.0 p.1) }
    ensures refused { IfErr result (RefusesStrictly (HasDefinite tag true room) (IsConstructedCut Canonical.Der tag room) octets.now) }
{
    let (constructed, identifier) = read_its_tag(tag, room, octets)?;
    if !constructed {
        return Err(Refusal::Form);
    }
    match read_extent(true, room, identifier, &octets[identifier..])? {
        Extent::Definite { octets: size, used } => {
            if !is_shortest(size, used) {
                return Err(Refusal::NotCanonical);
            }
            Ok((identifier + used, size))
        }
        Extent::Indefinite { .. } => Err(Refusal::NotCanonical),
    }
}

// How many contents octets the primitive encoding at the front has, behind so many identifier octets, and how many
// length octets say so.
pub fn read_size(room: usize, identifier: usize, octets: &[u8]) -> Result<(usize, usize), Refusal>
    requires there { identifier ≤ length octets.now }
    requires room { room ≤ MAX_ENCODING }
    ensures value { IfOk result (λ p. IsReadDefinite room identifier (drop identifier octets.now) p.0 p.1) }
    ensures refused { IfErr result (RefusesStrictly (IsExtentWithin false room identifier) (IsLengthCut room identifier) (drop identifier octets.now)) }
{
    match read_extent(false, room, identifier, &octets[identifier..])? {
        Extent::Definite { octets: size, used } => Ok((size, used)),
        Extent::Indefinite { .. } => Err(Refusal::Form),
    }
}

// Whether so many length octets are as few as say this (X.690 10.1).
pub fn is_shortest(size: usize, used: usize) -> bool
    requires { size ≤ MAX_ENCODING }
    ensures { (l : List ℕ) → IsLength size l → length l ≡ used → IsTrue result ↔ IsShortestLength size l }
{
    used == shortest(size)
}

// How many octets the shortest length has.
fn shortest(size: usize) -> usize
    requires { size ≤ MAX_ENCODING }
    ensures { (l : List ℕ) → IsLength size l → IsShortestLength size l ↔ (length l ≡ result) }
{
    if size < 0x80 {
        1
    } else if size < 0x100 {
        2
    } else if size < 0x1_0000 {
        3
    } else {
        4
    }
}

// What stands inside the constructed encoding at the front, which has the tag and at most `room` octets. What the call
// for long ones returns is handed on as a copy: else what mostly comes would go through memory too.
#[inline(always)]
pub fn opened(rule: Canonical, tag: Tag, room: usize, octets: &[u8]) -> Result<Inside, Refusal>
    requires tag { tag.number ≤ MAX_TAG_NUMBER }
    requires room { room ≤ MAX_ENCODING }
    ensures value { IfOk result (λ inside. IsOpened (rule_of rule) tag room octets.now inside) }
    ensures refused { IfErr result (RefusesStrictly (HasConstructed (rule_of rule) tag room) (IsConstructedCut rule tag room) octets.now) }
{
    if let Some(inside) = short_opened(rule, tag, room, octets) {
        return Ok(inside);
    }
    let inside = long_opened(rule, tag, room, octets)?;
    Ok(inside)
}

// What stands inside it, however many octets stand before that.
#[inline(never)]
fn long_opened(rule: Canonical, tag: Tag, room: usize, octets: &[u8]) -> Result<Inside, Refusal>
    requires tag { tag.number ≤ MAX_TAG_NUMBER }
    requires room { room ≤ MAX_ENCODING }
    ensures value { IfOk result (λ inside. IsOpened (rule_of rule) tag room octets.now inside) }
    ensures refused { IfErr result (RefusesStrictly (HasConstructed (rule_of rule) tag room) (IsConstructedCut rule tag room) octets.now) }
{
    match rule {
        Canonical::Der => match definite(tag, room, octets) {
            Ok((start, size)) => Ok(Inside {
                start,
                room: size,
                definite: true,
            }),
            Err(refusal) => Err(refusal_inside(rule, room, refusal)),
        },
        Canonical::Cer => indefinite(tag, room, octets),
    }
}

// What stands inside it under CER, where it has the indefinite form (X.690 9.1).
pub fn indefinite(tag: Tag, room: usize, octets: &[u8]) -> Result<Inside, Refusal>
    requires tag { tag.number ≤ MAX_TAG_NUMBER }
    requires room { room ≤ MAX_ENCODING }
    ensures value { IfOk result (λ inside. IsOpened (rule_of Canonical.Cer) tag room octets.now inside) }
    ensures form { IfOk result (λ inside. inside.definite ≡ false) }
    ensures refused { IfErr result (RefusesStrictly (HasConstructed (rule_of Canonical.Cer) tag room) (IsConstructedCut Canonical.Cer tag room) octets.now) }
{
    let (form, identifier) = read_its_tag(tag, room, octets)?;
    if !form {
        return Err(Refusal::Form);
    }
    match read_extent(true, room, identifier, &octets[identifier..])? {
        Extent::Indefinite { used } => {
            let start = identifier + used;
            Ok(Inside {
                start,
                room: room - start - 2,
                definite: false,
            })
        }
        Extent::Definite { .. } => Err(Refusal::NotCanonical),
    }
}

impl Inside {
    // How many octets the encoding has if so many are its contents octets.
    pub fn close(&self, used: usize) -> usize
        requires { self.now.start + used + 2 < 2 ^ 64 }
        ensures { result ≡ self.now.start + used + length (mark self.now.definite) }
    {
        if self.definite {
            self.start + used
        } else {
            self.start + used + 2
        }
    }
}

// Whether what is around a part of at most so many octets has the definite form: under DER each encoding has it, and
// nothing is around the outermost.
pub fn is_inside_definite(rule: Canonical, room: usize) -> bool
    ensures { IsTrue result ↔ IsInsideDefinite rule room }
{
    match rule {
        Canonical::Cer => false,
        Canonical::Der => room < MAX_ENCODING,
    }
}

// Why a part is refused, by what is around it: one that goes on too long passes an end that length octets say, where
// that has the definite form.
pub fn refusal_inside(rule: Canonical, room: usize, refusal: Refusal) -> Refusal
    ensures { StandsFor result refusal }
{
    if refusal == Refusal::TooLong && is_inside_definite(rule, room) {
        Refusal::Length
    } else {
        refusal
    }
}
