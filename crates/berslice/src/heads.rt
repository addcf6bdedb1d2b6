//! Where the contents octets of an encoding under a known tag begin and end (X.690 8.1).

ghost use Rattle.std.specs.Prelude.{◌≡◌, ◌↔◌, ◌<◌, ◌≤◌, ◌/◌, ◌*◌, length, take, IsTrue, IfSome};
ghost use Rattle.octets.specs.declared.tag.Tag.{Tag};
ghost use Rattle.octets.specs.Identifier.{class_bits, form_bit, IsIdentifier};
ghost use Rattle.octets.specs.Rule.{ber};
ghost use Rattle.types.specs.Form.{IsConstructed};
ghost use Rattle.berslice.specs.Heads.{IsIdentifierOf, IsOpened, IsPrimitiveAt, StartsWithEnd};

use octets::{Class, Head, Length, Tag, class_octet, leading_octet, read_identifier, read_length};

/// A constructed encoding of which the identifier octets and length octets have been read.
#[derive(Clone, Copy)]
pub struct Inside<'a> {
    /// What stands behind them: of the definite form the contents octets, and else all that is there.
    pub octets: &'a [u8],
    /// How many identifier octets and length octets stand before that.
    pub start: usize,
    /// Whether the encoding has the definite form.
    pub definite: bool,
}

/// Identifier octets that stand at the front of some octets (X.690 8.1.2).
#[derive(Clone, Copy)]
pub struct Identifier {
    /// The tag.
    pub tag: Tag,
    /// Whether the encoding is constructed.
    pub constructed: bool,
    /// How many identifier octets there are.
    pub octets: usize,
}

// The identifier octets at the front.
#[inline(always)]
pub fn identifier_of(octets: &[u8]) -> Option<Identifier>
    ensures { IfSome result (λ found. IsIdentifierOf found octets.now) }
{
    if let Some(identifier) = high_identifier_of(octets) {
        return Some(identifier);
    }
    match read_identifier(octets) {
        Head::Done {
            tag,
            constructed,
            used,
        } => Some(Identifier {
            tag,
            constructed,
            octets: used,
        }),
        Head::More | Head::Bad => None,
    }
}

// Those of a tag whose number one or two octets behind the leading one say (X.690 8.1.2.4). It does not branch by how
// many these are, which changes from item to item of a list.
#[inline(always)]
fn high_identifier_of(octets: &[u8]) -> Option<Identifier>
    ensures { IfSome result (λ found. IsIdentifierOf found octets.now) }
{
    if octets.len() < 3 || octets[0] % 32 != 31 {
        return None;
    }
    let (second, third) = (u32::from(octets[1]), u32::from(octets[2]));
    let (count, number) = if second < 0x80 {
        (2, second)
    } else {
        (3, second % 0x80 * 0x80 + third)
    };
    if number < 31 || second == 0x80 || (second > 0x80 && third >= 0x80) {
        return None;
    }
    Some(Identifier {
        tag: Tag {
            class: class_of(octets[0]),
            number,
        },
        constructed: octets[0] / 32 % 2 == 1,
        octets: count,
    })
}

// The class that bits 8 and 7 of a leading octet say.
#[inline(always)]
fn class_of(first: u8) -> Class
    ensures { class_bits result ≡ first / 64 * 64 }
{
    match first / 64 {
        0 => Class::Universal,
        1 => Class::Application,
        2 => Class::Context,
        _ => Class::Private,
    }
}

// The identifier octets at the front, if they are those of a primitive encoding under the tag. Of a tag that has more
// than three nothing is said here.
#[inline(always)]
pub fn identifier_under(tag: Tag, octets: &[u8]) -> Option<Identifier>
    ensures tag { IfSome result (λ found. found.tag ≡ tag) }
    ensures front { IfSome result (λ found. IsIdentifierOf found octets.now) }
{
    if tag.number >= 0x4000 {
        return None;
    }
    Some(Identifier {
        tag,
        constructed: false,
        octets: begun(tag, false, octets)?,
    })
}

// The contents octets of the encoding at the front, of which these are the identifier octets, if it is primitive and
// has one length octet, and how many octets it has.
#[inline(always)]
pub fn behind(identifier: Identifier, octets: &[u8]) -> Option<(&[u8], usize)>
    requires { IsIdentifierOf identifier octets.now }
    ensures { IfSome result (λ p. IsPrimitiveAt identifier.tag octets.now p.0.now p.1) }
{
    let at = identifier.octets;
    if !identifier.constructed && at < octets.len() && octets[at] < 0x80 {
        let start = at + 1;
        let stop = start + usize::from(octets[at]);
        if stop > octets.len() {
            return None;
        }
        return Some((&octets[start..stop], stop));
    }
    None
}

// The contents octets of the primitive encoding at the front, if it has the tag, and how many octets it has.
pub fn primitive(tag: Tag, octets: &[u8]) -> Option<(&[u8], usize)>
    ensures { IfSome result (λ p. IsPrimitiveAt tag octets.now p.0.now p.1) }
{
    let start = begun(tag, false, octets)?;
    let Length::Definite { octets: size, used } = read_length(&octets[start..]) else {
        return None;
    };
    let start = start + used;
    if size > octets.len() - start {
        return None;
    }
    let stop = start + size;
    Some((&octets[start..stop], stop))
}

// What stands inside the constructed encoding at the front, if it has the tag. Mostly two octets stand before it.
// What the call for all others returns is handed on as a copy: else what mostly comes would go through memory too.
#[inline(always)]
pub fn opened(tag: Tag, octets: &[u8]) -> Option<Inside<'_>>
    ensures { IfSome result (λ inside. IsOpened tag octets.now inside) }
{
    if is_short(tag, octets) {
        return short_opened(tag, octets);
    }
    let inside = long_opened(tag, octets)?;
    Some(inside)
}

// Whether one identifier octet and one length octet may stand at the front, of an encoding with the tag.
#[inline(always)]
pub fn is_short(tag: Tag, octets: &[u8]) -> bool
    ensures { IsTrue result → (tag.number < 31) × (2 ≤ length octets.now) }
{
    tag.number < 31 && octets.len() >= 2 && octets[1] <= 0x80
}

// What is inside a constructed encoding, if these two octets stand before it.
#[inline(always)]
pub fn short_opened(tag: Tag, octets: &[u8]) -> Option<Inside<'_>>
    requires { (tag.number < 31) × (2 ≤ length octets.now) }
    ensures { IfSome result (λ inside. IsOpened tag octets.now inside) }
{
    if octets[0] != leading_octet(tag) + 0x20 {
        return None;
    }
    if octets[1] == 0x80 {
        return Some(Inside {
            octets: &octets[2..],
            start: 2,
            definite: false,
        });
    }
    let stop = 2 + usize::from(octets[1]);
    if octets[1] > 0x80 || stop > octets.len() {
        return None;
    }
    Some(Inside {
        octets: &octets[2..stop],
        start: 2,
        definite: true,
    })
}

// What is inside a constructed encoding, whatever its identifier and length are.
#[inline(never)]
pub fn long_opened(tag: Tag, octets: &[u8]) -> Option<Inside<'_>>
    ensures { IfSome result (λ inside. IsOpened tag octets.now inside) }
{
    let start = begun(tag, true, octets)?;
    match read_length(&octets[start..]) {
        Length::Definite { octets: size, used } => {
            let start = start + used;
            if size > octets.len() - start {
                return None;
            }
            Some(Inside {
                octets: &octets[start..start + size],
                start,
                definite: true,
            })
        }
        Length::Indefinite { used } => Some(Inside {
            octets: &octets[start + used..],
            start: start + used,
            definite: false,
        }),
        Length::More | Length::Bad => None,
    }
}

// How many identifier octets the encoding at the front has, if they are those of the tag and the form: mostly one, and
// seldom more than three.
#[inline(always)]
pub fn begun(tag: Tag, constructed: bool, octets: &[u8]) -> Option<usize>
    ensures { IfSome result (λ used. (used ≤ length octets.now) × IsIdentifier tag constructed (take used octets.now)) }
{
    if tag.number < 31 {
        return low_begun(tag, constructed, octets);
    }
    if tag.number < 0x4000 && octets.len() >= 3 {
        return high_begun(tag, constructed, octets);
    }
    long_begun(tag, constructed, octets)
}

// How many it has, of a tag of a number that stands in the leading octet (X.690 8.1.2.2).
#[inline(always)]
fn low_begun(tag: Tag, constructed: bool, octets: &[u8]) -> Option<usize>
    requires { tag.number < 31 }
    ensures { IfSome result (λ used. (used ≤ length octets.now) × IsIdentifier tag constructed (take used octets.now)) }
{
    if octets.is_empty() || octets[0] != leading_octet(tag) + form_octet(constructed) {
        return None;
    }
    Some(1)
}

// How many it has, of a tag of a number that one or two octets behind the leading one say (X.690 8.1.2.4).
#[inline(always)]
fn high_begun(tag: Tag, constructed: bool, octets: &[u8]) -> Option<usize>
    requires number { (31 ≤ tag.number) × (tag.number < 0x4000) }
    requires there { 3 ≤ length octets.now }
    ensures { IfSome result (λ used. (used ≤ length octets.now) × IsIdentifier tag constructed (take used octets.now)) }
{
    if octets[0] != class_octet(tag.class) + form_octet(constructed) + 31 {
        return None;
    }
    let (second, third) = (u32::from(octets[1]), u32::from(octets[2]));
    if tag.number < 0x80 {
        if second != tag.number {
            return None;
        }
        return Some(2);
    }
    if second != 0x80 + tag.number / 0x80 || third != tag.number % 0x80 {
        return None;
    }
    Some(3)
}

// How many it has, of any tag.
#[inline(never)]
fn long_begun(tag: Tag, constructed: bool, octets: &[u8]) -> Option<usize>
    ensures { IfSome result (λ used. (used ≤ length octets.now) × IsIdentifier tag constructed (take used octets.now)) }
{
    match read_identifier(octets) {
        Head::Done {
            tag: found,
            constructed: form,
            used,
        } if found == tag && form == constructed => Some(used),
        Head::Done { .. } | Head::More | Head::Bad => None,
    }
}

// Bit 6 of a leading octet, which says the form (X.690 8.1.2.5), and zeros.
#[inline(always)]
fn form_octet(constructed: bool) -> u8
    ensures { result ≡ form_bit constructed }
{
    if constructed { 0x20 } else { 0x00 }
}

impl<'a> Inside<'a> {
    // How many octets the encoding at the front has, of which this was read, if so many are its contents octets.
    pub fn close(&self, octets: &[u8], used: usize) -> Option<usize>
        requires there { used ≤ length self.now.octets.now }
        requires opened { (tag : Tag) × IsOpened tag octets.now self.now }
        ensures there { IfSome result (λ whole. whole ≤ length octets.now) }
        ensures value { IfSome result (λ whole. (tag : Tag) → IsOpened tag octets.now self.now →
            IsConstructed ber tag (take used self.now.octets.now) (take whole octets.now)) }
    {
        if self.definite {
            if used < self.octets.len() {
                return None;
            }
            return Some(self.start + used);
        }
        if !starts_with_end(&self.octets[used..]) {
            return None;
        }
        Some(self.start + used + 2)
    }
}

// Whether contents octets end in front of these, which of the definite form are all that are left of them.
#[inline(always)]
pub fn ends_at(octets: &[u8], definite: bool) -> bool {
    if definite {
        octets.is_empty()
    } else {
        starts_with_end(octets)
    }
}

// Whether the octets begin with end-of-contents octets (X.690 8.1.5).
fn starts_with_end(octets: &[u8]) -> bool
    ensures { IsTrue result ↔ StartsWithEnd octets.now }
{
    octets.len() >= 2 && octets[0] == 0x00 && octets[1] == 0x00
}
