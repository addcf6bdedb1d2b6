//! Strings: one primitive encoding, or under CER a long one in segments (X.690 9.2 and 10.2).
//!
//! A string that needs at most 1000 contents octets is one primitive encoding. A longer one is, under
//! CER, a constructed encoding of primitive segments, each of 1000 contents octets but the last. The
//! first contents octet of a BIT STRING segment counts unused bits, so 999 octets of it carry data.
//!
//! That the last segment carries at least one octet of data is this project's own rule
//! (`docs/PROFILE.md`, "The last segment").

ghost use Rattle.std.specs.Prelude.{◌≡◌, ◌≤◌, ◌+◌, ◌++◌, [], ℕ, List, length, OnOk, OnErr};
ghost use Rattle.octets.specs.declared.TheConstants.{MAX_ENCODING, MAX_TAG_NUMBER};
ghost use Rattle.octets.specs.Rule.{cer, rule_of};
ghost use Rattle.types.specs.Form.{IsPrimitive};
ghost use Rattle.canon.specs.Segments.{AreLeads, AreSegmentsOf, IsCutOf, IsStringOf, SizesCut};
ghost use Rattle.canon.specs.Size.{HasSize};
ghost use Rattle.canon.specs.Writes.{Writes};

use crate::heads::put_primitive_head;
use crate::sizes::{size_of_definite, size_of_identifier, size_of_length};
use octets::{Canonical, MAX_ENCODING, NoMemory, Tag, put_identifier};
use types::SEGMENT_OCTETS;

// How many octets an encoding under `tag` has of a string of so many octets, after so many others that
// its contents octets begin with.
pub(crate) fn size_of_string(rule: Canonical, tag: Tag, lead: usize, octets: usize) -> usize
    requires tag { tag.number ≤ MAX_TAG_NUMBER }
    requires lead { lead ≤ 1 }
    ensures at_most { result ≤ MAX_ENCODING + 1 }
    ensures size { (segment : Tag) (whole front string : List ℕ) → segment.number ≤ 30 →
        length whole ≡ lead → length front ≡ lead → length string ≡ octets →
        HasSize (IsStringOf (rule_of rule) tag segment whole front string) result }
{
    if octets > MAX_ENCODING {
        return MAX_ENCODING + 1;
    }
    match rule {
        Canonical::Cer if octets > SEGMENT_OCTETS - lead => {
            size_of_cut(tag, lead, octets).min(MAX_ENCODING + 1)
        }
        Canonical::Cer => size_of_definite(tag, lead + octets),
        Canonical::Der => size_of_definite(tag, (lead + octets).min(MAX_ENCODING + 1)),
    }
}

// How many octets the constructed encoding of a string has that is cut into segments.
fn size_of_cut(tag: Tag, lead: usize, octets: usize) -> usize
    requires tag { tag.number ≤ MAX_TAG_NUMBER }
    requires lead { lead ≤ 1 }
    requires some { 1 ≤ octets }
    requires within { octets ≤ MAX_ENCODING }
    ensures { SizesCut tag lead octets result }
{
    let room = SEGMENT_OCTETS - lead;
    let full = (octets - 1) / room;
    let last = lead + octets - full * room;
    let segments = full * (1 + 3 + SEGMENT_OCTETS) + 1 + size_of_length(last) + last;
    size_of_identifier(tag) + 1 + segments + 2
}

// Appends the encoding under `tag` of a string of `octets`, after the contents octets `lead`. Segments
// have the tag `segment`, and all but the last begin with `whole`, which is as long as `lead`.
pub(crate) fn put_string(
    rule: Canonical,
    tag: Tag,
    segment: Tag,
    whole: &[u8],
    lead: &[u8],
    octets: &[u8],
    out: &mut Vec<u8>,
) -> Result<(), NoMemory>
    requires tag { tag.number ≤ MAX_TAG_NUMBER }
    requires segment { segment.number ≤ 30 }
    requires leads { AreLeads whole.now lead.now }
    ensures { Writes (IsStringOf (rule_of rule) tag segment whole.now lead.now octets.now)
        result out.old.items out.new.items }
{
    match rule {
        Canonical::Cer if octets.len() > SEGMENT_OCTETS - lead.len() => {
            put_cut(tag, segment, whole, lead, octets, out)
        }
        Canonical::Cer | Canonical::Der => put_primitive(tag, lead, octets, out),
    }
}

// Appends the encoding under `tag` of a string whose contents octets are `octets`.
#[inline(always)]
pub(crate) fn put_octets(
    rule: Canonical,
    tag: Tag,
    segment: Tag,
    octets: &[u8],
    out: &mut Vec<u8>,
) -> Result<(), NoMemory>
    requires tag { tag.number ≤ MAX_TAG_NUMBER }
    requires segment { segment.number ≤ 30 }
    ensures { Writes (IsStringOf (rule_of rule) tag segment [] [] octets.now) result out.old.items out.new.items }
{
    match rule {
        Canonical::Cer if octets.len() > SEGMENT_OCTETS => {
            put_cut(tag, segment, &[], &[], octets, out)
        }
        Canonical::Cer | Canonical::Der => put_primitive(tag, &[], octets, out),
    }
}

// Appends the constructed encoding of such a string.
#[inline(never)]
fn put_cut(
    tag: Tag,
    segment: Tag,
    whole: &[u8],
    lead: &[u8],
    octets: &[u8],
    out: &mut Vec<u8>,
) -> Result<(), NoMemory>
    requires some { 1 ≤ length octets.now }
    requires tag { tag.number ≤ MAX_TAG_NUMBER }
    requires segment { segment.number ≤ 30 }
    requires leads { AreLeads whole.now lead.now }
    ensures { Writes (IsCutOf tag segment whole.now lead.now octets.now) result out.old.items out.new.items }
{
    put_identifier(out, tag, true)?;
    out.push(0x80)?;
    append_segments(segment, whole, lead, octets, out)?;
    out.extend_from_slice(&[0x00, 0x00])?;
    Ok(())
}

// Appends the segments.
fn append_segments(
    segment: Tag,
    whole: &[u8],
    lead: &[u8],
    octets: &[u8],
    out: &mut Vec<u8>,
) -> Result<(), NoMemory>
    requires some { 1 ≤ length octets.now }
    requires segment { segment.number ≤ 30 }
    requires leads { AreLeads whole.now lead.now }
    ensures { Writes (AreSegmentsOf segment whole.now lead.now octets.now) result out.old.items out.new.items }
{
    let room = SEGMENT_OCTETS - lead.len();
    let mut rest = octets;
    while rest.len() > room {
        let (before, after) = rest.split_at(room);
        put_primitive(segment, whole, before, out)?;
        rest = after;
    }
    put_primitive(segment, lead, rest, out)
}

// Appends the primitive encoding under `tag` whose contents octets are `lead` and then `octets`.
#[inline(always)]
fn put_primitive(tag: Tag, lead: &[u8], octets: &[u8], out: &mut Vec<u8>) -> Result<(), NoMemory>
    requires tag { tag.number ≤ MAX_TAG_NUMBER }
    requires lead { length lead.now ≤ 1 }
    ensures { Writes (IsPrimitive cer tag (lead.now ++ octets.now)) result out.old.items out.new.items }
{
    put_primitive_head(tag, lead.len() + octets.len(), out)?;
    put_lead(lead, out)?;
    out.extend_from_slice(octets)?;
    Ok(())
}

// Appends the first contents octet of a BIT STRING; other strings have none.
fn put_lead(lead: &[u8], out: &mut Vec<u8>) -> Result<(), NoMemory>
    requires { length lead.now ≤ 1 }
    ensures appended { OnOk result (out.new.items ≡ out.old.items ++ lead.now) }
    ensures unchanged { OnErr result (out.new.items ≡ out.old.items) }
{
    if let [first] = lead {
        out.push(*first)?;
    }
    Ok(())
}
