//! Parts of one buffer, put in order.

ghost use Rattle.std.specs.Prelude.{◌≡◌, ◌≤◌, ◌+◌, ◌-◌, ◌↔◌, ◌++◌, length, take, drop, map, not, All, IsTrue, OnOk, OnErr, IsPermutation};
ghost use Rattle.std.specs.List.{concat};
ghost use Rattle.std.specs.Ordering.{nat_cmp, is_lt};
ghost use Rattle.std.specs.Cmp.Lexicographic.{slice_cmp};
ghost use Rattle.octets.specs.Digits.{number_of};
ghost use Rattle.types.specs.Order.{Ascends};
ghost use Rattle.canon.specs.Part.{IsArranged, IsArrangedByTag, IsCutInto, Keeps};
ghost use Rattle.canon.specs.Span.{part_of, key_of, RisesByTag};
ghost use Rattle.canon.specs.Keyed.{with_key, HasKey, compared};

use octets::{NoMemory, Tag};
use std::alloc::Global;
use std::cmp::Ordering;

/// Where a part of a buffer stands.
#[derive(Clone, Copy, PartialEq, Eq)]
pub(crate) struct Span {
    /// The index of its first octet.
    pub start: usize,
    /// The index after its last octet.
    pub end: usize,
}

/// A part of a buffer, with what it is sorted by: of an item its first 16 octets as a number, of a component its
/// tag.
#[derive(Clone, Copy)]
pub(crate) struct Keyed<K> {
    /// What it is sorted by.
    pub key: K,
    /// The part.
    pub span: Span,
}

// The octets of a span, as far as the buffer has them.
pub(crate) fn part(buffer: &[u8], span: Span) -> &[u8]
    ensures { result.now ≡ part_of buffer.now span }
{
    let end = span.end.min(buffer.len());
    let start = span.start.min(end);
    &buffer[start..end]
}

// A part with the key of an item.
pub(crate) fn with_key_of(buffer: &[u8], span: Span) -> Keyed<u128>
    ensures { result ≡ with_key buffer.now span }
{
    Keyed {
        key: key_of_part(buffer, span),
        span,
    }
}

// Puts parts, which are all that stands from `from` on, in ascending order (X.690 11.6). Mostly they come in order, and
// nothing is sorted or moved. The order of lists of octets serves: parts that are in it are in that of padded ones.
pub(crate) fn arrange(
    alloc: Global,
    out: &mut Vec<u8>,
    from: usize,
    parts: Vec<Keyed<u128>>,
) -> Result<(), NoMemory>
    requires cut { IsCutInto from (map (λ one. one.span) parts.items) out.old.items }
    requires keys { All (HasKey out.old.items) parts.items }
    ensures arranged { OnOk result
        (IsArranged from (map (λ one. one.span) parts.items) out.old.items out.new.items) }
    ensures kept { OnErr result (Keeps (take from out.old.items) out.new.items) }
{
    if ascend(out, &parts) {
        return Ok(());
    }
    let mut sorted = parts;
    sort_by_keys(out, &mut sorted);
    join_again(alloc, out, from, &sorted)
}

// Whether each part is at most the next.
fn ascend(buffer: &[u8], parts: &[Keyed<u128>]) -> bool
    requires { All (HasKey buffer.now) parts.now }
    ensures { IsTrue result → Ascends (map (λ one. part_of buffer.now one.span) parts.now) }
{
    parts.is_sorted_by(
        |a, b| -> bool
            ensures { result ≡ not (is_lt (slice_cmp nat_cmp (compared buffer.entry.now b.now) (compared buffer.entry.now a.now))) }
        { !compare(buffer, *b, *a).is_lt() },
    )
}

// The key of a part. Those of more than eight octets are read as two words, which is quicker than octet by octet: what
// these have of the octets in front of the part is shifted out.
fn key_of_part(buffer: &[u8], span: Span) -> u128
    ensures { result ≡ key_of 16 (part_of buffer.now span) }
{
    let octets = part(buffer, span);
    if 4 <= octets.len() && octets.len() <= 8 {
        return key_of_few(octets);
    }
    let there = octets.len().min(16);
    if there == 0 || span.start + there < 16 {
        return key(octets);
    }
    let stop = span.start + there;
    let high = word_at(buffer, stop - 16);
    let low = word_at(buffer, stop - 8);
    ((u128::from(high) << 64) + u128::from(low)) << (8 * (16 - there))
}

// The key of four to eight octets, of which the first four and the last four are read. They have just been written, by
// one store, and a processor hands that on to what reads within it; a word that begins before them would wait for it.
#[inline(always)]
fn key_of_few(octets: &[u8]) -> u128
    requires { (4 ≤ length octets.now) × (length octets.now ≤ 8) }
    ensures { result ≡ key_of 16 octets.now }
{
    let first = u64::from(half_at(octets, 0));
    let last = u64::from(half_at(octets, octets.len() - 4));
    // What both have is shifted out of the last four.
    let behind = (last << (8 * (8 - octets.len()))) % (1 << 32);
    u128::from((first << 32) + behind) << 64
}

// Four octets as a number, the most significant first. They are copied at once.
fn half_at(octets: &[u8], i: usize) -> u32
    requires { i + 4 ≤ length octets.now }
    ensures { result ≡ number_of 256 (take 4 (drop i octets.now)) }
{
    let mut four = [0u8; 4];
    four.copy_from_slice(&octets[i..i + 4]);
    u32::from_be_bytes(four)
}

// Eight octets as a number, the most significant first. They are copied at once.
fn word_at(octets: &[u8], i: usize) -> u64
    requires { i + 8 ≤ length octets.now }
    ensures { result ≡ number_of 256 (take 8 (drop i octets.now)) }
{
    let mut eight = [0u8; 8];
    eight.copy_from_slice(&octets[i..i + 8]);
    u64::from_be_bytes(eight)
}

// The first 16 octets as a number, the most significant first, with zeros for those that are not there.
#[inline(never)]
fn key(octets: &[u8]) -> u128
    ensures { result ≡ key_of 16 octets.now }
{
    let there = octets.len().min(16);
    if there == 0 {
        return 0;
    }
    let mut number = 0u128;
    for i in 0..there {
        number = number * 256 + u128::from(octets[i]);
    }
    number << (8 * (16 - there))
}

// Puts parts in ascending order. Keys decide mostly: octets are read again only where those are equal.
fn sort_by_keys(buffer: &[u8], keyed: &mut Vec<Keyed<u128>>)
    requires keys { All (HasKey buffer.now) keyed.old.items }
    ensures permutation { IsPermutation keyed.old.items keyed.new.items }
    ensures ascends { Ascends (map (λ one. part_of buffer.now one.span) keyed.new.items) }
{
    keyed.sort_unstable_by(
        |a, b| -> Ordering
            ensures { result ≡ slice_cmp nat_cmp (compared buffer.entry.now a.now) (compared buffer.entry.now b.now) }
        { compare(buffer, *a, *b) },
    );
}

// Compares keys, and then what is behind them, if anything is.
pub(crate) fn compare(buffer: &[u8], a: Keyed<u128>, b: Keyed<u128>) -> Ordering
    ensures { result ≡ slice_cmp nat_cmp (compared buffer.now a) (compared buffer.now b) }
{
    if a.key != b.key {
        return a.key.cmp(&b.key);
    }
    if is_all_key(a.span) && is_all_key(b.span) {
        return Ordering::Equal;
    }
    behind(part(buffer, a.span)).cmp(&behind(part(buffer, b.span)))
}

// Whether a part has no octet behind the first 16.
fn is_all_key(span: Span) -> bool
    ensures { IsTrue result ↔ span.end - span.start ≤ 16 }
{
    span.end.saturating_sub(span.start) <= 16
}

// The octets behind the first 16.
fn behind(octets: &[u8]) -> &[u8]
    ensures { result.now ≡ drop 16 octets.now }
{
    &octets[octets.len().min(16)..]
}

// Puts parts, which are all that stands from `from` on, in ascending order of their tags.
pub(crate) fn arrange_by_tag(
    alloc: Global,
    out: &mut Vec<u8>,
    from: usize,
    parts: Vec<Keyed<Tag>>,
) -> Result<(), NoMemory>
    requires { IsCutInto from (map (λ part. part.span) parts.items) out.old.items }
    ensures arranged { OnOk result (IsArrangedByTag from parts.items out.old.items out.new.items) }
    ensures kept { OnErr result (Keeps (take from out.old.items) out.new.items) }
{
    if rise(&parts) {
        return Ok(());
    }
    let mut sorted = parts;
    sorted.sort_unstable_by(|a, b| a.key.order(b.key));
    join_again(alloc, out, from, &sorted)
}

// Whether no tag comes before the one in front of it.
fn rise(parts: &[Keyed<Tag>]) -> bool
    ensures { IsTrue result → RisesByTag (map (λ part. part.key) parts.now) }
{
    parts.is_sorted_by(|a, b| !b.key.order(a.key).is_lt())
}

// Puts parts, one behind another, in the place of what stands from `from` on.
fn join_again<K>(
    alloc: Global,
    out: &mut Vec<u8>,
    from: usize,
    parts: &[Keyed<K>],
) -> Result<(), NoMemory>
    requires { from ≤ length out.old.items }
    ensures joined { OnOk result (out.new.items ≡
        take from out.old.items ++ concat (map (part_of out.old.items) (map (λ part. part.span) parts.now))) }
    ensures kept { OnErr result (Keeps (take from out.old.items) out.new.items) }
{
    let mut moved = Vec::new(alloc);
    moved.reserve(out.len() - from + 16)?;
    for one in parts {
        put_part(out, one.span, &mut moved)?;
    }
    out.truncate(from);
    out.extend_from_slice(&moved)?;
    Ok(())
}

// Appends a part. Mostly it has at most 16 octets, and 16 are copied, which is one step; what stands behind the
// part is cut off again.
#[inline(always)]
fn put_part(buffer: &[u8], span: Span, moved: &mut Vec<u8>) -> Result<(), NoMemory>
    ensures appended { OnOk result (moved.new.items ≡ moved.old.items ++ part_of buffer.now span) }
    ensures unchanged { OnErr result (moved.new.items ≡ moved.old.items) }
{
    let octets = part(buffer, span);
    if octets.len() > 16 || buffer.len().saturating_sub(span.start) < 16 {
        moved.extend_from_slice(octets)?;
        return Ok(());
    }
    let end = moved.len() + octets.len();
    moved.extend_from_slice(&buffer[span.start..span.start + 16])?;
    moved.truncate(end);
    Ok(())
}
