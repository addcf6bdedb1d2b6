//! Contents octets of an OBJECT IDENTIFIER and of a RELATIVE-OID (X.690 8.19 and 8.20).
//!
//! The limits on the number and the size of subidentifiers are this project's own (`docs/PROFILE.md`).

ghost use Rattle.std.specs.Prelude.{◌≡◌, ◌≤◌, ◌<◌, ◌+◌, ◌-◌, ◌*◌, ℕ, min, List, ◌∷◌, ◌++◌, length, vec_len, vec_capacity, IfOk, OnOk, OnErr, IsErrOf, IsTrue};
ghost use Rattle.octets.specs.Front.{Appends};
ghost use Rattle.primitives.specs.declared.TheConstants.{MAX_SUBIDENTIFIERS};
ghost use Rattle.primitives.specs.Oid.{AreSubidentifiers, AreSmallSubidentifiers, IsFirstArc, IsOid, IsOidValue, IsRelativeOid, IsRelativeOidValue};

use crate::subidentifier::read_subidentifier;
use crate::{Fault, MAX_SUBIDENTIFIERS};
use octets::{NoMemory, put_base_128};
use std::alloc::Global;

/// The arcs of an OBJECT IDENTIFIER's contents octets.
pub fn read_oid(alloc: Global, contents: &[u8]) -> Result<Vec<u128>, Fault>
    ensures value { IfOk result (λ arcs. IsOid arcs.items contents.now) }
    ensures within { IfOk result (λ arcs. IsOidValue arcs.items) }
    ensures none { IsErrOf result Fault.Contents → (arcs : List ℕ) → IsOidValue arcs → ¬ IsOid arcs contents.now }
{
    let mut arcs = Vec::with_capacity(alloc, most_numbers(contents) + 1)?;
    read_oid_into(contents, &mut arcs)?;
    Ok(arcs)
}

/// Puts the arcs of an OBJECT IDENTIFIER's contents octets into the vector in place of those in it, where they have
/// room if it has. Where the octets are refused, it may hold any numbers.
#[inline(always)]
pub fn read_oid_into(contents: &[u8], arcs: &mut Vec<u128>) -> Result<(), Fault>
    ensures value { OnOk result (IsOid arcs.new.items contents.now) }
    ensures within { OnOk result (IsOidValue arcs.new.items) }
    ensures none { IsErrOf result Fault.Contents → (arcs : List ℕ) → IsOidValue arcs → ¬ IsOid arcs contents.now }
{
    if read_short_arcs(contents, arcs) {
        return Ok(());
    }
    read_any_arcs(contents, arcs)
}

// Puts the arcs there, and says whether it has: only where there is surely room, the first subidentifier has one octet,
// and each other at most four.
#[inline(always)]
fn read_short_arcs(contents: &[u8], arcs: &mut Vec<u128>) -> bool
    ensures value { IsTrue result → IsOid arcs.new.items contents.now }
    ensures within { IsTrue result → IsOidValue arcs.new.items }
{
    // There are no more subidentifiers than octets.
    if contents.len() > MAX_SUBIDENTIFIERS || contents.len() >= arcs.capacity() {
        return false;
    }
    if contents.is_empty() || contents[0] >= 0x80 {
        return false;
    }
    arcs.clear();
    let (first, second) = two_arcs(u128::from(contents[0]));
    arcs.push_reserved(first);
    arcs.push_reserved(second);
    put_short_numbers(&contents[1..], arcs)
}

// Appends the subidentifiers of the octets, and says whether it has: only where each has at most four.
#[inline(always)]
fn put_short_numbers(octets: &[u8], numbers: &mut Vec<u128>) -> bool
    requires { vec_len numbers.old + length octets.now ≤ vec_capacity numbers.old }
    ensures appended { IsTrue result → Appends (λ more. AreSmallSubidentifiers more octets.now) numbers.old.items numbers.new.items }
    ensures few { length numbers.new.items ≤ length numbers.old.items + length octets.now }
{
    // The number so far of a subidentifier that goes on, or 0.
    let mut begun = 0u32;
    for octet in octets {
        if *octet < 0x80 {
            numbers.push_reserved(u128::from(begun * 128 + u32::from(*octet)));
            begun = 0;
        } else {
            begun = begun * 128 + u32::from(*octet - 0x80);
            if !goes_on(begun) {
                return false;
            }
        }
    }
    begun == 0
}

// Whether another octet may follow those that make the number so far: octet 80 would be a leading zero, and a fifth
// octet is too many here.
#[inline(always)]
fn goes_on(begun: u32) -> bool
    ensures { IsTrue result → (1 ≤ begun) × (begun < 2097152) }
{
    begun != 0 && begun < 0x20_0000
}

// Puts the arcs of any contents octets into the vector in place of those in it.
#[inline(never)]
fn read_any_arcs(contents: &[u8], arcs: &mut Vec<u128>) -> Result<(), Fault>
    ensures value { OnOk result (IsOid arcs.new.items contents.now) }
    ensures within { OnOk result (IsOidValue arcs.new.items) }
    ensures none { IsErrOf result Fault.Contents → (arcs : List ℕ) → IsOidValue arcs → ¬ IsOid arcs contents.now }
{
    arcs.clear();
    arcs.reserve(most_numbers(contents) + 1)?;
    let Some((shared, used)) = read_subidentifier(contents) else {
        return Err(Fault::Contents);
    };
    let (first, second) = two_arcs(shared);
    arcs.push_reserved(first);
    arcs.push_reserved(second);
    // One arc more than subidentifiers.
    read_subidentifiers(&contents[used..], MAX_SUBIDENTIFIERS + 1, arcs)
}

// How many subidentifiers the contents octets may have: each has an octet at least.
#[inline(always)]
fn most_numbers(contents: &[u8]) -> usize
    ensures { result ≡ min (length contents.now) MAX_SUBIDENTIFIERS }
{
    contents.len().min(MAX_SUBIDENTIFIERS)
}

// The two arcs that share a subidentifier.
#[inline(always)]
fn two_arcs(shared: u128) -> (u128, u128)
    ensures first { IsFirstArc shared result.0 }
    ensures second { result.1 ≡ shared - 40 * result.0 }
{
    if shared < 40 {
        (0, shared)
    } else if shared < 80 {
        (1, shared - 40)
    } else {
        (2, shared - 80)
    }
}

/// The arcs of a RELATIVE-OID's contents octets.
pub fn read_relative_oid(alloc: Global, contents: &[u8]) -> Result<Vec<u128>, Fault>
    ensures value { IfOk result (λ arcs. IsRelativeOid arcs.items contents.now) }
    ensures within { IfOk result (λ arcs. IsRelativeOidValue arcs.items) }
    ensures none { IsErrOf result Fault.Contents → (arcs : List ℕ) → IsRelativeOidValue arcs → ¬ IsRelativeOid arcs contents.now }
{
    let mut arcs = Vec::with_capacity(alloc, most_numbers(contents))?;
    read_subidentifiers(contents, MAX_SUBIDENTIFIERS, &mut arcs)?;
    if arcs.is_empty() {
        return Err(Fault::Contents);
    }
    Ok(arcs)
}

// Appends the subidentifiers of contents octets to the vector, which has room for them and gets no longer than `most`.
fn read_subidentifiers(contents: &[u8], most: usize, arcs: &mut Vec<u128>) -> Result<(), Fault>
    requires few { length arcs.old.items ≤ most }
    requires room { min (length arcs.old.items + length contents.now) most ≤ vec_capacity arcs.old }
    ensures appended { OnOk result (Appends (λ numbers. AreSmallSubidentifiers numbers contents.now) arcs.old.items arcs.new.items) }
    ensures within { OnOk result (length arcs.new.items ≤ most) }
    ensures none { IsErrOf result Fault.Contents → (numbers : List ℕ) → length arcs.old.items + length numbers ≤ most → ¬ AreSmallSubidentifiers numbers contents.now }
{
    let mut start = 0usize;
    while start < contents.len() {
        if arcs.len() == most {
            return Err(Fault::Contents);
        }
        let Some((number, used)) = read_subidentifier(&contents[start..]) else {
            return Err(Fault::Contents);
        };
        arcs.push_reserved(number);
        start += used;
    }
    Ok(())
}

/// Appends the contents octets of an OBJECT IDENTIFIER.
pub fn put_oid(out: &mut Vec<u8>, arcs: &[u128]) -> Result<(), NoMemory>
    requires { IsOidValue arcs.now }
    ensures appended { OnOk result (Appends (IsOid arcs.now) out.old.items out.new.items) }
    ensures unchanged { OnErr result (out.new.items ≡ out.old.items) }
{
    put_subidentifiers(out, 40 * arcs[0] + arcs[1], &arcs[2..])
}

/// Appends the contents octets of a RELATIVE-OID.
pub fn put_relative_oid(out: &mut Vec<u8>, arcs: &[u128]) -> Result<(), NoMemory>
    requires { IsRelativeOidValue arcs.now }
    ensures appended { OnOk result (Appends (IsRelativeOid arcs.now) out.old.items out.new.items) }
    ensures unchanged { OnErr result (out.new.items ≡ out.old.items) }
{
    put_subidentifiers(out, arcs[0], &arcs[1..])
}

// Appends the octets of subidentifiers.
fn put_subidentifiers(out: &mut Vec<u8>, first: u128, others: &[u128]) -> Result<(), NoMemory>
    ensures appended { OnOk result (Appends (AreSubidentifiers (first ∷ others.now)) out.old.items out.new.items) }
    ensures unchanged { OnErr result (out.new.items ≡ out.old.items) }
{
    let before = out.len();
    let put = try_put_subidentifiers(out, first, others);
    if put.is_err() {
        out.truncate(before);
    }
    put
}

// Appends the octets of subidentifiers. Where memory was refused, those of the first few may stand.
fn try_put_subidentifiers(out: &mut Vec<u8>, first: u128, others: &[u128]) -> Result<(), NoMemory>
    ensures appended { OnOk result (Appends (AreSubidentifiers (first ∷ others.now)) out.old.items out.new.items) }
    ensures kept { (more : List ℕ) × (out.new.items ≡ out.old.items ++ more) }
{
    put_base_128(out, first)?;
    for number in others {
        put_base_128(out, *number)?;
    }
    Ok(())
}
