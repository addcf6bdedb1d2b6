//! A BIT STRING value, and its contents octets in a primitive encoding (X.690 8.6.2 and 11.2.1).

ghost use Rattle.std.specs.Prelude.{◌≡◌, ℕ, ◌+◌, ◌-◌, ◌<◌, ◌≤◌, ◌↔◌, Bool, true, false, List, ◌++◌, length, slice_index, take, replicate, IfSome, IsSome, IfOk, OnOk, OnErr, IsErrOf, IsTrue};
ghost use Rattle.std.specs.Cmp.{partial_equiv_from_equiv, bool_eq_equiv};
ghost use Rattle.std.specs.Cmp.Lexicographic.{pointwise, lists_equiv};
ghost use mathlib.Core.Bool.{beq};
ghost use Rattle.octets.specs.Front.{Appends};
ghost use Rattle.octets.specs.Rule.{ber};
ghost use Rattle.primitives.specs.Bits.{bits_before, CanBeUnused, IsBits, IsCanonicalBits, IsFrontOf, IsPadded, IsTrimmed};

use crate::Fault;
use octets::NoMemory;
use std::alloc::Global;
use std::marker::Model;

/// A list of bits, eight to an octet, bit 8 first.
#[derive(Debug, Drop)]
pub struct Bits {
    octets: Vec<u8>,
    unused: u8,
}

impl Model for Bits {
    ghost Value = { List Bool };

    ghost view = { λ bits. bits_before bits.octets.items bits.unused };

    ghost invariant = { λ bits. IsPadded (bits_before bits.octets.items bits.unused) bits.octets.items bits.unused };
}

impl Bits {
    /// The bits of `octets` but the last `unused`, which are cleared. Takes no memory.
    pub fn new(mut octets: Vec<u8>, unused: u8) -> Option<Bits>
        ensures value { IfSome result (λ bits. IsFrontOf bits unused octets.items) }
        ensures some { IsSome result ↔ CanBeUnused unused octets.items }
    {
        if clear_unused(&mut octets, unused) {
            Some(Bits { octets, unused })
        } else {
            None
        }
    }

    /// The octets that `new` would take for these bits. The unused bits are zero.
    pub fn octets(&self) -> &[u8]
        ensures { (unused : ℕ) × IsPadded self.now result.now unused }
    {
        &self.octets
    }

    /// How many bits of the last octet are unused.
    pub fn unused(&self) -> u8
        ensures { (octets : List ℕ) × IsPadded self.now octets result }
    {
        self.unused
    }

    /// Whether there are no bits, or the last one is 1 (X.690 11.2.2). Takes no memory.
    pub fn is_trimmed(&self) -> bool
        ensures { IsTrue result ↔ IsTrimmed self.now }
    {
        match self.octets.last() {
            Some(last) => (*last >> self.unused) % 2 == 1,
            None => true,
        }
    }

    /// These bits without the zero bits at their end (X.690 11.2.2). Takes no memory.
    pub fn trimmed(self) -> Bits
        ensures front { (zeros : ℕ) × (self ≡ result ++ replicate zeros false) }
        ensures trimmed { IsTrimmed result }
    {
        let mut octets = self.octets;
        let count = count_before_zeros(&octets);
        octets.truncate(count);
        if count == 0 {
            return Bits { octets, unused: 0 };
        }
        let unused = octets[count - 1].trailing_zeros() as u8;
        Bits { octets, unused }
    }
}

impl PartialEq for Bits {
    ghost eq = { pointwise beq };

    ghost laws = { partial_equiv_from_equiv (lists_equiv bool_eq_equiv) };

    fn eq(&self, other: &Bits) -> bool {
        self.unused == other.unused && self.octets == other.octets
    }
}

impl Eq for Bits {
    ghost laws = { lists_equiv bool_eq_equiv };
}

// How many octets there are before the zero octets at the end.
fn count_before_zeros(octets: &[u8]) -> usize
    ensures within { result ≤ length octets.now }
    ensures zeros { (zeros : ℕ) × (octets.now ≡ take result octets.now ++ replicate zeros 0) }
    ensures last { 0 < result → 0 < slice_index octets.now (result - 1) }
{
    let mut count = octets.len();
    while count > 0 && octets[count - 1] == 0 {
        count -= 1;
    }
    count
}

// Clears the last bits of the octets, and says whether so many can be unused; where not, all stay.
#[inline(always)]
fn clear_unused(octets: &mut Vec<u8>, unused: u8) -> bool
    ensures can { IsTrue result ↔ CanBeUnused unused octets.old.items }
    ensures front { IsTrue result → IsFrontOf (bits_before octets.new.items unused) unused octets.old.items }
    ensures padded { IsTrue result → IsPadded (bits_before octets.new.items unused) octets.new.items unused }
    ensures kept { result ≡ false → octets.new.items ≡ octets.old.items }
{
    if unused > 7 {
        return false;
    }
    if unused == 0 {
        return true;
    }
    if octets.is_empty() {
        return false;
    }
    let last = octets.len() - 1;
    octets[last] = octets[last] >> unused << unused;
    true
}

/// The value of a BIT STRING's contents octets in a primitive encoding under BER. Unused bits need not
/// be zero, as CER and DER want them.
pub fn read_bits(alloc: Global, contents: &[u8]) -> Result<Bits, Fault>
    ensures value { IfOk result (λ bits. IsBits ber bits contents.now) }
    ensures none { IsErrOf result Fault.Contents → (bits : List Bool) → ¬ IsBits ber bits contents.now }
{
    let mut bits = Bits {
        octets: Vec::new(alloc),
        unused: 0,
    };
    read_bits_into(contents, &mut bits)?;
    Ok(bits)
}

/// Puts the value of a BIT STRING's contents octets in a primitive encoding under BER in place of the bits, where they
/// have room if it has. Where the octets are refused, there may be any bits.
pub fn read_bits_into(contents: &[u8], bits: &mut Bits) -> Result<(), Fault>
    ensures value { OnOk result (IsBits ber bits.new contents.now) }
    ensures none { IsErrOf result Fault.Contents → (value : List Bool) → ¬ IsBits ber value contents.now }
{
    let Some((&unused, data)) = contents.split_first() else {
        return Err(Fault::Contents);
    };
    bits.unused = 0;
    bits.octets.clear();
    bits.octets.extend_from_slice(data)?;
    if !clear_unused(&mut bits.octets, unused) {
        return Err(Fault::Contents);
    }
    bits.unused = unused;
    Ok(())
}

/// Appends the contents octets of a BIT STRING in a primitive encoding under CER and DER.
pub fn put_bits(out: &mut Vec<u8>, bits: &Bits) -> Result<(), NoMemory>
    ensures appended { OnOk result (Appends (IsCanonicalBits bits.now) out.old.items out.new.items) }
    ensures unchanged { OnErr result (out.new.items ≡ out.old.items) }
{
    let before = out.len();
    out.push(bits.unused)?;
    if out.extend_from_slice(&bits.octets).is_err() {
        out.truncate(before);
        return Err(NoMemory);
    }
    Ok(())
}
