//! The named bits of a BIT STRING (X.680 clause 22).

ghost use Rattle.std.specs.Prelude.{◌≡◌, ◌≢◌, ◌↔◌, ◌≤◌, All, IfOk, IsTrue, map, pos};
ghost use Rattle.std.specs.List.{AllPairs};
ghost use Rattle.std.specs.List.Sorted.{IsPermutation, IsSorted};
ghost use Rattle.std.specs.Ordering.{int_cmp};
ghost use Rattle.syntax.specs.View.{bit};
ghost use Rattle.types.specs.View.{named_bit_view};
ghost use Rattle.builtin_types.specs.Universal.{named_bit};

use crate::differing::ascending_differ;
use std::alloc::{AllocError, Global};
use syntax::NamedBit;
use types::MAX_NAMED_BIT;

/// Whether the number of each bit is at most 65,535. Takes no memory.
pub fn are_bits_within(bits: &[NamedBit]) -> bool
    ensures { IsTrue result ↔ All (λ bit. bit.number ≤ 65535) bits.now }
{
    for bit in bits {
        if bit.number > MAX_NAMED_BIT {
            return false;
        }
    }
    true
}

/// Whether the numbers of the bits differ (X.680 22.4). Takes memory for the numbers; Err where it ran out.
pub fn bit_numbers_differ(alloc: Global, bits: &[NamedBit]) -> Result<bool, AllocError>
    ensures { IfOk result (λ differ. IsTrue differ ↔ AllPairs (λ number other. number ≢ other) (map (λ bit. bit.number) bits.now)) }
{
    let numbers = numbers_of(alloc, bits)?;
    Ok(ascending_differ(&numbers))
}

/// The numbers of the bits, ascending.
fn numbers_of(alloc: Global, bits: &[NamedBit]) -> Result<Vec<i128>, AllocError>
    ensures same { IfOk result (λ numbers. IsPermutation (map pos (map (λ bit. bit.number) bits.now)) numbers.items) }
    ensures ascending { IfOk result (λ numbers. IsSorted int_cmp numbers.items) }
{
    let mut numbers = Vec::new(alloc);
    for bit in bits {
        numbers.push(i128::from(bit.number))?;
    }
    numbers.sort_unstable();
    Ok(numbers)
}

/// The named bits of a type. Takes memory for them; Err where it ran out.
pub fn named_bits(alloc: Global, bits: &[NamedBit]) -> Result<Vec<types::NamedBit>, AllocError>
    ensures { IfOk result (λ made. map named_bit_view made.items ≡ map named_bit (map bit bits.now)) }
{
    let mut made = Vec::with_capacity(alloc, bits.len())?;
    for bit in bits {
        made.push(types::NamedBit {
            name: bit.name.clone()?,
            number: bit.number,
        })?;
    }
    Ok(made)
}
