//! The numbers of an ENUMERATED's items (X.680 clause 20) and of named bits (22.4).

ghost use Rattle.std.specs.Prelude.{◌≢◌, ◌↔◌, AllPairs, ◌≤◌, Contains, map, length, IsTrue};
ghost use Rattle.types.specs.Judging.{HasFewItems};
ghost use Rattle.types.specs.View.{ty_view};
ghost use Rattle.types.specs.WellFormed.{NumbersDiffer};

use crate::{Item, MAX_LIST, NamedBit, Ty};

// Whether the items of an ENUMERATED, or named bits, have a number each of their own. Of more than the
// limit allows nothing is asked here.
pub fn numbers_differ(ty: &Ty) -> bool
    ensures { IsTrue result ↔ (HasFewItems (ty_view ty.now) → NumbersDiffer (ty_view ty.now)) }
{
    match ty {
        Ty::Enumerated(_, items) => items.len() > MAX_LIST || all_differ(items),
        Ty::NamedBits(_, bits) => bits.len() > MAX_LIST || all_bits_differ(bits),
        _ => true,
    }
}

fn all_differ(items: &[Item]) -> bool
    requires { length items.now ≤ MAX_LIST }
    ensures { IsTrue result ↔ AllPairs (λ a b. a ≢ b) (map (λ item. item.number) items.now) }
{
    let mut numbers = [0; MAX_LIST];
    for (i, item) in items.iter().enumerate() {
        numbers[i] = item.number;
    }
    differ(&mut numbers[..items.len()])
}

fn all_bits_differ(bits: &[NamedBit]) -> bool
    requires { length bits.now ≤ MAX_LIST }
    ensures { IsTrue result ↔ AllPairs (λ a b. a ≢ b) (map (λ bit. bit.number) bits.now) }
{
    let mut numbers = [0; MAX_LIST];
    for (i, bit) in bits.iter().enumerate() {
        numbers[i] = i128::from(bit.number);
    }
    differ(&mut numbers[..bits.len()])
}

// Whether the numbers differ. Once they are in order, equal ones are neighbours.
fn differ(numbers: &mut [i128]) -> bool
    ensures { IsTrue result ↔ AllPairs (λ a b. a ≢ b) numbers.old }
{
    numbers.sort_unstable();
    for i in 1..numbers.len() {
        if numbers[i - 1] == numbers[i] {
            return false;
        }
    }
    true
}

// Whether an item has the number.
pub fn has_number(items: &[Item], number: &i128) -> bool
    ensures { IsTrue result ↔ Contains (map (λ item. item.number) items.now) number.now }
{
    for item in items {
        if item.number == *number {
            return true;
        }
    }
    false
}
