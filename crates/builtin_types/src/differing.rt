//! Whether the names of a list differ (X.680 clauses 20, 22, 25, 27 and 29), and numbers in order.

ghost use Rattle.std.specs.Prelude.{◌≢◌, ◌↔◌, AllPairs, IfOk, IsTrue, map};
ghost use Rattle.std.specs.List.Sorted.{IsSorted};
ghost use Rattle.std.specs.Ordering.{int_cmp};
ghost use Rattle.syntax.specs.View.{component, alternative, entry, bit};
ghost use Rattle.builtin_types.specs.Names.{NamesDiffer, IsEntered};

use indexmap::IndexSet;
use std::alloc::{AllocError, Global};
use syntax::{Alternative, Component, Item, NamedBit};

/// Enters a name behind those that are entered, where it is none of them, and says whether it was none.
/// Takes memory for the entry; Err where it ran out.
pub fn enter<'a>(names: &mut IndexSet<&'a str>, name: &'a str) -> Result<bool, AllocError>
    ensures { IfOk result (λ new. IsEntered (map (λ k. k.now) names.old.keys) name.now new (map (λ k. k.now) names.new.keys)) }
{
    Ok(names.insert(name)?)
}

/// Whether the names of the components of a SEQUENCE or SET differ (X.680 clauses 25 and 27). Takes memory
/// for a table of the names; Err where it ran out.
pub fn components_differ(alloc: Global, components: &[Component]) -> Result<bool, AllocError>
    ensures { IfOk result (λ differ. IsTrue differ ↔ NamesDiffer (map (λ c. c.0) (map component components.now))) }
{
    let mut names = IndexSet::new(alloc);
    for component in components {
        if !enter(&mut names, component.name.as_str())? {
            return Ok(false);
        }
    }
    Ok(true)
}

/// Whether the names of the alternatives of a CHOICE differ (X.680 clause 29). Takes memory for a table of
/// the names; Err where it ran out.
pub fn alternatives_differ(alloc: Global, alternatives: &[Alternative]) -> Result<bool, AllocError>
    ensures { IfOk result (λ differ. IsTrue differ ↔ NamesDiffer (map (λ c. c.0) (map alternative alternatives.now))) }
{
    let mut names = IndexSet::new(alloc);
    for alternative in alternatives {
        if !enter(&mut names, alternative.name.as_str())? {
            return Ok(false);
        }
    }
    Ok(true)
}

/// Whether the names of the items of an ENUMERATED differ (X.680 clause 20). Takes memory for a table of
/// the names; Err where it ran out.
pub fn items_differ(alloc: Global, items: &[Item]) -> Result<bool, AllocError>
    ensures { IfOk result (λ differ. IsTrue differ ↔ NamesDiffer (map (λ c. c.0) (map entry items.now))) }
{
    let mut names = IndexSet::new(alloc);
    for item in items {
        if !enter(&mut names, item.name.as_str())? {
            return Ok(false);
        }
    }
    Ok(true)
}

/// Whether the names of the bits of a BIT STRING differ (X.680 clause 22). Takes memory for a table of the
/// names; Err where it ran out.
pub fn named_bits_differ(alloc: Global, bits: &[NamedBit]) -> Result<bool, AllocError>
    ensures { IfOk result (λ differ. IsTrue differ ↔ NamesDiffer (map (λ c. c.0) (map bit bits.now))) }
{
    let mut names = IndexSet::new(alloc);
    for bit in bits {
        if !enter(&mut names, bit.name.as_str())? {
            return Ok(false);
        }
    }
    Ok(true)
}

// Whether ascending numbers differ. Equal ones are neighbours.
pub(crate) fn ascending_differ(numbers: &[i128]) -> bool
    requires { IsSorted int_cmp numbers.now }
    ensures { IsTrue result ↔ AllPairs (λ a b. a ≢ b) numbers.now }
{
    for place in 1..numbers.len() {
        if numbers[place - 1] == numbers[place] {
            return false;
        }
    }
    true
}
