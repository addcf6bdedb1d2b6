//! The numbers of the items of an ENUMERATED (X.680 clause 20).

ghost use Rattle.std.specs.Prelude.{◌≡◌, ◌≢◌, ◌≤ℤ◌, List, IfOk, IfErr, IfSome, IsTrue, IsSome, IsNone, FitsSigned, map, ◌↔◌, ℤ, pos, ◌+ℤ◌};
ghost use Rattle.std.specs.Int.{w128};
ghost use Rattle.std.specs.List.Sorted.{IsSorted};
ghost use Rattle.std.specs.Ordering.{int_cmp};
ghost use Rattle.syntax.specs.View.{entry};
ghost use Rattle.types.specs.Shape.{EnumerationItem};
ghost use Rattle.types.specs.View.{item_view};
ghost use Rattle.builtin_types.specs.Numbering.{number_of, AreWithin, NumbersDiffer, AreItems};
ghost use Rattle.builtin_types.specs.Written.{HasWritten, IsFree, IsPassed, farthest};

use crate::differing::ascending_differ;
use crate::stop::{Cause, Stop};
use std::alloc::{AllocError, Global};
use syntax::{Item, SignedNumber};

/// The number, where it is within -2^127 to 2^127-1.
pub fn number_of(signed: SignedNumber) -> Option<i128>
    ensures some { IfSome result (λ number. (number ≡ number_of signed) × FitsSigned w128 (number_of signed)) }
    ensures none { IsNone result → FitsSigned w128 (number_of signed) → ⊥ }
{
    if !signed.negative {
        return i128::try_from(signed.magnitude).ok();
    }
    if signed.magnitude == 1 << 127 {
        return Some(i128::MIN);
    }
    match i128::try_from(signed.magnitude) {
        Ok(magnitude) => Some(-magnitude),
        Err(_) => None,
    }
}

/// Whether the numbers that are written are all within -2^127 to 2^127-1. Takes no memory.
pub fn are_numbers_within(items: &[Item]) -> bool
    ensures { IsTrue result ↔ AreWithin (map entry items.now) }
{
    for item in items {
        match item.number {
            Some(signed) => {
                if number_of(signed).is_none() {
                    return false;
                }
            }
            None => {}
        }
    }
    true
}

/// Whether the numbers that are written differ (X.680 clause 20), those beyond -2^127 to 2^127-1 left out.
/// Takes memory for the numbers; Err where it ran out.
pub fn numbers_differ(alloc: Global, items: &[Item]) -> Result<bool, AllocError>
    ensures differ { IfOk result (λ differ. NumbersDiffer (map entry items.now) → IsTrue differ) }
    ensures within { IfOk result (λ differ. IsTrue differ → AreWithin (map entry items.now) → NumbersDiffer (map entry items.now)) }
{
    let written = written_numbers(alloc, items)?;
    Ok(ascending_differ(&written))
}

/// The numbers that are written, ascending.
fn written_numbers(alloc: Global, items: &[Item]) -> Result<Vec<i128>, AllocError>
    ensures written { IfOk result (λ written. HasWritten (map entry items.now) written.items) }
    ensures ascending { IfOk result (λ written. IsSorted int_cmp written.items) }
{
    let mut written = Vec::new(alloc);
    for item in items {
        match item.number {
            Some(signed) => match number_of(signed) {
                Some(number) => written.push(number)?,
                None => {}
            },
            None => {}
        }
    }
    written.sort_unstable();
    Ok(written)
}

/// The items with their numbers: those that are written, and for the others in order of text the
/// successive numbers from 0, but for those that are written (X.680 clause 20). Refused as `TooLarge` where
/// a number is beyond -2^127 to 2^127-1. Takes memory for the items with copies of their names.
pub fn numbered(alloc: Global, items: &[Item]) -> Result<Vec<types::Item>, Stop>
    ensures items { IfOk result (λ numbered. AreItems (map entry items.now) (map item_view numbered.items)) }
    ensures refused { IfErr result (λ stop. stop ≢ Stop.NoMemory → (others : List EnumerationItem) → ¬ AreItems (map entry items.now) others) }
    ensures numbers { IfErr result (λ stop. stop ≢ Stop.NoMemory → stop ≡ Stop.Refused Cause.TooLarge) }
{
    let written = written_numbers(alloc, items)?;
    let mut free = FreeNumbers {
        written: &written,
        passed: 0,
        next: 0,
    };
    let mut numbered = Vec::with_capacity(alloc, items.len())?;
    for item in items {
        let number = match item.number {
            Some(signed) => number_of(signed),
            None => free.take(),
        };
        numbered.push(types::Item {
            name: item.name.clone()?,
            number: number.ok_or(Cause::TooLarge)?,
        })?;
    }
    Ok(numbered)
}

/// The numbers from 0 that are not written.
#[derive(Drop)]
struct FreeNumbers<'a> {
    /// What is written, ascending.
    written: &'a [i128],
    /// How many of these are below `next`.
    passed: usize,
    /// The least number that is left, or written.
    next: i128,
}

impl FreeNumbers<'_> {
    /// The least number that is left.
    fn take(&mut self) -> Option<i128>
        ensures kept { self.new.written.now ≡ self.old.written.now }
        ensures free { IsSorted int_cmp self.old.written.now → IsPassed self.old.written.now self.old.passed self.old.next →
            IfSome result (λ number. IsFree self.old.written.now self.old.next number) }
        ensures passed { IsSorted int_cmp self.old.written.now → IsPassed self.old.written.now self.old.passed self.old.next →
            IfSome result (λ number. (self.new.next ≡ number +ℤ pos 1) × IsPassed self.new.written.now self.new.passed self.new.next) }
        ensures farthest { IsSome result →
            farthest self.new.written.now self.new.passed self.new.next ≤ℤ (farthest self.old.written.now self.old.passed self.old.next +ℤ pos 1) }
        ensures none { IsNone result → ¬ FitsSigned w128 (farthest self.old.written.now self.old.passed self.old.next +ℤ pos 1) }
    {
        while self.passed < self.written.len() && self.written[self.passed] <= self.next {
            if self.written[self.passed] == self.next {
                self.next = self.next.checked_add(1)?;
            }
            self.passed += 1;
        }
        let number = self.next;
        self.next = number.checked_add(1)?;
        Some(number)
    }
}
