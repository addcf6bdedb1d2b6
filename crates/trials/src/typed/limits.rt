//! The limits on types.

use super::{Faults, fault_of};
use octets::{Class, Tag};
use std::alloc::Global;
use std::test::Fail;
use test_tables::{Table, check, two};
use types::{Alternative, Item, NamedBit, Ty};

// type | fault
const LIMITS: &str = "\
[0]{*60 OCTETS }*60 | none
[0]{*61 OCTETS }*61 | TooLarge
[0]{*59 SEQUENCE{ } }*59 | none
[0]{*60 SEQUENCE{ } }*60 | TooLarge
[0]{*60 SET{ } }*60 | TooLarge
[0]{*59 SEQUENCE-OF{ NULL } }*59 | none
[0]{*60 SEQUENCE-OF{ NULL } }*60 | TooLarge
[0]{*60 CHOICE{ CHOICE{ NULL } } }*60 | none
// of 4,095, 4,096 and 4,097 nodes, of which 3,858 are those of a SEQUENCE, of 15 parts and of the last part's SEQUENCE
// OF SEQUENCE
SEQUENCE{ \
    SEQUENCE{ NULL*256 } SEQUENCE{ NULL*256 } SEQUENCE{ NULL*256 } SEQUENCE{ NULL*256 } SEQUENCE{ NULL*256 } \
    SEQUENCE{ NULL*256 } SEQUENCE{ NULL*256 } SEQUENCE{ NULL*256 } SEQUENCE{ NULL*256 } SEQUENCE{ NULL*256 } \
    SEQUENCE{ NULL*256 } SEQUENCE{ NULL*256 } SEQUENCE{ NULL*256 } SEQUENCE{ NULL*256 } SEQUENCE{ NULL*256 } \
    SEQUENCE-OF{ SEQUENCE{ NULL*237 } } } | none
SEQUENCE{ \
    SEQUENCE{ NULL*256 } SEQUENCE{ NULL*256 } SEQUENCE{ NULL*256 } SEQUENCE{ NULL*256 } SEQUENCE{ NULL*256 } \
    SEQUENCE{ NULL*256 } SEQUENCE{ NULL*256 } SEQUENCE{ NULL*256 } SEQUENCE{ NULL*256 } SEQUENCE{ NULL*256 } \
    SEQUENCE{ NULL*256 } SEQUENCE{ NULL*256 } SEQUENCE{ NULL*256 } SEQUENCE{ NULL*256 } SEQUENCE{ NULL*256 } \
    SEQUENCE-OF{ SEQUENCE{ NULL*238 } } } | none
SEQUENCE{ \
    SEQUENCE{ NULL*256 } SEQUENCE{ NULL*256 } SEQUENCE{ NULL*256 } SEQUENCE{ NULL*256 } SEQUENCE{ NULL*256 } \
    SEQUENCE{ NULL*256 } SEQUENCE{ NULL*256 } SEQUENCE{ NULL*256 } SEQUENCE{ NULL*256 } SEQUENCE{ NULL*256 } \
    SEQUENCE{ NULL*256 } SEQUENCE{ NULL*256 } SEQUENCE{ NULL*256 } SEQUENCE{ NULL*256 } SEQUENCE{ NULL*256 } \
    SEQUENCE-OF{ SEQUENCE{ NULL*239 } } } | TooLarge
// components
SEQUENCE{ } | none
SEQUENCE{ NULL } | none
SEQUENCE{ NULL*256 } | none
SEQUENCE{ NULL*257 } | TooLarge
SET{ NULL*257 } | TooLarge
// numbers of tags, items and named bits; of two rows at CHOICE, which of several faults is named
[268435455]NULL | none
[268435456]NULL | TooLarge
SEQUENCE-OF{ [268435456]NULL } | TooLarge
[UNIVERSAL.1]BOOLEAN | none
[0]BOOLEAN | none
[PRIVATE.268435455]BOOLEAN | none
[PRIVATE.268435456]BOOLEAN | TooLarge
[268435455]{ NULL } | none
[268435456]{ NULL } | TooLarge
SEQUENCE{ [268435456]{ NULL } } | TooLarge
ENUMERATED(0) | none
ENUMERATED(1,2,0) | none
ENUMERATED(2,1,0) | none
ENUMERATED(0..255) | none
ENUMERATED(0..256) | TooLarge
ENUMERATED(1,2,1) | RepeatedNumber
ENUMERATED(1,1) | RepeatedNumber
SEQUENCE-OF{ ENUMERATED(-1,3,-1) } | RepeatedNumber
NAMED-BITS(65535,0) | none
NAMED-BITS(65536) | TooLarge
NAMED-BITS(7,0,7) | RepeatedNumber
NAMED-BITS(65536,0,0) | TooLarge
CHOICE{ ENUMERATED(1,1) BOOLEAN BOOLEAN } | RepeatedNumber
CHOICE{ ENUMERATED(1,1) [268435456]NULL } | TooLarge";

#[test]
fn limits(rt: HostRuntime) -> Result<(), Fail> {
    check(rt.alloc(), &Faults, LIMITS)
}

// So many alternatives `[0] NULL`, `[1] NULL` and so on.
fn alternatives(alloc: Global, count: u32) -> Result<Vec<Alternative>, Fail> {
    let mut alternatives = Vec::new(alloc);
    for number in 0..count {
        let class = Class::Context;
        let ty = Ty::Null(Tag { class, number });
        alternatives.push(Alternative::new(alloc, "a", ty)?)?;
    }
    Ok(alternatives)
}

// So many named bits, the least number first.
fn named_bits(alloc: Global, count: u32) -> Result<Vec<NamedBit>, Fail> {
    let mut bits = Vec::new(alloc);
    for number in 0..count {
        bits.push(NamedBit::new(alloc, "a", number)?)?;
    }
    Ok(bits)
}

// So many items, the greatest number first.
fn items(alloc: Global, count: u32) -> Result<Vec<Item>, Fail> {
    let mut items = Vec::new(alloc);
    for i in 0..count {
        items.push(Item::new(alloc, "a", -(i as i128))?)?;
    }
    Ok(items)
}

// how many | fault of a CHOICE of so many, within a SEQUENCE OF, of an ENUMERATED and of a BIT STRING of so many
const LISTS: &str = "\
0   | TooLarge
1   | none
256 | none
257 | TooLarge";

struct Lists;

impl Table for Lists {
    fn holds(&self, alloc: Global, row: &str) -> Result<bool, Fail> {
        let (count, want) = two(row)?;
        let count = count.parse::<u32>()?;
        let choice = Ty::choice(alternatives(alloc, count)?);
        let choice = fault_of(Ty::sequence_of(alloc, choice)?);
        let enumerated = fault_of(Ty::enumerated(items(alloc, count)?));
        let bits = fault_of(Ty::named_bits(named_bits(alloc, count)?));
        Ok(choice == want && enumerated == want && bits == want)
    }
}

#[test]
fn alternatives_items_and_named_bits(rt: HostRuntime) -> Result<(), Fail> {
    check(rt.alloc(), &Lists, LISTS)
}
