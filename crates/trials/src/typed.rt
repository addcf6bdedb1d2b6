//! Types that keep the rules and types that break them, and values that they have.

mod conforming_values;
mod first_tags;
mod good_defaults;
mod limits;
mod refusals;

use crate::type_notation::ty_of;
use std::alloc::Global;
use std::test::Fail;
use test_tables::{Table, two};
use types::{Ty, WellTyped};

// The name of the fault of a type, `none` where it keeps the rules.
fn fault_of(ty: Ty) -> &'static str {
    match WellTyped::new(ty) {
        Ok(_) => "none",
        Err(fault) => fault.name(),
    }
}

// Types, and the fault of each.
struct Faults;

impl Table for Faults {
    fn holds(&self, alloc: Global, row: &str) -> Result<bool, Fail> {
        let (ty, want) = two(row)?;
        Ok(fault_of(ty_of(alloc, ty)?) == want)
    }
}
