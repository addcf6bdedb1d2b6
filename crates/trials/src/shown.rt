//! Texts of values that are longer than any encoding.

use crate::value_notation::{OfValues, ValuesTable};
use std::alloc::Global;
use std::test::Fail;
use test_tables::{check, octets_of};
use texts::show;
use types::{Value, WellTyped, conforms};

// type | a value whose encodings are longer than the longest that is read or written | the octets of its text
const LONG: &str = "\
OCTETS | octets:AB*1048577 | 27, 4142*1048577, 27 48";

struct Shown;

impl ValuesTable for Shown {
    fn holds(
        &self,
        alloc: Global,
        ty: &WellTyped,
        value: &Value,
        others: &str,
    ) -> Result<bool, Fail> {
        if conforms(ty.as_type(), value) {
            let text = show(alloc, ty, value)?;
            return Ok(text.as_bytes() == octets_of(alloc, others)?.as_slice());
        }
        Ok(false)
    }
}

#[test]
fn a_value_of_any_length(rt: HostRuntime) -> Result<(), Fail> {
    check(rt.alloc(), &OfValues(Shown), LONG)
}
