//! Tables whose rows stand below types.
//!
//! A line that ends with a colon is the type of the rows below it.

use crate::types_by_name::type_of;
use convert::WellTyped;
use std::alloc::Global;
use std::test::Fail;
use test_tables::{is_row, not_so, rows_of};

/// What a table shows whose rows stand below types.
pub trait TypedTable {
    /// Whether a row of it holds, which stands below this type.
    fn holds(&self, alloc: Global, ty: &WellTyped, row: &str) -> Result<bool, Fail>;
}

/// Fails at the first row that does not hold, and where there is none.
pub fn check_typed<T: TypedTable>(alloc: Global, table: &T, rows: &str) -> Result<(), Fail> {
    let mut ty = String::new(alloc);
    for line in rows_of(rows)? {
        match line.strip_suffix(':') {
            Some(notation) => ty = String::from_str(alloc, notation)?,
            None if !is_row(line) => {}
            None => check_line(alloc, table, ty.as_str(), line)?,
        }
    }
    Ok(())
}

fn check_line<T: TypedTable>(alloc: Global, table: &T, ty: &str, line: &str) -> Result<(), Fail> {
    match table.holds(alloc, &type_of(alloc, ty)?, line) {
        Ok(true) => Ok(()),
        Ok(false) => Err(not_so(line)),
        Err(fail) => Err(fail),
    }
}
