//! The rows of a table, and the loop over them.

use std::alloc::Global;
use std::str::Lines;
use std::test::Fail;

/// What a table shows.
pub trait Table {
    /// Whether a row of it holds.
    fn holds(&self, alloc: Global, row: &str) -> Result<bool, Fail>;
}

/// Fails at the first row that does not hold, and where there is none.
pub fn check<T: Table>(alloc: Global, table: &T, rows: &str) -> Result<(), Fail> {
    for line in rows_of(rows)? {
        if is_row(line) && !table.holds(alloc, line)? {
            return Err(not_so(line));
        }
    }
    Ok(())
}

/// The lines of a table, of which some are rows.
pub fn rows_of(table: &str) -> Result<Lines<'_>, Fail> {
    for line in table.lines() {
        if is_row(line) {
            return Ok(table.lines());
        }
    }
    Err("a table without rows".into())
}

/// Whether a line is a row: it is not empty, and no remark.
pub fn is_row(line: &str) -> bool {
    !line.is_empty() && !line.starts_with("//")
}

/// The failure at a row that does not hold.
pub fn not_so(row: &str) -> Fail {
    Fail::new(format_args!("not so: {row}"))
}
