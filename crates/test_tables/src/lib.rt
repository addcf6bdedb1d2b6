//! Rows of tests as texts: a table is a text with a row a line and bars between the columns of a row, and one loop goes
//! over it (`rows`). A line that is empty or begins with `//`, a remark, is no row. What a row is compared with, its
//! `Table` says; octets, numbers and the like are read alike in all tables (`columns`, `spelling`).
#![tactic(auto)]

mod columns;
mod rows;
mod spelling;

pub use columns::{four, is_refused, is_yes, lines_of, numbers_of, pair_of, prints, three, two};
pub use rows::{Table, check, is_row, not_so, rows_of};
pub use spelling::{arcs_of, octets_of, times_of};
