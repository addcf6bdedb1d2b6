//! The words that a program is called with: how they are fetched, why words are no command line, and paths as they
//! are printed.
#![tactic(auto)]

mod command_line;
mod fetching;
mod line_fault;
mod printed_path;

pub use command_line::CommandLine;
pub use fetching::status;
pub use line_fault::{LineFault, fault_of_kind};
pub use printed_path::PrintedPath;
