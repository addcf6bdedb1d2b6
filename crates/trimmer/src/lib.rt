//! The program `asn1x-trim` but for its files: its words, and what it does with the octets of files.
#![tactic(auto)]

mod checking;
mod command;
mod command_line;
mod lines;
mod reading;
mod running;
mod words;

pub use checking::trim;
pub use command_line::Line;
pub use command_words::{CommandLine, LineFault};
pub use reading::{Files, read_file};
pub use running::run;
