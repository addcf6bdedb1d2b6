//! The program `asn1x`: its command line, and what it does once its files are open.
#![tactic(auto)]

mod command_line;
mod commands;
mod fault;
mod hex_sink;
mod opening;
mod output;
mod running;
mod tasks;
mod words;

pub use command_line::{Line, Verb};
pub use command_words::{CommandLine, LineFault, PrintedPath};
pub use opening::{cannot_open, cannot_read_module, cannot_share_input};
pub use running::run;
pub use words::line;
