//! The program `asn1x-view`, but for what only a process can do: its command line, and its lines for people.
#![tactic(auto)]

mod assigned_lines;
mod columns;
mod command_line;
mod commands;
mod cut_files;
mod expected;
mod fault_places;
mod file_system;
mod files;
mod found;
mod fronts;
mod hints;
mod json_text;
mod module_faults;
mod module_runs;
mod module_text;
mod module_type;
mod place;
mod printing;
mod refusal_pages;
mod running;
mod showing_files;
mod type_lines;
mod value_lines;
mod values;
mod watched_output;
mod words;

pub use command_line::{Form, Line, Reading, Task, Wanted};
pub use command_words::{CommandLine, LineFault};
pub use file_system::FileSystem;
pub use running::run;
