//! Why `asn1x-view` stops, the lines that say so, and the exit status that goes with each.
#![tactic(auto)]

mod fault;
mod fault_line;
mod module_fault;
mod no_type;
mod unwanted;

pub use fault::{Fault, print_no_memory};
pub use fault_line::FaultLine;
pub use module_fault::words_of_fault;
pub use no_type::{NoType, print_no_type};
pub use unwanted::Unwanted;
