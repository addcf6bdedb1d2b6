//! Streams of encodings of any type, cut between them by their heads alone.
//!
//! Contents octets are not judged, and no type is known: a head says how many follow, or that their end is marked.
#![tactic(auto)]

mod cutter;
mod ends;
mod found;
mod head;
mod laws;

pub use cutter::{CutFault, Cutter, Outputs};
pub use ends::Ends;
pub use laws::an_encoding_completes_none;
