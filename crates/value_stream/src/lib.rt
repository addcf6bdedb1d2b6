//! Values over a source, one by one, for code that wants the values. The source is read piece by piece, and is never
//! held.
#![tactic(auto)]

mod laws;
mod reading;
mod values;

pub use laws::values_returned_are_those_of_the_source;
pub use values::Values;
