//! The library for callers of C, C++, Rust and Python. `include/asn1x.h` says what each export asks for and does, and
//! `convert` does it: here a type is kept in C's memory, octets go to buffers, and refusals become numbers.
//!
//! C passes nothing for a parameter of type `Global`, and a pointer and a length for a slice.
#![tactic(auto)]

mod doing;
mod done;
mod first_value;
mod held;
mod kept;
mod loose;
mod numbers;
mod outcomes;
mod taking;
#[cfg(test)]
mod tests;
mod type_calls;
mod value_calls;
