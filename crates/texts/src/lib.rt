//! The readable text of a value.
//!
//! This is no value notation of X.680, but close to it: names of components and alternatives, items in
//! braces, strings in quotes (`docs/PROFILE.md`, "The text of a value").
#![tactic(auto)]

mod laws;
mod leaf;
mod plain;
mod printing;
mod quoting;
mod showing;

pub use laws::same_values_have_one_text;
pub use leaf::put_integer;
pub use printing::put_value;
pub use quoting::{put_bits_before, put_octets, put_readable, put_text};
pub use showing::{put_shown, show};
