//! Reads a value in one go where its whole encoding is at the front of some octets.
//!
//! Most values of a stream are whole in the piece at hand. Such a one is read here by calls that nest as its type does;
//! a stack of open encodings is kept for the segments of a constructed string alone. What is refused is left to a reader
//! that goes part by part; nothing has been taken then.
#![tactic(auto)]

mod components;
mod explicit;
mod heads;
mod items;
mod leaf;
mod leaf_items;
mod members;
mod places;
mod reading;
mod renewed_set;

pub use items::read_items;
pub use leaf::read_front_leaf;
pub use reading::{read_front, read_whole};

/// How many constructed encodings may nest.
pub const MAX_NESTED: usize = 64;
