//! Readers that take the one encoding which CER or DER gives a value, and no other (X.690 clauses 9 to 11).
//!
//! Each reads the octets once and judges each length, form, order and default where it stands. No second encoding is
//! made: the items of a SET OF are compared as the octets that they stand in, and a component with its default as
//! values.
#![tactic(auto)]

mod components;
mod ends;
mod explicit;
mod filling;
mod fronts;
mod head;
mod items;
mod leaf;
mod members;
mod parts;
mod reading;
mod segments;
mod short;
mod tags;
mod values;

pub use reading::{read_canonical, read_cer, read_der, read_into};
