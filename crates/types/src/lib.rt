//! Types and values of ASN.1, and what they are encoded as (X.680, and X.690 clauses 8 to 11).
#![tactic(auto)]

mod condition;
mod conforming;
mod defaults;
mod distinctness;
mod equality;
mod items;
mod laws;
mod least;
mod limits;
mod making;
mod oid_values;
mod printing;
mod refusal;
mod ty;
mod universal;
mod value;
mod well_typed;

pub use conforming::{conforms, may_be_absent};
pub use equality::are_equal;
pub use laws::{
    canonical_encodings_are_ber, encoded_values_conform, encodings_that_tie_are_equal,
    equal_canonical_encodings_exactly_if_same, every_value_has_a_canonical_encoding,
    no_encoding_begins_another, one_canonical_encoding, same_values_have_the_same_encodings,
};
pub use least::least_tag;
pub use names::Name;
pub use refusal::{Refusal, TypeFault};
pub use ty::{Alternative, Field, Item, NamedBit, Presence, Ty};
pub use value::Value;
pub use well_typed::WellTyped;

/// The most nodes of a type, those of all types within it counted.
pub const MAX_NODES: usize = 4_096;

/// The most levels of a type: constructed encodings that nest, those of strings not counted.
pub const MAX_LEVELS: usize = 60;

/// The most components of one SEQUENCE or SET, alternatives of one CHOICE, items of one ENUMERATED and
/// named bits of one BIT STRING.
pub const MAX_LIST: usize = 256;

/// The greatest number of a named bit.
pub const MAX_NAMED_BIT: u32 = 65_535;

/// The most contents octets that a string has under CER in an encoding that is not cut, and in a segment (X.690 9.2).
pub const SEGMENT_OCTETS: usize = 1_000;
