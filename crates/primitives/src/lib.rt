//! Contents octets of the simple types (X.690 8.2, 8.3, 8.6, 8.8, 8.19 and 8.20).
//!
//! Each is read as BER takes it and written as CER and DER want it, which are the same here. Nothing
//! is known here of identifier octets, of length octets or of tags.
#![tactic(auto)]

mod bits;
mod boolean;
mod fault;
mod integer;
mod laws;
mod null;
mod oid;
mod subidentifier;

pub use bits::{Bits, put_bits, read_bits, read_bits_into};
pub use boolean::{put_boolean, read_boolean};
pub use fault::Fault;
pub use integer::{is_wide_integer, put_integer, read_integer};
pub use laws::{
    at_most_sixteen_octets, canonical_bits_are_ber, canonical_boolean_is_ber, one_bits_value,
    one_boolean_value, one_canonical_bits, one_canonical_boolean, one_integer_encoding,
    one_integer_value, one_oid_encoding, one_oid_value, one_relative_oid_encoding,
    one_relative_oid_value,
};
pub use null::{put_null, read_null};
pub use oid::{put_oid, put_relative_oid, read_oid, read_oid_into, read_relative_oid};

/// The most subidentifiers of one value.
pub const MAX_SUBIDENTIFIERS: usize = 128;

/// The most contents octets of an INTEGER.
pub const MAX_INTEGER_OCTETS: usize = 1_024;
