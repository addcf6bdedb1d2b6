//! Writers of the canonical encodings: CER and DER (X.690 clauses 9 to 11).
//!
//! Each gives a value one encoding, written from the first octet to the last. What is known only once the contents
//! octets stand is put in its place then: DER's length of a constructed encoding, the heads of many explicit tags
//! around long contents octets, and the order of the parts of a SET or SET OF. Where an encoding is too long or memory
//! runs out its octets are counted, without memory, so that the latter never hides the former.
#![tactic(auto)]

mod canon;
mod contents;
mod copying;
mod explicit;
mod few;
mod heads;
mod laws;
mod leaf;
mod leaves;
mod nested;
mod numbers;
mod ordering;
mod parts;
mod sameness;
mod segments;
mod size_of;
mod sizes;
mod spans;
mod tags;
mod turned;
mod writer;
mod writing;

pub use canon::{Canon, Cer, Der};
pub use laws::equal_in_order_exactly_if_same;
pub use ordering::order;
pub use sameness::same;
