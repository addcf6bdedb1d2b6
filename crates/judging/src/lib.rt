//! What a type says of octets: the value of the contents octets of one without parts, or why they have none; the reasons
//! for which octets are refused, in words; the names of types and tags; and the tag by which a component is ordered.
//!
//! No identifier octets and no length octets are read here.
#![tactic(auto)]

mod contents;
mod order;
mod reason;
mod times;
mod type_names;

pub use contents::{is_spelt_out, is_string, value_of, why_no_value, why_refused};
pub use order::order_tag;
pub use reason::Reason;
pub use type_names::{PrintedTag, name_of};
