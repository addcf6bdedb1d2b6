//! What the notation of a built-in type says by itself (X.680 17.2): the names of a list, the numbers of
//! the items of an ENUMERATED and of named bits, the values behind DEFAULT, and the tags.
//!
//! No name is looked up here: nothing is known of what a reference means, nor of other assignments.
#![tactic(auto)]

mod bits;
mod defaults;
mod differing;
mod digits;
mod numbering;
mod stop;
mod tagging;
mod universal;

pub use bits::{are_bits_within, bit_numbers_differ, named_bits};
pub use defaults::default_of;
pub use differing::{
    alternatives_differ, components_differ, enter, items_differ, named_bits_differ,
};
pub use numbering::{are_numbers_within, numbered, numbers_differ};
pub use stop::{Cause, Stop};
pub use tagging::{
    are_alternatives_tagged, are_components_tagged, automatic_tag, is_automatic, tag_of,
};
pub use universal::{
    bit_string_tag, enumerated_tag, group_tag, list_type, of_type, simple_tag, simple_type,
};
