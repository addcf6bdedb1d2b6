//! Names whose copies share one text.
#![tactic(auto)]

mod name;

pub use name::Name;
