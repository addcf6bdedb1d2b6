//! Modules of ASN.1 as they are published, as trees (X.680 to X.683).
//!
//! A file is prose with modules in it, as the text of an RFC is, or modules alone; `published_tokens` finds their
//! heads and reads their tokens. All of X.680 that a type for BER may be made of is kept in the tree; constraints
//! are passed by their parentheses, and objects, sets, macros and what has parameters by their brackets, with
//! their names and places kept.
#![tactic(auto)]

mod assignments;
mod body;
mod braces;
mod classes;
mod enumerated;
mod imports;
mod lists;
mod modules;
mod numbers;
mod prefixes;
mod references;
mod simple;
mod tree;
mod types;
mod value;
mod values;
mod words;

pub use modules::{Published, read};
pub use published_tokens::{Fault, MAX_FILE, MAX_LEVELS, MAX_PARTS, Place, Reason, TagClass, Word};
pub use simple::Simple;
pub use syntax::{Group, SignedNumber, TagMode, Tagging};
pub use tree::{
    Alternative, Alternatives, Assignment, Body, Component, Components, Field, FieldOf, Form,
    Import, Item, Items, LeftOut, Module, NamedNumber, Presence, Reference, Tag, Type,
};
pub use value::{Arc, Number, Value, ValueForm};

/// The most faults of a file that are kept.
pub(crate) const MAX_FAULTS: usize = 100;
