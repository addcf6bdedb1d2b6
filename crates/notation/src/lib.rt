//! Modules as trees, and the types that their names mean (X.680, in this project's profile).
#![tactic(auto)]

mod expanding;
mod ordering;
mod references;
mod resolving;
mod root;
mod scope;
mod settling;
mod unresolved;
mod weighing;
mod weight;

pub use lexis::Fault;
pub use resolving::resolve;
pub use syntax::{
    Alternative, Assignment, Component, DefaultValue, Expr, Group, Item, Module, NamedBit,
    Presence, SignedNumber, Simple, TagClass, TagMode, TagPrefix, Tagging, parse,
};
