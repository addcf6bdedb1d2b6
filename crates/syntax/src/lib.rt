//! Module texts as trees (X.680, in this project's profile).
#![tactic(auto)]

mod bits;
mod listing;
mod modules;
mod parsing;
mod parts;
mod prefixes;
mod reading;
mod refusing;
mod simple;
mod stop;
mod terminal;
mod terminals;
mod tree;
mod types;
mod values;

pub use parsing::parse;
pub use tree::{
    Alternative, Assignment, Component, DefaultValue, Expr, Group, Item, Module, NamedBit,
    Presence, SignedNumber, Simple, TagClass, TagMode, TagPrefix, Tagging,
};
