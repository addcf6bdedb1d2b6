//! Tokens of the texts in which modules of ASN.1 are published (X.680 clause 12, X.681), and the heads of modules.
//!
//! Inside a module a text is gaps and tokens: a gap is white space, comments, and the feet and heads of
//! pages. Outside a module it is prose, which has no grammar, and is cut into words, marks and the rest;
//! `next_head` finds in it where a module begins. A `Reader` has one token of the module in front, and what a tree
//! leaves out is passed by its brackets. What a token decides by itself is told here too: the class and the keyword
//! of a tag, whether a field is an open type, and which part of a list with extension markers a component is of.
#![tactic(auto)]

mod extension;
mod fault;
mod fields;
mod front;
mod gap;
mod heads;
mod number;
mod page;
mod place;
mod prose;
mod quoted;
mod reader;
mod scanner;
mod skipping;
mod stop;
mod symbol;
mod tags;
mod token;
mod word;

pub use extension::{Extension, Section};
pub use fault::{Fault, Reason};
pub use fields::is_open_before;
pub use heads::{Head, next_head};
pub use place::Place;
pub use reader::{Reader, Word};
pub use scanner::Scanner;
pub use skipping::{
    skip_brackets, skip_macro, skip_rest, skip_to_assignment, skip_to_end_of_part, skip_to_word,
};
pub use stop::Stop;
pub use symbol::Symbol;
pub use tags::{TagClass, class_of, mode_of};
pub use token::{Kind, Token};

/// The most octets of a file, 16 MiB.
pub const MAX_FILE: usize = 16_777_216;

/// The most levels of types that nest, and of brackets in what is skipped.
pub const MAX_LEVELS: u32 = 64;

/// The most parts of a file: types, values and names.
pub const MAX_PARTS: u32 = 131_072;
