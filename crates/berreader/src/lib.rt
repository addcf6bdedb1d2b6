//! Reads values of a type under the basic encoding rules (X.690 clause 8).
//!
//! An encoding may have either form, and lengths any spelling; the limits on depth and size are this
//! project's own (`docs/PROFILE.md`). A value that is whole at the front of a piece is read by `berslice`, whose
//! calls nest as encodings do, and so are the items of a list that goes on; anything else step by step: open
//! encodings are held on a stack, and the segments of a constructed string, at whatever depth, are appended to
//! one vector.
#![tactic(auto)]

mod beginning;
mod cursor;
mod items;
mod keeping;
mod nest;
mod pieces;
mod putting;
mod reader;
mod reading;
mod stack;

pub use reader::{Reader, Step};
pub use reading::{read, read_into, read_leaf_into};
