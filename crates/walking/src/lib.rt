//! An encoding, walked along its type from one identifier to the next.
//!
//! A reader has found the end of the encoding, or refused it. The walk tells where each identifier stands, which part
//! of the type it begins, what is not canonical there, and, where the reader refused, at which octet and for what
//! reason. Nothing is known here of files and of lines that are printed.
#![tactic(auto)]

mod due;
mod line;
mod note;
mod noting;
mod open;
mod opening;
mod part;
mod places;
mod showing;
mod stop;
mod taking;
mod walk;

pub use judging::{PrintedTag, Reason, name_of};
pub use line::{Line, What};
pub use note::{NOTES, Note, Notes};
pub use part::{Part, Step};
pub use showing::{put_contents, put_string};
pub use stop::{Stop, Stopped};
pub use walk::Walk;
