//! What octets come from and go to: a `Source` gives them, a `Sink` takes them.
//!
//! A device tells contracts its octets and keeps a count of its failures. One that failed moved nothing
//! by that call, and is asked for no more. Over a file or a pipe no octets are told, so no clause says
//! anything of them.
#![tactic(auto)]

mod failed;
mod from_reader;
mod from_slice;
mod piece;
mod sink;
mod source;
mod to_vec;
mod to_writer;
mod writing;

pub use failed::Failed;
pub use from_reader::FromReader;
pub use from_slice::FromSlice;
pub use piece::Piece;
pub use sink::Sink;
pub use source::Source;
pub use to_vec::ToVec;
pub use to_writer::ToWriter;
pub use writing::{whole_parts, write_all};
