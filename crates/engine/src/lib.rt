//! Conversion, checking and listing of whole inputs and of streams: octets of one encoding rule in, octets
//! of a canonical one, or text, out. The source is read piece by piece, and is never held.
#![tactic(auto)]

mod any_reader;
mod batch;
mod laws;
mod lines;
mod passing;
mod putting;
mod rule;
mod stopped;
mod streams;
mod strict_reader;
mod transcoding;

pub use any_reader::AnyReader;
pub use laws::{equal_results_exactly_if_same_values, written_octets_stay};
pub use octets::Canonical;
pub use passing::MAX_STREAM;
pub use rule::Rule;
pub use stopped::Stopped;
pub use streams::{check, convert, list};
pub use transcoding::{read_by, transcode};
