//! Contents octets of the character string types, and of UTCTime and GeneralizedTime.
//!
//! Which octets a string may have, and which are a time, is the same under BER, CER and DER. Nothing
//! is known here of identifier octets, of length octets or of segments.
#![tactic(auto)]

mod text;
mod time;

pub use text::{TextKind, allowed};
pub use time::{TimeKind, is_time};
