//! Tokens of the text of an ASN.1 module (X.680, clause 12).
//!
//! A text is white space, comments and tokens. What a token may be and where it ends is told by the
//! text alone, before any grammar. The limits, what white space and line ends are, and that a character
//! string stands on one line are this project's own (`docs/PROFILE.md`, "Tokens").
#![tactic(auto)]

mod fault;
mod front;
mod gap;
mod lexeme;
mod name;
mod number;
mod quoted;
mod scanning;
mod symbol;
mod token;
mod word;
mod word_table;

pub use fault::{Fault, fault_at, fault_name};
pub use lexeme::{Lexeme, lexeme_of};
pub use scanning::tokens;
pub use symbol::{Symbol, symbol_of};
pub use token::{Kind, Token};
pub use word::Word;
pub use word_table::word_of;

/// The most octets of a module's text.
pub const MAX_TEXT: usize = 262_144;

/// The greatest number in a module's text, 2 to the power of 127.
pub const MAX_NUMBER: u128 = 1 << 127;
