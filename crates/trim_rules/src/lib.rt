//! The rules of trimming that decide octets: tags, presence and numbers.
#![tactic(auto)]

mod including;
mod keyword;
mod numbering;
mod root;
mod standing;
mod writing;

pub use including::{Additions, is_written_out};
pub use keyword::{Keyword, Section, first_number, is_automatic, keyword_of, number_at};
pub use numbering::next_free;
pub use root::Root;
pub use standing::{Standing, presence_of, standing_in};
pub use writing::prefix_of;

/// The most parts of a list in the profile.
pub const MAX_PARTS: usize = 256;
