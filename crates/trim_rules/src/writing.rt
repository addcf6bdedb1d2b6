//! How a tag is written.

ghost use Rattle.std.specs.Prelude.{◌≡◌};
ghost use Rattle.trim_rules.specs.Written.{mode_of};

use crate::keyword::Keyword;
use syntax::{TagClass, TagMode, TagPrefix};

/// The tag of this class and number, with this keyword.
pub fn prefix_of(class: TagClass, number: u32, keyword: Keyword) -> TagPrefix
    ensures { result ≡ record { class = class; number = number; mode = mode_of keyword } }
{
    TagPrefix {
        class,
        number,
        mode: mode_of(keyword),
    }
}

// The keyword as it is written, which it always is.
fn mode_of(keyword: Keyword) -> TagMode
    ensures { result ≡ mode_of keyword }
{
    match keyword {
        Keyword::Implicit => TagMode::Implicit,
        Keyword::Explicit => TagMode::Explicit,
    }
}
