//! The keyword of a tag, and which lists are tagged automatically (X.680 clauses 25, 29 and 31).

ghost use Rattle.std.specs.Prelude.{◌≡◌, ◌↔◌, ◌+◌, ◌<◌, ◌^◌, IsTrue, false, Some, None};
ghost use Rattle.trim_rules.specs.Keyword.{keyword_of, by_default, first_number};

use syntax::{TagMode, Tagging};

/// What a tag does.
#[derive(Clone, Copy, Debug, PartialEq, Eq)]
pub enum Keyword {
    /// It stands in place of the type's own tag.
    Implicit,
    /// It stands around the type.
    Explicit,
}

/// What a tag does, None where it cannot stand: a tag without a keyword is implicit under IMPLICIT TAGS and
/// AUTOMATIC TAGS, but explicit in front of an untagged CHOICE or an untagged open type (X.680 31.2.7), in
/// front of which none is IMPLICIT.
pub fn keyword_of(environment: Tagging, written: TagMode, is_open: bool) -> Option<Keyword>
    ensures { result ≡ keyword_of environment written is_open }
{
    match written {
        TagMode::Explicit => Some(Keyword::Explicit),
        TagMode::Implicit if is_open => None,
        TagMode::Implicit => Some(Keyword::Implicit),
        TagMode::Unmarked if is_open => Some(Keyword::Explicit),
        TagMode::Unmarked => Some(by_default(environment)),
    }
}

// What a tag without a keyword does in front of any other type.
fn by_default(environment: Tagging) -> Keyword
    ensures { result ≡ by_default environment }
{
    match environment {
        Tagging::Explicit => Keyword::Explicit,
        Tagging::Implicit | Tagging::Automatic => Keyword::Implicit,
    }
}

/// Whether a list is tagged automatically: under AUTOMATIC TAGS, where no part of it as it is written, in the
/// root or in an addition, has a tag.
pub fn is_automatic(environment: Tagging, is_tag_written: bool) -> bool
    ensures { IsTrue result ↔ ((environment ≡ Tagging.Automatic) × (is_tag_written ≡ false)) }
{
    match environment {
        Tagging::Automatic => !is_tag_written,
        Tagging::Explicit | Tagging::Implicit => false,
    }
}

/// A part of a list.
#[derive(Clone, Copy, Debug, PartialEq, Eq)]
pub enum Section {
    /// The root before the additions.
    Root,
    /// The additions.
    Additions,
    /// The root behind the additions.
    Tail,
}

/// The automatic tag of the first part of a section, of a list with so many parts in the root before the
/// additions and behind them: the root is numbered first, then the additions.
pub fn first_number(section: Section, root: usize, tail: usize) -> usize
    ensures { root + tail < 2 ^ 64 → result ≡ first_number section root tail }
{
    match section {
        Section::Root => 0,
        Section::Tail => root,
        Section::Additions => root.saturating_add(tail),
    }
}

/// The automatic tag of the component at this place of a section, whose first one has this number. None: its
/// list is not tagged automatically.
pub fn number_at(is_automatic: bool, first: usize, place: usize) -> Option<usize>
    ensures automatic { IsTrue is_automatic → first + place < 2 ^ 64 → result ≡ Some (first + place) }
    ensures other { is_automatic ≡ false → result ≡ None }
{
    if is_automatic {
        Some(first.saturating_add(place))
    } else {
        None
    }
}
