//! How a component may be absent (X.680 clause 25).

ghost use Rattle.std.specs.Prelude.{◌≡◌, ◌≢◌};
ghost use Rattle.trim_rules.specs.Standing.{presence_of};

use crate::keyword::Section;
use syntax::{DefaultValue, Presence};

/// How a component may be absent.
#[derive(Clone, Copy, Debug, PartialEq, Eq)]
pub enum Standing {
    /// It may not.
    Required,
    /// OPTIONAL.
    Optional,
    /// It has a DEFAULT.
    Default,
}

// What an addition gets that is written so. A sender that knows an earlier version of the type leaves it
// out, so it may be absent whatever is written; a DEFAULT stays.
fn standing_of_addition(written: Standing) -> Standing
    ensures absent { result ≢ Standing.Required }
    ensures kept { written ≢ Standing.Required → result ≡ written }
    ensures optional { written ≡ Standing.Required → result ≡ Standing.Optional }
{
    match written {
        Standing::Required => Standing::Optional,
        Standing::Optional => Standing::Optional,
        Standing::Default => Standing::Default,
    }
}

/// How a component of this section may be absent that is written so.
pub fn standing_in(section: Section, standing: Standing) -> Standing
    ensures root { section ≢ Section.Additions → result ≡ standing }
    ensures kept { standing ≢ Standing.Required → result ≡ standing }
    ensures optional { section ≡ Section.Additions → standing ≡ Standing.Required → result ≡ Standing.Optional }
{
    match section {
        Section::Additions => standing_of_addition(standing),
        Section::Root | Section::Tail => standing,
    }
}

/// What is written behind a component, whose DEFAULT is this literal if it has one. None: there is none that
/// the profile takes, and then nothing else will do. As OPTIONAL the component would keep a default that is
/// spelt out, which DER leaves out (X.690 11.5).
pub fn presence_of(standing: Standing, literal: Option<DefaultValue>) -> Option<Presence>
    ensures { result ≡ presence_of standing literal }
{
    match standing {
        Standing::Required => Some(Presence::Required),
        Standing::Optional => Some(Presence::Optional),
        Standing::Default => match literal {
            Some(value) => Some(Presence::Default(value)),
            None => None,
        },
    }
}
