//! Tags (X.680 clause 31).
ghost use Rattle.syntax.specs.Reading.{Gives, signs_from};
ghost use Rattle.syntax.specs.TagReading.{class_at, mode_at, prefix_at};

use crate::reading::{first_at, is_word, limited_number_at, symbol_at};
use crate::stop::Stop;
use crate::terminal::Terminal;
use crate::tree::{TagClass, TagMode, TagPrefix};
use lexis::{Symbol, Word};

/// The greatest tag number.
const MAX_TAG_NUMBER: u32 = 268_435_455;

/// What stands behind `[`, to the type that it tags.
#[tactic(auto, unfolding(crate::specs::TagReading::prefix_at))]
pub fn prefix_at(terminals: &[Terminal], at: usize) -> Result<(TagPrefix, usize), Stop>
    ensures { Gives (λ r. (r.0, signs_from r.1 terminals.now)) result (prefix_at (signs_from at terminals.now)) }
{
    let (class, next) = class_at(terminals, at)?;
    let (number, next) = limited_number_at(terminals, next, MAX_TAG_NUMBER)?;
    let next = symbol_at(terminals, next, Symbol::CloseBracket)?;
    let (mode, next) = mode_at(terminals, next)?;
    let prefix = TagPrefix {
        class,
        number,
        mode,
    };
    Ok((prefix, next))
}

#[tactic(auto, unfolding(crate::specs::TagReading::class_at))]
fn class_at(terminals: &[Terminal], at: usize) -> Result<(TagClass, usize), Stop>
    ensures { Gives (λ r. (r.0, signs_from r.1 terminals.now)) result (class_at (signs_from at terminals.now)) }
{
    let (first, next) = first_at(terminals, at)?;
    if is_word(first, Word::Application) {
        Ok((TagClass::Application, next))
    } else if is_word(first, Word::Private) {
        Ok((TagClass::Private, next))
    } else {
        Ok((TagClass::ContextSpecific, at))
    }
}

#[tactic(auto, unfolding(crate::specs::TagReading::mode_at))]
fn mode_at(terminals: &[Terminal], at: usize) -> Result<(TagMode, usize), Stop>
    ensures { Gives (λ r. (r.0, signs_from r.1 terminals.now)) result (mode_at (signs_from at terminals.now)) }
{
    let (first, next) = first_at(terminals, at)?;
    if is_word(first, Word::Implicit) {
        Ok((TagMode::Implicit, next))
    } else if is_word(first, Word::Explicit) {
        Ok((TagMode::Explicit, next))
    } else {
        Ok((TagMode::Unmarked, at))
    }
}
