//! Types that are named: by reserved words, or by their own name (X.680 clauses 17 to 41).

ghost use Rattle.std.specs.Prelude.{◌≡◌};
ghost use Rattle.lexis.specs.Lexemes.{sign};
ghost use Rattle.syntax.specs.View.{form};
ghost use Rattle.syntax.specs.Reading.{Gives, signs_from};
ghost use Rattle.syntax.specs.SimpleReading.{plain_at, simple_at, simple_of, behind_at};

use crate::reading::word_at;
use crate::refusing::{Wanted, refuse};
use crate::stop::Stop;
use crate::terminal::Terminal;
use crate::tree::{Expr, Simple};
use lexis::{Lexeme, Word};
use std::alloc::Global;

/// A simple type or a name, whose first terminal stands in front of this place.
#[tactic(auto, unfolding(crate::specs::SimpleReading::plain_at))]
pub fn plain_at(
    alloc: Global,
    terminals: &[Terminal],
    first: Lexeme,
    at: usize,
) -> Result<(Expr, usize), Stop>
    ensures { Gives (λ r. (form r.0, signs_from r.1 terminals.now)) result (plain_at (sign first.entry) (signs_from at terminals.now)) }
{
    match first {
        Lexeme::TypeName(name) => {
            let name = String::from_str(alloc, name)?;
            Ok((Expr::Reference(name), at))
        }
        Lexeme::Word(word) => simple_at(terminals, word, at),
        _ => Err(refuse(terminals, at.saturating_sub(1), Wanted::Other)),
    }
}

/// A simple type whose first word stands in front of this place.
#[tactic(auto, unfolding(crate::specs::SimpleReading::simple_at))]
fn simple_at(terminals: &[Terminal], word: Word, at: usize) -> Result<(Expr, usize), Stop>
    ensures { Gives (λ r. (form r.0, signs_from r.1 terminals.now)) result (simple_at word (signs_from at terminals.now)) }
{
    let Some((simple, second)) = simple_of(word) else {
        return Err(refuse(terminals, at.saturating_sub(1), Wanted::Other));
    };
    let next = behind_at(terminals, second, at)?;
    Ok((Expr::Simple(simple), next))
}

#[tactic(auto, unfolding(crate::specs::SimpleReading::behind_at))]
fn behind_at(terminals: &[Terminal], second: Option<Word>, at: usize) -> Result<usize, Stop>
    ensures { Gives (λ r. signs_from r terminals.now) result (behind_at second (signs_from at terminals.now)) }
{
    match second {
        Some(word) => word_at(terminals, at, word),
        None => Ok(at),
    }
}

/// The simple type that begins with the word, and the word that follows it.
fn simple_of(word: Word) -> Option<(Simple, Option<Word>)>
    ensures { result ≡ simple_of word }
{
    match word {
        Word::Boolean => Some((Simple::Boolean, None)),
        Word::Integer => Some((Simple::Integer, None)),
        Word::Null => Some((Simple::Null, None)),
        Word::Octet => Some((Simple::OctetString, Some(Word::String))),
        Word::Object => Some((Simple::ObjectIdentifier, Some(Word::Identifier))),
        Word::RelativeOid => Some((Simple::RelativeOid, None)),
        Word::Utf8String => Some((Simple::Utf8String, None)),
        Word::NumericString => Some((Simple::NumericString, None)),
        Word::PrintableString => Some((Simple::PrintableString, None)),
        Word::Ia5String => Some((Simple::Ia5String, None)),
        Word::VisibleString => Some((Simple::VisibleString, None)),
        Word::BmpString => Some((Simple::BmpString, None)),
        Word::UtcTime => Some((Simple::UtcTime, None)),
        Word::GeneralizedTime => Some((Simple::GeneralizedTime, None)),
        _ => None,
    }
}
