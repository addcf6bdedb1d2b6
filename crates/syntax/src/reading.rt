//! One terminal at a time.

ghost use Rattle.std.specs.Prelude.{◌≡◌};
ghost use Rattle.lexis.specs.Lexemes.{sign};
ghost use Rattle.syntax.specs.Reading.{Gives, signs_from, first_at, is_word, is_symbol, word_at, symbol_at, number_at, limited_number_at, identifier_at, type_name_at};
ghost use Rattle.syntax.specs.ValueReading.{negative_at, positive_at, signed_at, end_at};

use crate::refusing::{Wanted, refuse, refuse_behind_type};
use crate::stop::{Cause, Stop};
use crate::terminal::Terminal;
use crate::tree::SignedNumber;
use lexis::{Lexeme, Symbol, Word};

/// The terminal at this place, and the place behind it.
#[tactic(auto, using(crate::proofs::Steps::places))]
pub fn first_at<'a>(terminals: &[Terminal<'a>], at: usize) -> Result<(Lexeme<'a>, usize), Stop>
    ensures { Gives (λ r. (sign r.0, signs_from r.1 terminals.now)) result (first_at (signs_from at terminals.now)) }
{
    if at < terminals.len() {
        Ok((terminals[at].lexeme, at + 1))
    } else {
        Err(refuse(terminals, at, Wanted::Other))
    }
}

/// Is this terminal the reserved word?
pub fn is_word(lexeme: Lexeme, wanted: Word) -> bool
    ensures { result ≡ is_word wanted (sign lexeme.entry) }
{
    match lexeme {
        Lexeme::Word(found) => found as u8 == wanted as u8,
        _ => false,
    }
}

/// Is this terminal the symbol?
pub fn is_symbol(lexeme: Lexeme, wanted: Symbol) -> bool
    ensures { result ≡ is_symbol wanted (sign lexeme.entry) }
{
    match lexeme {
        Lexeme::Symbol(found) => found as u8 == wanted as u8,
        _ => false,
    }
}

/// The place behind this reserved word.
#[tactic(auto, unfolding(crate::specs::Reading::word_at))]
pub fn word_at(terminals: &[Terminal], at: usize, wanted: Word) -> Result<usize, Stop>
    ensures { Gives (λ r. signs_from r terminals.now) result (word_at wanted (signs_from at terminals.now)) }
{
    let (first, next) = first_at(terminals, at)?;
    if is_word(first, wanted) {
        Ok(next)
    } else {
        Err(refuse(terminals, at, Wanted::Other))
    }
}

/// The place behind this symbol.
#[tactic(auto, unfolding(crate::specs::Reading::symbol_at))]
pub fn symbol_at(terminals: &[Terminal], at: usize, wanted: Symbol) -> Result<usize, Stop>
    ensures { Gives (λ r. signs_from r terminals.now) result (symbol_at wanted (signs_from at terminals.now)) }
{
    let (first, next) = first_at(terminals, at)?;
    if is_symbol(first, wanted) {
        Ok(next)
    } else {
        Err(refuse(terminals, at, Wanted::Other))
    }
}

/// A number.
#[tactic(auto, unfolding(crate::specs::Reading::number_at))]
pub fn number_at(terminals: &[Terminal], at: usize) -> Result<(u128, usize), Stop>
    ensures { Gives (λ r. (r.0, signs_from r.1 terminals.now)) result (number_at (signs_from at terminals.now)) }
{
    let (first, next) = first_at(terminals, at)?;
    match first {
        Lexeme::Number(number) => Ok((number, next)),
        _ => Err(refuse(terminals, at, Wanted::Other)),
    }
}

/// An identifier.
#[tactic(auto, unfolding(crate::specs::Reading::identifier_at))]
pub fn identifier_at<'a>(terminals: &[Terminal<'a>], at: usize) -> Result<(&'a str, usize), Stop>
    ensures { Gives (λ r. (r.0.now, signs_from r.1 terminals.now)) result (identifier_at (signs_from at terminals.now)) }
{
    let (first, next) = first_at(terminals, at)?;
    match first {
        Lexeme::Identifier(name) => Ok((name, next)),
        _ => Err(refuse(terminals, at, Wanted::Name)),
    }
}

/// The name of a type or of a module, where nothing else stands.
#[tactic(auto, unfolding(crate::specs::Reading::type_name_at))]
pub fn type_name_at<'a>(terminals: &[Terminal<'a>], at: usize) -> Result<(&'a str, usize), Stop>
    ensures { Gives (λ r. (r.0.now, signs_from r.1 terminals.now)) result (type_name_at (signs_from at terminals.now)) }
{
    let (first, next) = first_at(terminals, at)?;
    match first {
        Lexeme::TypeName(name) => Ok((name, next)),
        _ => Err(refuse(terminals, at, Wanted::Name)),
    }
}

/// A number that is at most so great.
#[tactic(auto, unfolding(crate::specs::Reading::limited_number_at))]
pub fn limited_number_at(terminals: &[Terminal], at: usize, most: u32) -> Result<(u32, usize), Stop>
    ensures { Gives (λ r. (r.0, signs_from r.1 terminals.now)) result (limited_number_at most (signs_from at terminals.now)) }
{
    let (number, next) = number_at(terminals, at)?;
    if number <= u128::from(most) {
        Ok((number as u32, next))
    } else {
        Err(Stop::Refused(Cause::TooLarge, at))
    }
}

/// A number, with `-` before it or without.
#[tactic(auto, unfolding(crate::specs::ValueReading::signed_at))]
pub fn signed_at(terminals: &[Terminal], at: usize) -> Result<(SignedNumber, usize), Stop>
    ensures { Gives (λ r. (r.0, signs_from r.1 terminals.now)) result (signed_at (signs_from at terminals.now)) }
{
    let (first, next) = first_at(terminals, at)?;
    if is_symbol(first, Symbol::Hyphen) {
        negative_at(terminals, next)
    } else {
        positive_at(terminals, at)
    }
}

#[tactic(auto, unfolding(crate::specs::ValueReading::negative_at))]
fn negative_at(terminals: &[Terminal], at: usize) -> Result<(SignedNumber, usize), Stop>
    ensures { Gives (λ r. (r.0, signs_from r.1 terminals.now)) result (negative_at (signs_from at terminals.now)) }
{
    let (magnitude, next) = number_at(terminals, at)?;
    if magnitude >= 1 {
        let number = SignedNumber {
            negative: true,
            magnitude,
        };
        Ok((number, next))
    } else {
        Err(refuse(terminals, at, Wanted::Other))
    }
}

#[tactic(auto, unfolding(crate::specs::ValueReading::positive_at))]
fn positive_at(terminals: &[Terminal], at: usize) -> Result<(SignedNumber, usize), Stop>
    ensures { Gives (λ r. (r.0, signs_from r.1 terminals.now)) result (positive_at (signs_from at terminals.now)) }
{
    let (magnitude, next) = number_at(terminals, at)?;
    let number = SignedNumber {
        negative: false,
        magnitude,
    };
    Ok((number, next))
}

/// The closing brace (true) or `,` (false) of a list.
#[tactic(auto, unfolding(crate::specs::ValueReading::end_at))]
pub fn end_at(terminals: &[Terminal], at: usize) -> Result<(bool, usize), Stop>
    ensures { Gives (λ r. (r.0, signs_from r.1 terminals.now)) result (end_at (signs_from at terminals.now)) }
{
    let (first, next) = first_at(terminals, at)?;
    if is_symbol(first, Symbol::CloseBrace) {
        Ok((true, next))
    } else if is_symbol(first, Symbol::Comma) {
        Ok((false, next))
    } else {
        Err(refuse_behind_type(terminals, at, Wanted::Other))
    }
}
