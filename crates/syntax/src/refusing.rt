//! Which number a refused terminal gets.

use crate::stop::{Cause, Stop};
use crate::terminal::Terminal;
use lexis::{Lexeme, Symbol, Word};

/// What must stand where the parser stops.
#[derive(Clone, Copy, PartialEq, Eq)]
pub enum Wanted {
    /// A name, and of reserved words at most `END`.
    Name,
    /// Something else.
    Other,
}

/// The parser stops at the terminal of this index, or at the end of the text.
pub fn refuse(terminals: &[Terminal], at: usize, wanted: Wanted) -> Stop {
    Stop::Refused(cause(terminals, at, wanted), at)
}

/// The parser stops where a type may end. What may follow one under X.680 and is left out of the profile,
/// a constraint or a list of named numbers, is told apart.
pub fn refuse_behind_type(terminals: &[Terminal], at: usize, wanted: Wanted) -> Stop {
    if begins_constraint(terminals, at) || begins_named_numbers(terminals, at) {
        Stop::Refused(Cause::NotInProfile, at)
    } else {
        refuse(terminals, at, wanted)
    }
}

/// The parser stops at the part of a list that is one too many.
pub fn refuse_part(terminals: &[Terminal], at: usize) -> Stop {
    match lexeme_at(terminals, at) {
        Some(Lexeme::Identifier(_)) => Stop::Refused(Cause::TooLarge, at),
        _ => refuse(terminals, at, Wanted::Name),
    }
}

fn cause(terminals: &[Terminal], at: usize, wanted: Wanted) -> Cause {
    match lexeme_at(terminals, at) {
        Some(Lexeme::Word(word)) => {
            if !word.is_of_profile() {
                Cause::NotInProfile
            } else if wanted == Wanted::Name {
                Cause::Reserved
            } else {
                Cause::Syntax
            }
        }
        Some(Lexeme::Symbol(symbol)) => {
            if symbol.is_of_profile() {
                Cause::Syntax
            } else {
                Cause::NotInProfile
            }
        }
        _ => Cause::Syntax,
    }
}

fn lexeme_at<'a>(terminals: &[Terminal<'a>], at: usize) -> Option<Lexeme<'a>> {
    if at < terminals.len() {
        Some(terminals[at].lexeme)
    } else {
        None
    }
}

// `(` behind a type.
fn begins_constraint(terminals: &[Terminal], at: usize) -> bool {
    is_symbol_at(terminals, at, Symbol::OpenParenthesis) && ends_type(lexeme_before(terminals, at))
}

// Does a type end here, where an item, a value or `OPTIONAL` may end as well?
fn ends_type(lexeme: Option<Lexeme>) -> bool {
    match lexeme {
        Some(Lexeme::TypeName(_)) => true,
        Some(Lexeme::Word(word)) => {
            word != Word::Optional && word != Word::True && word != Word::False
        }
        Some(Lexeme::Symbol(symbol)) => symbol == Symbol::CloseBrace,
        _ => false,
    }
}

// `{` behind INTEGER.
fn begins_named_numbers(terminals: &[Terminal], at: usize) -> bool {
    is_symbol_at(terminals, at, Symbol::OpenBrace) && ends_integer(lexeme_before(terminals, at))
}

fn ends_integer(lexeme: Option<Lexeme>) -> bool {
    match lexeme {
        Some(Lexeme::Word(word)) => word == Word::Integer,
        _ => false,
    }
}

fn is_symbol_at(terminals: &[Terminal], at: usize, wanted: Symbol) -> bool {
    match lexeme_at(terminals, at) {
        Some(Lexeme::Symbol(found)) => found == wanted,
        _ => false,
    }
}

// The lexeme before this one.
fn lexeme_before<'a>(terminals: &[Terminal<'a>], at: usize) -> Option<Lexeme<'a>> {
    lexeme_at(terminals, at.checked_sub(1)?)
}
