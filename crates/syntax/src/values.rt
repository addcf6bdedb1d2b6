//! What stands behind the types of components, and the items of an ENUMERATED.

ghost use Rattle.std.specs.Prelude.{◌≡◌};
ghost use Rattle.syntax.specs.Tree.{Entry};
ghost use Rattle.syntax.specs.View.{form, value_view, ending, entry};
ghost use Rattle.lexis.specs.Lexemes.{sign};
ghost use Rattle.syntax.specs.Reading.{Gives, signs_from};
ghost use Rattle.syntax.specs.TypeReading.{enumerated_at};
ghost use Rattle.syntax.specs.ValueReading.{begins_number, plain_value, number_value_at, value_at, default_at, ending_at, is_item_number, numbered_at, item_number_at, item_at};

use crate::listing::{Part, parts_at};
use crate::reading::{end_at, first_at, identifier_at, is_symbol, is_word, signed_at, symbol_at};
use crate::refusing::{Wanted, refuse};
use crate::stop::{Cause, Stop};
use crate::terminal::Terminal;
use crate::tree::{DefaultValue, Expr, Item, Presence, SignedNumber};
use lexis::{Lexeme, Symbol, Word};
use names::Name;
use std::alloc::Global;

/// What stands behind the type of a component.
#[tactic(auto, unfolding(crate::specs::ValueReading::ending_at))]
pub fn ending_at(
    alloc: Global,
    terminals: &[Terminal],
    at: usize,
) -> Result<(Presence, usize), Stop>
    ensures { Gives (λ r. (ending r.0, signs_from r.1 terminals.now)) result (ending_at (signs_from at terminals.now)) }
{
    let (first, next) = first_at(terminals, at)?;
    if is_word(first, Word::Optional) {
        Ok((Presence::Optional, next))
    } else if is_word(first, Word::Default) {
        default_at(alloc, terminals, next)
    } else {
        Ok((Presence::Required, at))
    }
}

#[tactic(auto, unfolding(crate::specs::ValueReading::default_at))]
fn default_at(alloc: Global, terminals: &[Terminal], at: usize) -> Result<(Presence, usize), Stop>
    ensures { Gives (λ r. (ending r.0, signs_from r.1 terminals.now)) result (default_at (signs_from at terminals.now)) }
{
    let (value, next) = value_at(alloc, terminals, at)?;
    Ok((Presence::Default(value), next))
}

#[tactic(auto, unfolding(crate::specs::ValueReading::value_at))]
fn value_at(alloc: Global, terminals: &[Terminal], at: usize) -> Result<(DefaultValue, usize), Stop>
    ensures { Gives (λ r. (value_view r.0, signs_from r.1 terminals.now)) result (value_at (signs_from at terminals.now)) }
{
    let (first, next) = first_at(terminals, at)?;
    if begins_number(first) {
        number_value_at(terminals, at)
    } else {
        let value = plain_value(alloc, terminals, at, first)?;
        Ok((value, next))
    }
}

#[tactic(auto, unfolding(crate::specs::ValueReading::number_value_at))]
fn number_value_at(terminals: &[Terminal], at: usize) -> Result<(DefaultValue, usize), Stop>
    ensures { Gives (λ r. (value_view r.0, signs_from r.1 terminals.now)) result (number_value_at (signs_from at terminals.now)) }
{
    let (number, next) = signed_at(terminals, at)?;
    Ok((DefaultValue::Number(number), next))
}

fn begins_number(lexeme: Lexeme) -> bool
    ensures { result ≡ begins_number (sign lexeme.entry) }
{
    match lexeme {
        Lexeme::Number(_) => true,
        _ => is_symbol(lexeme, Symbol::Hyphen),
    }
}

/// The value that this one terminal is.
fn plain_value(
    alloc: Global,
    terminals: &[Terminal],
    at: usize,
    lexeme: Lexeme,
) -> Result<DefaultValue, Stop>
    ensures { Gives value_view result (plain_value (sign lexeme.entry)) }
{
    match lexeme {
        Lexeme::Word(Word::True) => Ok(DefaultValue::True),
        Lexeme::Word(Word::False) => Ok(DefaultValue::False),
        Lexeme::Identifier(name) => Ok(DefaultValue::Name(String::from_str(alloc, name)?)),
        Lexeme::Binary(text) => Ok(DefaultValue::Binary(String::from_str(alloc, text)?)),
        Lexeme::Hex(text) => Ok(DefaultValue::Hex(String::from_str(alloc, text)?)),
        Lexeme::Chars(text) => Ok(DefaultValue::Chars(String::from_str(alloc, text)?)),
        _ => Err(refuse(terminals, at, Wanted::Other)),
    }
}

/// What stands behind `ENUMERATED`.
#[tactic(auto, unfolding(crate::specs::TypeReading::enumerated_at))]
pub fn enumerated_at(
    alloc: Global,
    terminals: &[Terminal],
    at: usize,
) -> Result<(Expr, usize), Stop>
    ensures { Gives (λ r. (form r.0, signs_from r.1 terminals.now)) result (enumerated_at (signs_from at terminals.now)) }
{
    let next = symbol_at(terminals, at, Symbol::OpenBrace)?;
    let (items, next) = parts_at(alloc, terminals, next)?;
    Ok((Expr::Enumerated(items), next))
}

impl Part for Item {
    ghost Form = { Entry };

    ghost view = { entry };

    ghost read = { item_at };

    #[tactic(auto, unfolding(crate::specs::ValueReading::item_at))]
    fn part_at(
        alloc: Global,
        terminals: &[Terminal],
        at: usize,
    ) -> Result<(Item, bool, usize), Stop> {
        let (name, next) = identifier_at(terminals, at)?;
        let (number, next) = item_number_at(terminals, next)?;
        let (is_last, next) = end_at(terminals, next)?;
        let name = Name::new(alloc, name)?;
        Ok((Item { name, number }, is_last, next))
    }
}

#[tactic(auto, unfolding(crate::specs::ValueReading::item_number_at))]
fn item_number_at(terminals: &[Terminal], at: usize) -> Result<(Option<SignedNumber>, usize), Stop>
    ensures { Gives (λ r. (r.0, signs_from r.1 terminals.now)) result (item_number_at (signs_from at terminals.now)) }
{
    let (first, next) = first_at(terminals, at)?;
    if is_symbol(first, Symbol::OpenParenthesis) {
        numbered_at(terminals, next)
    } else {
        Ok((None, at))
    }
}

#[tactic(auto, unfolding(crate::specs::ValueReading::numbered_at))]
fn numbered_at(terminals: &[Terminal], at: usize) -> Result<(Option<SignedNumber>, usize), Stop>
    ensures { Gives (λ r. (r.0, signs_from r.1 terminals.now)) result (numbered_at (signs_from at terminals.now)) }
{
    let (number, behind) = signed_at(terminals, at)?;
    let next = symbol_at(terminals, behind, Symbol::CloseParenthesis)?;
    if is_item_number(number) {
        Ok((Some(number), next))
    } else {
        Err(Stop::Refused(Cause::TooLarge, behind.saturating_sub(1)))
    }
}

fn is_item_number(number: SignedNumber) -> bool
    ensures { result ≡ is_item_number number.negative number.magnitude }
{
    if number.negative {
        number.magnitude <= 1 << 127
    } else {
        number.magnitude < 1 << 127
    }
}
