//! Numbers where they are asked for, and lists of names with numbers.

use crate::references::value_name_at;
use crate::tree::NamedNumber;
use crate::value::Number;
use published_tokens::{Kind, MAX_PARTS, Reader, Reason, Stop, Symbol};
use syntax::SignedNumber;

/// A number, with `-` before it or without, or the name of a value.
pub(crate) fn number_at(reader: &mut Reader) -> Result<Number, Stop> {
    let negative = reader.passes_symbol(Symbol::Hyphen);
    match reader.kind() {
        Kind::Number(magnitude) => {
            reader.take();
            Ok(Number::Literal(SignedNumber {
                negative,
                magnitude,
            }))
        }
        _ if negative => Err(reader.refuse()),
        _ => Ok(Number::Name(value_name_at(reader)?)),
    }
}

/// The number in parentheses that stand in front.
pub(crate) fn number_in_parentheses(reader: &mut Reader) -> Result<Number, Stop> {
    reader.symbol(Symbol::OpenParenthesis)?;
    let number = number_at(reader)?;
    reader.symbol(Symbol::CloseParenthesis)?;
    Ok(number)
}

/// The named numbers or named bits in braces, the first of which stands in front.
pub(crate) fn named_numbers_at(reader: &mut Reader) -> Result<Vec<NamedNumber>, Stop> {
    let mut found = Vec::new(reader.alloc);
    reader.symbol(Symbol::OpenBrace)?;
    if reader.passes_symbol(Symbol::CloseBrace) {
        return Ok(found);
    }
    for _turn in 0..=MAX_PARTS {
        found.push(named_number_at(reader)?)?;
        if ends_list(reader)? {
            return Ok(found);
        }
    }
    Err(reader.stop(Reason::TooManyParts))
}

// A name, and its number in parentheses.
fn named_number_at(reader: &mut Reader) -> Result<NamedNumber, Stop> {
    let name = reader.name(Kind::Lower)?;
    let number = number_in_parentheses(reader)?;
    Ok(NamedNumber { name, number })
}

/// Passes the `}` (true) or the `,` (false) of a list.
pub(crate) fn ends_list(reader: &mut Reader) -> Result<bool, Stop> {
    if reader.passes_symbol(Symbol::CloseBrace) {
        return Ok(true);
    }
    reader.symbol(Symbol::Comma)?;
    Ok(false)
}
