//! Values (X.680 clauses 18 to 32), as far as defaults and numbers need them.

use crate::braces::braces_at;
use crate::references::value_name_at;
use crate::value::{Value, ValueForm};
use lexis::Word as Reserved;
use published_tokens::{Kind, MAX_FILE, Reader, Stop, Symbol, skip_brackets};
use syntax::SignedNumber;

/// The value that stands in front.
pub(crate) fn value_at(reader: &mut Reader) -> Result<Value, Stop> {
    reader.count()?;
    let place = reader.place();
    let form = form_at(reader)?;
    Ok(Value { place, form })
}

// What the value in front is.
fn form_at(reader: &mut Reader) -> Result<ValueForm, Stop> {
    match reader.kind() {
        Kind::Reserved(word) => word_value_at(reader, word),
        Kind::Number(_) => number_value_at(reader, false),
        Kind::Symbol(Symbol::Hyphen) => {
            reader.take();
            number_value_at(reader, true)
        }
        Kind::Symbol(Symbol::OpenBrace) => braces_at(reader),
        Kind::Binary => Ok(ValueForm::Binary(digits_at(reader)?)),
        Kind::Hex => Ok(ValueForm::Hex(digits_at(reader)?)),
        Kind::Chars => chars_at(reader),
        Kind::Lower => named_value_at(reader),
        Kind::Upper => qualified_value_at(reader),
        _ => Err(reader.refuse()),
    }
}

// A character string.
fn chars_at(reader: &mut Reader) -> Result<ValueForm, Stop> {
    let text = String::from_str(reader.alloc, reader.text()?)?;
    reader.take();
    Ok(ValueForm::Chars(text))
}

// A value that begins with a reserved word.
fn word_value_at(reader: &mut Reader, word: Reserved) -> Result<ValueForm, Stop> {
    let form = match word {
        Reserved::True => ValueForm::True,
        Reserved::False => ValueForm::False,
        Reserved::Null => ValueForm::Null,
        Reserved::PlusInfinity | Reserved::MinusInfinity => ValueForm::LeftOut,
        _ => return Err(reader.refuse()),
    };
    reader.take();
    Ok(form)
}

// A number, which stands in front. One with a fraction is left out.
fn number_value_at(reader: &mut Reader, negative: bool) -> Result<ValueForm, Stop> {
    let Kind::Number(magnitude) = reader.kind() else {
        return Err(reader.refuse());
    };
    reader.take();
    if reader.passes_symbol(Symbol::FullStop) {
        if let Kind::Number(_) = reader.kind() {
            reader.take();
        }
        return Ok(ValueForm::LeftOut);
    }
    Ok(ValueForm::Number(SignedNumber {
        negative,
        magnitude,
    }))
}

// The binary or hexadecimal string in front, in capitals and without white space.
fn digits_at(reader: &mut Reader) -> Result<String, Stop> {
    let mut digits = String::new(reader.alloc);
    for octet in reader.spelling() {
        if !octet.is_ascii_whitespace() {
            digits.push(char::from(octet.to_ascii_uppercase()))?;
        }
    }
    reader.take();
    Ok(digits)
}

// A value that begins with a small letter: a name, or what is left out.
fn named_value_at(reader: &mut Reader) -> Result<ValueForm, Stop> {
    match reader.second() {
        Kind::Symbol(Symbol::Colon | Symbol::FullStop | Symbol::OpenBrace) => skip_chosen(reader),
        _ => Ok(ValueForm::Name(value_name_at(reader)?)),
    }
}

// A value that begins with a capital letter: a name with its module, or what is left out.
fn qualified_value_at(reader: &mut Reader) -> Result<ValueForm, Stop> {
    match reader.second() {
        Kind::Symbol(Symbol::Colon | Symbol::OpenBrace) => skip_chosen(reader),
        _ => Ok(ValueForm::Name(value_name_at(reader)?)),
    }
}

// Passes names with `:`, `.` or parameters behind them, and the value behind the last `:`.
fn skip_chosen(reader: &mut Reader) -> Result<ValueForm, Stop> {
    for _turn in 0..=MAX_FILE {
        reader.take();
        if reader.is_symbol(Symbol::OpenBrace) {
            skip_brackets(reader, Symbol::OpenBrace)?;
        }
        if !reader.passes_symbol(Symbol::Colon) && !reader.passes_symbol(Symbol::FullStop) {
            break;
        }
        if reader.is_symbol(Symbol::OpenBrace) {
            skip_brackets(reader, Symbol::OpenBrace)?;
            break;
        }
        reader.passes_symbol(Symbol::Hyphen);
    }
    Ok(ValueForm::LeftOut)
}
