//! Values in braces: names of bits, and object identifiers (X.680 clauses 22 and 32).

use crate::numbers::{ends_list, number_in_parentheses};
use crate::value::{Arc, ValueForm};
use published_tokens::{Kind, MAX_PARTS, Reader, Stop, Symbol, Word, skip_rest};

/// The value in braces, the first of which stands in front. What is neither names nor arcs is left out.
pub(crate) fn braces_at(reader: &mut Reader) -> Result<ValueForm, Stop> {
    reader.symbol(Symbol::OpenBrace)?;
    if reader.passes_symbol(Symbol::CloseBrace) {
        return Ok(ValueForm::Names(Vec::new(reader.alloc)));
    }
    if reader.kind() == Kind::Lower && is_end(reader.second()) {
        return names_at(reader);
    }
    arcs_at(reader)
}

// Whether the token ends a name in a list.
fn is_end(kind: Kind) -> bool {
    match kind {
        Kind::Symbol(symbol) => matches!(symbol, Symbol::Comma | Symbol::CloseBrace),
        _ => false,
    }
}

// Names, behind the opening brace.
fn names_at(reader: &mut Reader) -> Result<ValueForm, Stop> {
    let mut names = Vec::new(reader.alloc);
    for _turn in 0..=MAX_PARTS {
        if reader.kind() != Kind::Lower || !is_end(reader.second()) {
            break;
        }
        names.push(reader.name(Kind::Lower)?)?;
        if ends_list(reader)? {
            return Ok(ValueForm::Names(names));
        }
    }
    left_out(reader)
}

// Arcs, behind the opening brace.
fn arcs_at(reader: &mut Reader) -> Result<ValueForm, Stop> {
    let mut arcs = Vec::new(reader.alloc);
    for _turn in 0..=MAX_PARTS {
        match arc_at(reader)? {
            Some(arc) => arcs.push(arc)?,
            None => break,
        }
        if reader.passes_symbol(Symbol::CloseBrace) {
            return Ok(ValueForm::Oid(arcs));
        }
    }
    left_out(reader)
}

// An arc, if one stands in front.
fn arc_at(reader: &mut Reader) -> Result<Option<Arc>, Stop> {
    match reader.kind() {
        Kind::Number(number) => {
            reader.count()?;
            reader.take();
            Ok(Some(Arc::Number(number)))
        }
        Kind::Lower => Ok(Some(named_arc_at(reader)?)),
        _ => Ok(None),
    }
}

// An arc that begins with a name.
fn named_arc_at(reader: &mut Reader) -> Result<Arc, Stop> {
    let Word { name, place: _ } = reader.name(Kind::Lower)?;
    if reader.is_symbol(Symbol::OpenParenthesis) {
        return Ok(Arc::Named(name, number_in_parentheses(reader)?));
    }
    Ok(Arc::Name(name))
}

// Passes the rest of the braces.
fn left_out(reader: &mut Reader) -> Result<ValueForm, Stop> {
    skip_rest(reader, Symbol::OpenBrace)?;
    Ok(ValueForm::LeftOut)
}
