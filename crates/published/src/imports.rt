//! EXPORTS and IMPORTS (X.680 clause 13).

use crate::tree::Import;
use lexis::Word as Reserved;
use published_tokens::{
    Kind, MAX_FILE, MAX_PARTS, Reader, Reason, Stop, Symbol, Word, skip_brackets,
};

/// Passes EXPORTS, if it stands in front.
pub(crate) fn skip_exports(reader: &mut Reader) -> Result<(), Stop> {
    if !reader.passes_word(Reserved::Exports) {
        return Ok(());
    }
    for _turn in 0..=MAX_FILE {
        if reader.passes_symbol(Symbol::Semicolon) {
            return Ok(());
        }
        skip_symbol(reader)?;
    }
    Err(reader.refuse())
}

// Passes a token of EXPORTS that does not end it.
fn skip_symbol(reader: &mut Reader) -> Result<(), Stop> {
    match reader.kind() {
        Kind::Reserved(Reserved::Imports | Reserved::End) => return Err(reader.refuse()),
        Kind::Reserved(_) | Kind::Upper | Kind::Lower => reader.take(),
        Kind::Symbol(Symbol::Comma) => reader.take(),
        Kind::Symbol(Symbol::OpenBrace) => skip_brackets(reader, Symbol::OpenBrace)?,
        _ => return Err(reader.refuse()),
    }
    Ok(())
}

/// IMPORTS, if it stands in front.
pub(crate) fn imports_at(reader: &mut Reader) -> Result<Vec<Import>, Stop> {
    let mut found = Vec::new(reader.alloc);
    if !reader.passes_word(Reserved::Imports) {
        return Ok(found);
    }
    for _turn in 0..=MAX_PARTS {
        if reader.passes_symbol(Symbol::Semicolon) {
            return Ok(found);
        }
        found.push(import_at(reader)?)?;
    }
    Err(reader.stop(Reason::TooManyParts))
}

// Names, and the module that they are imported from.
fn import_at(reader: &mut Reader) -> Result<Import, Stop> {
    let names = names_at(reader)?;
    let module = reader.name(Kind::Upper)?;
    skip_identifier(reader)?;
    Ok(Import { module, names })
}

// The names up to FROM, which is passed.
fn names_at(reader: &mut Reader) -> Result<Vec<Word>, Stop> {
    let mut names = Vec::new(reader.alloc);
    for _turn in 0..=MAX_PARTS {
        names.push(name_at(reader)?)?;
        if reader.is_symbol(Symbol::OpenBrace) {
            skip_brackets(reader, Symbol::OpenBrace)?;
        }
        if reader.passes_word(Reserved::From) {
            return Ok(names);
        }
        reader.symbol(Symbol::Comma)?;
    }
    Err(reader.stop(Reason::TooManyParts))
}

// An imported name. Older modules import types whose names were reserved later.
fn name_at(reader: &mut Reader) -> Result<Word, Stop> {
    match reader.kind() {
        Kind::Reserved(Reserved::From) => Err(reader.refuse()),
        Kind::Reserved(_) | Kind::Lower | Kind::Upper => reader.any_name(),
        _ => Err(reader.refuse()),
    }
}

// Passes what identifies the module whose name was read: braces, or the name of a value.
fn skip_identifier(reader: &mut Reader) -> Result<(), Stop> {
    if reader.is_symbol(Symbol::OpenBrace) {
        skip_brackets(reader, Symbol::OpenBrace)?;
    } else if reader.kind() == Kind::Lower && !goes_on_list(reader.second()) {
        reader.take();
    }
    if reader.passes_word(Reserved::With) {
        reader.take();
    }
    Ok(())
}

// Whether the token goes on a list of names, behind one of them.
fn goes_on_list(kind: Kind) -> bool {
    match kind {
        Kind::Symbol(symbol) => matches!(symbol, Symbol::Comma | Symbol::OpenBrace),
        Kind::Reserved(word) => matches!(word, Reserved::From),
        _ => false,
    }
}
