//! Tags, and what stands in front of `OF` (X.680 clauses 26 to 31).

use crate::numbers::number_at;
use crate::tree::Tag;
use lexis::Word as Reserved;
use published_tokens::{
    MAX_FILE, Place, Reader, Stop, Symbol, TagClass, class_of, mode_of, skip_brackets,
};
use syntax::TagMode;

/// The tag that stands in front, and the keyword behind it.
pub(crate) fn tag_at(reader: &mut Reader) -> Result<Tag, Stop> {
    reader.symbol(Symbol::OpenBracket)?;
    let class = class_of(reader.kind());
    if !matches!(class, TagClass::ContextSpecific) {
        reader.take();
    }
    let number = number_at(reader)?;
    reader.symbol(Symbol::CloseBracket)?;
    let mode = mode_of(reader.kind());
    if !matches!(mode, TagMode::Unmarked) {
        reader.take();
    }
    Ok(Tag {
        class,
        number,
        mode,
    })
}

/// Passes the constraints that stand in front. Where the first of them begins.
pub(crate) fn skip_constraints(reader: &mut Reader) -> Result<Option<Place>, Stop> {
    let mut first = None;
    for _turn in 0..=MAX_FILE {
        if !reader.is_symbol(Symbol::OpenParenthesis) {
            break;
        }
        first = first.or(Some(reader.place()));
        skip_brackets(reader, Symbol::OpenParenthesis)?;
    }
    Ok(first)
}

/// Passes the constraint that stands before `OF`, with the word `SIZE` before it or without.
pub(crate) fn skip_size(reader: &mut Reader) -> Result<Option<Place>, Stop> {
    let place = reader.place();
    if reader.passes_word(Reserved::Size) {
        skip_brackets(reader, Symbol::OpenParenthesis)?;
        return Ok(Some(place));
    }
    skip_constraints(reader)
}
