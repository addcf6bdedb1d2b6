//! ENUMERATED (X.680 clause 20).

use crate::numbers::number_in_parentheses;
use crate::tree::{Form, Item, Items};
use published_tokens::{Extension, Kind, MAX_PARTS, Reader, Reason, Section, Stop, Symbol};

/// The items in braces, which stand in front.
pub(crate) fn enumerated_at(reader: &mut Reader) -> Result<Form, Stop> {
    let mut found = Items::new(reader.alloc);
    add_items(reader, &mut found)?;
    Ok(Form::Enumerated(found))
}

// Adds the items in braces.
fn add_items(reader: &mut Reader, found: &mut Items) -> Result<(), Stop> {
    let mut extension = Extension::new();
    reader.symbol(Symbol::OpenBrace)?;
    for _turn in 0..=MAX_PARTS {
        if !extension.begin(reader)? {
            let items = match extension.section() {
                Section::Root => &mut found.root,
                Section::Additions => &mut found.additions,
                // No item stands behind a second `...`.
                Section::Tail => return Err(reader.refuse()),
            };
            items.push(item_at(reader)?)?;
        }
        if extension.end(reader)? {
            found.marker = extension.marker;
            return Ok(());
        }
    }
    Err(reader.stop(Reason::TooManyParts))
}

// An item, with its number or without.
fn item_at(reader: &mut Reader) -> Result<Item, Stop> {
    let name = reader.name(Kind::Lower)?;
    if reader.is_symbol(Symbol::OpenParenthesis) {
        let number = Some(number_in_parentheses(reader)?);
        return Ok(Item { name, number });
    }
    Ok(Item { name, number: None })
}
