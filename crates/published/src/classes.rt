//! Classes of information objects (X.681 clause 9), as far as it is told which of their fields are open types.

use crate::numbers::ends_list;
use crate::references::named_type_at;
use crate::tree::{Field, FieldOf, Form};
use published_tokens::{
    Kind, MAX_PARTS, Reader, Reason, Stop, Symbol, is_open_before, skip_to_end_of_part,
};
use std::mem::drop;

/// The fields in braces, which stand in front. What has no name of a field is passed.
pub(crate) fn fields_at(reader: &mut Reader) -> Result<Vec<Field>, Stop> {
    let mut fields = Vec::new(reader.alloc);
    reader.symbol(Symbol::OpenBrace)?;
    for _turn in 0..=MAX_PARTS {
        if reader.kind() == Kind::Field {
            fields.push(field_at(reader)?)?;
        }
        skip_to_end_of_part(reader)?;
        if ends_list(reader)? {
            return Ok(fields);
        }
    }
    Err(reader.stop(Reason::TooManyParts))
}

// A field, up to its type or behind that.
fn field_at(reader: &mut Reader) -> Result<Field, Stop> {
    let name = reader.name(Kind::Field)?;
    let is_open = is_open_before(reader.kind());
    other_at(reader).map(|other| Field {
        name,
        is_open,
        other,
    })
}

// The field of a class that is written as the type of another one, if one stands in front.
fn other_at(reader: &mut Reader) -> Result<Option<FieldOf>, Stop> {
    if reader.kind() != Kind::Upper || reader.second() != Kind::Symbol(Symbol::FullStop) {
        return Ok(None);
    }
    match named_type_at(reader)? {
        Form::Field(class, field) => Ok(Some(FieldOf { class, field })),
        form => {
            drop(form);
            Ok(None)
        }
    }
}
