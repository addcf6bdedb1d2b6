//! Names that are used, perhaps with their module.

use crate::tree::{Form, Reference};
use names::Name;
use published_tokens::{Kind, MAX_FILE, Reader, Stop, Symbol, Word, skip_brackets};

// What a name means that stands alone.
fn alone(word: Word) -> Reference {
    let Word { name, place } = word;
    Reference {
        module: None,
        name,
        place,
    }
}

// The reference behind the module's name and its full stop: a name of this kind.
fn within(reader: &mut Reader, module: Word, kind: Kind) -> Result<Reference, Stop> {
    let behind = reader.name(kind)?;
    let Word {
        name: module,
        place,
    } = module;
    let Word { name, place: _ } = behind;
    Ok(Reference {
        module: Some(module),
        name,
        place,
    })
}

/// A type that begins with a name: a reference, with parameters perhaps, or the field of a class.
pub(crate) fn named_type_at(reader: &mut Reader) -> Result<Form, Stop> {
    let first = reader.name(Kind::Upper)?;
    if !reader.passes_symbol(Symbol::FullStop) {
        return ending_at(reader, alone(first));
    }
    if reader.kind() == Kind::Field {
        return field_at(reader, alone(first));
    }
    let reference = within(reader, first, Kind::Upper)?;
    if reader.passes_symbol(Symbol::FullStop) {
        return field_at(reader, reference);
    }
    ending_at(reader, reference)
}

// What stands behind the name of a type.
fn ending_at(reader: &mut Reader, reference: Reference) -> Result<Form, Stop> {
    if reader.is_symbol(Symbol::OpenBrace) {
        skip_brackets(reader, Symbol::OpenBrace)?;
        return Ok(Form::Parameterised(reference));
    }
    Ok(Form::Reference(reference))
}

// The names of fields behind the class and its full stop. Of several none is kept.
fn field_at(reader: &mut Reader, class: Reference) -> Result<Form, Stop> {
    let field = reader.name(Kind::Field)?;
    if !reader.passes_symbol(Symbol::FullStop) {
        return Ok(Form::Field(class, Some(field)));
    }
    for _turn in 0..=MAX_FILE {
        reader.name(Kind::Field)?;
        if !reader.passes_symbol(Symbol::FullStop) {
            break;
        }
    }
    Ok(Form::Field(class, None))
}

/// The name of a component or an alternative, behind so many parts of its list. Where a type stands instead,
/// as X.208 allows, it gets a name by its place.
pub(crate) fn part_name_at(reader: &mut Reader, before: u32) -> Result<Word, Stop> {
    match reader.kind() {
        Kind::Reserved(_) | Kind::Upper | Kind::Symbol(Symbol::OpenBracket) => {
            reader.count()?;
            let number = u64::from(before) + 1;
            let text = format!(in reader.alloc; "unnamed-{number}")?;
            let name = Name::new(reader.alloc, text.as_str())?;
            let place = reader.place();
            Ok(Word { name, place })
        }
        _ => reader.name(Kind::Lower),
    }
}

/// The name of a class.
pub(crate) fn class_at(reader: &mut Reader) -> Result<Reference, Stop> {
    reference_at(reader, Kind::Upper)
}

/// The name of a value, a small letter first, or with its module in front.
pub(crate) fn value_name_at(reader: &mut Reader) -> Result<Reference, Stop> {
    reference_at(reader, Kind::Lower)
}

// A name of this kind, perhaps with its module in front.
fn reference_at(reader: &mut Reader, kind: Kind) -> Result<Reference, Stop> {
    if reader.kind() != Kind::Upper {
        return Ok(alone(reader.name(kind)?));
    }
    let first = reader.name(Kind::Upper)?;
    if reader.passes_symbol(Symbol::FullStop) || kind == Kind::Lower {
        return within(reader, first, kind);
    }
    Ok(alone(first))
}
