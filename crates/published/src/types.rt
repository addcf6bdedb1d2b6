//! Types (X.680 clauses 17 to 31).

use crate::prefixes::{skip_constraints, skip_size, tag_at};
use crate::references::{named_type_at, part_name_at};
use crate::tree::{Alternative, Alternatives, Component, Components, Form, Presence, Type};
use crate::values::value_at;
use crate::words::word_type_at;
use lexis::Word as Reserved;
use published_tokens::{
    Extension, Kind, MAX_LEVELS, MAX_PARTS, Place, Reader, Reason, Section, Stop, Symbol,
};
use syntax::Group;

/// The type that stands in front.
pub(crate) fn whole_type_at(reader: &mut Reader) -> Result<Type, Stop> {
    type_at(reader, MAX_LEVELS)
}

// A type of at most so many levels, its own included.
#[cycle(types)]
fn type_at(reader: &mut Reader, levels: u32) -> Result<Type, Stop> {
    reader.count()?;
    if levels == 0 {
        return Err(reader.stop(Reason::TooDeep));
    }
    let place = reader.place();
    let (form, before) = form_at(reader, levels - 1)?;
    skip_constraints(reader).map(|behind| Type {
        place,
        form,
        constraint: before.or(behind),
    })
}

// What a type is, whose parts have at most so many levels, and the constraint before `OF`.
#[cycle(types)]
fn form_at(reader: &mut Reader, levels: u32) -> Result<(Form, Option<Place>), Stop> {
    match reader.kind() {
        Kind::Reserved(Reserved::Sequence) => group_at(reader, levels, Group::Sequence),
        Kind::Reserved(Reserved::Set) => group_at(reader, levels, Group::Set),
        _ => Ok((single_at(reader, levels)?, None)),
    }
}

// A type that is neither of SEQUENCE nor of SET.
#[cycle(types)]
fn single_at(reader: &mut Reader, levels: u32) -> Result<Form, Stop> {
    match reader.kind() {
        Kind::Reserved(Reserved::Choice) => choice_at(reader, levels),
        Kind::Reserved(word) => word_type_at(reader, word),
        Kind::Symbol(Symbol::OpenBracket) => tagged_at(reader, levels),
        Kind::Upper => named_type_at(reader),
        Kind::Lower => selection_at(reader, levels),
        _ => Err(reader.refuse()),
    }
}

// A type behind a tag, `OF` or `<`.
#[cycle(types)]
fn inner_at(reader: &mut Reader, levels: u32) -> Result<Box<Type>, Stop> {
    let inner = type_at(reader, levels)?;
    Ok(Box::new(reader.alloc, inner)?)
}

// SEQUENCE or SET, whose word stands in front.
#[cycle(types)]
fn group_at(reader: &mut Reader, levels: u32, group: Group) -> Result<(Form, Option<Place>), Stop> {
    reader.take();
    if reader.is_symbol(Symbol::OpenBrace) {
        return Ok((list_at(reader, levels, group)?, None));
    }
    let before = skip_size(reader)?;
    reader.word(Reserved::Of)?;
    let name = match reader.kind() {
        Kind::Lower => Some(reader.name(Kind::Lower)?),
        _ => None,
    };
    let inner = inner_at(reader, levels)?;
    Ok((Form::Of(group, name, inner), before))
}

// Components in braces.
#[cycle(types)]
fn list_at(reader: &mut Reader, levels: u32, group: Group) -> Result<Form, Stop> {
    let mut found = Components::new(reader.alloc);
    add_components(reader, levels, &mut found)?;
    Ok(Form::List(group, found))
}

// Adds the components in braces.
#[cycle(types)]
fn add_components(reader: &mut Reader, levels: u32, found: &mut Components) -> Result<(), Stop> {
    let mut extension = Extension::new();
    reader.symbol(Symbol::OpenBrace)?;
    if reader.passes_symbol(Symbol::CloseBrace) {
        return Ok(());
    }
    for turn in 0..=MAX_PARTS {
        if !extension.begin(reader)? {
            let component = component_at(reader, levels, turn, extension.group)?;
            found.put(extension.section(), component)?;
        }
        if extension.end(reader)? {
            found.marker = extension.marker;
            return Ok(());
        }
    }
    Err(reader.stop(Reason::TooManyParts))
}

// A component, or COMPONENTS OF, behind so many parts of its list.
#[cycle(types)]
fn component_at(
    reader: &mut Reader,
    levels: u32,
    before: u32,
    group: Option<Place>,
) -> Result<Component, Stop> {
    let name = if reader.passes_word(Reserved::Components) {
        reader.word(Reserved::Of)?;
        None
    } else {
        Some(part_name_at(reader, before)?)
    };
    let body = type_at(reader, levels)?;
    presence_at(reader).map(|presence| Component {
        name,
        body,
        presence,
        group,
    })
}

// What stands behind the type of a component.
fn presence_at(reader: &mut Reader) -> Result<Presence, Stop> {
    if reader.passes_word(Reserved::Optional) {
        return Ok(Presence::Optional);
    }
    if reader.passes_word(Reserved::Default) {
        return Ok(Presence::Default(value_at(reader)?));
    }
    Ok(Presence::Required)
}

// CHOICE, whose word stands in front.
#[cycle(types)]
fn choice_at(reader: &mut Reader, levels: u32) -> Result<Form, Stop> {
    let mut found = Alternatives::new(reader.alloc);
    reader.take();
    add_alternatives(reader, levels, &mut found)?;
    Ok(Form::Choice(found))
}

// Adds the alternatives in braces.
#[cycle(types)]
fn add_alternatives(
    reader: &mut Reader,
    levels: u32,
    found: &mut Alternatives,
) -> Result<(), Stop> {
    let mut extension = Extension::new();
    reader.symbol(Symbol::OpenBrace)?;
    for turn in 0..=MAX_PARTS {
        if !extension.begin(reader)? {
            let alternatives = match extension.section() {
                Section::Root => &mut found.root,
                Section::Additions => &mut found.additions,
                // No alternative stands behind the second `...`.
                Section::Tail => return Err(reader.refuse()),
            };
            alternatives.push(alternative_at(reader, levels, turn)?)?;
        }
        if extension.end(reader)? {
            found.marker = extension.marker;
            return Ok(());
        }
    }
    Err(reader.stop(Reason::TooManyParts))
}

// An alternative, behind so many parts of its list.
#[cycle(types)]
fn alternative_at(reader: &mut Reader, levels: u32, before: u32) -> Result<Alternative, Stop> {
    let name = part_name_at(reader, before)?;
    let body = type_at(reader, levels)?;
    Ok(Alternative { name, body })
}

// A tag, and the type behind it.
#[cycle(types)]
fn tagged_at(reader: &mut Reader, levels: u32) -> Result<Form, Stop> {
    let tag = tag_at(reader)?;
    let inner = inner_at(reader, levels)?;
    Ok(Form::Tagged(tag, inner))
}

// The type of an alternative of a CHOICE.
#[cycle(types)]
fn selection_at(reader: &mut Reader, levels: u32) -> Result<Form, Stop> {
    let name = reader.name(Kind::Lower)?;
    reader.symbol(Symbol::Less)?;
    let inner = inner_at(reader, levels)?;
    Ok(Form::Selection(name, inner))
}
