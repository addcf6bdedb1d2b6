//! Types that begin with a reserved word and hold no other type.

use crate::enumerated::enumerated_at;
use crate::numbers::named_numbers_at;
use crate::references::class_at;
use crate::simple::{Simple, simple_of};
use crate::tree::Form;
use lexis::Word as Reserved;
use published_tokens::{Kind, Reader, Stop, Symbol};

/// The type that begins with this reserved word, which stands in front.
pub(crate) fn word_type_at(reader: &mut Reader, word: Reserved) -> Result<Form, Stop> {
    match word {
        Reserved::Integer => integer_at(reader),
        Reserved::Bit => bits_at(reader),
        Reserved::Enumerated => {
            reader.take();
            enumerated_at(reader)
        }
        Reserved::Any => any_at(reader),
        Reserved::Instance => instance_at(reader),
        Reserved::Octet => pair_at(reader, Reserved::String, Simple::OctetString),
        Reserved::Object => pair_at(reader, Reserved::Identifier, Simple::ObjectIdentifier),
        Reserved::Embedded => pair_at(reader, Reserved::Pdv, Simple::EmbeddedPdv),
        Reserved::Character => pair_at(reader, Reserved::String, Simple::CharacterString),
        _ => single_at(reader, word),
    }
}

// The type that the word in front is by itself.
fn single_at(reader: &mut Reader, word: Reserved) -> Result<Form, Stop> {
    match simple_of(word) {
        Some(simple) => {
            reader.take();
            Ok(Form::Simple(simple))
        }
        None => Err(reader.refuse()),
    }
}

// The type that the word in front is with this one behind it.
fn pair_at(reader: &mut Reader, second: Reserved, simple: Simple) -> Result<Form, Stop> {
    reader.take();
    reader.word(second)?;
    Ok(Form::Simple(simple))
}

// INTEGER, with named numbers or without.
fn integer_at(reader: &mut Reader) -> Result<Form, Stop> {
    reader.take();
    if reader.is_symbol(Symbol::OpenBrace) {
        return Ok(Form::NamedNumbers(named_numbers_at(reader)?));
    }
    Ok(Form::Simple(Simple::Integer))
}

// BIT STRING, with named bits or without.
fn bits_at(reader: &mut Reader) -> Result<Form, Stop> {
    reader.take();
    reader.word(Reserved::String)?;
    if reader.is_symbol(Symbol::OpenBrace) {
        return Ok(Form::NamedBits(named_numbers_at(reader)?));
    }
    Ok(Form::Simple(Simple::BitString))
}

// ANY, perhaps with the component that defines it.
fn any_at(reader: &mut Reader) -> Result<Form, Stop> {
    reader.take();
    if !reader.is_spelled(b"DEFINED") {
        return Ok(Form::Any(None));
    }
    reader.take();
    if !reader.is_spelled(b"BY") {
        return Err(reader.refuse());
    }
    reader.take();
    Ok(Form::Any(Some(reader.name(Kind::Lower)?)))
}

// INSTANCE OF, with the class.
fn instance_at(reader: &mut Reader) -> Result<Form, Stop> {
    reader.take();
    reader.word(Reserved::Of)?;
    Ok(Form::InstanceOf(class_at(reader)?))
}
