//! Assignments (X.680 clause 16, X.681, X.683).

use crate::classes::fields_at;
use crate::simple::simple_of;
use crate::tree::{Assignment, Body, LeftOut, Type};
use crate::types::whole_type_at;
use crate::values::value_at;
use lexis::Word as Reserved;
use published_tokens::{
    Kind, Reader, Stop, Symbol, skip_brackets, skip_macro, skip_to_assignment, skip_to_word,
};
use std::mem::drop;

/// The assignment that stands in front.
pub(crate) fn assignment_at(reader: &mut Reader) -> Result<Assignment, Stop> {
    match reader.kind() {
        Kind::Upper => type_assignment_at(reader),
        Kind::Lower => value_assignment_at(reader),
        Kind::Reserved(word) if simple_of(word).is_some() => type_assignment_at(reader),
        _ => Err(reader.refuse()),
    }
}

// An assignment of a type, a class, a set or a macro. Older modules assign types whose names were reserved
// later.
fn type_assignment_at(reader: &mut Reader) -> Result<Assignment, Stop> {
    let name = reader.any_name()?;
    let has_parameters = skip_parameters(reader)?;
    let body = behind_upper_at(reader)?;
    Ok(Assignment {
        name,
        body: unless_parameterised(has_parameters, body),
    })
}

// What stands behind a name with a capital letter and its parameters.
fn behind_upper_at(reader: &mut Reader) -> Result<Body, Stop> {
    if reader.passes_symbol(Symbol::Assignment) {
        return right_side_at(reader);
    }
    if reader.is_spelled(b"MACRO") {
        reader.take();
        reader.symbol(Symbol::Assignment)?;
        return macro_at(reader);
    }
    set_at(reader)
}

// What is kept of an assignment: nothing of one with parameters.
fn unless_parameterised(has_parameters: bool, body: Body) -> Body {
    if !has_parameters {
        return body;
    }
    drop(body);
    Body::LeftOut(LeftOut::Parameterised)
}

// Passes parameters, if they stand in front. Whether they did.
fn skip_parameters(reader: &mut Reader) -> Result<bool, Stop> {
    let found = reader.is_symbol(Symbol::OpenBrace);
    if found {
        skip_brackets(reader, Symbol::OpenBrace)?;
    }
    Ok(found)
}

// What stands behind a name with a capital letter and `::=`.
fn right_side_at(reader: &mut Reader) -> Result<Body, Stop> {
    match reader.kind() {
        Kind::Reserved(Reserved::Class) => class_at(reader),
        Kind::Reserved(Reserved::Begin) => macro_at(reader),
        Kind::Symbol(Symbol::OpenBrace) => {
            skip_brackets(reader, Symbol::OpenBrace)?;
            Ok(Body::LeftOut(LeftOut::Set))
        }
        _ => type_at(reader),
    }
}

// A type, or the use of a macro, which its name begins.
fn type_at(reader: &mut Reader) -> Result<Body, Stop> {
    let found = whole_type_at(reader)?;
    if goes_on_as_macro(reader) {
        drop(found);
        return rest_of_macro_use_at(reader);
    }
    Ok(Body::Type(found))
}

// Whether a word of a macro's notation stands behind a name.
fn goes_on_as_macro(reader: &Reader) -> bool {
    reader.kind() == Kind::Upper && matches!(reader.second(), Kind::Chars | Kind::Lower)
}

// Passes the use of a macro, behind its name: a notation up to `SYNTAX`, and a type.
fn rest_of_macro_use_at(reader: &mut Reader) -> Result<Body, Stop> {
    skip_to_word(reader, Reserved::Syntax)?;
    reader.word(Reserved::Syntax)?;
    skip_type(reader)?;
    Ok(Body::LeftOut(LeftOut::Macro))
}

// Passes a type.
fn skip_type(reader: &mut Reader) -> Result<(), Stop> {
    drop(whole_type_at(reader)?);
    Ok(())
}

// A class, whose word stands in front. Its syntax is passed.
fn class_at(reader: &mut Reader) -> Result<Body, Stop> {
    reader.take();
    let fields = fields_at(reader)?;
    if reader.passes_word(Reserved::With) {
        reader.word(Reserved::Syntax)?;
        skip_brackets(reader, Symbol::OpenBrace)?;
    }
    Ok(Body::Class(fields))
}

// Passes a macro's definition: its body, or the name of another macro.
fn macro_at(reader: &mut Reader) -> Result<Body, Stop> {
    if reader.passes_word(Reserved::Begin) {
        skip_macro(reader)?;
    } else {
        reader.name(Kind::Upper)?;
    }
    Ok(Body::LeftOut(LeftOut::Macro))
}

// Passes a set of objects or values, whose class or type stands in front.
fn set_at(reader: &mut Reader) -> Result<Body, Stop> {
    skip_type(reader)?;
    reader.symbol(Symbol::Assignment)?;
    skip_brackets(reader, Symbol::OpenBrace)?;
    Ok(Body::LeftOut(LeftOut::Set))
}

// An assignment of a value or an object.
fn value_assignment_at(reader: &mut Reader) -> Result<Assignment, Stop> {
    let name = reader.name(Kind::Lower)?;
    let has_parameters = skip_parameters(reader)?;
    let governor = whole_type_at(reader)?;
    let body = behind_governor_at(reader, governor)?;
    Ok(Assignment {
        name,
        body: unless_parameterised(has_parameters, body),
    })
}

// What stands behind the name of a value or an object, and a type or the name of a macro.
fn behind_governor_at(reader: &mut Reader, governor: Type) -> Result<Body, Stop> {
    if reader.passes_symbol(Symbol::Assignment) {
        return value_of_at(reader, governor);
    }
    drop(governor);
    object_at(reader)
}

// The value of this type that stands in front.
fn value_of_at(reader: &mut Reader, governor: Type) -> Result<Body, Stop> {
    value_at(reader).map(|value| Body::Value(governor, value))
}

// Passes an object in the notation of a macro, up to the end of its value.
fn object_at(reader: &mut Reader) -> Result<Body, Stop> {
    skip_to_assignment(reader)?;
    reader.symbol(Symbol::Assignment)?;
    drop(value_at(reader)?);
    Ok(Body::LeftOut(LeftOut::Object))
}
