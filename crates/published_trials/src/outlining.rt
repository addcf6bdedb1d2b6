//! Trees as short texts.

use published::{
    Alternative, Alternatives, Arc, Assignment, Body, Component, Components, Field, Form, Group,
    Item, Items, LeftOut, NamedNumber, Number, Presence, Reference, SignedNumber, TagClass,
    TagMode, Type, Value, ValueForm, Word,
};
use std::alloc::{AllocError, Global};

type Outcome = Result<(), AllocError>;

/// The assignment as a text of one line.
pub fn outline(alloc: Global, assignment: &Assignment) -> Result<String, AllocError> {
    let mut out = String::new(alloc);
    put_word(&mut out, &assignment.name)?;
    match &assignment.body {
        Body::Type(found) => {
            out.push_str(" = ")?;
            put_type(&mut out, found)?;
        }
        Body::Value(governor, value) => {
            out.push_str(" : ")?;
            put_type(&mut out, governor)?;
            out.push_str(" = ")?;
            put_value(&mut out, value)?;
        }
        Body::Class(fields) => put_fields(&mut out, fields)?,
        Body::LeftOut(left) => {
            out.push_str(" left out: ")?;
            out.push_str(name_of(*left))?;
        }
    }
    Ok(out)
}

// The fields of a class, with `=` behind one whose type is not open.
fn put_fields(out: &mut String, fields: &[Field]) -> Outcome {
    out.push_str(" class")?;
    for field in fields {
        out.push(' ')?;
        put_word(out, &field.name)?;
        if !field.is_open {
            out.push('=')?;
        }
    }
    Ok(())
}

fn name_of(left: LeftOut) -> &'static str {
    match left {
        LeftOut::Set => "set",
        LeftOut::Parameterised => "parameterised",
        LeftOut::Macro => "macro",
        LeftOut::Object => "object",
    }
}

fn put_word(out: &mut String, word: &Word) -> Outcome {
    out.push_str(word.name.as_str())
}

// A type, with `*` behind it where it has a constraint.
#[cycle(outline)]
fn put_type(out: &mut String, found: &Type) -> Outcome {
    put_form(out, &found.form)?;
    if found.constraint.is_some() {
        out.push('*')?;
    }
    Ok(())
}

#[cycle(outline)]
fn put_form(out: &mut String, form: &Form) -> Outcome {
    match form {
        Form::Simple(simple) => write!(out, "{simple:?}"),
        Form::Reference(name) => put_reference(out, name),
        Form::Parameterised(name) => put_behind(out, name, "{}"),
        Form::Field(class, Some(field)) => {
            put_behind(out, class, ".")?;
            put_word(out, field)
        }
        Form::Field(class, None) => put_behind(out, class, ".&.&"),
        Form::InstanceOf(class) => put_behind(out, class, " instance"),
        Form::Any(None) => out.push_str("any"),
        Form::Any(Some(word)) => {
            out.push_str("any by ")?;
            put_word(out, word)
        }
        Form::Enumerated(items) => put_items(out, items),
        Form::NamedNumbers(numbers) => put_numbers(out, "int", numbers),
        Form::NamedBits(numbers) => put_numbers(out, "bits", numbers),
        Form::Tagged(tag, inner) => {
            put_tag(out, tag.class, tag.mode)?;
            put_number(out, &tag.number)?;
            out.push(' ')?;
            put_type(out, inner)
        }
        Form::Selection(word, inner) => {
            put_word(out, word)?;
            out.push('<')?;
            put_type(out, inner)
        }
        Form::Of(group, word, inner) => {
            put_group(out, *group)?;
            out.push_str(" of ")?;
            if let Some(word) = word {
                put_word(out, word)?;
                out.push(' ')?;
            }
            put_type(out, inner)
        }
        Form::List(group, components) => {
            put_group(out, *group)?;
            put_components(out, components)
        }
        Form::Choice(alternatives) => put_alternatives(out, alternatives),
    }
}

fn put_reference(out: &mut String, name: &Reference) -> Outcome {
    if let Some(module) = &name.module {
        out.push_str(module.as_str())?;
        out.push('.')?;
    }
    out.push_str(name.name.as_str())
}

fn put_behind(out: &mut String, name: &Reference, behind: &str) -> Outcome {
    put_reference(out, name)?;
    out.push_str(behind)
}

fn put_group(out: &mut String, group: Group) -> Outcome {
    out.push_str(match group {
        Group::Sequence => "seq",
        Group::Set => "set",
    })
}

fn put_tag(out: &mut String, class: TagClass, mode: TagMode) -> Outcome {
    out.push_str(match mode {
        TagMode::Unmarked => "",
        TagMode::Implicit => "i",
        TagMode::Explicit => "e",
    })?;
    out.push_str(match class {
        TagClass::Universal => "U",
        TagClass::Application => "A",
        TagClass::ContextSpecific => "C",
        TagClass::Private => "P",
    })
}

fn put_signed(out: &mut String, number: SignedNumber) -> Outcome {
    let magnitude = number.magnitude;
    if number.negative {
        out.push('-')?;
    }
    write!(out, "{magnitude}")
}

fn put_number(out: &mut String, number: &Number) -> Outcome {
    match number {
        Number::Literal(literal) => put_signed(out, *literal),
        Number::Name(name) => put_reference(out, name),
    }
}

fn put_numbers(out: &mut String, front: &str, numbers: &[NamedNumber]) -> Outcome {
    out.push_str(front)?;
    for number in numbers {
        out.push(' ')?;
        put_word(out, &number.name)?;
        out.push('=')?;
        put_number(out, &number.number)?;
    }
    Ok(())
}

fn put_items(out: &mut String, items: &Items) -> Outcome {
    out.push_str("enum")?;
    put_list(out, &items.root)?;
    if items.marker.is_some() {
        out.push_str(" ...")?;
    }
    put_list(out, &items.additions)
}

fn put_list(out: &mut String, items: &[Item]) -> Outcome {
    for item in items {
        out.push(' ')?;
        put_word(out, &item.name)?;
        if let Some(number) = &item.number {
            out.push('=')?;
            put_number(out, number)?;
        }
    }
    Ok(())
}

#[cycle(outline)]
fn put_components(out: &mut String, components: &Components) -> Outcome {
    out.push_str(" {")?;
    for component in &components.root {
        put_component(out, component)?;
    }
    if components.marker.is_some() {
        out.push_str(" ...")?;
    }
    for component in &components.additions {
        put_component(out, component)?;
    }
    if !components.tail.is_empty() {
        out.push_str(" |")?;
    }
    for component in &components.tail {
        put_component(out, component)?;
    }
    out.push_str(" }")
}

// A component, with its name or `of`, and `@` where it stands in `[[ ]]`.
#[cycle(outline)]
fn put_component(out: &mut String, component: &Component) -> Outcome {
    out.push(' ')?;
    match &component.name {
        Some(word) => put_word(out, word)?,
        None => out.push_str("of")?,
    }
    out.push_str(if component.group.is_some() { "@ " } else { " " })?;
    put_type(out, &component.body)?;
    put_presence(out, &component.presence)
}

fn put_presence(out: &mut String, presence: &Presence) -> Outcome {
    match presence {
        Presence::Required => Ok(()),
        Presence::Optional => out.push('?'),
        Presence::Default(value) => {
            out.push_str(" := ")?;
            put_value(out, value)
        }
    }
}

#[cycle(outline)]
fn put_alternatives(out: &mut String, alternatives: &Alternatives) -> Outcome {
    out.push_str("choice {")?;
    for alternative in &alternatives.root {
        put_alternative(out, alternative)?;
    }
    if alternatives.marker.is_some() {
        out.push_str(" ...")?;
    }
    for alternative in &alternatives.additions {
        put_alternative(out, alternative)?;
    }
    out.push_str(" }")
}

#[cycle(outline)]
fn put_alternative(out: &mut String, alternative: &Alternative) -> Outcome {
    out.push(' ')?;
    put_word(out, &alternative.name)?;
    out.push(' ')?;
    put_type(out, &alternative.body)
}

fn put_value(out: &mut String, value: &Value) -> Outcome {
    match &value.form {
        ValueForm::True => out.push_str("true"),
        ValueForm::False => out.push_str("false"),
        ValueForm::Null => out.push_str("null"),
        ValueForm::Number(number) => put_signed(out, *number),
        ValueForm::Name(name) => put_reference(out, name),
        ValueForm::Binary(text) | ValueForm::Hex(text) | ValueForm::Chars(text) => {
            out.push_str(text.as_str())
        }
        ValueForm::Names(names) => put_names(out, names),
        ValueForm::Oid(arcs) => put_arcs(out, arcs),
        ValueForm::LeftOut => out.push_str("left out"),
    }
}

fn put_names(out: &mut String, names: &[Word]) -> Outcome {
    out.push('{')?;
    for word in names {
        out.push(' ')?;
        put_word(out, word)?;
    }
    out.push_str(" }")
}

fn put_arcs(out: &mut String, arcs: &[Arc]) -> Outcome {
    out.push_str("oid")?;
    for arc in arcs {
        out.push(' ')?;
        put_arc(out, arc)?;
    }
    Ok(())
}

fn put_arc(out: &mut String, arc: &Arc) -> Outcome {
    match arc {
        Arc::Number(number) => write!(out, "{number}"),
        Arc::Name(name) => out.push_str(name.as_str()),
        Arc::Named(name, number) => {
            out.push_str(name.as_str())?;
            out.push('=')?;
            put_number(out, number)
        }
    }
}
