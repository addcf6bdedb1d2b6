//! Values as literals that the profile takes behind DEFAULT (X.680 clause 25).

use crate::naming::spelled;
use crate::sources::Sources;
use crate::values::{Budget, ValueOf};
use published::{Form, Simple, Value, ValueForm};
use std::alloc::{AllocError, Global};
use syntax::{DefaultValue, SignedNumber};

impl<'a> Sources<'a> {
    /// The value as a literal. None: the profile has none for it.
    pub fn literal_of(
        &self,
        alloc: Global,
        found: ValueOf<'a>,
        budget: &mut Budget,
    ) -> Result<Option<DefaultValue>, AllocError> {
        match &found.base.ty.form {
            Form::Simple(simple) => self.literal_of_simple(alloc, *simple, found, budget),
            Form::NamedNumbers(_) => Ok(self.number_literal(found, budget)),
            Form::Enumerated(_) => item_literal(alloc, found.value),
            Form::NamedBits(named) => match &found.value.form {
                ValueForm::Names(bits) => {
                    let text = self.bits_of(alloc, found.base.module, named, bits, budget)?;
                    Ok(text.map(DefaultValue::Binary))
                }
                _ => bits_literal(alloc, found.value),
            },
            _ => Ok(None),
        }
    }

    // A value of a type that is named by reserved words alone.
    fn literal_of_simple(
        &self,
        alloc: Global,
        simple: Simple,
        found: ValueOf<'a>,
        budget: &mut Budget,
    ) -> Result<Option<DefaultValue>, AllocError> {
        match simple {
            Simple::Boolean => Ok(boolean_literal(found.value)),
            Simple::Integer => Ok(self.number_literal(found, budget)),
            Simple::BitString => bits_literal(alloc, found.value),
            Simple::OctetString => octets_literal(alloc, found.value),
            Simple::Utf8String
            | Simple::NumericString
            | Simple::PrintableString
            | Simple::Ia5String
            | Simple::VisibleString => characters_literal(alloc, found.value),
            _ => Ok(None),
        }
    }

    // A value of an INTEGER.
    fn number_literal(&self, found: ValueOf<'a>, budget: &mut Budget) -> Option<DefaultValue> {
        let number = self.integer_of(found, budget)?;
        Some(DefaultValue::Number(SignedNumber {
            negative: number.negative && number.magnitude > 0,
            magnitude: number.magnitude,
        }))
    }
}

fn boolean_literal(value: &Value) -> Option<DefaultValue> {
    match &value.form {
        ValueForm::True => Some(DefaultValue::True),
        ValueForm::False => Some(DefaultValue::False),
        _ => None,
    }
}

// A value of an ENUMERATED: the name of an item.
fn item_literal(alloc: Global, value: &Value) -> Result<Option<DefaultValue>, AllocError> {
    match &value.form {
        ValueForm::Name(reference) => Ok(Some(DefaultValue::Name(spelled(
            alloc,
            reference.name.as_str(),
        )?))),
        _ => Ok(None),
    }
}

// A value of a BIT STRING.
fn bits_literal(alloc: Global, value: &Value) -> Result<Option<DefaultValue>, AllocError> {
    match &value.form {
        ValueForm::Binary(text) => Ok(Some(DefaultValue::Binary(copied(alloc, text)?))),
        ValueForm::Hex(text) => Ok(Some(DefaultValue::Hex(copied(alloc, text)?))),
        _ => Ok(None),
    }
}

// A value of an OCTET STRING, in hexadecimal, since the profile takes no other: bits 0 make its last octet whole (X.680
// clause 23).
fn octets_literal(alloc: Global, value: &Value) -> Result<Option<DefaultValue>, AllocError> {
    let mut text = String::from_str(alloc, "'")?;
    match &value.form {
        ValueForm::Binary(bits) => {
            for four in digits_in(bits.as_str()).as_bytes().chunks(4) {
                text.push(digit_of(four))?;
            }
        }
        ValueForm::Hex(digits) => text.push_str(digits_in(digits.as_str()))?,
        _ => return Ok(None),
    }
    // One character more than digits.
    if text.len() % 2 == 0 {
        text.push('0')?;
    }
    text.push_str("'H")?;
    Ok(Some(DefaultValue::Hex(text)))
}

// What stands between the apostrophes.
fn digits_in(text: &str) -> &str {
    match text.split_once('\'') {
        Some((_, behind)) => match behind.split_once('\'') {
            Some((digits, _)) => digits,
            None => behind,
        },
        None => text,
    }
}

// The hexadecimal digit of four bits, of which the last that are not there are 0.
fn digit_of(bits: &[u8]) -> char {
    let mut number = 0u32;
    for place in 0..4 {
        let bit = bits.get(place) == Some(&b'1');
        number = number.saturating_mul(2).saturating_add(u32::from(bit));
    }
    match char::from_digit(number, 16) {
        Some(digit) => digit.to_ascii_uppercase(),
        None => '0',
    }
}

// A value of a character string type, on one line.
fn characters_literal(alloc: Global, value: &Value) -> Result<Option<DefaultValue>, AllocError> {
    match &value.form {
        ValueForm::Chars(text) if !text.as_str().contains(|c: char| c.is_ascii_control()) => {
            Ok(Some(DefaultValue::Chars(copied(alloc, text)?)))
        }
        _ => Ok(None),
    }
}

fn copied(alloc: Global, text: &String) -> Result<String, AllocError> {
    String::from_str(alloc, text.as_str())
}
