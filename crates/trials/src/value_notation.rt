//! Values from their notation: words with one space between them.
//!
//! A value without parts is a word: `TRUE`, `FALSE`, `NULL`, the number of an INTEGER, or one of these kinds and
//! behind a colon what it holds: `wide:0080` with the contents octets of an INTEGER, `enum:3`, `octets:4142`,
//! `text:'Jo'`, `bits:AAF0/4` with the number of unused bits, `oid:2.999.3`, `relative:8.1`; `none` stands for no arcs. One with parts stands between a word that ends with `(`
//! and the word `)`: `fields(`, in which `-` is a component that has no value, `items(` or, for an alternative, its
//! number, as `0(`.

use crate::type_notation::typed;
use primitives::Bits;
use std::alloc::Global;
use std::test::Fail;
use test_tables::{Table, arcs_of, is_refused, octets_of, three};
use types::{Refusal, Value, WellTyped};

/// The value of a notation.
pub fn value_of(alloc: Global, text: &str) -> Result<Value, Fail> {
    value_between(alloc, text, ' ')
}

/// The value of a notation that has this character between its words.
pub fn value_between(alloc: Global, text: &str, between: char) -> Result<Value, Fail> {
    let mut slots = Vec::new(alloc);
    let mut open = Vec::new(alloc);
    for word in text.split(between) {
        take_word(alloc, word, &mut slots, &mut open)?;
    }
    if !open.is_empty() {
        return Err("a value without an end".into());
    }
    only(slots)
}

/// Whether a column spells this value.
pub fn is_value(alloc: Global, value: &Value, column: &str) -> Result<bool, Fail> {
    Ok(*value == value_of(alloc, column)?)
}

/// Whether a column says how many octets were read and their value.
pub fn is_read_as(alloc: Global, value: &Value, used: usize, column: &str) -> Result<bool, Fail> {
    let (count, want) = column.split_once(' ').ok_or("no value behind a number")?;
    Ok(count.parse::<usize>()? == used && is_value(alloc, value, want)?)
}

/// Whether a column says what was read: how many octets and their value, or the refusal.
pub fn comes_to(
    alloc: Global,
    read: &Result<(Value, usize), Refusal>,
    column: &str,
) -> Result<bool, Fail> {
    match read {
        Ok((value, used)) => is_read_as(alloc, value, *used, column),
        Err(refusal) => is_refused(refusal.number(), column),
    }
}

/// What was read, or the refusal's number.
pub fn numbered<T>(read: Result<T, Refusal>) -> Result<T, u8> {
    match read {
        Ok(found) => Ok(found),
        Err(refusal) => Err(refusal.number()),
    }
}

/// What a table shows whose rows begin with a type and a value.
pub trait ValuesTable {
    /// Whether a row holds of this type, of this value and of the columns behind them.
    fn holds(
        &self,
        alloc: Global,
        ty: &WellTyped,
        value: &Value,
        others: &str,
    ) -> Result<bool, Fail>;
}

/// Rows that begin with a type and a value.
pub struct OfValues<T>(pub T);

impl<T: ValuesTable> Table for OfValues<T> {
    fn holds(&self, alloc: Global, row: &str) -> Result<bool, Fail> {
        let (ty, value, others) = three(row)?;
        let ty = typed(alloc, ty)?;
        let value = value_of(alloc, value)?;
        self.0.holds(alloc, &ty, &value, others)
    }
}

// Takes a word: `slots` are those of all values that are open, and `open` has of each the word that it begins with and
// how many slots stand before its own.
fn take_word<'a>(
    alloc: Global,
    word: &'a str,
    slots: &mut Vec<Option<Value>>,
    open: &mut Vec<(&'a str, usize)>,
) -> Result<(), Fail> {
    if let Some(begun) = word.strip_suffix('(') {
        return Ok(open.push((begun, slots.len()))?);
    }
    let slot = match word {
        "-" => None,
        ")" => {
            let (begun, before) = open.pop().ok_or("an end of no value")?;
            let own = slots.split_off(before.min(slots.len()))?;
            Some(with_parts(alloc, begun, own)?)
        }
        _ => Some(leaf_of(alloc, word)?),
    };
    Ok(slots.push(slot)?)
}

// The value with parts that begins with this word.
fn with_parts(alloc: Global, begun: &str, slots: Vec<Option<Value>>) -> Result<Value, Fail> {
    Ok(match begun {
        "fields" => Value::Fields(slots),
        "items" => Value::Items(items_of(alloc, slots)?),
        _ => {
            let which = begun.parse::<usize>()?;
            Value::Chosen(which, Box::new(alloc, only(slots)?)?)
        }
    })
}

// The value in the one slot.
fn only(mut slots: Vec<Option<Value>>) -> Result<Value, Fail> {
    if slots.len() > 1 {
        return Err("more than one value".into());
    }
    let slot = slots.pop().ok_or("no value")?;
    Ok(slot.ok_or("no value in a slot")?)
}

fn items_of(alloc: Global, slots: Vec<Option<Value>>) -> Result<Vec<Value>, Fail> {
    let mut items = Vec::new(alloc);
    for slot in slots {
        items.push(slot.ok_or("an item without a value")?)?;
    }
    Ok(items)
}

// The value without parts that a word spells.
fn leaf_of(alloc: Global, word: &str) -> Result<Value, Fail> {
    let (kind, held) = word.split_once(':').unwrap_or(("", word));
    Ok(match kind {
        "" => plain(held)?,
        "wide" => Value::WideInteger(octets_of(alloc, held)?),
        "enum" => Value::Enumerated(held.parse::<i128>()?),
        "octets" => Value::Octets(octets_of(alloc, held)?),
        "text" => Value::Text(octets_of(alloc, held)?),
        "bits" => Value::Bits(bits_of(alloc, held)?),
        "oid" => Value::Oid(arcs_of(alloc, held)?),
        "relative" => Value::RelativeOid(arcs_of(alloc, held)?),
        _ => return Err("a value of no kind".into()),
    })
}

fn plain(word: &str) -> Result<Value, Fail> {
    Ok(match word {
        "TRUE" => Value::Boolean(true),
        "FALSE" => Value::Boolean(false),
        "NULL" => Value::Null,
        _ => Value::Integer(word.parse::<i128>()?),
    })
}

// The bits of octets but the last unused ones, whose number stands behind them.
fn bits_of(alloc: Global, held: &str) -> Result<Bits, Fail> {
    let (octets, unused) = held
        .split_once('/')
        .ok_or("how many are unused is missing")?;
    let octets = octets_of(alloc, octets)?;
    Ok(Bits::new(octets, unused.parse::<u8>()?).ok_or("too many bits unused")?)
}
