//! Types from their notation: words with one space between them.
//!
//! A type without parts is a word: `BOOLEAN`, `INTEGER`, `NULL`, `OID`, `RELATIVE-OID`, `BITS`, `OCTETS`,
//! `ENUMERATED(1,3..5)` for one of these numbers, `NAMED-BITS(1,3)` for bits of which these have names, or the name of a
//! character string or a time; before it may stand the tag that it has in place of its universal one, as `[3]NULL` or
//! `[UNIVERSAL.0]NULL`. One with parts stands between a word that ends with `{` and the word `}`: `SEQUENCE{`, `SET{`,
//! `CHOICE{`, `SEQUENCE-OF{`, `SET-OF{` or, for an explicit tag, `[3]{`. The last word of a component ends with `?` where
//! it may be absent, and with `=` and a value where that is its default; `_` stands there for a space. A word that ends
//! with `*` and a number stands there as many times.

use crate::strings_and_times::kind_of;
use crate::value_notation::value_between;
use octets::{Class, Tag};
use std::alloc::Global;
use std::mem::drop;
use std::test::Fail;
use strings::TimeKind;
use test_tables::{Table, octets_of, three, times_of};
use types::{Alternative, Field, Item, Name, NamedBit, Presence, Ty, WellTyped};

/// The type of a notation, which keeps the rules.
pub fn typed(alloc: Global, text: &str) -> Result<WellTyped, Fail> {
    Ok(WellTyped::new(ty_of(alloc, text)?)?)
}

/// What a table shows whose rows begin with a type and octets.
pub trait OctetsTable {
    /// Whether a row holds of this type, of these octets and of the columns behind them.
    fn holds(
        &self,
        alloc: Global,
        ty: &WellTyped,
        octets: &[u8],
        others: &str,
    ) -> Result<bool, Fail>;
}

/// Rows that begin with a type and octets.
pub struct OfOctets<T>(pub T);

impl<T: OctetsTable> Table for OfOctets<T> {
    fn holds(&self, alloc: Global, row: &str) -> Result<bool, Fail> {
        let (ty, octets, others) = three(row)?;
        let octets = octets_of(alloc, octets)?;
        self.0.holds(alloc, &typed(alloc, ty)?, &octets, others)
    }
}

/// The type of a notation. All components, alternatives and items have one name.
pub fn ty_of(alloc: Global, text: &str) -> Result<Ty, Fail> {
    let mut parts = Vec::new(alloc);
    let mut open = Vec::new(alloc);
    for word in text.split(' ') {
        let (word, times) = times_of(word)?;
        for _ in 0..times {
            take_word(alloc, word, &mut parts, &mut open)?;
        }
    }
    if !open.is_empty() {
        return Err("a type without an end".into());
    }
    only(parts)
}

// Takes a word: `parts` are those of all types that are open, and `open` has of each the word that it begins with and
// how many parts stand before its own.
fn take_word<'a>(
    alloc: Global,
    word: &'a str,
    parts: &mut Vec<Field>,
    open: &mut Vec<(&'a str, usize)>,
) -> Result<(), Fail> {
    if let Some(begun) = word.strip_suffix('{') {
        return Ok(open.push((begun, parts.len()))?);
    }
    let part = part_of(alloc, word, parts, open)?;
    Ok(parts.push(part)?)
}

// The part that ends with a word.
fn part_of(
    alloc: Global,
    word: &str,
    parts: &mut Vec<Field>,
    open: &mut Vec<(&str, usize)>,
) -> Result<Field, Fail> {
    if let Some(bare) = word.strip_suffix('?') {
        return Ok(Field::optional(alloc, "a", ended(alloc, bare, parts, open)?)?);
    }
    match word.split_once('=') {
        Some((bare, value)) => {
            let value = value_between(alloc, value, '_')?;
            Ok(Field::default(alloc, "a", ended(alloc, bare, parts, open)?, value)?)
        }
        None => Ok(Field::required(alloc, "a", ended(alloc, word, parts, open)?)?),
    }
}

// The type that ends with a word without the sign of a component.
fn ended(
    alloc: Global,
    word: &str,
    parts: &mut Vec<Field>,
    open: &mut Vec<(&str, usize)>,
) -> Result<Ty, Fail> {
    if word != "}" {
        return without_parts(alloc, word);
    }
    let (begun, before) = open.pop().ok_or("an end of no type")?;
    let own = parts.split_off(before.min(parts.len()))?;
    with_parts(alloc, begun, own)
}

// The type with parts that begins with this word.
fn with_parts(alloc: Global, begun: &str, parts: Vec<Field>) -> Result<Ty, Fail> {
    Ok(match begun {
        "SEQUENCE" => Ty::sequence(parts),
        "SET" => Ty::set(parts),
        "SEQUENCE-OF" => Ty::sequence_of(alloc, only(parts)?)?,
        "SET-OF" => Ty::set_of(alloc, only(parts)?)?,
        "CHOICE" => Ty::choice(alternatives_of(alloc, parts)?),
        _ => match tagged(begun)? {
            Some((tag, "")) => only(parts)?.explicit(alloc, tag)?,
            _ => return Err("no type with parts".into()),
        },
    })
}

// The tag between brackets at the front of a word, where one stands there, and what stands behind it.
fn tagged(word: &str) -> Result<Option<(Tag, &str)>, Fail> {
    let Some((tag, behind)) = word.split_once(']') else {
        return Ok(None);
    };
    let tag = tag.strip_prefix('[').ok_or("a tag without a beginning")?;
    Ok(Some((tag_of(tag)?, behind)))
}

// The type of the one part, which is no component.
fn only(mut parts: Vec<Field>) -> Result<Ty, Fail> {
    if parts.len() > 1 {
        return Err("more than one part".into());
    }
    let (_, ty) = bare(parts.pop().ok_or("no part")?)?;
    Ok(ty)
}

// The name and the type of a part without the sign of a component.
fn bare(part: Field) -> Result<(Name, Ty), Fail> {
    let Field { name, ty, presence } = part;
    let is_bare = matches!(presence, Presence::Required);
    drop(presence);
    if is_bare {
        return Ok((name, ty));
    }
    drop(ty);
    Err("the sign of a component".into())
}

fn alternatives_of(alloc: Global, parts: Vec<Field>) -> Result<Vec<Alternative>, Fail> {
    let mut alternatives = Vec::new(alloc);
    for part in parts {
        let (name, ty) = bare(part)?;
        alternatives.push(Alternative { name, ty })?;
    }
    Ok(alternatives)
}

// The type without parts that a word names.
fn without_parts(alloc: Global, word: &str) -> Result<Ty, Fail> {
    match tagged(word)? {
        Some((tag, bare)) => Ok(untagged(alloc, bare)?.implicit(alloc, tag)?),
        None => untagged(alloc, word),
    }
}

fn untagged(alloc: Global, word: &str) -> Result<Ty, Fail> {
    Ok(match word {
        "BOOLEAN" => Ty::boolean(),
        "INTEGER" => Ty::integer(),
        "NULL" => Ty::null(),
        "OID" => Ty::oid(),
        "RELATIVE-OID" => Ty::relative_oid(),
        "BITS" => Ty::bits(),
        "OCTETS" => Ty::octets(),
        "GeneralizedTime" => Ty::time(TimeKind::Generalized),
        "UTCTime" => Ty::time(TimeKind::Utc),
        _ => match word.split_once('(') {
            Some((word, numbers)) => with_numbers(alloc, word, numbers)?,
            None => Ty::text(kind_of(word)?),
        },
    })
}

// The type of a word behind which numbers stand, and behind them `)`.
fn with_numbers(alloc: Global, word: &str, numbers: &str) -> Result<Ty, Fail> {
    let numbers = numbers.strip_suffix(')').ok_or("numbers without an end")?;
    Ok(match word {
        "ENUMERATED" => Ty::enumerated(items_of(alloc, numbers)?),
        "NAMED-BITS" => Ty::named_bits(named_bits_of(alloc, numbers)?),
        _ => return Err("no type with numbers".into()),
    })
}

fn items_of(alloc: Global, numbers: &str) -> Result<Vec<Item>, Fail> {
    let mut items = Vec::new(alloc);
    for word in numbers.split(',') {
        let (first, last) = word.split_once("..").unwrap_or((word, word));
        for number in first.parse::<i128>()?..=last.parse::<i128>()? {
            items.push(Item::new(alloc, "a", number)?)?;
        }
    }
    Ok(items)
}

fn named_bits_of(alloc: Global, numbers: &str) -> Result<Vec<NamedBit>, Fail> {
    let mut bits = Vec::new(alloc);
    for number in numbers.split(',') {
        bits.push(NamedBit::new(alloc, "a", number.parse::<u32>()?)?)?;
    }
    Ok(bits)
}

/// The tag that a column spells: class and number with a point between them, or the number of one that is
/// context-specific.
pub fn tag_of(column: &str) -> Result<Tag, Fail> {
    let (class, number) = column.split_once('.').unwrap_or(("CONTEXT", column));
    let class = match class {
        "UNIVERSAL" => Class::Universal,
        "APPLICATION" => Class::Application,
        "CONTEXT" => Class::Context,
        "PRIVATE" => Class::Private,
        _ => return Err("a class without a name".into()),
    };
    let number = number.parse::<u32>()?;
    Ok(Tag { class, number })
}
