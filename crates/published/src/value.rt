//! Values, as far as defaults and numbers need them.

use crate::tree::Reference;
use names::Name;
use published_tokens::{Place, Word};
use syntax::SignedNumber;

/// A value.
#[derive(Drop)]
pub struct Value {
    /// Where it begins.
    pub place: Place,
    /// What it is.
    pub form: ValueForm,
}

/// What a value is. Strings are kept as they are spelled, quotes and letter included.
#[derive(Drop)]
pub enum ValueForm {
    /// `TRUE`.
    True,
    /// `FALSE`.
    False,
    /// `NULL`.
    Null,
    /// A number.
    Number(SignedNumber),
    /// A name: an item, a named number, or a value, which may have its module in front.
    Name(Reference),
    /// A binary string, in capitals. White space in it is dropped.
    Binary(String),
    /// A hexadecimal string, in capitals. White space in it is dropped.
    Hex(String),
    /// A character string.
    Chars(String),
    /// Names in braces with commas between, or nothing in braces: named bits, or the name of a value alone.
    Names(Vec<Word>),
    /// Arcs in braces.
    Oid(Vec<Arc>),
    /// What is recognised as none of these, and skipped.
    LeftOut,
}

/// A number where one is asked for: in a tag, behind an item, a named number or a named bit.
#[derive(Drop)]
pub enum Number {
    /// The number itself.
    Literal(SignedNumber),
    /// The name of a value.
    Name(Reference),
}

/// An arc of an object identifier.
#[derive(Drop)]
pub enum Arc {
    /// A number.
    Number(u128),
    /// A name: of an arc, or of a value that has the arcs in front.
    Name(Name),
    /// A name with its number in parentheses.
    Named(Name, Number),
}
