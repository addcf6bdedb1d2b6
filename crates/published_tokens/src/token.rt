//! Tokens, with where they stand.

use crate::place::Place;
use crate::symbol::Symbol;
use lexis::Word;

/// What a token is.
#[derive(Clone, Copy, PartialEq, Eq)]
pub enum Kind {
    /// A word that X.680 reserves.
    Reserved(Word),
    /// Another word that begins with a capital letter. Words may have `_` in them.
    Upper,
    /// A word that begins with a small letter.
    Lower,
    /// `&` and a word.
    Field,
    /// A number, with its value.
    Number(u128),
    /// A binary string, as `'0110'B`.
    Binary,
    /// A hexadecimal string, as `'6A'H`.
    Hex,
    /// A character string, as `"Jones"`.
    Chars,
    /// A symbol.
    Symbol(Symbol),
    /// The end of the text.
    End,
    /// An octet with which no token begins.
    Bad,
    /// A comment or a string that does not end, up to the end of the text.
    Unclosed,
    /// A number above 2 to the power of 127.
    TooGreat,
}

/// A token. Its span is the part of the text that it was read from, in octets.
#[derive(Clone, Copy)]
pub struct Token {
    /// What it is.
    pub kind: Kind,
    /// How many octets of the text stand before it.
    pub start: usize,
    /// How many octets of the text stand before what is behind it.
    pub end: usize,
    /// Where it begins.
    pub place: Place,
}
