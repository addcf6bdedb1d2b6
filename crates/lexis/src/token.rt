//! Tokens, with where they stand in their text.

/// What a token is. Which word or symbol it is, and what a string has, the text at its span says.
#[derive(Clone, Copy, Debug, PartialEq, Eq)]
pub enum Kind {
    /// A word that begins with a capital letter and is reserved.
    Reserved,
    /// A word that begins with a capital letter and is not reserved: a name of a type or of a module.
    TypeName,
    /// A word that begins with a small letter.
    Identifier,
    /// A number, with its value.
    Number(u128),
    /// A binary string, as `'0110'B`.
    Binary,
    /// A hexadecimal string, as `'6A'H`.
    Hex,
    /// A character string, as `"Jones"`.
    Chars,
    /// One of the symbols, as `::=`.
    Symbol,
}

/// A token. Its span is the part of the text that it was read from, in octets.
#[derive(Clone, Copy, Debug, PartialEq, Eq)]
pub struct Token {
    /// What the token is.
    pub kind: Kind,
    /// Where its first octet stands, counted from 0.
    pub start: usize,
    /// Where the octet behind its last one stands.
    pub end: usize,
}
