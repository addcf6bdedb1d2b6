//! What a token stands for in a grammar.

ghost use Rattle.std.specs.Prelude.{◌≡◌};
ghost use Rattle.lexis.specs.Tokens.{IsSpan};
ghost use Rattle.lexis.specs.Signs.{sign_of};
ghost use Rattle.lexis.specs.Lexemes.{sign};

use crate::{Kind, Symbol, Token, Word, symbol_of, word_of};

/// What a token stands for: a word or a symbol is told apart from the others, and what may be spelled
/// in many ways comes with its spelling.
#[derive(Clone, Copy, Debug, PartialEq, Eq)]
pub enum Lexeme<'a> {
    /// A reserved word.
    Word(Word),
    /// A symbol.
    Symbol(Symbol),
    /// A name of a type or of a module.
    TypeName(&'a str),
    /// An identifier.
    Identifier(&'a str),
    /// A number.
    Number(u128),
    /// A binary string, with its apostrophes and its letter.
    Binary(&'a str),
    /// A hexadecimal string, with its apostrophes and its letter.
    Hex(&'a str),
    /// A character string, with its quotation marks.
    Chars(&'a str),
}

/// What the token stands for, which was read from this text (`tokens`, clause `spans`). Takes no memory.
pub fn lexeme_of<'a>(text: &'a str, token: Token) -> Lexeme<'a>
    requires { IsSpan text.now token }
    ensures { sign result ≡ sign_of text.now token }
{
    let spelling = &text[token.start..token.end];
    match token.kind {
        Kind::Reserved => match word_of(spelling.as_bytes()) {
            Some(word) => Lexeme::Word(word),
            None => unreachable!(),
        },
        Kind::Symbol => match symbol_of(spelling.as_bytes()) {
            Some(symbol) => Lexeme::Symbol(symbol),
            None => unreachable!(),
        },
        Kind::TypeName => Lexeme::TypeName(spelling),
        Kind::Identifier => Lexeme::Identifier(spelling),
        Kind::Number(number) => Lexeme::Number(number),
        Kind::Binary => Lexeme::Binary(spelling),
        Kind::Hex => Lexeme::Hex(spelling),
        Kind::Chars => Lexeme::Chars(spelling),
    }
}
