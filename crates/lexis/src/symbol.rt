//! The symbols (X.680, clause 12), each once.
//!
//! Those of the profile stand in its grammar. The others are read, and stand in no module of the
//! profile.

ghost use Rattle.std.specs.Prelude.{◌≡◌, ◌≢◌, ℕ, ◌≤◌, length, take, slice_index, true, All, IfSome, IfNone};
ghost use Rattle.lexis.specs.declared.symbol.Symbol.{Symbol};
ghost use Rattle.lexis.specs.Symbols.{symbol_text, is_symbol_of_profile, is_mark};
ghost use Rattle.lexis.specs.Fronts.{StandsApart, AnswersToken, IsOtherOctet};

use crate::Kind;
use crate::front::Refused;

/// A symbol.
#[derive(Clone, Copy, Debug, PartialEq, Eq)]
pub enum Symbol {
    /// `::=`.
    Assignment,
    /// `{`.
    OpenBrace,
    /// `}`.
    CloseBrace,
    /// `[`.
    OpenBracket,
    /// `]`.
    CloseBracket,
    /// `(`.
    OpenParenthesis,
    /// `)`.
    CloseParenthesis,
    /// `,`.
    Comma,
    /// `-`.
    Hyphen,
    /// `...`, in no module of the profile.
    Ellipsis,
    /// `..`, in no module of the profile.
    Range,
    /// `.`, in no module of the profile.
    FullStop,
    /// `:`, in no module of the profile.
    Colon,
    /// `;`, in no module of the profile.
    Semicolon,
    /// `|`, in no module of the profile.
    VerticalBar,
}

// All of them.
const SYMBOLS: [Symbol; 15] = [
    Symbol::Assignment,
    Symbol::OpenBrace,
    Symbol::CloseBrace,
    Symbol::OpenBracket,
    Symbol::CloseBracket,
    Symbol::OpenParenthesis,
    Symbol::CloseParenthesis,
    Symbol::Comma,
    Symbol::Hyphen,
    Symbol::Ellipsis,
    Symbol::Range,
    Symbol::FullStop,
    Symbol::Colon,
    Symbol::Semicolon,
    Symbol::VerticalBar,
];

impl Symbol {
    /// How the symbol is spelled.
    pub fn text(self) -> &'static str
        ensures { result.now ≡ symbol_text self }
    {
        match self {
            Symbol::Assignment => "::=",
            Symbol::OpenBrace => "{",
            Symbol::CloseBrace => "}",
            Symbol::OpenBracket => "[",
            Symbol::CloseBracket => "]",
            Symbol::OpenParenthesis => "(",
            Symbol::CloseParenthesis => ")",
            Symbol::Comma => ",",
            Symbol::Hyphen => "-",
            Symbol::Ellipsis => "...",
            Symbol::Range => "..",
            Symbol::FullStop => ".",
            Symbol::Colon => ":",
            Symbol::Semicolon => ";",
            Symbol::VerticalBar => "|",
        }
    }

    /// Whether the symbol stands in the grammar of the profile.
    pub fn is_of_profile(self) -> bool
        ensures { result ≡ is_symbol_of_profile self }
    {
        (self as u8) <= Symbol::Hyphen as u8
    }
}

/// The symbol that is spelled so. Takes no memory.
pub fn symbol_of(spelling: &[u8]) -> Option<Symbol>
    ensures found { IfSome result (λ symbol. spelling.now ≡ symbol_text symbol) }
    ensures none { IfNone result ((symbol : Symbol) → spelling.now ≢ symbol_text symbol) }
{
    find_among(&SYMBOLS, spelling)
}

// The symbol among these that is spelled so.
fn find_among(symbols: &[Symbol], spelling: &[u8]) -> Option<Symbol>
    ensures found { IfSome result (λ symbol. spelling.now ≡ symbol_text symbol) }
    ensures none { IfNone result (All (λ symbol. spelling.now ≢ symbol_text symbol) symbols.now) }
{
    symbols
        .iter()
        .find(|symbol| symbol.text().as_bytes() == spelling)
        .copied()
}

// How many octets the symbol in front has, the longest that can stand there, or 0.
fn symbol_octets(octets: &[u8]) -> usize
    ensures within { result ≤ length octets.now }
    ensures value { 1 ≤ result → (symbol : Symbol) × (take result octets.now ≡ symbol_text symbol) }
    ensures longest { (m : ℕ) (symbol : Symbol) → m ≤ length octets.now
        → take m octets.now ≡ symbol_text symbol → m ≤ result }
{
    if octets.starts_with(b"::=") {
        3
    } else if octets.starts_with(b"...") {
        3
    } else if octets.starts_with(b"..") {
        2
    } else if begins_mark(octets) {
        1
    } else {
        0
    }
}

// Whether an octet stands in front that is a symbol by itself.
fn begins_mark(octets: &[u8]) -> bool
    ensures value { result ≡ is_mark (slice_index octets.now 0) }
    ensures room { result ≡ true → 1 ≤ length octets.now }
{
    match octets {
        [octet, ..] => b"{}[](),-.:;|".contains(octet),
        [] => false,
    }
}

// The symbol in front.
pub(crate) fn symbol_in_front(octets: &[u8]) -> Result<(Kind, usize), Refused>
    requires apart { StandsApart octets.now }
    requires first { IsOtherOctet (slice_index octets.now 0) }
    ensures { AnswersToken octets.now result }
{
    let used = symbol_octets(octets);
    if used == 0 {
        return Err(Refused::Token);
    }
    Ok((Kind::Symbol, used))
}
