//! Symbols (X.680 clause 12, X.681).

ghost use Rattle.std.specs.Prelude.{◌≤◌, length, IfSome};

/// A symbol: the longer ones first, the others in order of their octets.
#[derive(Clone, Copy, PartialEq, Eq)]
pub enum Symbol {
    /// `::=`.
    Assignment,
    /// `...`.
    Ellipsis,
    /// `..`.
    Range,
    /// `[[`.
    OpenGroup,
    /// `]]`.
    CloseGroup,
    /// `!`.
    Exclamation,
    /// `(`.
    OpenParenthesis,
    /// `)`.
    CloseParenthesis,
    /// `,`.
    Comma,
    /// `-`.
    Hyphen,
    /// `.`.
    FullStop,
    /// `:`.
    Colon,
    /// `;`.
    Semicolon,
    /// `<`.
    Less,
    /// `>`.
    Greater,
    /// `@`.
    At,
    /// `[`.
    OpenBracket,
    /// `]`.
    CloseBracket,
    /// `^`.
    Caret,
    /// `{`.
    OpenBrace,
    /// `|`.
    VerticalBar,
    /// `}`.
    CloseBrace,
}

/// The symbol in front, the longest that can stand there, and how many octets it has.
pub(crate) fn symbol_in_front(octets: &[u8]) -> Option<(Symbol, usize)>
    ensures { IfSome result (λ found. (1 ≤ found.1) × (found.1 ≤ length octets.now)) }
{
    match octets {
        [b':', b':', b'=', ..] => Some((Symbol::Assignment, 3)),
        [b'.', b'.', b'.', ..] => Some((Symbol::Ellipsis, 3)),
        [b'.', b'.', ..] => Some((Symbol::Range, 2)),
        [b'[', b'[', ..] => Some((Symbol::OpenGroup, 2)),
        [b']', b']', ..] => Some((Symbol::CloseGroup, 2)),
        [octet, ..] => single(*octet).map(|symbol| (symbol, 1)),
        [] => None,
    }
}

// The symbol that the octet is by itself.
fn single(octet: u8) -> Option<Symbol> {
    match octet {
        b'!' => Some(Symbol::Exclamation),
        b'(' => Some(Symbol::OpenParenthesis),
        b')' => Some(Symbol::CloseParenthesis),
        b',' => Some(Symbol::Comma),
        b'-' => Some(Symbol::Hyphen),
        b'.' => Some(Symbol::FullStop),
        b':' => Some(Symbol::Colon),
        b';' => Some(Symbol::Semicolon),
        b'<' => Some(Symbol::Less),
        b'>' => Some(Symbol::Greater),
        b'@' => Some(Symbol::At),
        b'[' => Some(Symbol::OpenBracket),
        b']' => Some(Symbol::CloseBracket),
        b'^' => Some(Symbol::Caret),
        b'{' => Some(Symbol::OpenBrace),
        b'|' => Some(Symbol::VerticalBar),
        b'}' => Some(Symbol::CloseBrace),
        _ => None,
    }
}
