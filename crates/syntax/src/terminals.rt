//! From tokens to terminals with their places.

ghost use Rattle.std.specs.Prelude.{◌≡◌, All, IfOk, map};
ghost use Rattle.lexis.specs.Tokens.{IsSpan};
ghost use Rattle.lexis.specs.Signs.{sign_of};
ghost use Rattle.syntax.specs.Reading.{terminal_sign};

use crate::terminal::Terminal;
use lexis::{Token, lexeme_of};
use std::alloc::{AllocError, Global};

/// A place in a text: how many octets stand before it, and its line and column.
#[derive(Clone, Copy)]
struct Place {
    offset: usize,
    line: u32,
    column: u32,
}

/// The terminals that the tokens of the text stand for.
pub fn terminals<'a>(
    alloc: Global,
    text: &'a str,
    tokens: &[Token],
) -> Result<Vec<Terminal<'a>>, AllocError>
    requires { All (IsSpan text.now) tokens.now }
    ensures { IfOk result (λ found. map terminal_sign found.items ≡ map (sign_of text.now) tokens.now) }
{
    let mut found = Vec::new(alloc);
    let mut place = Place {
        offset: 0,
        line: 1,
        column: 1,
    };
    for token in tokens {
        place = advanced(text, place, token.start);
        found.push(Terminal {
            lexeme: lexeme_of(text, *token),
            line: place.line,
            column: place.column,
        })?;
    }
    Ok(found)
}

// The place of the octet that stands behind so many octets of the text.
fn advanced(text: &str, from: Place, offset: usize) -> Place {
    let Some(octets) = text.as_bytes().get(from.offset..offset) else {
        return from;
    };
    let mut line = from.line;
    let mut column = from.column;
    for octet in octets {
        if *octet == b'\n' {
            line = line.saturating_add(1);
            column = 1;
        } else {
            column = column.saturating_add(1);
        }
    }
    Place {
        offset,
        line,
        column,
    }
}
