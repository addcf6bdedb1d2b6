//! Prose, which stands outside modules.

ghost use Rattle.std.specs.Prelude.{◌≡◌, ◌≤◌, ◌+◌, length};
ghost use Rattle.published_tokens.specs.Gap.{IsWithin};

use crate::front::token_in_front;
use crate::gap::{Piece, piece_in_front};
use crate::token::Kind;

/// The piece of a gap in front. `takes_blocks` says whether `/*` begins a comment.
pub(crate) fn prose_piece(octets: &[u8], is_line_start: bool, takes_blocks: bool) -> Piece
    ensures { IsWithin octets.now result }
{
    match octets {
        [b'/', b'*', ..] if !takes_blocks => Piece::Nothing,
        _ => piece_in_front(octets, is_line_start),
    }
}

/// The token in front, and how many octets it has. A string stands on one line, and a mark that does not
/// begin one is by itself.
pub(crate) fn prose_token_in_front(octets: &[u8]) -> (Kind, usize)
    ensures { result.1 ≤ length octets.now }
{
    match octets {
        [b'"', behind @ ..] => line_string(behind),
        [b'\'', ..] => (Kind::Bad, 1),
        _ => token_in_front(octets),
    }
}

// The string in front, if it ends on its line, behind whose first mark these octets stand.
fn line_string(octets: &[u8]) -> (Kind, usize)
    ensures { result.1 ≤ length octets.now + 1 }
{
    let end = octets
        .iter()
        .position(|octet| matches!(*octet, b'"' | b'\n'));
    match end {
        Some(count) if octets[count] == b'"' => (Kind::Chars, count + 2),
        _ => (Kind::Bad, 1),
    }
}
