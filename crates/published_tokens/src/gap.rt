//! Gaps between tokens: white space, comments (X.680 clause 12), feet and heads of pages.

ghost use Rattle.std.specs.Prelude.{◌≤◌, length};
ghost use Rattle.published_tokens.specs.Gap.{IsWithin, IsWithinLine};

use crate::page::page_line;

/// What stands in front.
#[derive(Clone, Copy)]
pub(crate) enum Piece {
    /// So many octets of a gap, at least one.
    Of(usize),
    /// A comment that is not closed.
    Unclosed,
    /// No gap.
    Nothing,
}

/// Whether the octet is white space.
pub(crate) fn is_white(octet: u8) -> bool {
    matches!(octet, 9..=13 | 32)
}

/// The piece of a gap in front. `is_line_start` says whether a line begins there.
pub(crate) fn piece_in_front(octets: &[u8], is_line_start: bool) -> Piece
    ensures { IsWithin octets.now result }
{
    if is_line_start {
        if let Some(count) = page_line(octets) {
            return Piece::Of(count);
        }
    }
    match octets {
        [b'\n', ..] => Piece::Of(1),
        [b'-', b'-', ..] => Piece::Of(2 + line_rest(&octets[2..])),
        [b'/', b'*', ..] => block(octets),
        _ => blanks(octets),
    }
}

// The white space in front, up to the end of its line.
fn blanks(octets: &[u8]) -> Piece
    ensures { IsWithin octets.now result }
{
    let count = octets
        .iter()
        .take_while(|octet| is_white(**octet) && **octet != b'\n')
        .count();
    if count >= 1 {
        Piece::Of(count)
    } else {
        Piece::Nothing
    }
}

// How many octets of a comment follow its first two hyphens: up to the next two, or to the end of the line.
// A line of hyphens is a comment, however many there are.
fn line_rest(octets: &[u8]) -> usize
    ensures { result ≤ length octets.now }
{
    let hyphens = octets.iter().take_while(|octet| **octet == b'-').count();
    match octets.get(hyphens..) {
        Some([b'\n' | b'\r', ..]) => hyphens,
        // As many comments of four hyphens as there are.
        _ if hyphens >= 2 => 2 + (hyphens - 2) / 4 * 4,
        _ => comment_rest(octets),
    }
}

// How many octets of a comment follow its first two hyphens, where more than hyphens stand in the line.
fn comment_rest(octets: &[u8]) -> usize
    ensures within { result ≤ length octets.now }
    ensures line { IsWithinLine octets.now result }
{
    let mut count = 0;
    while count < octets.len() && !matches!(octets[count], 10..=13) {
        if octets[count] == b'-' && count + 1 < octets.len() && octets[count + 1] == b'-' {
            return count + 2;
        }
        count += 1;
    }
    count
}

// The comment in front of these octets, which begin `/*`. Comments within it are counted.
fn block(octets: &[u8]) -> Piece
    ensures { IsWithin octets.now result }
{
    let mut open = 0u32;
    let mut count = 0;
    while count < octets.len() {
        let rest = &octets[count..];
        if rest.starts_with(b"/*") {
            open = open.saturating_add(1);
            count += 2;
        } else if !rest.starts_with(b"*/") {
            count += 1;
        } else {
            open = open.saturating_sub(1);
            count += 2;
            if open == 0 {
                return Piece::Of(count);
            }
        }
    }
    Piece::Unclosed
}
