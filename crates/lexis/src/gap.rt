//! White space and comments (X.680, clause 12): two hyphens up to the next two or to the end of the line,
//! and `/*` up to its `*/`, which nests.
//!
//! Which octets are white space and which end a line is this project's own choice (`docs/PROFILE.md`).

ghost use Rattle.std.specs.Prelude.{◌≡◌, ℕ, ◌≤◌, length, drop, slice_index, true, IfSome, Some};
ghost use Rattle.lexis.specs.Octets.{is_white, is_line_end};
ghost use Rattle.lexis.specs.Gap.{IsLineRest, IsBlockRest, IsPiece, IsGap};

// Whether the octet is white space.
fn is_white(octet: u8) -> bool
    ensures { result ≡ is_white octet }
{
    matches!(octet, 9..=13 | 32)
}

// Whether the octet ends a line.
pub(crate) fn is_line_end(octet: u8) -> bool
    ensures { result ≡ is_line_end octet }
{
    matches!(octet, 10..=13)
}

// How many octets of a comment follow its first two hyphens.
fn line_rest(octets: &[u8]) -> usize
    ensures within { result ≤ length octets.now }
    ensures value { IsLineRest octets.now result }
{
    let mut count = 0;
    while count < octets.len() && !is_line_end(octets[count]) {
        if octets[count..].starts_with(b"--") {
            return count + 2;
        }
        count += 1;
    }
    count
}

// How many octets of a comment follow its `/*`. None: it is not closed. The comments that are open
// within it are counted.
fn block_rest(octets: &[u8]) -> Option<usize>
    ensures within { IfSome result (λ n. n ≤ length octets.now) }
    ensures value { IfSome result (λ n. IsBlockRest octets.now n) }
    ensures only { (n : ℕ) → IsBlockRest octets.now n → result ≡ Some n }
{
    let mut open = 0usize;
    let mut count = 0;
    while count < octets.len() {
        let rest = &octets[count..];
        if rest.starts_with(b"/*") {
            open += 1;
            count += 2;
        } else if !rest.starts_with(b"*/") {
            count += 1;
        } else if open == 0 {
            return Some(count + 2);
        } else {
            open -= 1;
            count += 2;
        }
    }
    None
}

// Whether white space stands in front.
fn begins_white(octets: &[u8]) -> bool
    ensures value { result ≡ is_white (slice_index octets.now 0) }
    ensures room { result ≡ true → 1 ≤ length octets.now }
{
    match octets {
        [octet, ..] => is_white(*octet),
        [] => false,
    }
}

// How many octets the white space or the comment has that stands in front, if one does.
fn piece(octets: &[u8]) -> Option<usize>
    ensures within { IfSome result (λ n. (1 ≤ n) × (n ≤ length octets.now)) }
    ensures value { IfSome result (λ n. IsPiece octets.now n) }
    ensures only { (n : ℕ) → IsPiece octets.now n → result ≡ Some n }
{
    if begins_white(octets) {
        Some(1)
    } else if octets.starts_with(b"--") {
        Some(2 + line_rest(&octets[2..]))
    } else if octets.starts_with(b"/*") {
        match block_rest(&octets[2..]) {
            Some(rest) => Some(2 + rest),
            None => None,
        }
    } else {
        None
    }
}

// How many octets of white space and comments stand in front. No more of them stands behind these.
pub(crate) fn gap(octets: &[u8]) -> usize
    ensures within { result ≤ length octets.now }
    ensures value { IsGap octets.now result }
    ensures whole { (n : ℕ) → ¬ IsPiece (drop result octets.now) n }
    ensures only { (n : ℕ) → IsGap octets.now n
        → ((m : ℕ) → ¬ IsPiece (drop n octets.now) m) → n ≡ result }
{
    let mut count = 0;
    while let Some(used) = piece(&octets[count..]) {
        count += used;
    }
    count
}
