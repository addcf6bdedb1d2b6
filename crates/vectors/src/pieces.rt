//! Octets that come in pieces: a reader of pieces returns what `read` returns for all of them.

ghost use Rattle.std.specs.Prelude.{◌≤◌};

use crate::answers::{Fed, ReadFront, fed_by, fed_in_two};
use crate::checks::expect;
use crate::rows::Row;
use convert::Refusal;
use std::alloc::Global;
use std::test::Fail;

/// Feeds octets in two pieces by each cut, and one by one; many of them by 997.
pub fn check_pieces(alloc: Global, row: &Row, octets: &[u8], read: &ReadFront) -> Result<(), Fail> {
    if row.is_long() {
        return expect(agree_by(alloc, row, octets, 997, read), "fed by 997", row);
    }
    for at in 0..octets.len() {
        let pieces = (&octets[..at], &octets[at..]);
        expect(
            agree_in_two(alloc, row, pieces, read),
            "fed in two pieces",
            row,
        )?;
    }
    expect(agree_by(alloc, row, octets, 1, read), "fed one by one", row)
}

fn agree_in_two(alloc: Global, row: &Row, pieces: (&[u8], &[u8]), read: &ReadFront) -> bool {
    agree(&fed_in_two(alloc, row.ty, pieces), read)
}

fn agree_by(alloc: Global, row: &Row, octets: &[u8], size: usize, read: &ReadFront) -> bool
    requires { 1 ≤ size }
{
    agree(&fed_by(alloc, row.ty, octets, size), read)
}

// Whether a reader of pieces and `read` return the same; `read` refuses no octets with `Truncated`.
fn agree(fed: &Fed, read: &ReadFront) -> bool {
    match (fed, read) {
        (Ok(Some(fed)), Ok(read)) => fed == read,
        (Ok(None), Err(refusal)) => *refusal == Refusal::Truncated,
        (Err(fed), Err(read)) => fed == read,
        (Ok(_), _) => false,
        (Err(_), Ok(_)) => false,
    }
}

/// Feeds a proper front of an encoding, which a reader of pieces neither refuses nor takes for the whole.
pub fn check_front_fed(alloc: Global, row: &Row, front: &[u8]) -> Result<(), Fail> {
    let begun = match fed_in_two(alloc, row.ty, (&[], front)) {
        Ok(None) => front.is_empty(),
        Ok(Some(_)) => false,
        Err(refusal) => !front.is_empty() && refusal == Refusal::Truncated,
    };
    expect(begun, "a front that is fed", row)
}

/// Feeds octets whose front is the encoding of a row, and an octet behind it, which is not looked at.
pub fn check_end_fed(alloc: Global, row: &Row, octets: &[u8]) -> Result<(), Fail> {
    let used = match fed_in_two(alloc, row.ty, (&[], octets)) {
        Ok(Some((_, used))) => used,
        Ok(None) => 0,
        Err(_) => 0,
    };
    expect(used == row.octets.len(), "fed with an octet behind", row)
}
