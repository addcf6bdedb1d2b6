//! Pieces of a source, and parts of what is written.

use crate::dripping::Dripping;
use devices::{Failed, FromReader, FromSlice, Piece, Source, whole_parts};
use std::alloc::{AllocError, Global};
use std::test::Fail;
use test_tables::{Table, check, numbers_of, three, two};

// So many octets, no two neighbours of them equal.
fn counted(alloc: Global, count: usize) -> Result<Vec<u8>, AllocError> {
    let mut octets = Vec::new(alloc);
    for i in 0..count {
        octets.push((i % 251) as u8)?;
    }
    Ok(octets)
}

// Whether a read into a piece goes well, and gives it so many octets, which are put behind `read`.
fn gives(
    source: &mut FromSlice<'_>,
    piece: &mut Piece,
    want: usize,
    read: &mut Vec<u8>,
) -> Result<bool, AllocError> {
    let is_given = !source.failed() && piece.read_from(source) == Ok(());
    read.extend_from_slice(piece.octets())?;
    Ok(is_given && piece.octets().len() == want)
}

// Whether a slice gives pieces of these sizes, and in them its octets.
fn has_pieces(alloc: Global, octets: &[u8], sizes: &[usize]) -> Result<bool, AllocError> {
    let mut source = FromSlice::new(octets);
    let mut piece = Piece::new();
    let mut is_so = piece.octets().is_empty();
    let mut read = Vec::new(alloc);
    for size in sizes {
        is_so &= gives(&mut source, &mut piece, *size, &mut read)?;
    }
    Ok(is_so && read.as_slice() == octets)
}

struct Pieces;

impl Table for Pieces {
    fn holds(&self, alloc: Global, row: &str) -> Result<bool, Fail> {
        let (size, sizes) = two(row)?;
        let octets = counted(alloc, size.parse::<usize>()?)?;
        let sizes = numbers_of(alloc, sizes)?;
        Ok(has_pieces(alloc, octets.as_slice(), sizes.as_slice())?)
    }
}

// octets of the source | octets of its first pieces
const PIECES: &str = "\
0      | 0 0 0
1      | 1 0 0
131071 | 131071 0 0
131072 | 131072 0 0
131073 | 131072 1 0
280000 | 131072 131072 17856";

#[test]
fn pieces_of_a_slice(rt: HostRuntime) -> Result<(), Fail> {
    check(rt.alloc(), &Pieces, PIECES)
}

// Whether a read into a piece returns this, and the source has failed only where it is refused.
fn returns(
    source: &mut FromReader<Dripping<'_>>,
    piece: &mut Piece,
    want: Result<(), Failed>,
) -> bool {
    !source.failed() && piece.read_from(source) == want && source.failed() == want.is_err()
}

#[test]
fn pieces_of_a_reader_that_fails(rt: HostRuntime) {
    let mut source = FromReader::new(Dripping::new(b"ab", 1));
    let mut piece = Piece::new();
    let is_given = returns(&mut source, &mut piece, Ok(()));
    assert!(rt; is_given && piece.octets() == b"a".as_slice());
    assert!(rt; returns(&mut source, &mut piece, Err(Failed)));
}

struct WholeParts;

impl Table for WholeParts {
    fn holds(&self, alloc: Global, row: &str) -> Result<bool, Fail> {
        let (lengths, at, count) = three(row)?;
        let lengths = numbers_of(alloc, lengths)?;
        let found = whole_parts(lengths.as_slice(), at.parse::<usize>()?);
        Ok(found == count.parse::<usize>()?)
    }
}

// lengths of the parts | how many octets of them | how many parts are whole
const PARTS: &str = "\
      | 0 | 0
      | 5 | 0
3     | 0 | 0
3     | 2 | 0
3     | 3 | 1
3 2   | 4 | 1
3 2   | 5 | 2
3 2 4 | 5 | 2
3 2 4 | 8 | 2
3 2 4 | 9 | 3
18446744073709551615 18446744073709551615 | 18446744073709551615 | 1";

#[test]
fn parts_that_are_whole(rt: HostRuntime) -> Result<(), Fail> {
    check(rt.alloc(), &WholeParts, PARTS)
}
