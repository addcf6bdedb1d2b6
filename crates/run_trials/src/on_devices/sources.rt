//! What sources give, and when they fail.

use crate::dripping::Dripping;
use devices::{Failed, FromReader, FromSlice, Source};
use std::alloc::{AllocError, Global};
use std::io::ErrorKind;
use std::test::Fail;
use test_tables::{Table, check, octets_of, prints, three};

// Reads three octets at a time, up to the end or a failure, and returns how many octets came last.
fn read_on<S: Source>(source: &mut S, out: &mut Vec<u8>) -> Result<Option<usize>, AllocError> {
    let mut last = None;
    let mut buffer = [0; 3];
    for _ in 0..8 {
        if source.failed() {
            return Ok(None);
        }
        match source.read(&mut buffer) {
            Ok(count) => {
                out.extend_from_slice(&buffer[..count])?;
                last = Some(count);
            }
            Err(Failed) => last = None,
        }
    }
    Ok(last)
}

// Slices that are read to their end.
struct WholeSlices;

impl Table for WholeSlices {
    fn holds(&self, alloc: Global, row: &str) -> Result<bool, Fail> {
        let octets = octets_of(alloc, row)?;
        let mut source = FromSlice::new(octets.as_slice());
        let mut out = Vec::new(alloc);
        let last = read_on(&mut source, &mut out)?;
        Ok(last == Some(0) && out == octets && !source.failed())
    }
}

// octets, which are all read
const SLICES: &str = "\
''
'abc'
'abcd'
'abcdefgh'";

#[test]
fn slices(rt: HostRuntime) -> Result<(), Fail> {
    check(rt.alloc(), &WholeSlices, SLICES)
}

#[test]
fn readers_over_slices(rt: HostRuntime) -> Result<(), Fail> {
    let mut source = FromReader::new(b"abcdefgh".as_slice());
    let mut out = Vec::new(rt.alloc());
    let last = read_on(&mut source, &mut out)?;
    assert!(rt; last == Some(0) && out.as_slice() == b"abcdefgh".as_slice() && !source.failed());
    assert!(rt; source.into_inner().is_empty());
    Ok(())
}

// Whether a reader that fails so is as the columns of a row say.
fn is_read(alloc: Global, row: &str, then: ErrorKind) -> Result<bool, Fail> {
    let (good_calls, given, last) = three(row)?;
    let mut source = FromReader::new(Dripping {
        octets: b"ab",
        good_calls: good_calls.parse::<usize>()?,
        then,
    });
    let mut out = Vec::new(alloc);
    let found = read_on(&mut source, &mut out)?;
    let is_so = out.as_slice() == given.as_bytes() && source.failed() == found.is_none();
    Ok(is_so && prints(alloc, &found, last)?)
}

// Readers that fail, also by an error that says that the call was interrupted.
struct FailingReaders;

impl Table for FailingReaders {
    fn holds(&self, alloc: Global, row: &str) -> Result<bool, Fail> {
        let is_other = is_read(alloc, row, ErrorKind::Other)?;
        Ok(is_other && is_read(alloc, row, ErrorKind::Interrupted)?)
    }
}

// how many calls go well | what they give | what the last call returned
const FAILING_READERS: &str = "\
0 |    | None
1 | a  | None
2 | ab | None
3 | ab | None
8 | ab | Some(0)";

#[test]
fn readers_that_fail(rt: HostRuntime) -> Result<(), Fail> {
    check(rt.alloc(), &FailingReaders, FAILING_READERS)
}

#[test]
fn an_empty_buffer_is_no_end(rt: HostRuntime) {
    let mut source = FromSlice::new(b"a");
    let mut buffer = [0; 2];
    let is_no_end = source.read(&mut []) == Ok(0);
    assert!(rt; is_no_end && source.read(&mut buffer) == Ok(1) && buffer == [b'a', 0]);
}
