//! What sinks take, and when they fail.

use crate::dripping::Filling;
use devices::{Failed, Sink, ToVec, ToWriter, write_all};
use std::alloc::Global;
use std::io::ErrorKind;
use std::test::Fail;
use test_tables::{Table, check, four, prints};

// Whether a sink takes octets, and its vector then has these.
fn takes(sink: &mut ToVec, octets: &[u8], want: &[u8]) -> bool {
    !sink.failed() && sink.write(octets) == Ok(octets.len()) && sink.as_slice() == want
}

#[test]
fn vectors(rt: HostRuntime) -> Result<(), Fail> {
    let mut octets = Vec::new(rt.alloc());
    octets.push(b'a')?;
    let mut sink = ToVec::new(octets);
    let is_so = takes(&mut sink, b"", b"a")
        && takes(&mut sink, b"bc", b"abc")
        && takes(&mut sink, b"d", b"abcd")
        && !sink.failed();
    assert!(rt; is_so);
    assert!(rt; sink.into_vec().as_slice() == b"abcd".as_slice());
    Ok(())
}

#[test]
fn writers_that_take_all(rt: HostRuntime) {
    let mut sink = ToWriter::new(Vec::new(rt.alloc()));
    let is_so = write_all(&mut sink, b"abc") == Ok(())
        && !sink.failed()
        && sink.write(b"") == Ok(0);
    assert!(rt; is_so);
    assert!(rt; sink.into_inner().as_slice() == b"abc".as_slice());
}

// What is returned of a writer that is to take all, whether the sink has failed, and what was taken.
fn written(filling: Filling) -> (Result<(), usize>, bool, Vec<u8>) {
    let mut sink = ToWriter::new(filling);
    let result = write_all(&mut sink, b"abcde");
    let failed = sink.failed();
    (result, failed, sink.into_inner().taken)
}

// Whether a writer that fails so is as the columns of a row say.
fn is_written(alloc: Global, row: &str, then: ErrorKind) -> Result<bool, Fail> {
    let (most, good_calls, want, taken) = four(row)?;
    let (result, failed, found) = written(Filling {
        taken: Vec::new(alloc),
        most: most.parse::<usize>()?,
        good_calls: good_calls.parse::<usize>()?,
        then,
    });
    let is_so = failed == result.is_err() && found.as_slice() == taken.as_bytes();
    Ok(is_so && prints(alloc, &result, want)?)
}

// Writers that fail, also by an error that says that the call was interrupted.
struct FailingWriters;

impl Table for FailingWriters {
    fn holds(&self, alloc: Global, row: &str) -> Result<bool, Fail> {
        let is_full = is_written(alloc, row, ErrorKind::StorageFull)?;
        Ok(is_full && is_written(alloc, row, ErrorKind::Interrupted)?)
    }
}

// most octets a call | how many calls go well | what is returned | what was taken
const FAILING_WRITERS: &str = "\
1 | 0 | Err(0) |
1 | 1 | Err(1) | a
1 | 2 | Err(2) | ab
1 | 4 | Err(4) | abcd
1 | 5 | Ok(()) | abcde
2 | 1 | Err(2) | ab
2 | 2 | Err(4) | abcd
2 | 3 | Ok(()) | abcde
9 | 0 | Err(0) |
9 | 1 | Ok(()) | abcde";

#[test]
fn writers_that_fail(rt: HostRuntime) -> Result<(), Fail> {
    check(rt.alloc(), &FailingWriters, FAILING_WRITERS)
}

#[test]
fn a_writer_that_takes_none(rt: HostRuntime) {
    let mut sink = ToWriter::new(Filling {
        taken: Vec::new(rt.alloc()),
        most: 0,
        good_calls: 9,
        then: ErrorKind::Other,
    });
    // none of none is no failure
    assert!(rt; sink.write(b"") == Ok(0) && !sink.failed());
    assert!(rt; sink.write(b"a") == Err(Failed) && sink.failed());
}
