//! Files, readers and writers that fail, and how often a writer is called.

use super::kind_of;
use super::printed::line_of;
use crate::dripping::Filling;
use program::{cannot_open, cannot_share_input, run};
use std::alloc::Global;
use std::io;
use std::io::{ErrorKind, Read, Write};
use std::test::Fail;
use test_tables::{Table, check, four, lines_of, octets_of, pair_of, three, two};

// A device whose every call fails.
#[derive(Drop)]
struct Failing(ErrorKind);

impl Read for Failing {
    fn read(&mut self, _buf: &mut [u8]) -> io::Result<usize> {
        Err(io::Error::from(self.0))
    }
}

impl Write for Failing {
    fn write(&mut self, _buf: &[u8]) -> io::Result<usize> {
        Err(io::Error::from(self.0))
    }

    fn flush(&mut self) -> io::Result<()> {
        Err(io::Error::from(self.0))
    }
}

// how the reader fails | the standard error | the status
const READERS: &str = "\
Other        | asn1x: cannot read in.hex;                 | 3
IsADirectory | asn1x: cannot read in.hex;                 | 3
OutOfMemory  | asn1x: refused 17 NoMemory after 0 values; | 4";

struct FailingReaders;

impl Table for FailingReaders {
    fn holds(&self, alloc: Global, row: &str) -> Result<bool, Fail> {
        let (kind, err, status) = three(row)?;
        let want = (
            Vec::new(alloc),
            lines_of(alloc, err)?,
            status.parse::<u8>()?,
        );
        let line = line_of(alloc, "convert,@builtin,NULL,in.hex,--hex,--to,der")?;
        // All that comes before the failure would be accepted.
        let mut input = b"0500".as_slice().chain(Failing(kind_of(kind)?));
        let mut out = Vec::new(alloc);
        let mut err = Vec::new(alloc);
        let status = run(alloc, &line, &[], &mut input, &mut out, &mut err);
        Ok((out, err, status) == want)
    }
}

#[test]
fn run_over_a_failing_reader(rt: HostRuntime) -> Result<(), Fail> {
    check(rt.alloc(), &FailingReaders, READERS)
}

// how many octets the writer takes | the standard error | the status
const WRITERS: &str = "\
0 | asn1x: refused 16 SinkFault after 0 values; | 3
3 | asn1x: refused 16 SinkFault after 0 values; | 3
// all but the line feed behind the value
4 | asn1x: refused 16 SinkFault after 1 values; | 3
5 |                                             | 0";

struct FailingWriters;

impl Table for FailingWriters {
    fn holds(&self, alloc: Global, row: &str) -> Result<bool, Fail> {
        let (room, err, status) = three(row)?;
        let want = (lines_of(alloc, err)?, status.parse::<u8>()?);
        let line = line_of(alloc, "convert,@builtin,NULL,in.hex,--hex,--to,der")?;
        let mut out = Filling::new(alloc, room.parse::<usize>()?);
        let mut err = Vec::new(alloc);
        let mut input = b"0500".as_slice();
        let status = run(alloc, &line, &[], &mut input, &mut out, &mut err);
        Ok((err, status) == want)
    }
}

#[test]
fn run_over_a_failing_writer(rt: HostRuntime) -> Result<(), Fail> {
    check(rt.alloc(), &FailingWriters, WRITERS)
}

// words | the input | the standard output | the status
const ERROR_WRITERS: &str = "\
convert,@builtin,NULL,in.hex,--hex,--to,der | 0500       | 0500; | 0
convert,@builtin,NULL,in.hex,--hex,--to,der | 0500050100 | 0500; | 1
convert,@builtin,REAL,in.hex,--hex,--to,der | 0500       |       | 64";

struct FailingErrorWriters;

impl Table for FailingErrorWriters {
    fn holds(&self, alloc: Global, row: &str) -> Result<bool, Fail> {
        let (words, input, out, status) = four(row)?;
        let want = (lines_of(alloc, out)?, status.parse::<u8>()?);
        let line = line_of(alloc, words)?;
        let mut out = Vec::new(alloc);
        let mut err = Failing(ErrorKind::BrokenPipe);
        let mut input = input.as_bytes();
        let status = run(alloc, &line, &[], &mut input, &mut out, &mut err);
        Ok((out, status) == want)
    }
}

#[test]
fn run_over_a_failing_error_writer(rt: HostRuntime) -> Result<(), Fail> {
    check(rt.alloc(), &FailingErrorWriters, ERROR_WRITERS)
}

// the path | the line that is printed
const PATHS: &str = "\
'no/such file'       | asn1x: cannot read no/such file;
'a', 0A, 'b'         | asn1x: cannot read a\\u{a}b;
'\r\u{7f}\u{85}é'    | asn1x: cannot read \\u{d}\\u{7f}\\u{85}é;
'a\\b \"c\"'         | asn1x: cannot read a\\b \"c\";
''                   | asn1x: cannot read ;";

struct Paths;

impl Table for Paths {
    fn holds(&self, alloc: Global, row: &str) -> Result<bool, Fail> {
        let (path, want) = two(row)?;
        let path = String::from_utf8(octets_of(alloc, path)?)?;
        let mut err = Vec::new(alloc);
        let status = cannot_open(alloc, path.as_str(), &mut err);
        Ok(status == 3 && err == lines_of(alloc, want)?)
    }
}

#[test]
fn file_that_cannot_be_opened(rt: HostRuntime) -> Result<(), Fail> {
    check(rt.alloc(), &Paths, PATHS)?;
    let mut err = Failing(ErrorKind::BrokenPipe);
    assert_eq!(rt; cannot_open(rt.alloc(), "no/such file", &mut err), 3);
    Ok(())
}

#[test]
fn an_input_that_cannot_be_shared(rt: HostRuntime) -> Result<(), Fail> {
    let mut err = Vec::new(rt.alloc());
    assert_eq!(rt; cannot_share_input(rt.alloc(), &mut err), 64);
    let want = lines_of(
        rt.alloc(),
        "asn1x: MODULE and INPUT cannot both be standard input;",
    )?;
    assert!(rt; err == want);
    Ok(())
}

// A writer that takes all, and counts its calls.
#[derive(Drop)]
struct Counting(usize);

impl Write for Counting {
    fn write(&mut self, buf: &[u8]) -> io::Result<usize> {
        self.0 = self.0.saturating_add(1);
        Ok(buf.len())
    }

    fn flush(&mut self) -> io::Result<()> {
        Ok(())
    }
}

// words | the input | how many writes to the standard output and to the standard error
const WRITES: &str = "\
check,@builtin,NULL,in.hex,--hex | 0500   | 1 0
check,@builtin,NULL,in.hex,--hex | 050005 | 0 1
check,@builtin,REAL,in.hex,--hex | 0500   | 0 1";

struct Writes;

impl Table for Writes {
    fn holds(&self, alloc: Global, row: &str) -> Result<bool, Fail> {
        let (words, input, want) = three(row)?;
        let line = line_of(alloc, words)?;
        let mut out = Counting(0);
        let mut err = Counting(0);
        let mut input = input.as_bytes();
        run(alloc, &line, &[], &mut input, &mut out, &mut err);
        Ok((out.0, err.0) == pair_of(want)?)
    }
}

#[test]
fn a_line_is_one_write(rt: HostRuntime) -> Result<(), Fail> {
    check(rt.alloc(), &Writes, WRITES)
}
