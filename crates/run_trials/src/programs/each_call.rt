//! Runs over devices of one octet a call that fail at each call in turn: what was done before is printed, and no more.

use super::printed::{Printed, input_of, line_of, out_of};
use crate::dripping::{Dripping, Filling};
use program::{Line, run};
use std::alloc::Global;
use std::test::Fail;
use test_tables::{Table, check, four, lines_of, pair_of, three, two};

// An OCTET STRING of one octet in a segment, and one of none.
const OCTETS: [u8; 9] = [0x24, 0x80, 0x04, 0x01, 0x41, 0x00, 0x00, 0x04, 0x00];

const NO_FAILURE: usize = 1_000;

// What a run prints and returns whose reader and writer fail after so many calls.
fn printed(
    alloc: Global,
    line: &Line,
    octets: &[u8],
    (good_reads, good_writes): (usize, usize),
) -> Printed {
    let mut input = Dripping::new(octets, good_reads);
    let mut out = Filling::new(alloc, good_writes);
    let mut err = Vec::new(alloc);
    let status = run(alloc, line, &[], &mut input, &mut out, &mut err);
    (out.taken, err, status)
}

// Where the first of two values ends, and where the second.
type Ends = (usize, usize);

// How many of two values end before so many octets have passed.
fn done_before((first, second): Ends, octets: usize) -> usize {
    if octets < first {
        0
    } else if octets < second {
        1
    } else {
        2
    }
}

// How much of what is printed stands for so many values.
fn printed_for((first, second): Ends, done: usize) -> usize {
    match done {
        0 => 0,
        1 => first,
        _ => second,
    }
}

// Whether so much of a text is printed, and that a device failed after so many values.
fn is_cut(
    alloc: Global,
    (out, err, status): Printed,
    front: Option<&[u8]>,
    (refusal, done): (&str, usize),
) -> Result<bool, Fail> {
    let want = format!(in alloc; "asn1x: refused {refusal} after {done} values\n")?;
    Ok(front == Some(out.as_slice()) && err.as_slice() == want.as_bytes() && status == 3)
}

struct FailingReaders;

impl Table for FailingReaders {
    fn holds(&self, alloc: Global, row: &str) -> Result<bool, Fail> {
        let (words, columns) = two(row)?;
        is_cut_at_reads(alloc, &line_of(alloc, words)?, columns)
    }
}

fn is_cut_at_reads(alloc: Global, line: &Line, columns: &str) -> Result<bool, Fail> {
    let (out, ends, rest) = three(columns)?;
    let mut out = out_of(alloc, line, out)?;
    check_reads(alloc, line, (out.as_slice(), pair_of(ends)?))?;
    out.extend_from_slice(lines_of(alloc, rest)?.as_slice())?;
    let (found, err, status) = printed(alloc, line, &OCTETS, (10, NO_FAILURE));
    Ok(found == out && err.is_empty() && status == 0)
}

// Fails at the first call of the reader whose failure shows otherwise than it should.
fn check_reads(alloc: Global, line: &Line, whole: (&[u8], Ends)) -> Result<(), Fail> {
    // the tenth call gives no octet, which is the end
    for good_calls in 0..10usize {
        if !is_cut_by_reader(alloc, line, whole, good_calls)? {
            return Err(Fail::new(format_args!("after {good_calls} reads of {line:?}")));
        }
    }
    Ok(())
}

// Whether a run prints what stands for the values that end before the reader fails.
fn is_cut_by_reader(
    alloc: Global,
    line: &Line,
    (all, ends): (&[u8], Ends),
    good_calls: usize,
) -> Result<bool, Fail> {
    let done = done_before((7, 9), good_calls);
    let front = all.get(..printed_for(ends, done));
    let found = printed(alloc, line, &OCTETS, (good_calls, NO_FAILURE));
    is_cut(alloc, found, front, ("15 SourceFault", done))
}

// words | what is printed of two values | where what stands for each ends | what else is printed of all
const READERS: &str = "\
show,@builtin,OCTET STRING,in.hex             | '41'H;''H;     | 6 10 |
check,@builtin,OCTET STRING,in.hex            |                | 0 0  | ok 2;
convert,@builtin,OCTET STRING,in.hex,--to,der | 04 01 41 04 00 | 3 5  |
convert,@builtin,OCTET STRING,in.hex,--to,cer | 04 01 41 04 00 | 3 5  |";

#[test]
fn reader_that_fails_at_each_call(rt: HostRuntime) -> Result<(), Fail> {
    check(rt.alloc(), &FailingReaders, READERS)
}

struct FailingWriters;

impl Table for FailingWriters {
    fn holds(&self, alloc: Global, row: &str) -> Result<bool, Fail> {
        let (words, columns) = two(row)?;
        is_cut_at_writes(alloc, &line_of(alloc, words)?, columns)
    }
}

fn is_cut_at_writes(alloc: Global, line: &Line, columns: &str) -> Result<bool, Fail> {
    let (input, out, ends, columns) = four(columns)?;
    let (err, status) = two(columns)?;
    let input = input_of(alloc, line, input)?;
    let out = out_of(alloc, line, out)?;
    check_writes(
        alloc,
        line,
        input.as_slice(),
        (out.as_slice(), pair_of(ends)?),
    )?;
    let calls = (NO_FAILURE, out.len());
    let (found, found_err, found_status) = printed(alloc, line, input.as_slice(), calls);
    Ok(found == out && found_err == lines_of(alloc, err)? && found_status == status.parse::<u8>()?)
}

// Fails at the first call of the writer whose failure shows otherwise than it should.
fn check_writes(
    alloc: Global,
    line: &Line,
    input: &[u8],
    (all, ends): (&[u8], Ends),
) -> Result<(), Fail> {
    for good_calls in 0..all.len() {
        let done = done_before(ends, good_calls);
        let front = all.get(..good_calls);
        let found = printed(alloc, line, input, (NO_FAILURE, good_calls));
        if !is_cut(alloc, found, front, ("16 SinkFault", done))? {
            return Err(Fail::new(format_args!("after {good_calls} writes of {line:?}")));
        }
    }
    Ok(())
}

// words | the input | what is printed of two values | where what stands for each ends | the standard error where the
// writer does not fail | the status there
const WRITERS: &str = "\
show,@builtin,OCTET STRING,in.hex                   | 24 80 04 01 41 00 00 04 00 | '41'H;''H;     | 6 10 | | 0
check,@builtin,OCTET STRING,in.hex                  | 24 80 04 01 41 00 00 04 00 | ok 2;          | 0 0  | | 0
check,@builtin,OCTET STRING,in.hex,--hex            | 24 80 04 01 41 00 00 04 00 | ok 2;          | 0 0  | | 0
convert,@builtin,OCTET STRING,in.hex,--to,der       | 24 80 04 01 41 00 00 04 00 | 04 01 41 04 00 | 3 5  | | 0
convert,@builtin,OCTET STRING,in.hex,--hex,--to,der | 24 80 04 01 41 00 00 04 00 | 0401410400;    | 6 10 | | 0
// the line feed is written before the refusal
convert,@builtin,OCTET STRING,in.hex,--hex,--to,der | 0401410400 05 | 0401410400; | 6 10 | asn1x: refused 2 Identifier after 2 values; | 1";

#[test]
fn writer_that_fails_at_each_call(rt: HostRuntime) -> Result<(), Fail> {
    check(rt.alloc(), &FailingWriters, WRITERS)
}
