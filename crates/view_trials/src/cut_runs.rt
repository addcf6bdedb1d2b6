//! Runs of `cut`: the files that are written, and the octets of each.

use crate::fake::Fake;
use crate::runs::line_of;
use convert::unhex;
use std::alloc::Global;
use std::cell::RefCell;
use std::test::Fail;
use test_tables::{Table, check, four, lines_of, two};
use view::{Line, run};

// the words behind the program's name | the input | each file's name and octets | the standard error | the status
const CUTS: &str = "\
cut,in,--octets,1,--into,p | 0500 3080 0500 0000 0401 41 | p0001 0500 p0002 308005000000 p0003 040141 | | 0
cut,in,--octets,3,--into,p | 0500 3080 0500 0000 0401 41 | p0001 0500308005000000 p0002 040141 | | 0
cut,in,--octets,8,--into,p | 0500 3080 0500 0000 0401 41 | p0001 0500308005000000 p0002 040141 | | 0
cut,in,--octets,9,--into,p | 0500 3080 0500 0000 0401 41 | p0001 0500308005000000040141 | | 0
cut,in,--octets,9,--into,p | | | | 0
// what stands before the fault is written; octets are read seven at once
cut,in,--octets,9,--into,p | 0500 0500 1f80 | p0001 05000500 | in: octet 4: refused 2 Identifier: no encoding stands here, or none that ends; | 1
cut,in,--octets,1,--into,p | 0500 3080 0500 0000 3003 | p0001 0500 p0002 308005000000 p0003 3003 | in: octet 8: refused 1 Truncated: the encoding that begins here is not whole; | 1
cut,in,--octets,1,--into,p | 0500 3080 0500 0401 | p0001 0500 p0002 308005000401 | in: octet 2: refused 1 Truncated: the encoding that begins here is not whole; | 1
cut,in,--octets,1,--into,p | 0500 0500 0500 0500 040a 4142 | p0001 0500 p0002 0500 p0003 0500 p0004 0500 p0005 040a4142 | in: octet 8: refused 1 Truncated: the encoding that begins here is not whole; | 1
cut,in,--octets,9,--into,p | 0500 9f | p0001 05009f | in: octet 2: refused 1 Truncated: the encoding that begins here is not whole; | 1
cut,in,--octets,9,--into,p | 0500 3080 0500 0001 | p0001 05003080050000 | in: octet 6: refused 5 EndOfContents: no encoding stands here, or none that ends; | 1
cut,in,--octets,9,--into,p | 3080 008100 | | in: octet 2: refused 5 EndOfContents: no encoding stands here, or none that ends; | 1
cut,in,--octets,9,--into,none | 0500 | | none0001: cannot be written; | 3
cut,in,--octets,9,--into,full | 0500 | full0001 | full0001: cannot be written; | 3
cut,none,--octets,9,--into,p | 0500 | | none: cannot be read; | 3";

struct Cuts;

impl Table for Cuts {
    fn holds(&self, alloc: Global, row: &str) -> Result<bool, Fail> {
        let (words, input, files, printed) = four(row)?;
        let (wanted, status) = two(printed)?;
        let input = unhex(alloc, input.as_bytes())?;
        let line = line_of(alloc, words)?;
        let (is_written, err, ended) = run_over(alloc, &line, input.as_slice(), files);
        Ok(is_written && err == lines_of(alloc, wanted)? && ended == status.parse::<u8>()?)
    }
}

// how many values | the name of the last of as many files: no name comes before that of an earlier file
const LAST_NAMES: &str = "\
1      | p0001
9999   | p9999
10000  | p999910000
10001  | p999910001
100000 | p999999999100000";

struct LastNames;

impl Table for LastNames {
    fn holds(&self, alloc: Global, row: &str) -> Result<bool, Fail> {
        let (count, wanted) = two(row)?;
        let input = nulls(alloc, count.parse::<usize>()?)?;
        let written = RefCell::new(String::new(alloc));
        let file_system = Fake {
            alloc,
            module: "",
            input: input.as_slice(),
            written: &written,
        };
        let line = line_of(alloc, "cut,whole,--octets,1,--into,p")?;
        let (mut out, mut err) = (Vec::new(alloc), Vec::new(alloc));
        let status = run(alloc, &line, &file_system, &mut out, &mut err);
        Ok(status == 0 && is_last_of_all(alloc, &written, wanted)?)
    }
}

// So many values of NULL.
fn nulls(alloc: Global, count: usize) -> Result<Vec<u8>, Fail> {
    let mut octets = Vec::new(alloc);
    for _ in 0..count {
        octets.extend_from_slice(&[0x05, 0x00])?;
    }
    Ok(octets)
}

// Whether names that are written, each before its octets, come one behind another, and this one is the last.
fn is_last_of_all(alloc: Global, written: &RefCell<String>, wanted: &str) -> Result<bool, Fail> {
    let Ok(text) = written.try_borrow() else {
        return Ok(false);
    };
    let words = text.as_str().split(' ');
    let names: Vec<&str> = words.filter(|word| word.starts_with("p")).collect(alloc)?;
    match names.last() {
        Some(last) => Ok(*last == wanted && names.is_sorted_by(|one, next| *one < *next)),
        None => Ok(false),
    }
}

// Whether a run writes these files, and nothing to the standard output; the standard error, and the status.
fn run_over(alloc: Global, line: &Line, input: &[u8], files: &str) -> (bool, Vec<u8>, u8) {
    let written = RefCell::new(String::new(alloc));
    let file_system = Fake {
        alloc,
        module: "",
        input,
        written: &written,
    };
    let (mut out, mut err) = (Vec::new(alloc), Vec::new(alloc));
    let status = run(alloc, line, &file_system, &mut out, &mut err);
    let has_written = match written.try_borrow() {
        Ok(text) => text.as_str().trim() == files,
        Err(_) => false,
    };
    (has_written && out.is_empty(), err, status)
}

#[test]
fn streams_in_files(rt: HostRuntime) -> Result<(), Fail> {
    check(rt.alloc(), &Cuts, CUTS)
}

#[test]
fn names_in_order(rt: HostRuntime) -> Result<(), Fail> {
    check(rt.alloc(), &LastNames, LAST_NAMES)
}
