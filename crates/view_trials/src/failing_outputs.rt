//! Standard outputs that fail: whose reader is gone, and others.

use crate::fake::Fake;
use crate::runs::line_of;
use convert::unhex;
use std::alloc::Global;
use std::cell::RefCell;
use std::io::{self, Error, ErrorKind, Write};
use std::test::Fail;
use test_tables::{Table, check, four, lines_of, two};
use view::{Line, run};

// An output whose calls fail in turn as the words say, and then as the last of them does.
#[derive(Drop)]
struct Failing<'a> {
    words: &'a str,
}

impl Failing<'_> {
    // How the next call fails; None where it takes nothing.
    fn next(&mut self) -> Option<Error> {
        let (word, others) = self
            .words
            .split_once(' ')
            .unwrap_or((self.words, self.words));
        self.words = others;
        match word {
            "Interrupted" => Some(Error::from(ErrorKind::Interrupted)),
            "BrokenPipe" => Some(Error::from(ErrorKind::BrokenPipe)),
            "StorageFull" => Some(Error::from(ErrorKind::StorageFull)),
            _ => None,
        }
    }
}

impl Write for Failing<'_> {
    fn write(&mut self, _octets: &[u8]) -> io::Result<usize> {
        match self.next() {
            Some(error) => Err(error),
            None => Ok(0),
        }
    }

    fn flush(&mut self) -> io::Result<()> {
        match self.next() {
            Some(error) => Err(error),
            None => Ok(()),
        }
    }
}

const MODULE: &str = "M DEFINITIONS ::= BEGIN T ::= NULL END";

// the words behind the program's name | the input | how calls fail | the standard error | the status
const OUTPUTS: &str = "\
octets,m,T,in         | 0500 | StorageFull             | standard output: cannot be written; | 3
octets,m,T,in         | 0500 | BrokenPipe              | | 0
json,m,T,in           | 0500 | StorageFull             | standard output: cannot be written; | 3
json,m,T,in           | 0500 | BrokenPipe              | | 0
types,m               |      | StorageFull             | standard output: cannot be written; | 3
types,m               |      | BrokenPipe              | | 0
types,m,T             |      | StorageFull             | standard output: cannot be written; | 3
types,m,T             |      | BrokenPipe              | | 0
refusal,9             |      | StorageFull             | standard output: cannot be written; | 3
refusal,9             |      | BrokenPipe              | | 0
// a module without faults, of which nothing but the flush is tried
module,m              |      | StorageFull             | standard output: cannot be written; | 3
module,m              |      | BrokenPipe              | | 0
// the first failure decides; a call that is interrupted is made again
json,m,T,in           | 0500 | StorageFull BrokenPipe  | standard output: cannot be written; | 3
json,m,T,in           | 0500 | BrokenPipe StorageFull  | | 0
json,m,T,in           | 0500 | Interrupted StorageFull | standard output: cannot be written; | 3
json,m,T,in           | 0500 | Interrupted BrokenPipe  | | 0
json,m,T,in           | 0500 | nothing                 | standard output: cannot be written; | 3
// of several faults the worst
json,m,T,none,in      | 0500 | StorageFull             | none: cannot be read;standard output: cannot be written; | 3
json,m,T,none,in      | 0500 | BrokenPipe              | none: cannot be read; | 3
types,m,Q             |      | StorageFull             | m:1:1: Q: refused 24 UnknownType: the name, or one that it reaches, is not assigned;standard output: cannot be written; | 3
refusal,20            |      | StorageFull             | asn1x-view: no refusal has the number 20: they are 1 to 17 and 21 to 33;standard output: cannot be written; | 64";

struct Outputs;

impl Table for Outputs {
    fn holds(&self, alloc: Global, row: &str) -> Result<bool, Fail> {
        let (words, input, words_of_failures, printed) = four(row)?;
        let (wanted, status) = two(printed)?;
        let input = unhex(alloc, input.as_bytes())?;
        let line = line_of(alloc, words)?;
        let (err, ended) = run_into(alloc, &line, input.as_slice(), words_of_failures);
        Ok(err == lines_of(alloc, wanted)? && ended == status.parse::<u8>()?)
    }
}

// The standard error of a run into an output that fails as the words say, and the status.
fn run_into(alloc: Global, line: &Line, input: &[u8], words: &str) -> (Vec<u8>, u8) {
    let written = RefCell::new(String::new(alloc));
    let file_system = Fake {
        alloc,
        module: MODULE,
        input,
        written: &written,
    };
    let mut err = Vec::new(alloc);
    let status = run(alloc, line, &file_system, Failing { words }, &mut err);
    (err, status)
}

#[test]
fn outputs_that_fail(rt: HostRuntime) -> Result<(), Fail> {
    check(rt.alloc(), &Outputs, OUTPUTS)
}
