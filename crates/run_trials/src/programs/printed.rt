//! How the tables of runs are read, and what runs print and return.
//!
//! A row has the words behind the program's name, the input, the standard output, the standard error and the status.
//! With `--hex` the input is a text, and else octets, as are those that `convert` then writes. Where texts are long,
//! octets spell the input and the output of each row.

use program::{Line, LineFault, Verb, line, run};
use std::alloc::Global;
use std::test::Fail;
use test_tables::{Table, four, lines_of, octets_of, three, two};

/// The standard output, the standard error and the status.
pub type Printed = (Vec<u8>, Vec<u8>, u8);

/// The command line that words are, the program's name first, with commas between them.
pub fn judged(alloc: Global, words: &str) -> Result<Line, LineFault> {
    let words: Vec<&str> = words.split(',').collect(alloc)?;
    line(alloc, words.as_slice())
}

/// The command line of the words behind the program's name.
pub fn line_of(alloc: Global, words: &str) -> Result<Line, Fail> {
    let words = format!(in alloc; "asn1x,{words}")?;
    Ok(judged(alloc, words.as_str())?)
}

/// The input that a column says.
pub fn input_of(alloc: Global, line: &Line, column: &str) -> Result<Vec<u8>, Fail> {
    if line.hex {
        Ok(lines_of(alloc, column)?)
    } else {
        octets_of(alloc, column)
    }
}

/// The standard output that a column says.
pub fn out_of(alloc: Global, line: &Line, column: &str) -> Result<Vec<u8>, Fail> {
    if line.hex || line.verb != Verb::Convert {
        Ok(lines_of(alloc, column)?)
    } else {
        octets_of(alloc, column)
    }
}

/// What columns say that a run prints and returns.
pub fn printed_of(alloc: Global, line: &Line, columns: &str) -> Result<Printed, Fail> {
    let (out, err, status) = three(columns)?;
    let out = out_of(alloc, line, out)?;
    let err = lines_of(alloc, err)?;
    Ok((out, err, status.parse::<u8>()?))
}

/// What a run over devices that do not fail prints and returns.
pub fn run_over(alloc: Global, line: &Line, module: &[u8], input: &[u8]) -> Printed {
    let mut out = Vec::new(alloc);
    let mut err = Vec::new(alloc);
    let mut input = input;
    let status = run(alloc, line, module, &mut input, &mut out, &mut err);
    (out, err, status)
}

/// Whether what was found is this.
pub fn is_printed(found: &Printed, (out, err, status): (&str, &str, u8)) -> bool {
    let (found_out, found_err, found_status) = found;
    found_out.as_slice() == out.as_bytes()
        && found_err.as_slice() == err.as_bytes()
        && *found_status == status
}

/// Whether a run prints and returns what the columns behind its words say.
pub fn is_so(alloc: Global, line: &Line, module: &str, columns: &str) -> Result<bool, Fail> {
    let (input, printed) = two(columns)?;
    let input = input_of(alloc, line, input)?;
    let want = printed_of(alloc, line, printed)?;
    Ok(run_over(alloc, line, module.as_bytes(), input.as_slice()) == want)
}

/// Runs over the types of a module, or over built-in types.
#[derive(Clone, Copy)]
pub struct Runs<'a> {
    pub module: &'a str,
}

impl<'a> Table for Runs<'a> {
    fn holds(&self, alloc: Global, row: &str) -> Result<bool, Fail> {
        let (words, columns) = two(row)?;
        let line = line_of(alloc, words)?;
        is_so(alloc, &line, self.module, columns)
    }
}

/// Runs over built-in types whose texts are long.
pub struct LongRuns;

impl Table for LongRuns {
    fn holds(&self, alloc: Global, row: &str) -> Result<bool, Fail> {
        let (words, input, out, columns) = four(row)?;
        let (err, status) = two(columns)?;
        let line = line_of(alloc, words)?;
        let input = octets_of(alloc, input)?;
        let want = (
            octets_of(alloc, out)?,
            lines_of(alloc, err)?,
            status.parse::<u8>()?,
        );
        Ok(run_over(alloc, &line, &[], input.as_slice()) == want)
    }
}
