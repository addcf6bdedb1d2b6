//! Tests of the program `asn1x-trim` over texts in memory.

use std::alloc::{AllocError, Global};
use std::io;
use std::io::ErrorKind;
use std::test::Fail;
use trimmer::{CommandLine, Files, Line, LineFault, run};

mod bodies;
mod devices;
mod equal;
mod generated;
mod refusals;
mod steps;

/// Files of which `m.asn` alone can be read.
#[derive(Drop)]
struct OneFile<'a>(&'a [u8]);

impl Files for OneFile<'_> {
    fn octets(&mut self, alloc: Global, path: &str) -> io::Result<Vec<u8>> {
        if path != "m.asn" {
            return Err(io::Error::from(ErrorKind::NotFound));
        }
        Ok(Vec::from_slice(alloc, self.0)?)
    }
}

/// What a run prints, and its exit status.
#[derive(Drop)]
struct Outcome {
    out: String,
    err: String,
    status: u8,
}

/// Runs `asn1x-trim m.asn WORDS` over this text of the file. The words stand with one space between.
fn ran(alloc: Global, text: &str, words: &str) -> Result<Outcome, LineFault> {
    let mut list = Vec::new(alloc);
    list.push("asn1x-trim")?;
    list.push("m.asn")?;
    for word in words.split(' ') {
        list.push(word)?;
    }
    let line = Line::from_words(alloc, list.as_slice())?;
    Ok(ran_line(alloc, text, &line)?)
}

// Runs the command line over this text of the file.
fn ran_line(alloc: Global, text: &str, line: &Line) -> Result<Outcome, AllocError> {
    let mut out = Vec::new(alloc);
    let mut err = Vec::new(alloc);
    let mut files = OneFile(text.as_bytes());
    let status = run(alloc, line, &mut files, &mut out, &mut err);
    Ok(Outcome {
        out: String::from_utf8_lossy(alloc, out.as_slice())?,
        err: String::from_utf8_lossy(alloc, err.as_slice())?,
        status,
    })
}

/// Whether this is written of the text for these words, and this told, spaces apart.
fn is_written(
    alloc: Global,
    text: &str,
    words: &str,
    wanted: &str,
    told: &str,
) -> Result<bool, LineFault> {
    let ran = ran(alloc, text, words)?;
    let out = squeezed(alloc, ran.out.as_str())?;
    let err = squeezed(alloc, ran.err.as_str())?;
    Ok(out.as_str() == wanted && err.as_str() == told && ran.status == 0)
}

/// The rows of a table: its lines but for those that are empty or begin with `#`. Fails where there are none.
fn rows_of<'a>(alloc: Global, table: &'a str) -> Result<Vec<&'a str>, Fail> {
    let mut rows = Vec::new(alloc);
    for line in table.lines() {
        if !line.is_empty() && !line.starts_with('#') {
            rows.push(line)?;
        }
    }
    if rows.is_empty() {
        return Err("a table without rows".into());
    }
    Ok(rows)
}

/// The text with one space for each run of white space, and none at its ends.
fn squeezed(alloc: Global, text: &str) -> Result<String, AllocError> {
    let mut squeezed = String::new(alloc);
    for word in text.split_whitespace() {
        if !squeezed.is_empty() {
            squeezed.push(' ')?;
        }
        squeezed.push_str(word)?;
    }
    Ok(squeezed)
}
