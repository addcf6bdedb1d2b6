//! Files and writers that fail, and words that are wrong.

use super::{OneFile, ran, rows_of};
use std::alloc::{AllocError, Global};
use std::io;
use std::io::{ErrorKind, Write};
use std::mem::drop;
use std::test::Fail;
use trimmer::{CommandLine, Line, run};

// A device whose every write fails.
#[derive(Drop)]
struct Failing;

impl Write for Failing {
    fn write(&mut self, _buf: &[u8]) -> io::Result<usize> {
        Err(io::Error::from(ErrorKind::StorageFull))
    }

    fn flush(&mut self) -> io::Result<()> {
        Err(io::Error::from(ErrorKind::StorageFull))
    }
}

#[test]
fn a_full_disk(rt: HostRuntime) -> Result<(), Fail> {
    let words = ["asn1x-trim", "m.asn", "T"];
    let line = Line::from_words(rt.alloc(), words.as_slice())?;
    let mut files = OneFile(b"M DEFINITIONS ::= BEGIN T ::= NULL END");
    let mut err = Vec::new(rt.alloc());
    let status = run(rt.alloc(), &line, &mut files, &mut Failing, &mut err);
    assert_eq!(rt;
        err.as_slice(),
        b"asn1x-trim: cannot write the module\n".as_slice()
    );
    assert_eq!(rt; status, 3);
    Ok(())
}

#[test]
fn a_missing_file(rt: HostRuntime) -> Result<(), Fail> {
    let ran = ran(rt.alloc(), "", "n.asn T")?;
    assert_eq!(rt; ran.err.as_str(), "asn1x-trim: cannot read n.asn\n");
    assert_eq!(rt; ran.status, 3);
    Ok(())
}

#[test]
fn a_path_with_a_line_feed(rt: HostRuntime) -> Result<(), Fail> {
    let ran = ran(rt.alloc(), "", "n\n.asn T")?;
    assert_eq!(rt; ran.err.as_str(), "asn1x-trim: cannot read n\\u{a}.asn\n");
    assert_eq!(rt; ran.status, 3);
    Ok(())
}

// Words; the exit status, or none where they are right.
const WORDS: &str = "
; 64
m.asn; 64
m.asn T --as T; 64
m.asn T --as T.a=; 64
m.asn T --unroll 60; none
m.asn T --unroll 61; 64
m.asn T --unroll x; 64
m.asn T --wide; 64
--help; 0
--version; 0
";

// The exit status of words that are no command line.
fn status_of(alloc: Global, words: &str) -> Result<Option<u8>, AllocError> {
    let mut list = Vec::new(alloc);
    list.push("asn1x-trim")?;
    for word in words.split_whitespace() {
        list.push(word)?;
    }
    match Line::from_words(alloc, list.as_slice()) {
        Ok(line) => {
            drop(line);
            Ok(None)
        }
        Err(fault) => Ok(Some(fault.status())),
    }
}

// Whether the row's words have the status that the row says.
fn is_as_wanted(alloc: Global, row: &str) -> Result<bool, AllocError> {
    let Some((words, wanted)) = row.split_once("; ") else {
        return Ok(false);
    };
    let found = match status_of(alloc, words)? {
        Some(status) => format!(in alloc; "{status}")?,
        None => String::from_str(alloc, "none")?,
    };
    Ok(found.as_str() == wanted)
}

#[test]
fn wrong_words(rt: HostRuntime) -> Result<(), Fail> {
    for row in rows_of(rt.alloc(), WORDS)? {
        assert!(rt; is_as_wanted(rt.alloc(), row)?, "at {row}");
    }
    Ok(())
}
