//! Which words are a command line, and what they say.

use super::kind_of;
use super::printed::{judged, line_of};
use program::{CommandLine, Line};
use std::alloc::Global;
use std::io;
use std::test::Fail;
use test_tables::{Table, check, prints, two};

// words | what is asked, the rules to read and to write by, and whether the input is hexadecimal
const COMMAND_LINES: &str = "\
show,m,T,in                        | (Show, Ber, None, false)
show,m,T,in,--hex                  | (Show, Ber, None, true)
check,--from,cer,m,T,in            | (Check, Cer, None, false)
check,m,T,in,--from=der            | (Check, Der, None, false)
convert,m,T,in,--to,der            | (Convert, Ber, Some(Der), false)
convert,--to,cer,m,--hex,T,in      | (Convert, Ber, Some(Cer), true)
convert,m,T,--from,der,in,--to=cer | (Convert, Der, Some(Cer), false)
convert,--hex,--to,der,--,m,T,in   | (Convert, Ber, Some(Der), true)";

struct CommandLines;

impl Table for CommandLines {
    fn holds(&self, alloc: Global, row: &str) -> Result<bool, Fail> {
        let (words, want) = two(row)?;
        let line = line_of(alloc, words)?;
        let asked = (line.verb, line.from, line.to, line.hex);
        Ok(has_names(&line) && prints(alloc, &asked, want)?)
    }
}

// Whether a command line names the module `m`, the type `T` and the file `in`.
fn has_names(line: &Line) -> bool {
    line.module.as_str() == "m" && line.name.as_str() == "T" && line.input.as_str() == "in"
}

#[test]
fn command_lines(rt: HostRuntime) -> Result<(), Fail> {
    check(rt.alloc(), &CommandLines, COMMAND_LINES)
}

// words, the program's name first | the exit status
const WRONG_WORDS: &str = "\
asn1x                                    | 64
asn1x,list,m,T,in                        | 64
asn1x,show,m,T                           | 64
asn1x,show,m,T,in,more                   | 64
asn1x,show,m,T,in,--to,der               | 64
asn1x,convert,m,T,in                     | 64
asn1x,convert,m,T,in,--to                | 64
asn1x,convert,m,T,in,--to,ber            | 64
asn1x,convert,m,T,in,--to,DER            | 64
asn1x,convert,m,T,in,--to,der,--to,der   | 64
asn1x,check,m,T,in,--from,xer            | 64
asn1x,check,m,T,in,--octets              | 64
asn1x,--help                             | 0
asn1x,help,convert                       | 0
asn1x,check,--help                       | 0
asn1x,--version                          | 0";

struct WrongWords;

impl Table for WrongWords {
    fn holds(&self, alloc: Global, row: &str) -> Result<bool, Fail> {
        let (words, want) = two(row)?;
        Ok(status_of(alloc, words) == want.parse::<u8>()?)
    }
}

// The exit status of words, or 1 where they are a command line.
fn status_of(alloc: Global, words: &str) -> u8 {
    match judged(alloc, words) {
        Ok(_) => 1,
        Err(fault) => fault.status(),
    }
}

#[test]
fn wrong_words(rt: HostRuntime) -> Result<(), Fail> {
    check(rt.alloc(), &WrongWords, WRONG_WORDS)
}

// why the system gives no words | the exit status
const NO_WORDS: &str = "\
OutOfMemory | 4
InvalidData | 64";

struct NoWords;

impl Table for NoWords {
    fn holds(&self, alloc: Global, row: &str) -> Result<bool, Fail> {
        let (kind, want) = two(row)?;
        let fault = Line::no_words(alloc, &io::Error::from(kind_of(kind)?));
        Ok(fault.status() == want.parse::<u8>()?)
    }
}

#[test]
fn words_that_the_system_does_not_give(rt: HostRuntime) -> Result<(), Fail> {
    check(rt.alloc(), &NoWords, NO_WORDS)
}
