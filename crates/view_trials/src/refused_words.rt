//! Words that are no command line, and the reason that is printed.

use std::alloc::Global;
use std::test::Fail;
use test_tables::{Table, check, two};
use view::{CommandLine, Line, LineFault};

// the words behind the program's name | the reason
const REFUSED: &str = "\
octets,-,T,-                | only one of MODULE and INPUT can be standard input
octets,m,T,-,in,-           | only one of MODULE and INPUT can be standard input
json,-,T,in,-               | only one of MODULE and INPUT can be standard input
json,m,T,-,-                | only one of MODULE and INPUT can be standard input
octets,m,T,in,--value,0     | --value wants a number from 1 on
octets,m,T,in,--value,x     | --value wants a number from 1 on
cut,in,--octets,0,--into,p  | --octets wants a number from 1 on
refusal,0                   | NUMBER wants a number from 1 on";

struct Refused;

impl Table for Refused {
    fn holds(&self, alloc: Global, row: &str) -> Result<bool, Fail> {
        let (words, why) = two(row)?;
        let words = format!(in alloc; "asn1x-view,{words}")?;
        let words: Vec<&str> = words.as_str().split(',').collect(alloc)?;
        let Err(fault) = Line::from_words(alloc, words.as_slice()) else {
            return Ok(false);
        };
        Ok(fault.status() == 64 && says(alloc, &fault, why)?)
    }
}

// Whether the first line that is printed of a fault is that of the reason.
fn says(alloc: Global, fault: &LineFault, why: &str) -> Result<bool, Fail> {
    let LineFault::Words(error) = fault else {
        return Ok(false);
    };
    let text = format!(in alloc; "{error}")?;
    let wanted = format!(in alloc; "error: {why}\n")?;
    Ok(text.as_str().starts_with(wanted.as_str()))
}

#[test]
fn refused_words(rt: HostRuntime) -> Result<(), Fail> {
    check(rt.alloc(), &Refused, REFUSED)
}
