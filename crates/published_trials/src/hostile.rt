//! Long and deep texts.

use published::read;
use std::alloc::{AllocError, Global};
use std::test::Fail;

// How many modules, assignments of the first of them and faults the text has, and the reason of the first fault.
fn told(alloc: Global, text: &str) -> Result<String, AllocError> {
    let found = read(alloc, 0, text.as_bytes())?;
    let modules = found.modules.len();
    let assignments = match found.modules.first() {
        Some(module) => module.assignments.len(),
        None => 0,
    };
    let faults = found.faults.len();
    let why = match found.faults.first() {
        Some(fault) => fault.reason.as_str(),
        None => "none",
    };
    format!(in alloc; "{modules} {assignments} {faults} {why}")
}

// A text that stands so many times behind one, and before another.
fn repeated(
    alloc: Global,
    front: &str,
    middle: &str,
    count: &str,
    behind: &str,
) -> Result<String, AllocError> {
    let mut text = String::from_str(alloc, front)?;
    for _turn in 0..count.parse::<u32>().unwrap_or(0) {
        text.push_str(middle)?;
    }
    text.push_str(behind)?;
    Ok(text)
}

// Whether what is told of the row's text is what the row says.
fn is_as_wanted(alloc: Global, row: &str) -> Result<bool, AllocError> {
    let mut columns = row.split(';');
    let front = columns.next().unwrap_or("");
    let middle = columns.next().unwrap_or("");
    let count = columns.next().unwrap_or("");
    let behind = columns.next().unwrap_or("");
    let wanted = columns.next().unwrap_or("");
    let text = repeated(alloc, front, middle, count, behind)?;
    Ok(told(alloc, text.as_str())?.as_str() == wanted)
}

// What stands in front; what is repeated, and how often; what stands behind. Then what is told.
const NESTED: &str = "\
M DEFINITIONS ::= BEGIN T ::= ;SET OF ;63;NULL END;1 1 0 none
M DEFINITIONS ::= BEGIN T ::= ;SET OF ;64;NULL END;1 0 1 types or brackets nest deeper than 64 levels
M DEFINITIONS ::= BEGIN T ::= NULL ;(;65; END;1 0 1 types or brackets nest deeper than 64 levels
";

const MANY: &str = "\
M DEFINITIONS ::= BEGIN ;T ::= NULL ;65535; END;1 65535 0 none
M DEFINITIONS ::= BEGIN ;T ::= NULL ;65536; END;1 65535 1 the file has more than 131,072 types, names and values
M DEFINITIONS ::= BEGIN T ::= NULL ;-;1000000; U ::= NULL END;1 2 0 none
";

const LONG: &str = "\
; ;16777216;;0 0 0 none
; ;16777217;;0 0 1 the file is longer than 16,777,216 octets
";

#[test]
fn nested_types(rt: HostRuntime) -> Result<(), Fail> {
    for row in NESTED.lines() {
        assert!(rt; is_as_wanted(rt.alloc(), row)?, "at {row}");
    }
    Ok(())
}

#[test]
fn many_parts_and_hyphens(rt: HostRuntime) -> Result<(), Fail> {
    for row in MANY.lines() {
        assert!(rt; is_as_wanted(rt.alloc(), row)?, "at {row}");
    }
    Ok(())
}

#[test]
fn long_files(rt: HostRuntime) -> Result<(), Fail> {
    for row in LONG.lines() {
        assert!(rt; is_as_wanted(rt.alloc(), row)?, "at {row}");
    }
    Ok(())
}
