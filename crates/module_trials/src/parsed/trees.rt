//! What is read.

use std::alloc::{AllocError, Global};
use std::test::Fail;
use syntax::{Assignment, parse};

// The module's name and tag default, and the names and places of its assignments, or the fault.
fn outline(alloc: Global, text: &str) -> Result<String, AllocError> {
    match parse(alloc, text) {
        Ok(module) => {
            let tagging = module.tagging;
            let mut outline = format!(in alloc; "{tagging:?} ")?;
            outline.push_str(module.name.as_str())?;
            put_places(&mut outline, &module.assignments)?;
            Ok(outline)
        }
        Err(fault) => format!(in alloc; "{fault:?}"),
    }
}

fn put_places(text: &mut String, assignments: &[Assignment]) -> Result<(), AllocError> {
    for assignment in assignments {
        let line = assignment.line;
        let column = assignment.column;
        write!(text, ", {line}:{column} ")?;
        text.push_str(assignment.name.as_str())?;
    }
    Ok(())
}

#[test]
fn places_of_assignments(rt: HostRuntime) -> Result<(), Fail> {
    let text = "Mod DEFINITIONS AUTOMATIC TAGS ::= BEGIN\nT ::= NULL U\n::= T\n\n  V ::= U END";
    let found = outline(rt.alloc(), text)?;
    assert_eq!(rt; found.as_str(), "Automatic Mod, 2:1 T, 2:12 U, 5:3 V");
    Ok(())
}
