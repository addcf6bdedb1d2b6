//! Files: prose, pages, heads of modules, and places.

use published::{Module, Published, Tagging, read};
use std::alloc::{AllocError, Global};
use std::test::Fail;

// The modules and faults of a file as a text, one a line.
fn told(alloc: Global, file: &str) -> Result<String, AllocError> {
    let Published { modules, faults } = read(alloc, 7, file.as_bytes())?;
    let mut out = String::new(alloc);
    for module in &modules {
        put_module(&mut out, module)?;
    }
    for fault in &faults {
        let place = fault.place;
        let why = fault.reason.as_str();
        writeln!(
            &mut out,
            "{}:{}:{} {why}",
            place.file, place.line, place.column
        )?;
    }
    Ok(out)
}

// The name, the tag default, the line, the imports and the names of the assignments with their places.
fn put_module(out: &mut String, module: &Module) -> Result<(), AllocError> {
    let tagging = match module.tagging {
        Tagging::Explicit => "explicit",
        Tagging::Implicit => "implicit",
        Tagging::Automatic => "automatic",
    };
    let extensible = if module.is_extensible {
        " extensible"
    } else {
        ""
    };
    let name = module.name.name.as_str();
    let line = module.name.place.line;
    write!(out, "{name} {tagging}{extensible} {line}:")?;
    for import in &module.imports {
        put_names(out, import)?;
    }
    for assignment in &module.assignments {
        let name = assignment.name.name.as_str();
        let place = assignment.name.place;
        write!(out, " {name} {}:{}", place.line, place.column)?;
    }
    out.push('\n')
}

fn put_names(out: &mut String, import: &published::Import) -> Result<(), AllocError> {
    for word in &import.names {
        out.push(' ')?;
        out.push_str(word.name.as_str())?;
    }
    out.push_str(" from ")?;
    out.push_str(import.module.name.as_str())
}

// Prose with marks that do not pair, modules with pages between their lines and one that the text cuts off, and a
// fragment.
const TEXT: &str = "\
1. Don't read \"this; it has an odd mark and an /* that does not end.

   First { iso(1) example(99) -- a comment -- first(1) }
     DEFINITIONS -- another -- IMPLICIT
     TAGS /* and /* nested */ */ ::=
   BEGIN
   IMPORTS Other, value, SOME-CLASS FROM Second { iso 5 }
           Third{} FROM Remote-Module fourth FROM Rest;
   A ::= SEQUENCE {
       a  INTEGER,

Author & Writer             Standards Track                   [Page 12]
\x0c
RFC 9999               A Text with a Module                 August 2031


       b  BOOLEAN }
   ---------------------
   B ::= NULL END

   Fragment ::= SEQUENCE { no module }
   Second DEFINITIONS AUTOMATIC TAGS EXTENSIBILITY IMPLIED ::= BEGIN
      EXPORTS ALL;
      c INTEGER ::= 5 -- END
      D ::= NULL -- as on [Page 5]
   END
   Third { 1.2.3 } DEFINITIONS EXPLICIT TAGS ::= BEGIN END
   -- Hidden DEFINITIONS ::= BEGIN END
/* Hidden DEFINITIONS ::= BEGIN END */
   Fourth DEFINITIONS ::= BEGIN X ::= NULL Y ::= BIT STRING
";

const TOLD: &str = "\
First implicit 3: Other value SOME-CLASS from Second Third from Remote-Module fourth from Rest A 9:4 B 19:4
Second automatic extensible 22: c 24:7 D 25:7
Third explicit 27:
Fourth explicit 30: X 30:33
7:31:1 the module has no END
";

#[test]
fn modules_in_prose(rt: HostRuntime) -> Result<(), Fail> {
    assert_eq!(rt; told(rt.alloc(), TEXT)?.as_str(), TOLD);
    Ok(())
}
