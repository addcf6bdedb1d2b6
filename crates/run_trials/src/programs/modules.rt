//! Runs over the types of modules.

use super::kind_of;
use super::printed::{Printed, Runs, is_printed, line_of, run_over};
use crate::dripping::Dripping;
use convert::read_module;
use program::cannot_read_module;
use std::alloc::Global;
use std::io;
use std::test::Fail;
use test_tables::{Table, check, four, lines_of, octets_of, three, two};

// A call between two numbers.
const CALLS: &str = "Calls DEFINITIONS IMPLICIT TAGS ::= BEGIN
Call ::= SEQUENCE {
    caller Number,
    seconds [0] INTEGER DEFAULT 0,
    ended [1] ENUMERATED { answered, busy(5) } OPTIONAL
}
Number ::= [APPLICATION 2] NumericString
END
";

// Two calls: one of 7 seconds with its number in segments and its parts in long lengths, and one of none; and wrong
// octets.
const CALL_RUNS: &str = "\
convert,calls.asn,Call,in.hex,--hex,--to,der | 30 80 62 80 04 01 35 04 01 36 00 00 80 81 01 07 81 01 05 00 00 30 07 42 02 35 36 80 01 00 | 300a42023536800107810105300442023536; || 0
convert,calls.asn,Call,in.hex,--hex,--to,cer | 30 80 62 80 04 01 35 04 01 36 00 00 80 81 01 07 81 01 05 00 00 30 07 42 02 35 36 80 01 00 | 30804202353680010781010500003080420235360000; || 0
show,calls.asn,Call,in.hex,--hex             | 30 80 62 80 04 01 35 04 01 36 00 00 80 81 01 07 81 01 05 00 00 30 07 42 02 35 36 80 01 00 | { caller \"56\", seconds 7, ended busy };{ caller \"56\" }; || 0
check,calls.asn,Call,in.hex,--hex            | 30 80 62 80 04 01 35 04 01 36 00 00 80 81 01 07 81 01 05 00 00 30 07 42 02 35 36 80 01 00 | ok 2; || 0
convert,calls.asn,Number,in.hex,--hex,--to,der | 42 01 35 42 01 41 | 420135; | asn1x: refused 7 Alphabet after 1 values; | 1";

#[test]
fn runs_over_calls(rt: HostRuntime) -> Result<(), Fail> {
    check(rt.alloc(), &Runs { module: CALLS }, CALL_RUNS)
}

// a module and a colon, and below it runs over its types; an empty line ends them
const MODULES: &str = "\
M DEFINITIONS ::= BEGIN T ::= SEQUENCE OF OCTET STRING U ::= SET { a NULL, b BOOLEAN } V ::= VisibleString END:
check,m,T,in                                    | 30 80 04 83 0F FF F7, 00*1048567, 00 00  | ok 1; || 0
convert,m,T,in,--to,der                         | 30 80 04 83 0F FF F7, 00*1048567, 00 00  | '' | asn1x: refused 14 OutputTooLong after 0 values; | 1
check,m,U,in                                    | 31 80 05 00 05 00 || asn1x: refused 9 Repeated after 0 values; | 1
show,m,V,in                                     | 3A 09 04 03 4A 6F 6E 04 02 65 73 1A 01 7F | \"Jones\"; | asn1x: refused 7 Alphabet after 1 values; | 1

M DEFINITIONS AUTOMATIC TAGS ::= BEGIN T ::= SEQUENCE { a INTEGER DEFAULT 1, b BOOLEAN } END:
// each command, over two values
show,m,T,in,--hex              | 300680010181 01ff 3006800107 81012a | { b TRUE };{ a 7, b TRUE }; || 0
check,m,T,in,--hex             | 300680010181 01ff 3006800107 81012a | ok 2; || 0
convert,m,T,in,--hex,--to,der  | 300680010181 01ff 3006800107 81012a | 30038101ff30068001078101ff; || 0
convert,m,T,in,--hex,--to,cer  | 300680010181 01ff 3006800107 81012a | 30808101ff000030808001078101ff0000; || 0
check,m,T,in,--hex,--from,der  | 300680010181 01ff 3006800107 81012a || asn1x: refused 12 NotCanonical after 0 values; | 1
check,m,U,in,--hex             | 300680010181 01ff 3006800107 81012a || asn1x: module refused 24 UnknownType at 1:1; | 2
show,m,T,in                    | 30 06 80 01 01 81 01 FF 30 06 80 01 07 81 01 2A | { b TRUE };{ a 7, b TRUE }; || 0
check,m,T,in                   | 30 06 80 01 01 81 01 FF 30 06 80 01 07 81 01 2A | ok 2; || 0
convert,m,T,in,--to,der        | 30 06 80 01 01 81 01 FF 30 06 80 01 07 81 01 2A | 30 03 81 01 FF 30 06 80 01 07 81 01 FF || 0
convert,m,T,in,--to,cer        | 30 06 80 01 01 81 01 FF 30 06 80 01 07 81 01 2A | 30 80 81 01 FF 00 00 30 80 80 01 07 81 01 FF 00 00 || 0
show,m,T,in,--from=cer         | 30 80 81 01 FF 00 00 30 80 80 01 07 81 01 FF 00 00 | { b TRUE };{ a 7, b TRUE }; || 0
check,m,T,in,--from,cer        | 30 80 81 01 FF 00 00 30 80 80 01 07 81 01 FF 00 00 | ok 2; || 0
convert,--from,cer,--to,der,m,T,in | 30 80 81 01 FF 00 00 30 80 80 01 07 81 01 FF 00 00 | 30 03 81 01 FF 30 06 80 01 07 81 01 FF || 0
convert,m,T,in,--to=cer,--from=der | 30 03 81 01 FF 30 06 80 01 07 81 01 FF | 30 80 81 01 FF 00 00 30 80 80 01 07 81 01 FF 00 00 || 0
convert,m,T,in,--to,der        | 30 03 81 01 FF 30 03 80 01 07 | 30 03 81 01 FF | asn1x: refused 8 Missing after 1 values; | 1
show,m,T,in                    | 30 03 81 01 FF 30 03 80 01 07 | { b TRUE }; | asn1x: refused 8 Missing after 1 values; | 1
check,m,T,in                   | 30 03 81 01 FF 30 03 80 01 07 || asn1x: refused 8 Missing after 1 values; | 1

M DEFINITIONS ::= BEGIN T ::= BIT STRING { a(0), b(7) } END:
show,m,T,in,--hex              | 030204a0 03020000 | '101'B;''B; || 0
convert,m,T,in,--hex,--to,der  | 030204a0 03020000 | 030205a0030100; || 0
check,m,T,in,--hex,--from,der  | 030205a0 030204a0 || asn1x: refused 12 NotCanonical after 1 values; | 1

M DEFINITIONS EXPLICIT TAGS ::= BEGIN T ::= SET { a INTEGER, b CHOICE { x [5] IMPLICIT NULL, y BOOLEAN } } END:
show,m,T,in,--hex              | 3105 020107 8500 | { a 7, b x : NULL }; || 0
convert,m,T,in,--hex,--to,cer  | 3105 020107 8500 | 318085000201070000; || 0

M DEFINITIONS ::= BEGIN T ::= SET OF U U ::= ENUMERATED { a(1), b, c(0), d } V ::= OBJECT IDENTIFIER END:
show,m,T,in,--hex              | 3180 0A0103 0A0102 0000 | { b, d }; || 0
show,m,U,in,--hex              | 0A0102 0A0101 | b;a; || 0
show,m,V,in,--hex              | 0603813403 | 2.100.3; || 0
show,m,V,in,--hex              | 0603803403 || asn1x: refused 6 Contents after 0 values; | 1

M DEFINITIONS ::= BEGIN T ::= SEQUENCE { a INTEGER OPTIONAL, b INTEGER } END:
// modules that are refused, of which the input is not read
check,m,T,in,--hex | 0 || asn1x: module refused 28 TagsNotDistinct at 1:25; | 2

M DEFINITIONS ::= BEGIN T ::= SEQUENCE { t T OPTIONAL } END:
check,m,T,in,--hex | 0 || asn1x: module refused 25 Cycle at 1:25; | 2

M DEFINITIONS ::= BEGIN T ::= [0] IMPLICIT CHOICE { a NULL } END:
show,m,T,in,--hex  | 0 || asn1x: module refused 29 ImplicitChoice at 1:25; | 2

M DEFINITIONS IMPLICIT TAGS ::= BEGIN T ::= [1] IMPLICIT U U ::= CHOICE { a NULL } END:
show,m,T,in,--hex  | 0 || asn1x: module refused 29 ImplicitChoice at 1:39; | 2

M DEFINITIONS ::= BEGIN T ::= U END:
check,m,T,in       | 00 || asn1x: module refused 24 UnknownType at 1:25; | 2
check,m,@builtin,in | 00 || asn1x: module refused 24 UnknownType at 1:1; | 2
check,m,BOOLEAN,in | 00 || asn1x: module refused 24 UnknownType at 1:1; | 2

M DEFINITIONS ::= BEGIN T ::= BIT STRING { a(0) } (SIZE (1)) END:
check,m,T,in       | 00 || asn1x: module refused 32 NotInProfile at 1:51; | 2

M DEFINITIONS ::= BEGIN T ::= BIT STRING { a(0), a(1) } END:
check,m,T,in       | 00 || asn1x: module refused 26 RepeatedName at 1:25; | 2

M DEFINITIONS ::= BEGIN T ::= BIT STRING { a(0), b(0) } END:
check,m,T,in       | 00 || asn1x: module refused 27 RepeatedNumber at 1:25; | 2

M DEFINITIONS ::= BEGIN T ::= BIT STRING { a(65536) } END:
check,m,T,in       | 00 || asn1x: module refused 31 TooLarge at 1:46; | 2

M DEFINITIONS ::= BEGIN T ::= BIT STRING { } END:
check,m,T,in       | 00 || asn1x: module refused 22 Syntax at 1:44; | 2

M DEFINITIONS ::= BEGIN T ::= ENUMERATED { a(1), b(1) } END:
check,m,T,in       | 00 || asn1x: module refused 27 RepeatedNumber at 1:25; | 2

M DEFINITIONS ::= BEGIN T ::= SEQUENCE { a BOOLEAN DEFAULT 3 } END:
check,m,T,in       | 00 || asn1x: module refused 30 BadDefault at 1:25; | 2

M DEFINITIONS ::= BEGIN T ::= # END:
check,m,T,in       | 00 || asn1x: module refused 21 Token at 1:31; | 2

M DEFINITIONS AUTOMATIC TAGS ::= BEGIN T ::= SEQUENCE { a NULL, a NULL } END:
convert,m,T,in,--to,der | 00 | '' | asn1x: module refused 26 RepeatedName at 1:40; | 2

M DEFINITIONS ::= BEGIN T ::= NULL T ::= NULL END:
convert,m,T,in,--to,der | 00 | '' | asn1x: module refused 26 RepeatedName at 1:36; | 2";

fn check_modules(alloc: Global, modules: &str) -> Result<(), Fail> {
    for part in modules.split("\n\n") {
        let (module, rows) = part.split_once(":\n").ok_or("no module")?;
        check(alloc, &Runs { module }, rows)?;
    }
    Ok(())
}

#[test]
fn runs_over_types_of_modules(rt: HostRuntime) -> Result<(), Fail> {
    check_modules(rt.alloc(), MODULES)
}

// What a run over the type `T` of a module prints and returns.
fn run_of(alloc: Global, module: &[u8], input: &[u8]) -> Result<Printed, Fail> {
    let line = line_of(alloc, "convert,calls.asn,T,in.hex,--hex,--to,der")?;
    Ok(run_over(alloc, &line, module, input))
}

// Modules, of which the input is not read.
struct RefusedModules;

impl Table for RefusedModules {
    fn holds(&self, alloc: Global, row: &str) -> Result<bool, Fail> {
        let (module, fault) = two(row)?;
        let module = lines_of(alloc, module)?;
        let found = run_of(alloc, module.as_slice(), b"05 0")?;
        let want = format!(in alloc; "asn1x: module refused {fault}\n")?;
        Ok(is_printed(&found, ("", want.as_str(), 2)))
    }
}

// a module | its fault
const REFUSED_MODULES: &str = "\
M DEFINITIONS ::= BEGIN; # END                                         | 21 Token at 2:2
                                                                       | 22 Syntax at 1:1
M DEFINITIONS ::= BEGIN T ::= ::= END                                  | 22 Syntax at 1:31
M DEFINITIONS ::= BEGIN BOOLEAN ::= NULL END                           | 23 Reserved at 1:25
M DEFINITIONS ::= BEGIN END                                            | 24 UnknownType at 1:1
M DEFINITIONS ::= BEGIN;T ::= U END                                    | 24 UnknownType at 2:1
M DEFINITIONS ::= BEGIN;  T ::= SET OF T END                           | 25 Cycle at 2:3
M DEFINITIONS ::= BEGIN;T ::= NULL;T ::= NULL END                      | 26 RepeatedName at 3:1
M DEFINITIONS ::= BEGIN;T ::= ENUMERATED { a(1), b(1) } END            | 27 RepeatedNumber at 2:1
M DEFINITIONS ::= BEGIN;T ::= SET { a NULL, b NULL } END               | 28 TagsNotDistinct at 2:1
M DEFINITIONS ::= BEGIN;T ::= [0] IMPLICIT CHOICE { a NULL } END       | 29 ImplicitChoice at 2:1
M DEFINITIONS ::= BEGIN;T ::= SEQUENCE { a BOOLEAN DEFAULT 3 } END     | 30 BadDefault at 2:1
M DEFINITIONS ::= BEGIN T ::= [268435456] NULL END                     | 31 TooLarge at 1:32
M DEFINITIONS ::= BEGIN T ::= INTEGER (5) END                          | 32 NotInProfile at 1:39";

#[test]
fn modules_that_are_refused(rt: HostRuntime) -> Result<(), Fail> {
    check(rt.alloc(), &RefusedModules, REFUSED_MODULES)
}

// Modules that are octets.
struct OctetModules;

impl Table for OctetModules {
    fn holds(&self, alloc: Global, row: &str) -> Result<bool, Fail> {
        let (module, input, out, columns) = four(row)?;
        let (err, status) = two(columns)?;
        let module = octets_of(alloc, module)?;
        let want = (
            lines_of(alloc, out)?,
            lines_of(alloc, err)?,
            status.parse::<u8>()?,
        );
        Ok(run_of(alloc, module.as_slice(), input.as_bytes())? == want)
    }
}

// octets of a module | the input | the standard output | the standard error | the status
const OCTET_MODULES: &str = "\
'M', 0A FF || | asn1x: module refused 21 Token at 1:1; | 2
// 262,144 octets, and one more
' '*262106, 'M DEFINITIONS ::= BEGIN T ::= NULL END' | 05 00 | 0500; || 0
' '*262106, 'M DEFINITIONS ::= BEGIN T ::= NULL END', FF || | asn1x: module refused 31 TooLarge at 1:1; | 2";

#[test]
fn modules_that_are_no_text(rt: HostRuntime) -> Result<(), Fail> {
    check(rt.alloc(), &OctetModules, OCTET_MODULES)
}

// What is read of a module's file.
fn read_of(alloc: Global, file: &[u8]) -> Result<Vec<u8>, Fail> {
    let mut file = file;
    match read_module(alloc, &mut file) {
        Ok(octets) => Ok(octets),
        Err(_) => Err("not read".into()),
    }
}

#[test]
fn files_of_modules(rt: HostRuntime) -> Result<(), Fail> {
    let octets = read_of(rt.alloc(), CALLS.as_bytes())?;
    assert!(rt; octets.as_slice() == CALLS.as_bytes());
    // one octet more than a text may have is enough to refuse it
    let long = octets_of(rt.alloc(), "' '*262150")?;
    assert!(rt; read_of(rt.alloc(), long.as_slice())?.len() == 262_145);
    let cut = read_module(rt.alloc(), &mut Dripping::new(b"M DEFINITIONS", 5));
    assert!(rt; cut.is_err());
    Ok(())
}

struct UnreadModules;

impl Table for UnreadModules {
    fn holds(&self, alloc: Global, row: &str) -> Result<bool, Fail> {
        let (kind, want, want_status) = three(row)?;
        let error = io::Error::from(kind_of(kind)?);
        let mut err = Vec::new(alloc);
        let status = cannot_read_module(alloc, "no/such.asn", &error, &mut err);
        Ok(err == lines_of(alloc, want)? && status == want_status.parse::<u8>()?)
    }
}

// why not | the line | the status
const UNREAD_MODULES: &str = "\
NotFound     | asn1x: cannot read no/such.asn;           | 3
IsADirectory | asn1x: cannot read no/such.asn;           | 3
OutOfMemory  | asn1x: module refused 33 NoMemory at 1:1; | 4";

#[test]
fn files_of_modules_that_cannot_be_read(rt: HostRuntime) -> Result<(), Fail> {
    check(rt.alloc(), &UnreadModules, UNREAD_MODULES)
}
