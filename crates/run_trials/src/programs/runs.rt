//! What a run prints and returns over devices that do not fail.

use super::printed::{LongRuns, Runs, is_printed, is_so, line_of, run_over};
use convert::Canonical;
use std::alloc::Global;
use std::test::Fail;
use test_tables::{Table, check, two};

const RUNS: &str = "\
convert,@builtin,BOOLEAN,in.hex,--hex,--to,der      | 01 01 2a       | 0101ff;       || 0
convert,@builtin,OCTET STRING,in.hex,--hex,--to,der | 0482000141     | 040141;       || 0
convert,@builtin,INTEGER,in.hex,--hex,--to,der      | 02 02 00 7f    || asn1x: refused 6 Contents after 0 values;  | 1
convert,@builtin,NULL,in.hex,--hex,--to,der         | 05 0           || asn1x: not hexadecimal;                    | 1
convert,@builtin,NULL,in.hex,--hex,--to,der         | 05;00;         | 0500;         || 0
convert,@builtin,OCTET STRING,in.hex,--hex,--to,der | 04 02 AB CD    | 0402abcd;     || 0
convert,@builtin,BOOLEAN,in.hex,--hex,--to,der      |                |               || 0
convert,@builtin,BOOLEAN,in.hex,--hex,--to,der      | 0101ff0101ff   | 0101ff0101ff; || 0
convert,@builtin,BOOLEAN,in.hex,--hex,--to,der      | 01 01 01 01 01 | 0101ff; | asn1x: refused 1 Truncated after 1 values; | 1
convert,@builtin,REAL,in.hex,--hex,--to,der         | 05 0           || asn1x: no such built-in type; | 64
convert,@builtin,boolean,in.hex,--hex,--to,der      | 0101ff         || asn1x: no such built-in type; | 64
convert,@builtin,,in.hex,--hex,--to,der             | 0101ff         || asn1x: no such built-in type; | 64
// to CER
convert,@builtin,OCTET STRING,in.hex,--hex,--to,cer | 04 81 01 41 | 040141; || 0
// from DER
convert,@builtin,BOOLEAN,in.hex,--hex,--to,der,--from,der | 0101ff | 0101ff; || 0
convert,@builtin,BOOLEAN,in.hex,--hex,--to,der,--from,der | 01012a || asn1x: refused 12 NotCanonical after 0 values; | 1
// over octets
convert,@builtin,OCTET STRING,in.hex,--to,der | 04 81 01, 'A'  | 04 01, 'A' || 0
convert,@builtin,OCTET STRING,in.hex,--to,der | 04 01, 'A', 04 | 04 01, 'A' | asn1x: refused 1 Truncated after 1 values; | 1
convert,@builtin,OCTET STRING,in.hex,--to,der | ''             | ''         || 0
// of command lines of which nothing is done
check,@builtin,NULL,in.hex,--hex  | 0500 | ok 1; || 0
check,@builtins,NULL,in.hex,--hex | 0500 || asn1x: module refused 22 Syntax at 1:1; | 2
// streams of no value, of many, and that end within one or have other octets between them
convert,@builtin,BOOLEAN,in,--to,der            | '' | '' || 0
show,@builtin,BOOLEAN,in                        | '' ||| 0
check,@builtin,BOOLEAN,in                       | '' | ok 0; || 0
check,@builtin,BOOLEAN,in,--hex                 || ok 0; || 0
convert,@builtin,BOOLEAN,in,--to,der,--from,der | '' | '' || 0
convert,@builtin,BOOLEAN,in,--to,der,--hex      | 01 01 01 01 01 | 0101ff; | asn1x: refused 1 Truncated after 1 values; | 1
convert,@builtin,BOOLEAN,in,--to,der            | 01 01 01 01 01 | 01 01 FF | asn1x: refused 1 Truncated after 1 values; | 1
show,@builtin,BOOLEAN,in                        | 01 01 01 01 | TRUE; | asn1x: refused 1 Truncated after 1 values; | 1
check,@builtin,BOOLEAN,in,--from,cer            | 01 01 FF 01 01 || asn1x: refused 1 Truncated after 1 values; | 1
check,@builtin,OCTET STRING,in                  | 24 80 04 01 41 00 || asn1x: refused 1 Truncated after 0 values; | 1
convert,@builtin,BOOLEAN,in,--to,der            | 01 01 FF 02 | 01 01 FF | asn1x: refused 2 Identifier after 1 values; | 1
convert,@builtin,BOOLEAN,in,--to,der            | 01 01 FF 00 00 01 01 00 | 01 01 FF | asn1x: refused 5 EndOfContents after 1 values; | 1
show,@builtin,BOOLEAN,in                        | 01 01 FF 0A 01 01 00 | TRUE; | asn1x: refused 2 Identifier after 1 values; | 1
show,@builtin,BOOLEAN,in,--from,der             | 01 01 FF 02 | TRUE; | asn1x: refused 2 Identifier after 1 values; | 1
// more octets than a piece has
convert,@builtin,BOOLEAN,in,--to,der            | 01 01 2A*90000  | 01 01 FF*90000 || 0
check,@builtin,BOOLEAN,in                       | 01 01 2A*90000  | ok 90000; || 0
convert,@builtin,BOOLEAN,in,--to,der            | 01 01 2A*90000, 01 01  | 01 01 FF*90000 | asn1x: refused 1 Truncated after 90000 values; | 1
convert,@builtin,BOOLEAN,in,--to,cer,--from,der | 01 01 FF*90000, 01 01 2A | 01 01 FF*90000 | asn1x: refused 12 NotCanonical after 90000 values; | 1
convert,@builtin,OCTET STRING,in,--to,cer       | 04 82 03 E9, 41*1001  | 24 80, 04 82 03 E8, 41*1000, 04 01 41, 00 00 || 0
convert,@builtin,OCTET STRING,in,--to,der,--from,cer | 24 80, 04 82 03 E8, 41*1000, 04 01 41, 00 00 | 04 82 03 E9, 41*1001 || 0
check,@builtin,OCTET STRING,in,--from,cer       | 04 82 03 E9, 41*1001  || asn1x: refused 12 NotCanonical after 0 values; | 1
check,@builtin,OCTET STRING,in                  | 24 80*65 || asn1x: refused 10 TooDeep after 0 values; | 1
check,@builtin,OCTET STRING,in                  | 04 83 10 00 00 || asn1x: refused 11 TooLong after 0 values; | 1
check,@builtin,OCTET STRING,in                  | 04 FF || asn1x: refused 4 Length after 0 values; | 1
check,@builtin,OCTET STRING,in                  | 04 80 || asn1x: refused 3 Form after 0 values; | 1";

#[test]
fn runs(rt: HostRuntime) -> Result<(), Fail> {
    check(rt.alloc(), &Runs { module: "" }, RUNS)
}

const LONG_RUNS: &str = "\
// 1,001 octets 41 to CER: the first 1,000, and the last
convert,@builtin,OCTET STRING,in.hex,--hex,--to,cer | '048203e9', '41'*1000, '41' | '2480048203e8', '41'*1000, '0401410000', 0A || 0
// too long a text
convert,@builtin,NULL,in.hex,--hex,--to,der | ' '*4194300, '0500'      | '0500', 0A || 0
convert,@builtin,NULL,in.hex,--hex,--to,der | ' '*4194300, '0500', 'x' | '' | asn1x: hexadecimal text too long; | 1";

#[test]
fn long_runs(rt: HostRuntime) -> Result<(), Fail> {
    check(rt.alloc(), &LongRuns, LONG_RUNS)
}

// Runs of command lines that have a rule to write by, whatever their command.
struct WithRule;

impl Table for WithRule {
    fn holds(&self, alloc: Global, row: &str) -> Result<bool, Fail> {
        let (words, columns) = two(row)?;
        let mut line = line_of(alloc, words)?;
        line.to = Some(Canonical::Der);
        is_so(alloc, &line, "", columns)
    }
}

const COMMANDS: &str = "\
show,@builtin,BOOLEAN,in.hex,--hex             | 01 01 2A 01 01 00 | TRUE;FALSE;   || 0
show,@builtin,BOOLEAN,in.hex                   | 01 01 2A 01 01 00 | TRUE;FALSE;   || 0
check,@builtin,BOOLEAN,in.hex,--hex            | 01 01 2A 01 01 00 | ok 2;         || 0
check,@builtin,BOOLEAN,in.hex                  | 01 01 2A 01 01 00 | ok 2;         || 0
convert,@builtin,BOOLEAN,in.hex,--hex,--to,der | 01 01 2A 01 01 00 | 0101ff010100; || 0
show,@builtin,BOOLEAN,in.hex,--hex,--from,der  | 01 01 2A 01 01 00 || asn1x: refused 12 NotCanonical after 0 values; | 1
show,@builtin,BOOLEAN,in.hex,--from,der        | 01 01 2A 01 01 00 || asn1x: refused 12 NotCanonical after 0 values; | 1
check,@builtin,BOOLEAN,in.hex,--hex,--from,cer | 01 01 2A 01 01 00 || asn1x: refused 12 NotCanonical after 0 values; | 1
check,@builtin,BOOLEAN,in.hex,--from,cer       | 01 01 2A 01 01 00 || asn1x: refused 12 NotCanonical after 0 values; | 1";

#[test]
fn runs_of_each_command(rt: HostRuntime) -> Result<(), Fail> {
    check(rt.alloc(), &WithRule, COMMANDS)
}

#[test]
fn run_of_a_line_of_which_nothing_is_done(rt: HostRuntime) -> Result<(), Fail> {
    let mut line = line_of(rt.alloc(), "convert,@builtin,NULL,in.hex,--hex,--to,der")?;
    line.to = None;
    let found = run_over(rt.alloc(), &line, &[], b"0500");
    assert!(rt; is_printed(&found, ("", "", 64)));
    Ok(())
}
