//! Streams of different values of one type. A value is read into the room of the one before it, of which nothing is left
//! in it.

use crate::answers::{Streamed, convert_stream, list_stream};
use crate::rows::{Becomes, Row, row_of};
use crate::types_by_name::type_of;
use convert::{Canonical, Rule, WellTyped};
use std::alloc::Global;
use std::test::Fail;
use test_tables::is_row;

// octets | under DER | under CER | text; the rows below a type are one stream, and an empty line ends it
const ROWS: &str = "
AUTOMATIC TAGS SEQUENCE { a INTEGER OPTIONAL, b OCTET STRING, c OCTET STRING DEFAULT '4142'H, d CHOICE { e BOOLEAN, f UTF8String, g SEQUENCE { h INTEGER, i IA5String OPTIONAL } }, j SEQUENCE OF OCTET STRING OPTIONAL }:
30 18 80 01 05 81 03 41 42 43 A3 05 81 03 78 79 7A A4 07 04 01 01 04 02 02 03 | kept | 30 80 80 01 05 81 03 41 42 43 A3 80 81 03 78 79 7A 00 00 A4 80 04 01 01 04 02 02 03 00 00 00 00 | { a 5, b '414243'H, d f : \"xyz\", j { '01'H, '0203'H } }
30 0B 81 01 44 82 01 FF A3 03 80 01 01 | 30 0B 81 01 44 82 01 FF A3 03 80 01 FF | 30 80 81 01 44 82 01 FF A3 80 80 01 FF 00 00 00 00 | { b '44'H, c 'FF'H, d e : TRUE }
30 16 81 05 45 46 47 48 49 A3 0D A2 0B 80 01 07 81 06 6C 6F 6E 67 65 72 | kept | 30 80 81 05 45 46 47 48 49 A3 80 A2 80 80 01 07 81 06 6C 6F 6E 67 65 72 00 00 00 00 00 00 | { b '4546474849'H, d g : { h 7, i \"longer\" } }
30 0E 80 01 FF 81 00 A3 05 A2 03 80 01 08 A4 00 | kept | 30 80 80 01 FF 81 00 A3 80 A2 80 80 01 08 00 00 00 00 A4 80 00 00 00 00 | { a -1, b ''H, d g : { h 8 }, j { } }
// a string in segments, which is read step by step, and a default that is spelt out
30 80 80 01 05 A1 80 04 02 41 42 04 01 43 00 00 82 02 41 42 A3 80 81 03 78 79 7A 00 00 A4 80 04 01 01 04 02 02 03 00 00 00 00 | 30 18 80 01 05 81 03 41 42 43 A3 05 81 03 78 79 7A A4 07 04 01 01 04 02 02 03 | 30 80 80 01 05 81 03 41 42 43 A3 80 81 03 78 79 7A 00 00 A4 80 04 01 01 04 02 02 03 00 00 00 00 | { a 5, b '414243'H, d f : \"xyz\", j { '01'H, '0203'H } }
30 0E 80 01 FF 81 00 A3 05 A2 03 80 01 08 A4 00 | kept | 30 80 80 01 FF 81 00 A3 80 A2 80 80 01 08 00 00 00 00 A4 80 00 00 00 00 | { a -1, b ''H, d g : { h 8 }, j { } }
30 0B 81 01 44 82 01 FF A3 03 80 01 FF | kept | 30 80 81 01 44 82 01 FF A3 80 80 01 FF 00 00 00 00 | { b '44'H, c 'FF'H, d e : TRUE }

SET { a [0] OCTET STRING, b [1] BOOLEAN OPTIONAL }:
31 08 81 01 01 80 03 41 42 43  | 31 08 80 03 41 42 43 81 01 FF | 31 80 80 03 41 42 43 81 01 FF 00 00 | { a '414243'H, b TRUE }
31 02 80 00                    | kept | 31 80 80 00 00 00       | { a ''H }
31 03 80 01 44                 | kept | 31 80 80 01 44 00 00    | { a '44'H }

SEQUENCE OF SEQUENCE { a BOOLEAN OPTIONAL, b OCTET STRING OPTIONAL }:
30 0C 30 03 01 01 FF 30 05 04 03 41 42 43 | kept | 30 80 30 80 01 01 FF 00 00 30 80 04 03 41 42 43 00 00 00 00 | { { a TRUE }, { b '414243'H } }
30 05 30 03 04 01 44           | kept | 30 80 30 80 04 01 44 00 00 00 00 | { { b '44'H } }
30 00                          | kept | 30 80 00 00             | { }
30 04 30 00 30 00              | kept | 30 80 30 80 00 00 30 80 00 00 00 00 | { { }, { } }

CHOICE { a UTF8String, b OCTET STRING, c SEQUENCE { d NULL OPTIONAL, e IA5String OPTIONAL } }:
0C 03 61 62 63                 | kept | kept                    | a : \"abc\"
04 01 41                       | kept | kept                    | b : '41'H
30 05 05 00 16 01 7A           | kept | 30 80 05 00 16 01 7A 00 00 | c : { d NULL, e \"z\" }
30 00                          | kept | 30 80 00 00             | c : { }
0C 01 64                       | kept | kept                    | a : \"d\"
30 04 16 02 79 7A              | kept | 30 80 16 02 79 7A 00 00 | c : { e \"yz\" }
04 00                          | kept | kept                    | b : ''H

UTF8String:
0C 03 61 62 63                 | kept | kept                    | \"abc\"
0C 01 64                       | kept | kept                    | \"d\"
0C 02 65 66                    | kept | kept                    | \"ef\"

GeneralizedTime:
18 11, '20240101000000.5Z'     | kept | kept                    | \"20240101000000.5Z\"
18 0F, '20240229120000Z'       | kept | kept                    | \"20240229120000Z\"
18 12, '20240101000000.25Z'    | kept | kept                    | \"20240101000000.25Z\"

INTEGER:
02 12 01, 00*17                | kept | kept                    | '010000000000000000000000000000000000'H
02 01 05                       | kept | kept                    | 5
02 11 01, 00*16                | kept | kept                    | '0100000000000000000000000000000000'H
02 12 01, 00*17                | kept | kept                    | '010000000000000000000000000000000000'H
02 11 02, 00*16                | kept | kept                    | '0200000000000000000000000000000000'H
";

/// The values of a stream, one after another.
#[derive(Drop)]
struct Stream {
    octets: Vec<u8>,
    der: Vec<u8>,
    cer: Vec<u8>,
    lines: Vec<u8>,
    count: u64,
}

impl Stream {
    fn new(alloc: Global) -> Self {
        Stream {
            octets: Vec::new(alloc),
            der: Vec::new(alloc),
            cer: Vec::new(alloc),
            lines: Vec::new(alloc),
            count: 0,
        }
    }

    // Adds the value of a row.
    fn add(&mut self, row: &Row) -> Result<(), Fail> {
        self.octets.extend_from_slice(row.octets.as_slice())?;
        self.der.extend_from_slice(octets_in(&row.der)?)?;
        self.cer.extend_from_slice(octets_in(&row.cer)?)?;
        self.lines.extend_from_slice(row.text.as_bytes())?;
        self.lines.push(b'\n')?;
        self.count = self.count.saturating_add(1);
        Ok(())
    }

    // Checks what becomes of the stream, from each rule.
    fn check(&self, alloc: Global, ty: &WellTyped) -> Result<(), Fail> {
        self.check_from(alloc, ty, (Rule::Ber, self.octets.as_slice()))?;
        self.check_from(alloc, ty, (Rule::Cer, self.cer.as_slice()))?;
        self.check_from(alloc, ty, (Rule::Der, self.der.as_slice()))?;
        let listed = list_stream(alloc, ty, self.octets.as_slice());
        self.expect(&listed, self.lines.as_slice(), "lines")
    }

    fn check_from(
        &self,
        alloc: Global,
        ty: &WellTyped,
        (from, octets): (Rule, &[u8]),
    ) -> Result<(), Fail> {
        let der = convert_stream(alloc, (from, Canonical::Der), ty, octets);
        self.expect(&der, self.der.as_slice(), "DER")?;
        let cer = convert_stream(alloc, (from, Canonical::Cer), ty, octets);
        self.expect(&cer, self.cer.as_slice(), "CER")
    }

    // Fails where another thing was written, or fewer values were done.
    fn expect(&self, found: &Streamed, want: &[u8], what: &str) -> Result<(), Fail> {
        let (written, counted) = found;
        if written.as_slice() == want && *counted == Ok(self.count) {
            return Ok(());
        }
        Err(Fail::new(format_args!("other {what}: {written:?} and not {want:?}")))
    }
}

fn octets_in(becomes: &Becomes) -> Result<&[u8], Fail> {
    match becomes {
        Becomes::Octets(octets) => Ok(octets.as_slice()),
        Becomes::Refused(_) => Err("no octets".into()),
        Becomes::LeftOver => Err("no octets".into()),
        Becomes::NotSaid => Err("no octets".into()),
    }
}

// Checks the streams of a table.
fn check_in_turn(alloc: Global, table: &str) -> Result<(), Fail> {
    for part in table.split("\n\n") {
        check_part(alloc, part.trim())?;
    }
    Ok(())
}

// Checks the stream of a type and the rows below it.
fn check_part(alloc: Global, part: &str) -> Result<(), Fail> {
    let (name, rows) = part.split_once(":\n").ok_or("no type")?;
    check_rows(alloc, &type_of(alloc, name)?, rows)
}

fn check_rows(alloc: Global, ty: &WellTyped, rows: &str) -> Result<(), Fail> {
    stream_of(alloc, ty, rows)?.check(alloc, ty)
}

// The stream that rows of a type are.
fn stream_of(alloc: Global, ty: &WellTyped, rows: &str) -> Result<Stream, Fail> {
    let mut stream = Stream::new(alloc);
    for line in rows.lines() {
        if is_row(line) {
            stream.add(&row_of(alloc, ty, line)?)?;
        }
    }
    Ok(stream)
}

#[test]
fn streams(rt: HostRuntime) -> Result<(), Fail> {
    check_in_turn(rt.alloc(), ROWS)
}
