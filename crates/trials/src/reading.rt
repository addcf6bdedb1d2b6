//! Values whose octets come in pieces. What `read` returns for whole values is in the tables of `vectors`.

ghost use Rattle.std.specs.Prelude.{◌≤◌};

use crate::type_notation::{OctetsTable, OfOctets, typed};
use crate::value_notation::{comes_to, numbered};
use berreader::{Reader, Step, read};
use std::alloc::Global;
use std::iter::once;
use std::test::Fail;
use test_tables::{check, not_so, octets_of, prints, rows_of, three};
use types::{Refusal, Value, WellTyped};

// What is read: a value and how many octets it has, or the refusal.
type Read = Result<(Value, usize), Refusal>;

// Feeds the first octets in one piece, and the others in pieces of so many, up to the end of the first value.
fn feed_all(reader: &mut Reader<'_>, first: &[u8], others: &[u8], size: usize) -> Read
    requires { 1 ≤ size }
{
    let mut before = 0_usize;
    for piece in once(first).chain(others.chunks(size)) {
        match reader.feed(piece)? {
            Step::More => before = before.saturating_add(piece.len()),
            Step::Done { value, used } => return Ok((value, before.saturating_add(used))),
        }
    }
    Err(Refusal::Truncated)
}

// Whether so many octets in one piece, and the others in pieces of this size, come to what was read, and leave nothing
// begun behind a value.
fn comes_so(mut reader: Reader<'_>, octets: &[u8], cut: usize, size: usize, want: &Read) -> bool
    requires { 1 ≤ size }
{
    let (first, others) = octets.split_at(cut.min(octets.len()));
    let read = feed_all(&mut reader, first, others, size);
    read == *want && (read.is_err() || reader.finish() == Ok(()))
}

// Whether the octets come to what was read in pieces of each size, and in two pieces.
fn comes_as_read(alloc: Global, ty: &WellTyped, octets: &[u8], want: &Read) -> bool {
    for size in 1..=25 {
        if !comes_so(Reader::new(alloc, ty), octets, size, size, want) {
            return false;
        }
    }
    for cut in 0..octets.len() {
        if !comes_so(Reader::new(alloc, ty), octets, cut, 100, want) {
            return false;
        }
    }
    true
}

// Whether an octet completes nothing and leaves a value begun.
fn is_within(reader: &mut Reader<'_>, octet: u8) -> bool {
    match reader.feed(&[octet]) {
        Ok(Step::More) => reader.finish() == Err(Refusal::Truncated),
        _ => false,
    }
}

// What the last octet comes to, where each before it is within the value.
fn told_at_last(reader: &mut Reader<'_>, octets: &[u8]) -> Option<Result<Step, Refusal>> {
    let (last, front) = octets.split_last()?;
    for octet in front {
        if !is_within(reader, *octet) {
            return None;
        }
    }
    Some(reader.feed(&[*last]))
}

// Whether the last octet completes the value that was read, or is refused as it was.
fn ends_so(last: Option<Result<Step, Refusal>>, read: &Read) -> bool {
    match (&last, read) {
        (Some(Ok(Step::Done { value, used: 1 })), Ok((want, _))) => value == want,
        (Some(Err(refusal)), Err(want)) => refusal == want,
        _ => false,
    }
}

// Whether octets come to the same in pieces as at once.
fn is_the_same(alloc: Global, ty: &WellTyped, octets: &[u8], read: &Read) -> bool {
    let used = match read {
        Ok((_, used)) => *used,
        Err(_) => octets.len(),
    };
    let (value, _) = octets.split_at(used.min(octets.len()));
    let last = told_at_last(&mut Reader::new(alloc, ty), value);
    ends_so(last, read) && comes_as_read(alloc, ty, octets, read)
}

struct Cut;

impl OctetsTable for Cut {
    fn holds(
        &self,
        alloc: Global,
        ty: &WellTyped,
        octets: &[u8],
        others: &str,
    ) -> Result<bool, Fail> {
        is_read(alloc, ty, octets, (&read(alloc, ty, octets), others))
    }
}

// Whether this was read, in pieces too, and is what columns say.
fn is_read(
    alloc: Global,
    ty: &WellTyped,
    octets: &[u8],
    (read, want): (&Read, &str),
) -> Result<bool, Fail> {
    Ok(is_the_same(alloc, ty, octets, read) && comes_to(alloc, read, want)?)
}

// type | octets | how many of them are read, and the value, or the refusal of the last one
const VALUES: &str = "\
SEQUENCE-OF{ [1]{ OCTETS } } | 3080 A103040141 A1802480 04024243 0400 0000 0000 0000 3002 | 23 items( octets:41 octets:4243 )
OCTETS | 24 80 24 06 04 01 41 04 01 42 24 80 04 02 43 44 00 00 04 00 00 00 | 22 octets:'ABCD'
OCTETS | 24 0F 24 80 24 03 04 01 41 00 00 24 04 04 02 42 43 | 17 octets:'ABC'
BITS | 23 80 03 03 00 AA BB 23 80 03 02 00 CC 00 00 23 04 03 02 04 FF 00 00 | 23 bits:AABBCCF0/4
BITS | 23 08 03 02 00 AA 03 02 07 80 | 10 bits:AA80/7
VisibleString | 3A 80 04 01 4A 24 80 04 01 6F 00 00 00 00 | 14 text:'Jo'
// refusals, of the last octet, in strings that pieces cut
OCTETS | 24 80 04 01 41 1A | refused 2
OCTETS | 24 80 04 01 41 04 80 | refused 3
OCTETS | 24 05 04 01 41 04 01 | refused 4
OCTETS | 24 80 04 01 41 00 01 | refused 5
OCTETS | 24 80 24 03 04 01 41 00 01 | refused 5
BITS | 23 80 03 02 04 F0 03 | refused 6
VisibleString | 3A 80 04 01 4A 04 01 7F 00 00 | refused 7
UTCTime | 37 06 04 01 32 04 01 34 | refused 7
OCTETS | 24 80 04 01 41 04 83 0F FF F5 | refused 11";

#[test]
fn values_in_pieces_of_each_size(rt: HostRuntime) -> Result<(), Fail> {
    check(rt.alloc(), &OfOctets(Cut), VALUES)
}

// Whether a row of a table of pieces holds.
fn is_told(alloc: Global, reader: &mut Reader<'_>, row: &str) -> Result<bool, Fail> {
    let (piece, told, end) = three(row)?;
    let step = numbered(reader.feed(&octets_of(alloc, piece)?));
    Ok(prints(alloc, &step, told)? && prints(alloc, &numbered(reader.finish()), end)?)
}

// Fails at the first row that does not hold, of pieces that come one behind another.
fn all_told(alloc: Global, reader: &mut Reader<'_>, rows: &str) -> Result<(), Fail> {
    for row in rows_of(rows)? {
        if !is_told(alloc, reader, row)? {
            return Err(not_so(row));
        }
    }
    Ok(())
}

fn check_script(alloc: Global, ty: &str, rows: &str) -> Result<(), Fail> {
    let ty = typed(alloc, ty)?;
    all_told(alloc, &mut Reader::new(alloc, &ty), rows)
}

// Checks the pieces of each type, behind which an empty line stands.
fn check_scripts(alloc: Global, scripts: &str) -> Result<(), Fail> {
    for script in scripts.split("\n\n") {
        let (ty, rows) = script.split_once(":\n").ok_or("no type")?;
        check_script(alloc, ty, rows)?;
    }
    Ok(())
}

// a type, and below it a row for each piece, of INTEGER of the numbers 1, 2 and 300: the piece | what it comes to | what
// the end of the input would come to behind it
const SCRIPTS: &str = "\
INTEGER:
02 01 01 02 81 01 02 02 02 01 | Ok(Done { value: Integer(1), used: 3 }) | Ok(())
02 81 01 02 02 02 01 | Ok(Done { value: Integer(2), used: 4 }) | Ok(())
02 02 01 | Ok(More) | Err(1)
''       | Ok(More) | Err(1)
2C 02    | Ok(Done { value: Integer(300), used: 1 }) | Ok(())

NULL:
'' | Ok(More) | Ok(())
05 | Ok(More) | Err(1)
'' | Ok(More) | Err(1)
00 | Ok(Done { value: Null, used: 1 }) | Ok(())
'' | Ok(More) | Ok(())

SEQUENCE-OF{ [1]{ OCTETS } }:
30 80 A1 | Ok(More) | Err(1)
00 00 00 | Err(4) | Err(4)
''       | Err(4) | Err(4)
30 80 A1 03 04 01 41 A1 80 24 80 04 02 42 43 04 00 00 00 00 00 00 00 30 02 | Err(4) | Err(4)

OCTETS:
24 80    | Ok(More) | Err(1)
04 01 41 | Ok(More) | Err(1)
24 80    | Ok(More) | Err(1)
00 00    | Ok(More) | Err(1)
00 00    | Ok(Done { value: Octets([65]), used: 2 }) | Ok(())";

#[test]
fn pieces_one_behind_another(rt: HostRuntime) -> Result<(), Fail> {
    check_scripts(rt.alloc(), SCRIPTS)
}
