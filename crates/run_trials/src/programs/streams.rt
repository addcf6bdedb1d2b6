//! Streams from sources that give one octet a call or many, to sinks that take one octet a call or many.

use super::letters::{names_of, rule_of, type_of};
use super::{boolean, counted};
use crate::dripping::{Dripping, Filling};
use convert::{
    Canonical, FromReader, FromSlice, Rule, ToVec, ToWriter, WellTyped, check as check_stream,
    convert, list,
};
use std::alloc::Global;
use std::test::Fail;
use test_tables::{Table, check, four, lines_of, octets_of, three};

// A BOOLEAN that is TRUE, and one that is FALSE.
const TRUE_AND_FALSE: [u8; 6] = [0x01, 0x01, 0x01, 0x01, 0x01, 0x00];

// What `convert` writes of a slice, and its count.
fn converted(alloc: Global, ty: &WellTyped, from: Rule, octets: &[u8]) -> (Vec<u8>, (u64, u8)) {
    let to = Canonical::Der;
    let mut sink = ToVec::new(Vec::new(alloc));
    let result = convert(alloc, ty, from, to, &mut FromSlice::new(octets), &mut sink);
    (sink.into_vec(), counted(result))
}

// What `list` writes of a slice, and its count.
fn listed(alloc: Global, ty: &WellTyped, from: Rule, octets: &[u8]) -> (Vec<u8>, (u64, u8)) {
    let mut sink = ToVec::new(Vec::new(alloc));
    let result = list(alloc, ty, from, &mut FromSlice::new(octets), &mut sink);
    (sink.into_vec(), counted(result))
}

// What `convert` writes of a source that gives single octets to a sink that takes single octets, and its count.
fn converted_by_octets(
    alloc: Global,
    ty: &WellTyped,
    from: Rule,
    octets: &[u8],
) -> (Vec<u8>, (u64, u8)) {
    let to = Canonical::Der;
    let mut source = FromReader::new(Dripping::new(octets, 1_000));
    let mut sink = ToWriter::new(Filling::new(alloc, 1_000));
    let result = convert(alloc, ty, from, to, &mut source, &mut sink);
    (sink.into_inner().taken, counted(result))
}

// the rule and the type by their letters | octets | what is written | how many values are done, and the refusal's number
// or 0
//
// The long form of a length is 12, but not before BER has the value: it refuses one of two octets with 6.
const CONVERTED: &str = "\
b b | ''                         | ''                | 0 0
b b | 01 01 01 01 01 00          | 01 01 FF 01 01 00 | 2 0
b b | 01 01 2A                   | 01 01 FF          | 1 0
b b | 01 01 2A 01 81 01 00       | 01 01 FF 01 01 00 | 2 0
b b | 01 01 01 01 01             | 01 01 FF          | 1 1
b b | 01 01 FF 02                | 01 01 FF          | 1 2
b b | 01                         | ''                | 0 1
b o | 24 80 04 01 41 00 00 04 00 | 04 01 41 04 00    | 2 0
d b | 01 01 FF 01 01 00          | 01 01 FF 01 01 00 | 2 0
d b | 01 01 FF 01 01 2A          | 01 01 FF          | 1 12
c b | 01 01 FF 01                | 01 01 FF          | 1 1
d o | 04 81 01 41                | ''                | 0 12
d o | 04 81 02 41                | ''                | 0 1
d b | 01 01 FF 01 81 02 FF FF    | 01 01 FF          | 1 6";

// Octets that are converted whole and octet by octet.
struct Conversions;

impl Table for Conversions {
    fn holds(&self, alloc: Global, row: &str) -> Result<bool, Fail> {
        let (names, octets, written, ending) = four(row)?;
        let octets = octets_of(alloc, octets)?;
        let want = (octets_of(alloc, written)?, ending_of(ending)?);
        let (from, ty) = names_of(alloc, names)?;
        Ok(
            converted(alloc, &ty, from, octets.as_slice()) == want
                && converted_by_octets(alloc, &ty, from, octets.as_slice()) == want,
        )
    }
}

// How many values a column says are done, and the refusal's number or 0.
fn ending_of(column: &str) -> Result<(u64, u8), Fail> {
    let (done, number) = column.split_once(' ').ok_or("one number")?;
    Ok((done.parse::<u64>()?, number.parse::<u8>()?))
}

#[test]
fn converted_streams(rt: HostRuntime) -> Result<(), Fail> {
    check(rt.alloc(), &Conversions, CONVERTED)
}

// the rule by its letter | octets of BOOLEANs | the lines | how many values are done, and the refusal's number or 0
const LISTED: &str = "\
b | ''                |             | 0 0
b | 01 01 2A 01 01 00 | TRUE;FALSE; | 2 0
b | 01 01 2A 01 01    | TRUE;       | 1 1
d | 01 01 00 01 01 2A | FALSE;      | 1 12
c | 02                |             | 0 2";

struct Lists;

impl Table for Lists {
    fn holds(&self, alloc: Global, row: &str) -> Result<bool, Fail> {
        let (rule, octets, lines, ending) = four(row)?;
        let octets = octets_of(alloc, octets)?;
        let want = (lines_of(alloc, lines)?, ending_of(ending)?);
        let (from, ty) = (rule_of(rule)?, boolean()?);
        let source = &mut FromSlice::new(octets.as_slice());
        let checked = counted(check_stream(alloc, &ty, from, source));
        Ok(checked == want.1 && listed(alloc, &ty, from, octets.as_slice()) == want)
    }
}

#[test]
fn checked_and_listed_streams(rt: HostRuntime) -> Result<(), Fail> {
    check(rt.alloc(), &Lists, LISTED)
}

// the rule by its letter | how many calls of the reader go well | how many values are done, and the refusal's number |
// what is written
const FAILING_SOURCES: &str = "\
b | 0 | 0 15 | ''
b | 1 | 0 15 | ''
b | 2 | 0 15 | ''
b | 3 | 1 15 | 01 01 FF
b | 4 | 1 15 | 01 01 FF
b | 5 | 1 15 | 01 01 FF
b | 6 | 2 15 | 01 01 FF 01 01 00
// TRUE may be written as 01 in BER alone
c | 0 | 0 15 | ''
c | 1 | 0 15 | ''
c | 2 | 0 15 | ''
c | 3 | 0 12 | ''
c | 4 | 0 12 | ''
c | 5 | 0 12 | ''
c | 6 | 0 12 | ''";

struct FailingSources;

impl Table for FailingSources {
    fn holds(&self, alloc: Global, row: &str) -> Result<bool, Fail> {
        let (rule, good_calls, ending, written) = four(row)?;
        let (from, good_calls) = (rule_of(rule)?, good_calls.parse::<usize>()?);
        let want = (octets_of(alloc, written)?, ending_of(ending)?);
        let ty = boolean()?;
        let mut source = FromReader::new(Dripping::new(&TRUE_AND_FALSE, good_calls));
        let mut sink = ToVec::new(Vec::new(alloc));
        let result = convert(alloc, &ty, from, Canonical::Der, &mut source, &mut sink);
        Ok((sink.into_vec(), counted(result)) == want)
    }
}

#[test]
fn source_that_fails_at_each_call(rt: HostRuntime) -> Result<(), Fail> {
    check(rt.alloc(), &FailingSources, FAILING_SOURCES)
}

// how many calls of the writer go well | how many values are done, and the refusal's number | what is written
const FAILING_SINKS: &str = "\
0 | 0 16 | ''
1 | 0 16 | 01
2 | 0 16 | 01 01
3 | 1 16 | 01 01 FF
4 | 1 16 | 01 01 FF 01
5 | 1 16 | 01 01 FF 01 01";

struct FailingSinks;

impl Table for FailingSinks {
    fn holds(&self, alloc: Global, row: &str) -> Result<bool, Fail> {
        let (good_calls, ending, written) = three(row)?;
        let want = (octets_of(alloc, written)?, ending_of(ending)?);
        let ty = boolean()?;
        let mut source = FromSlice::new(&TRUE_AND_FALSE);
        let mut sink = ToWriter::new(Filling::new(alloc, good_calls.parse::<usize>()?));
        let to = Canonical::Der;
        let result = convert(alloc, &ty, Rule::Ber, to, &mut source, &mut sink);
        Ok((sink.into_inner().taken, counted(result)) == want)
    }
}

#[test]
fn sink_that_fails_at_each_call(rt: HostRuntime) -> Result<(), Fail> {
    check(rt.alloc(), &FailingSinks, FAILING_SINKS)
}

#[test]
fn sink_with_room_for_four_octets(rt: HostRuntime) -> Result<(), Fail> {
    let mut room = [0; 4];
    let mut sink = ToWriter::new(room.as_mut_slice());
    let result = convert(
        rt.alloc(),
        &boolean()?,
        Rule::Ber,
        Canonical::Der,
        &mut FromSlice::new(&TRUE_AND_FALSE),
        &mut sink,
    );
    assert!(rt; counted(result) == (1, 16) && room == [0x01, 0x01, 0xFF, 0x01]);
    Ok(())
}

#[test]
fn too_long_an_encoding_is_only_checked(rt: HostRuntime) -> Result<(), Fail> {
    // 1,048,576 octets in all
    let octets = octets_of(rt.alloc(), "30 80, 04 83 0F FF F7, 00*1048567, 00 00")?;
    assert!(rt; is_only_checked(rt.alloc(), &type_of(rt.alloc(), "s")?, octets.as_slice()));
    Ok(())
}

// Whether one value is there, and is not written, since its encoding is too long.
fn is_only_checked(alloc: Global, ty: &WellTyped, octets: &[u8]) -> bool {
    let source = &mut FromSlice::new(octets);
    let checked = counted(check_stream(alloc, ty, Rule::Ber, source));
    let (written, count) = converted(alloc, ty, Rule::Ber, octets);
    checked == (1, 0) && count == (0, 14) && written.is_empty()
}
