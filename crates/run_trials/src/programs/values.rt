//! The values of a source, one by one, from a slice and from a reader of one octet a call.

ghost use Rattle.std.specs.Prelude.{◌≡◌};

use super::boolean;
use super::letters::names_of;
use crate::dripping::Dripping;
use convert::{FromReader, FromSlice, NoMemory, Rule, Source, Values, WellTyped, conforms, show};
use std::alloc::Global;
use std::test::Fail;
use test_tables::{Table, check, four, octets_of, three, two};

// the rule and the type by their letters | octets | the values' texts | the number of the refusal or 0 | how many values
// were returned | how many octets they have
const ROWS: &str = "\
b b | ''                               |                  | 0  | 0 | 0
b b | 01 01 2a 01 01 00                | TRUE;FALSE;      | 0  | 2 | 6
b b | 01 01 00 01 81 01 00 01          | FALSE;FALSE;     | 1  | 2 | 7
b b | 01 01 00 01 02 00 00 01 01 00    | FALSE;           | 6  | 1 | 3
b b | 02 01 00                         |                  | 2  | 0 | 0
d b | 01 01 ff 01 01 2a                | TRUE;            | 12 | 1 | 3
c b | 01 01 00 01 01 ff                | FALSE;TRUE;      | 0  | 2 | 6
b o | 24 80 04 01 41 00 00 04 00       | '41'H;''H;       | 0  | 2 | 9
d o | 04 00 24 80 04 01 41 00 00       | ''H;             | 12 | 1 | 2
c o | 04 01 41 04 81 01 42             | '41'H;           | 12 | 1 | 3
b s | 30 80 04 01 41 04 00 00 00 30 00 | { '41'H, ''H };{ }; | 0 | 2 | 11
d s | 30 03 04 01 41 30 02 04          | { '41'H };       | 1  | 1 | 5
c s | 30 80 04 00 00 00 30 00          | { ''H };         | 12 | 1 | 6";

// A row of the table.
#[derive(Drop)]
struct Row<'a> {
    rule: Rule,
    ty: WellTyped,
    octets: Vec<u8>,
    texts: &'a str,
    ending: (u8, u64, u64),
}

fn row_of<'a>(alloc: Global, line: &'a str) -> Result<Row<'a>, Fail> {
    let (names, octets, texts, ending) = four(line)?;
    let (rule, ty) = names_of(alloc, names)?;
    Ok(Row {
        rule,
        ty,
        octets: octets_of(alloc, octets)?,
        texts,
        ending: ending_of(ending)?,
    })
}

// The number of the refusal or 0, how many values were returned, and how many octets they have.
fn ending_of(columns: &str) -> Result<(u8, u64, u64), Fail> {
    let (number, done, offset) = three(columns)?;
    Ok((
        number.parse::<u8>()?,
        done.parse::<u64>()?,
        offset.parse::<u64>()?,
    ))
}

// The number that stops the values, or 0 at the end. Their texts are put behind `out`, a semicolon behind each.
fn take_all<S: Source>(
    alloc: Global,
    ty: &WellTyped,
    values: &mut Values<'_, S>,
    out: &mut Vec<u8>,
) -> Result<u8, NoMemory> {
    for _ in 0..4 {
        let next = values.next();
        match next {
            Ok(Some(value)) => {
                if !conforms(ty.as_type(), &value) {
                    return Ok(u8::MAX);
                }
                let text = show(alloc, ty, &value)?;
                out.extend_from_slice(text.as_bytes())?;
                out.push(b';')?;
            }
            Ok(None) => return Ok(0),
            Err(stopped) => return Ok(stopped.refusal.number()),
        }
    }
    Ok(u8::MAX)
}

// Whether the values of a source are those of a row.
fn is_as_said<S: Source + Drop>(alloc: Global, row: &Row, source: S) -> Result<bool, NoMemory>
    requires { S.failures source ≡ 0 }
{
    let mut values = Values::new(alloc, &row.ty, row.rule, source);
    are_as_said(alloc, row, &mut values)
}

// Whether values are those of a row, and the call after the last one says the same again.
fn are_as_said<S: Source>(
    alloc: Global,
    row: &Row,
    values: &mut Values<'_, S>,
) -> Result<bool, NoMemory> {
    let mut texts = Vec::new(alloc);
    let number = take_all(alloc, &row.ty, values, &mut texts)?;
    let again = take_all(alloc, &row.ty, values, &mut texts)?;
    let ending = (number, values.done(), values.offset());
    Ok(ending == row.ending && again == number && texts.as_slice() == row.texts.as_bytes())
}

// Values from a slice and from a reader.
struct OfBoth;

impl Table for OfBoth {
    fn holds(&self, alloc: Global, row: &str) -> Result<bool, Fail> {
        let row = row_of(alloc, row)?;
        let octets = row.octets.as_slice();
        let dripping = Dripping::new(octets, octets.len() + 1);
        Ok(
            is_as_said(alloc, &row, FromSlice::new(octets))?
                && is_as_said(alloc, &row, FromReader::new(dripping))?,
        )
    }
}

#[test]
fn of_slices_and_of_readers(rt: HostRuntime) -> Result<(), Fail> {
    check(rt.alloc(), &OfBoth, ROWS)
}

// The number that stops the values or 0, how many were returned, and how many octets they have.
fn end_of<S: Source>(
    alloc: Global,
    ty: &WellTyped,
    values: &mut Values<'_, S>,
) -> Result<(u8, u64, u64), NoMemory> {
    let mut texts = Vec::new(alloc);
    let number = take_all(alloc, ty, values, &mut texts)?;
    Ok((number, values.done(), values.offset()))
}

// Whether the values of 01 01 01 and 01 01 00 end so, from a reader that fails once so many calls went well.
fn ends_so(alloc: Global, good_calls: usize, ending: (u8, u64, u64)) -> Result<bool, Fail> {
    let ty = boolean()?;
    let source = FromReader::new(Dripping::new(&[1, 1, 1, 1, 1, 0], good_calls));
    let mut values = Values::new(alloc, &ty, Rule::Ber, source);
    let end = end_of(alloc, &ty, &mut values);
    let has_failed = values.into_source().failed();
    let end = end?;
    Ok(end == ending && has_failed == (end.0 == 15))
}

struct OfAFailingReader;

impl Table for OfAFailingReader {
    fn holds(&self, alloc: Global, row: &str) -> Result<bool, Fail> {
        let (good_calls, ending) = two(row)?;
        ends_so(alloc, good_calls.parse::<usize>()?, ending_of(ending)?)
    }
}

// how many calls go well | the refusal's number | how many values came | how many octets they have
const FAILING_READERS: &str = "\
0 | 15 | 0 | 0
2 | 15 | 0 | 0
3 | 15 | 1 | 3
5 | 15 | 1 | 3
6 | 15 | 2 | 6
7 | 0  | 2 | 6";

#[test]
fn of_a_reader_that_fails(rt: HostRuntime) -> Result<(), Fail> {
    check(rt.alloc(), &OfAFailingReader, FAILING_READERS)
}
