//! What the rows of the tables are compared with.

use crate::accepted::check_accepted;
use crate::answers::{ReadFront, convert_by, number_of, read_by};
use crate::changed::check_changed;
use crate::pieces::check_pieces;
use crate::rows::{Becomes, Row, row_of};
use crate::streamed::{check_one_number, check_stopped};
use crate::tables::{TypedTable, check_typed};
use convert::{Canonical, Refusal, Rule, WellTyped};
use std::alloc::Global;
use std::test::Fail;

/// The rules that octets are read by.
pub const RULES: [Rule; 3] = [Rule::Ber, Rule::Cer, Rule::Der];

/// Checks what the rows of a table become.
pub fn check_table(alloc: Global, table: &str) -> Result<(), Fail> {
    check_typed(alloc, &Encodings, table)
}

struct Encodings;

impl TypedTable for Encodings {
    fn holds(&self, alloc: Global, ty: &WellTyped, line: &str) -> Result<bool, Fail> {
        check_line(alloc, ty, line)?;
        Ok(true)
    }
}

/// Checks a line that is a row of a table of this type.
pub fn check_line(alloc: Global, ty: &WellTyped, line: &str) -> Result<(), Fail> {
    check_row(alloc, &row_of(alloc, ty, line)?)
}

fn check_row(alloc: Global, row: &Row) -> Result<(), Fail> {
    check_changed(alloc, row)?;
    match row.der {
        Becomes::Refused(14) => check_accepted(alloc, row),
        Becomes::Refused(number) => check_refused(alloc, row, number),
        Becomes::LeftOver => check_left_over(alloc, row),
        Becomes::Octets(_) => check_accepted(alloc, row),
        Becomes::NotSaid => check_accepted(alloc, row),
    }
}

/// Fails where something does not hold of a row.
pub fn expect(holds: bool, what: &str, row: &Row) -> Result<(), Fail> {
    if holds {
        return Ok(());
    }
    let line = row.line;
    Err(Fail::new(format_args!("{what} at {line}")))
}

/// Fails where octets of a row are refused.
pub fn refused(refusal: Refusal, what: &str, row: &Row) -> Result<(), Fail> {
    let number = refusal.number();
    let line = row.line;
    Err(Fail::new(format_args!("refused {number}: {what} at {line}")))
}

/// Fails where the number of a refusal is another one.
pub fn expect_number(found: Option<u8>, want: u8, what: &str, row: &Row) -> Result<(), Fail> {
    if found == Some(want) {
        return Ok(());
    }
    let line = row.line;
    Err(Fail::new(format_args!("{found:?} and not {want}: {what} at {line}")))
}

/// Fails where the number of a refusal is neither this one nor 12: a strict reader names the first fault that it meets,
/// which may be one against its rule alone, before the octets that BER refuses.
pub fn expect_strict(found: Option<u8>, want: u8, what: &str, row: &Row) -> Result<(), Fail> {
    if found == Some(12) {
        return Ok(());
    }
    expect_number(found, want, what, row)
}

// Checks that all readers refuse octets.
fn check_refused(alloc: Global, row: &Row, number: u8) -> Result<(), Fail> {
    check_read_refused(alloc, row, number)?;
    check_stopped(alloc, row, number)?;
    for rule in [Rule::Cer, Rule::Der] {
        check_one_number(alloc, row, rule, number)?;
    }
    if row.is_long() {
        return Ok(());
    }
    for rule in RULES {
        check_not_taken(alloc, row, rule, number)?;
    }
    Ok(())
}

// Checks that BER refuses octets, in pieces as well.
fn check_read_refused(alloc: Global, row: &Row, number: u8) -> Result<(), Fail> {
    let octets = row.octets.as_slice();
    check_pieces_by(alloc, row, octets)?;
    let read = read_by(alloc, Rule::Ber, row.ty, octets);
    expect_number(number_of(read), number, "read by BER", row)
}

// Checks that a reader of pieces returns what `read` does.
fn check_pieces_by(alloc: Global, row: &Row, octets: &[u8]) -> Result<(), Fail> {
    check_pieces(
        alloc,
        row,
        octets,
        &read_by(alloc, Rule::Ber, row.ty, octets),
    )
}

// Checks that octets are refused by a rule.
fn check_not_taken(alloc: Global, row: &Row, rule: Rule, number: u8) -> Result<(), Fail> {
    let octets = row.octets.as_slice();
    let read = read_by(alloc, rule, row.ty, octets);
    expect_by(rule, number_of(read), number, name_of(rule), row)?;
    let der = convert_by(alloc, (rule, Canonical::Der), row.ty, octets);
    expect_by(rule, number_of(der), number, "converted to DER", row)?;
    let cer = convert_by(alloc, (rule, Canonical::Cer), row.ty, octets);
    expect_by(rule, number_of(cer), number, "converted to CER", row)
}

/// Fails where the number of a refusal is not the one that BER names, and by CER and DER not 12 either.
pub fn expect_by(
    rule: Rule,
    found: Option<u8>,
    want: u8,
    what: &str,
    row: &Row,
) -> Result<(), Fail> {
    match rule {
        Rule::Ber => expect_number(found, want, what, row),
        Rule::Cer | Rule::Der => expect_strict(found, want, what, row),
    }
}

// Checks that a value ends before the octets do.
fn check_left_over(alloc: Global, row: &Row) -> Result<(), Fail> {
    let octets = row.octets.as_slice();
    check_first(alloc, row, octets)?;
    let answer = convert_by(alloc, (Rule::Ber, Canonical::Der), row.ty, octets);
    expect_number(number_of(answer), 2, "converted", row)
}

// Checks that octets begin with a value, and do not end with it.
fn check_first(alloc: Global, row: &Row, octets: &[u8]) -> Result<(), Fail> {
    check_pieces_by(alloc, row, octets)?;
    check_ended(row, &read_by(alloc, Rule::Ber, row.ty, octets))
}

fn check_ended(row: &Row, read: &ReadFront) -> Result<(), Fail> {
    match read {
        Ok((_, used)) => expect(*used < row.octets.len(), "nothing left over", row),
        Err(refusal) => refused(*refusal, "no value", row),
    }
}

/// How messages name a rule.
pub fn name_of(rule: Rule) -> &'static str {
    match rule {
        Rule::Ber => "read by BER",
        Rule::Cer => "read by CER",
        Rule::Der => "read by DER",
    }
}
