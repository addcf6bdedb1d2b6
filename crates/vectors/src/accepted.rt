//! What holds of the octets that BER accepts.

use crate::answers::{ReadFront, convert_by, number_of, read_by, write_by};
use crate::checks::{RULES, expect, expect_by, expect_number, name_of, refused};
use crate::pieces::{check_end_fed, check_front_fed, check_pieces};
use crate::rows::{Becomes, Row};
use crate::streamed;
use convert::{Canonical, Rule, Value};
use std::alloc::Global;
use std::test::Fail;

/// Checks what octets become under DER and CER, and that these octets are taken and no fewer.
pub fn check_accepted(alloc: Global, row: &Row) -> Result<(), Fail> {
    check_read(alloc, row)?;
    if row.is_long() {
        return Ok(());
    }
    check_crossed(alloc, row)?;
    check_fronts(alloc, row, row.octets.as_slice())?;
    check_ends(alloc, row)
}

// Checks what is read, in pieces as well.
fn check_read(alloc: Global, row: &Row) -> Result<(), Fail> {
    check_read_as(
        alloc,
        row,
        &read_by(alloc, Rule::Ber, row.ty, row.octets.as_slice()),
    )
}

fn check_read_as(alloc: Global, row: &Row, read: &ReadFront) -> Result<(), Fail> {
    check_pieces(alloc, row, row.octets.as_slice(), read)?;
    match read {
        Ok((value, used)) => check_value(alloc, row, value, *used),
        Err(refusal) => refused(*refusal, "no value", row),
    }
}

fn check_value(alloc: Global, row: &Row, value: &Value, used: usize) -> Result<(), Fail> {
    expect(used == row.octets.len(), "not all octets taken", row)?;
    check_written(alloc, row, Canonical::Der, &row.der, value)?;
    check_written(alloc, row, Canonical::Cer, &row.cer, value)?;
    streamed::check_listed_twice(alloc, row, value)
}

// Checks what a value becomes under a rule.
fn check_written(
    alloc: Global,
    row: &Row,
    to: Canonical,
    becomes: &Becomes,
    value: &Value,
) -> Result<(), Fail> {
    match write_by(alloc, to, row.ty, value) {
        Ok(written) => {
            let written = written.as_slice();
            expect(is_what(becomes, written), written_by(to), row)?;
            check_conversion(alloc, row, to, written)?;
            streamed::check_converted_twice(alloc, row, to, written)?;
            check_strict(alloc, row, to, written)
        }
        Err(refusal) => {
            let number = refusal.number();
            expect(is_refused(becomes, number), written_by(to), row)?;
            check_unwritten(alloc, row, to, number)
        }
    }
}

fn is_what(becomes: &Becomes, written: &[u8]) -> bool {
    match becomes {
        Becomes::Octets(want) => written == want.as_slice(),
        Becomes::NotSaid => true,
        Becomes::Refused(_) => false,
        Becomes::LeftOver => false,
    }
}

fn is_refused(becomes: &Becomes, number: u8) -> bool {
    match becomes {
        Becomes::Refused(want) => number == *want,
        Becomes::Octets(_) => false,
        Becomes::NotSaid => false,
        Becomes::LeftOver => false,
    }
}

fn written_by(to: Canonical) -> &'static str {
    match to {
        Canonical::Cer => "written by CER",
        Canonical::Der => "written by DER",
    }
}

// The rule that a canonical one is.
fn rule_of(to: Canonical) -> Rule {
    match to {
        Canonical::Cer => Rule::Cer,
        Canonical::Der => Rule::Der,
    }
}

// Checks that the octets become what is written, which becomes itself.
fn check_conversion(alloc: Global, row: &Row, to: Canonical, written: &[u8]) -> Result<(), Fail> {
    let octets = row.octets.as_slice();
    let found = becomes(alloc, row, (Rule::Ber, to), octets, written)?;
    expect(found, "converted from BER", row)?;
    if row.is_long() {
        return Ok(());
    }
    let found = becomes(alloc, row, (Rule::Ber, to), written, written)?;
    expect(found, "converted to itself from BER", row)?;
    let found = becomes(alloc, row, (rule_of(to), to), written, written)?;
    expect(found, "converted to itself", row)
}

// Whether octets become these others.
fn becomes(
    alloc: Global,
    row: &Row,
    rules: (Rule, Canonical),
    octets: &[u8],
    others: &[u8],
) -> Result<bool, Fail> {
    let found = convert_by(alloc, rules, row.ty, octets)?;
    Ok(found.as_slice() == others)
}

// Checks that the strict reader of a rule takes what is written, and neither its fronts nor other octets.
fn check_strict(alloc: Global, row: &Row, to: Canonical, written: &[u8]) -> Result<(), Fail> {
    let rule = rule_of(to);
    if row.octets.as_slice() != written {
        check_not_canonical(alloc, row, rule)?;
        check_fronts(alloc, row, written)?;
    }
    check_strict_fronts(alloc, row, rule, written)?;
    match read_by(alloc, rule, row.ty, written) {
        Ok((_, used)) => expect(used == written.len(), name_of(rule), row),
        Err(refusal) => refused(refusal, name_of(rule), row),
    }
}

// Checks that the reader of a rule wants more octets behind each front of what the rule writes.
fn check_strict_fronts(alloc: Global, row: &Row, rule: Rule, written: &[u8]) -> Result<(), Fail> {
    if row.is_long() {
        return Ok(());
    }
    for end in 0..written.len() {
        let answer = read_by(alloc, rule, row.ty, &written[..end]);
        expect_number(number_of(answer), 1, "a strict front", row)?;
    }
    Ok(())
}

// Checks that a rule refuses octets that are not what it writes.
fn check_not_canonical(alloc: Global, row: &Row, rule: Rule) -> Result<(), Fail> {
    let octets = row.octets.as_slice();
    let answer = read_by(alloc, rule, row.ty, octets);
    expect_number(number_of(answer), 12, name_of(rule), row)?;
    streamed::check_one_number(alloc, row, rule, 12)?;
    if row.is_long() {
        return Ok(());
    }
    let answer = convert_by(alloc, (rule, Canonical::Der), row.ty, octets);
    expect_number(number_of(answer), 12, "converted", row)
}

// Checks that no conversion and no strict reader takes what a rule cannot write.
fn check_unwritten(alloc: Global, row: &Row, to: Canonical, number: u8) -> Result<(), Fail> {
    let octets = row.octets.as_slice();
    let answer = convert_by(alloc, (Rule::Ber, to), row.ty, octets);
    expect_number(number_of(answer), number, "converted from BER", row)?;
    streamed::check_unwritten(alloc, row, to, number)?;
    if row.is_long() {
        return Ok(());
    }
    check_not_canonical(alloc, row, rule_of(to))
}

// Checks that what one rule writes becomes what the other does.
fn check_crossed(alloc: Global, row: &Row) -> Result<(), Fail> {
    let octets = row.octets.as_slice();
    let der = convert_by(alloc, (Rule::Ber, Canonical::Der), row.ty, octets)?;
    let cer = convert_by(alloc, (Rule::Ber, Canonical::Cer), row.ty, octets)?;
    check_across(alloc, row, der.as_slice(), cer.as_slice())
}

fn check_across(alloc: Global, row: &Row, der: &[u8], cer: &[u8]) -> Result<(), Fail> {
    let found = becomes(alloc, row, (Rule::Cer, Canonical::Der), cer, der)?;
    expect(found, "CER to DER", row)?;
    let found = becomes(alloc, row, (Rule::Der, Canonical::Cer), der, cer)?;
    expect(found, "DER to CER", row)
}

// Checks that no octet of an encoding can be done without.
fn check_fronts(alloc: Global, row: &Row, octets: &[u8]) -> Result<(), Fail> {
    if row.is_long() {
        return Ok(());
    }
    for end in 0..octets.len() {
        check_front(alloc, row, &octets[..end])?;
    }
    Ok(())
}

fn check_front(alloc: Global, row: &Row, front: &[u8]) -> Result<(), Fail> {
    for rule in RULES {
        let answer = read_by(alloc, rule, row.ty, front);
        expect_by(rule, number_of(answer), 1, "a front", row)?;
    }
    let answer = convert_by(alloc, (Rule::Ber, Canonical::Der), row.ty, front);
    expect_number(number_of(answer), 1, "a front converted", row)?;
    check_front_fed(alloc, row, front)
}

// Checks that octets are read whole, and not what follows them: octets that begin an end of contents, a value, a
// segment and one with parts.
fn check_ends(alloc: Global, row: &Row) -> Result<(), Fail> {
    for next in [0x00, 0x02, 0x04, 0x24, 0x30] {
        let mut more = Vec::from_slice(alloc, row.octets.as_slice())?;
        more.push(next)?;
        check_end(alloc, row, more.as_slice())?;
    }
    Ok(())
}

fn check_end(alloc: Global, row: &Row, more: &[u8]) -> Result<(), Fail> {
    check_before(alloc, row, more)?;
    let answer = convert_by(alloc, (Rule::Ber, Canonical::Der), row.ty, more);
    expect_number(number_of(answer), 2, "with an octet left over", row)?;
    check_end_fed(alloc, row, more)
}

fn check_before(alloc: Global, row: &Row, more: &[u8]) -> Result<(), Fail> {
    match read_by(alloc, Rule::Ber, row.ty, more) {
        Ok((_, used)) => expect(used == row.octets.len(), "before an octet", row),
        Err(refusal) => refused(refusal, "before an octet", row),
    }
}
