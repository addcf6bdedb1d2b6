//! Each fault that a caller meets, passed on by `?` into one error, and the line that it prints.

use crate::answers::line_of;
use convert::{
    Canonical, Failed, Field, FromSlice, Rule, Sink, ToVec, Ty, WellTyped, convert, transcode,
    type_from, unhex,
};
use std::alloc::{AllocError, Global};
use std::test::Fail;

fn reads(alloc: Global) -> anyhow::Result<()> {
    let ty = WellTyped::new(Ty::integer())?;
    transcode(alloc, &ty, Rule::Ber, Canonical::Der, b"\x02\x02\x00\x7F")?;
    Ok(())
}

// SEQUENCE { a INTEGER OPTIONAL, b INTEGER }
fn alike(alloc: Global) -> Result<Ty, AllocError> {
    let mut fields = Vec::new(alloc);
    fields.push(Field::optional(alloc, "a", Ty::integer())?)?;
    fields.push(Field::required(alloc, "b", Ty::integer())?)?;
    Ok(Ty::sequence(fields))
}

fn makes(alloc: Global) -> anyhow::Result<()> {
    WellTyped::new(alike(alloc)?)?;
    Ok(())
}

fn parses(alloc: Global) -> anyhow::Result<()> {
    type_from(alloc, b"M DEFINITIONS BEGIN END", "T")?;
    Ok(())
}

fn unhexes(alloc: Global) -> anyhow::Result<()> {
    unhex(alloc, b"0g")?;
    Ok(())
}

fn streams(alloc: Global) -> anyhow::Result<()> {
    let ty = WellTyped::new(Ty::boolean())?;
    let mut source = FromSlice::new(b"\x01\x01\xFF\x01\x01\x00\x01\x00");
    let mut sink = ToVec::new(Vec::new(alloc));
    convert(
        alloc,
        &ty,
        Rule::Ber,
        Canonical::Der,
        &mut source,
        &mut sink,
    )?;
    Ok(())
}

fn fails(_alloc: Global) -> anyhow::Result<()> {
    Err(Failed)?
}

fn asks(alloc: Global) -> anyhow::Result<()> {
    line_of(alloc, "show,--wide")?;
    Ok(())
}

// Checks what is passed on: an error that prints this line.
fn check_line(alloc: Global, passed: anyhow::Result<()>, line: &str) -> Result<(), Fail> {
    let Err(error) = passed else {
        return Err("nothing is passed on".into());
    };
    let text = format!(in alloc; "{error}")?;
    if text.as_str() == line {
        return Ok(());
    }
    Err(Fail::new(format_args!("{text} and not {line}")))
}

#[test]
fn one_line_each(rt: HostRuntime) -> Result<(), Fail> {
    let alloc = rt.alloc();
    check_line(alloc, reads(alloc), "6 Contents")?;
    check_line(alloc, makes(alloc), "28 TagsNotDistinct")?;
    check_line(alloc, parses(alloc), "22 Syntax at 1:15")?;
    check_line(alloc, unhexes(alloc), "not hexadecimal")?;
    check_line(alloc, streams(alloc), "refused 6 Contents after 2 values")?;
    check_line(alloc, fails(alloc), "a device failed")?;
    check_line(alloc, asks(alloc), "unexpected argument found")
}
