//! How a program uses the library.

use convert::{
    Canonical, FromSlice, Rule, ToVec, Ty, WellTyped, convert, transcode, type_from, unhex,
};
use std::alloc::Global;
use std::test::Fail;

fn written_by_der(alloc: Global, digits: &[u8]) -> Result<Vec<u8>, Fail> {
    let octets = unhex(alloc, digits)?;
    let ty = WellTyped::new(Ty::boolean())?;
    let from = Rule::Ber;
    let to = Canonical::Der;
    Ok(transcode(alloc, &ty, from, to, octets.as_slice())?)
}

#[test]
fn reads_ber_and_writes_der(rt: HostRuntime) -> Result<(), Fail> {
    let written = written_by_der(rt.alloc(), b"01 01 2a")?;
    assert_eq!(rt; written.as_slice(), [0x01, 0x01, 0xFF].as_slice());
    Ok(())
}

#[test]
fn converts_values_of_a_type_of_a_module(rt: HostRuntime) -> Result<(), Fail> {
    let module = b"M DEFINITIONS ::= BEGIN Ids ::= SET OF OBJECT IDENTIFIER END";
    let ty = type_from(rt.alloc(), module.as_slice(), "Ids")?;
    let octets = unhex(rt.alloc(), b"31 80 06 03 2a 03 04 06 02 2a 03 00 00 31 00")?;
    let mut source = FromSlice::new(octets.as_slice());
    let mut sink = ToVec::new(Vec::new(rt.alloc()));
    let done = convert(
        rt.alloc(),
        &ty,
        Rule::Ber,
        Canonical::Der,
        &mut source,
        &mut sink,
    )?;
    let want = unhex(rt.alloc(), b"31 09 06 02 2a 03 06 03 2a 03 04 31 00")?;
    assert_eq!(rt; done, 2);
    assert_eq!(rt; sink.as_slice(), want.as_slice());
    Ok(())
}
