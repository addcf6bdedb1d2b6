//! A stream that ends within a value, in pieces of every cut.

use super::{boolean, counted};
use convert::{Canonical, FromReader, Rule, ToVec, convert};
use std::alloc::Global;
use std::io::Read;
use std::test::Fail;

// A BOOLEAN, and part of another.
const OCTETS: [u8; 5] = [0x01, 0x01, 0x01, 0x01, 0x01];

// Whether the first BOOLEAN alone is written of these pieces, and the rest is refused as cut short.
fn stops_behind_one(alloc: Global, pieces: (&[u8], &[u8], &[u8])) -> Result<bool, Fail> {
    let (first, second, third) = pieces;
    let mut source = FromReader::new(first.chain(second).chain(third));
    let mut sink = ToVec::new(Vec::new(alloc));
    let ty = boolean()?;
    let to = Canonical::Der;
    let result = convert(alloc, &ty, Rule::Ber, to, &mut source, &mut sink);
    Ok(sink.as_slice() == [0x01, 0x01, 0xFF].as_slice() && counted(result) == (1, 1))
}

// Fails at the first place to cut the rest at which the stream does not stop behind one value.
fn check_second_cuts(alloc: Global, first: &[u8], rest: &[u8]) -> Result<(), Fail> {
    for next in 0..rest.len() + 1 {
        let (second, third) = rest.split_at(next);
        if !stops_behind_one(alloc, (first, second, third))? {
            return Err(Fail::new(format_args!("{first:?}, cut at {next} behind it")));
        }
    }
    Ok(())
}

#[test]
fn stream_of_one_value_and_a_part(rt: HostRuntime) -> Result<(), Fail> {
    for cut in 0_usize..6 {
        let (first, rest) = OCTETS.split_at(cut);
        check_second_cuts(rt.alloc(), first, rest)?;
    }
    Ok(())
}
