//! How much text is gathered before it is written.

use convert::{Rule, list, type_from};
use devices::{FromSlice, ToWriter};
use std::io;
use std::io::Write;
use std::test::Fail;

// A writer that takes all, and notes how many octets came, and how many in one call at most.
#[derive(Drop)]
struct Noting {
    taken: usize,
    longest: usize,
}

impl Write for Noting {
    fn write(&mut self, buf: &[u8]) -> io::Result<usize> {
        self.taken = self.taken.saturating_add(buf.len());
        self.longest = self.longest.max(buf.len());
        Ok(buf.len())
    }

    fn flush(&mut self) -> io::Result<()> {
        Ok(())
    }
}

// The text of a value can be far longer than its encoding: here three octets stand for a line of 1,001. It is written
// with the first line by which there are 131,072 octets.
#[test]
fn long_lines(rt: HostRuntime) -> Result<(), Fail> {
    let mut module = String::from_str(rt.alloc(), "M DEFINITIONS ::= BEGIN T ::= ENUMERATED { a")?;
    for _letter in 1..1_000 {
        module.push('b')?;
    }
    module.push_str(" (7) } END")?;
    let ty = type_from(rt.alloc(), module.as_bytes(), "T")?;
    let mut octets = Vec::new(rt.alloc());
    for _value in 0..1_000 {
        octets.extend_from_slice(&[0x0A, 0x01, 0x07])?;
    }
    let mut source = FromSlice::new(octets.as_slice());
    let mut sink = ToWriter::new(Noting {
        taken: 0,
        longest: 0,
    });
    let done = list(rt.alloc(), &ty, Rule::Ber, &mut source, &mut sink)?;
    let noted = sink.into_inner();
    assert_eq!(rt; done, 1_000);
    assert_eq!(rt; noted.taken, 1_001_000);
    assert_eq!(rt; noted.longest, 131_131);
    Ok(())
}
