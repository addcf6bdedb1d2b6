//! The ends of encodings, whatever the pieces.

ghost use Rattle.std.specs.Prelude.{Some};

use cutting::{CutFault, Cutter, Ends, Outputs};
use devices::Failed;
use std::alloc::Global;
use std::test::Fail;

// Encodings one after another: of the definite form, of the indefinite one with another in it, with a long tag number
// and a long length.
const STREAM: [u8; 28] = [
    0x05, 0x00, 0x04, 0x01, 0x41, 0x30, 0x80, 0x24, 0x80, 0x04, 0x01, 0x00, 0x00, 0x00, 0x05, 0x00,
    0x00, 0x00, 0x9F, 0x81, 0x01, 0x82, 0x00, 0x03, 0x01, 0x02, 0x03, 0x05,
];

// Where they end.
const ENDS: [usize; 4] = [2, 5, 18, 27];

// The ends that are found, if the octets come in pieces of so many.
fn ends_in(alloc: Global, size: usize) -> Result<Vec<usize>, Fail> {
    let mut ends = Ends::new();
    let mut found = Vec::new(alloc);
    let mut before = 0usize;
    for piece in STREAM.chunks(size.max(1)) {
        let mut at = 0usize;
        for _ in 0..=piece.len() {
            let Some(used) = ends.take(piece.get(at..).unwrap_or(&[]))? else {
                break;
            };
            at += used.min(piece.len() - at);
            found.push(before.saturating_add(at))?;
        }
        before = before.saturating_add(piece.len());
    }
    Ok(found)
}

#[test]
fn ends_in_pieces(rt: HostRuntime) -> Result<(), Fail> {
    for size in 1..29 {
        let found = ends_in(rt.alloc(), size)?;
        assert_eq!(rt; found.as_slice(), ENDS.as_slice());
    }
    Ok(())
}

// Files in memory: their octets, and how many each file has that has ended.
#[derive(Drop)]
struct Noted {
    octets: Vec<u8>,
    ended: usize,
    sizes: Vec<usize>,
}

impl Outputs for Noted {
    ghost taken = { λ noted. Some noted.octets.items };

    fn end_file(&mut self) -> Result<(), Failed> {
        let size = self.octets.len().saturating_sub(self.ended);
        self.ended = self.octets.len();
        match self.sizes.push(size) {
            Ok(()) => Ok(()),
            Err(_) => Err(Failed),
        }
    }

    fn write(&mut self, octets: &[u8]) -> Result<(), Failed> {
        match self.octets.extend_from_slice(octets) {
            Ok(()) => Ok(()),
            Err(_) => Err(Failed),
        }
    }
}

// The octets of all files, of at least so many octets each, and the sizes of those that end, if the stream comes in
// pieces of so many.
fn cut_in(alloc: Global, least: u64, size: usize) -> Result<Noted, CutFault> {
    let noted = Noted {
        octets: Vec::new(alloc),
        ended: 0,
        sizes: Vec::new(alloc),
    };
    let mut cutter = Cutter::new(noted, least);
    for piece in STREAM.chunks(size.max(1)) {
        cutter.take(piece)?;
    }
    Ok(cutter.outputs)
}

#[test]
fn files_end_between_encodings(rt: HostRuntime) -> Result<(), Fail> {
    for size in [1, 2, 7, 28] {
        let one_each = cut_in(rt.alloc(), 1, size)?;
        assert_eq!(rt; one_each.octets.as_slice(), STREAM.as_slice());
        assert_eq!(rt; one_each.sizes.as_slice(), [2, 3, 13, 9].as_slice());
        let at_least_four = cut_in(rt.alloc(), 4, size)?;
        assert_eq!(rt; at_least_four.octets.as_slice(), STREAM.as_slice());
        assert_eq!(rt; at_least_four.sizes.as_slice(), [5, 13, 9].as_slice());
    }
    Ok(())
}
