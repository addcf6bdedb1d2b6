//! Files that are read whole.

ghost use Rattle.std.specs.Prelude.{◌≡◌, IfOk, IfSome, take};

use published::MAX_FILE;
use std::alloc::Global;
use std::io::{self, Read};

/// Files by their paths.
pub trait Files {
    /// The octets of the file, or so many of them that it is seen to be too long.
    fn octets(&mut self, alloc: Global, path: &str) -> io::Result<Vec<u8>>;
}

/// The octets of a file, or so many of them that it is seen to be too long.
pub fn read_file<R: Read>(alloc: Global, file: &mut R) -> io::Result<Vec<u8>>
    ensures { IfOk result (λ octets. IfSome (R.remaining file.old) (λ left. octets.items ≡ take 16_777_217 left)) }
{
    let mut octets = Vec::new(alloc);
    file.take(MAX_FILE as u64 + 1).read_to_end(&mut octets)?;
    Ok(octets)
}
