//! The octets that one read of a source gave.

ghost use Rattle.std.specs.Prelude.{◌≡◌, ◌≤◌, ℕ, List, [], length, take, OnOk, OnErr};
ghost use Rattle.std.specs.Io.KnownBytes.{Consumes, IsAtEnd, Keeps};
ghost use Rattle.devices.specs.Failures.{CountsFailure};

use crate::{Failed, Source};
use std::marker::Model;

// The most octets of a piece.
const PIECE_OCTETS: usize = 131_072;

/// The octets that one read of a source gave, in room that every read uses again.
#[derive(Drop)]
pub struct Piece {
    room: [u8; PIECE_OCTETS],
    // how many octets of the room the read gave
    count: usize,
}

impl Model for Piece {
    ghost Value = { List ℕ };

    ghost view = { λ piece. take piece.count piece.room };

    ghost invariant = { λ piece. piece.count ≤ 131_072 };
}

impl Piece {
    /// A piece without octets. Takes no memory.
    pub fn new() -> Self
        ensures { result ≡ [] }
    {
        Piece {
            room: [0; PIECE_OCTETS],
            count: 0,
        }
    }

    /// The octets of the piece.
    pub fn octets(&self) -> &[u8]
        ensures { result.now ≡ self.now }
    {
        &self.room[..self.count]
    }

    /// Reads the source once and has what it gave in place of what it had: none means the end, or a
    /// failure. Asks for a source that has not failed (`failed` is the test).
    pub fn read_from<S: Source>(&mut self, source: &mut S) -> Result<(), Failed>
        requires { S.failures source.old ≡ 0 }
        ensures given { OnOk result (Consumes (S.left source.old) (S.left source.new) self.new) }
        ensures end { OnOk result (self.new ≡ [] → IsAtEnd (S.left source.new)) }
        ensures size { length self.new ≤ 131_072 }
        ensures empty { OnErr result (self.new ≡ []) }
        ensures unmoved { OnErr result (Keeps (S.left source.old) (S.left source.new)) }
        ensures count { CountsFailure result (S.failures source.new) }
    {
        self.count = 0;
        self.count = source.read(&mut self.room)?;
        Ok(())
    }
}
