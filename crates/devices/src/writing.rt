//! Octets in parts, written to a sink.

ghost use Rattle.std.specs.Prelude.{◌≡◌, ◌<◌, ℕ, length, take, OnOk, IfErr};
ghost use Rattle.std.specs.Io.KnownBytes.{Appends};
ghost use Rattle.devices.specs.Failures.{CountsFailure};
ghost use Rattle.devices.specs.Parts.{IsWholeCount};

use crate::Sink;

/// Writes all octets, however few the sink takes at once, or returns how many it took before it failed.
/// Asks for a sink that has not failed (`failed` is the test).
pub fn write_all<K: Sink>(sink: &mut K, octets: &[u8]) -> Result<(), usize>
    requires { K.failures sink.old ≡ 0 }
    ensures written { OnOk result (Appends (K.taken sink.old) (K.taken sink.new) octets.now) }
    ensures part { IfErr result (λ at. Appends (K.taken sink.old) (K.taken sink.new) (take at octets.now)) }
    ensures some_left { IfErr result (λ at. at < length octets.now) }
    ensures count { CountsFailure result (K.failures sink.new) }
{
    let mut at = 0;
    while at < octets.len() {
        match sink.write(&octets[at..]) {
            Ok(count) => at += count,
            Err(_) => return Err(at),
        }
    }
    Ok(())
}

/// How many parts of these lengths, one after another, are whole among the first `at` octets.
pub fn whole_parts(lengths: &[usize], at: usize) -> usize
    ensures { IsWholeCount lengths.now at result }
{
    let mut left = at;
    for (index, length) in lengths.iter().enumerate() {
        if left < *length {
            return index;
        }
        left -= *length;
    }
    lengths.len()
}
