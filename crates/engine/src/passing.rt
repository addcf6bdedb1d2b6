//! A stream passed on piece by piece, from a source through a reader and a writer to a sink.

ghost use Rattle.std.specs.Prelude.{◌≡◌, ◌≢◌, ◌≤◌, ◌+◌, ℕ, List, [], length, take, IsTrue, IfOk, IfErr};
ghost use Rattle.types.specs.Encoding.{IsAccepted};
ghost use Rattle.types.specs.Shape.{Val};
ghost use Rattle.engine.specs.AnyReader.{read_rule, StandsBy};
ghost use Rattle.engine.specs.Given.{HasGiven};
ghost use Rattle.engine.specs.Passing.{Writes, CanPass, HasPassed, HasNotPassed};
ghost use Rattle.engine.specs.Refusal.{IsOfConverting};
ghost use Rattle.engine.specs.Stream.{CountsBy, most_streamed, IsStopped, OfStream, source_failures, sink_failures};

use crate::Stopped;
use crate::any_reader::AnyReader;
use crate::batch::Batch;
use crate::putting::Put;
use devices::{Piece, Sink, Source, whole_parts, write_all};
use types::{Refusal, Value};

/// The most octets of a stream.
pub const MAX_STREAM: u64 = 4_294_967_295;

// Passes a piece on, a batch at a time: writes what stands for the values that it completes, and returns how many values
// are done, of which `done` were before.
fn pass<P: Put, K: Sink>(
    reader: &mut AnyReader<'_>,
    writer: &P,
    batch: &mut Batch,
    sink: &mut K,
    piece: &[u8],
    done: u64,
) -> Result<u64, Stopped>
    requires { CanPass (P.shape writer.now) (P.stands writer.now) reader.old batch.old.copies (K.failures sink.old) (done + length piece.now) }
    ensures copies { batch.new.copies ≡ batch.old.copies }
    ensures passed { IfOk result (λ now. HasPassed (P.shape writer.now) (P.stands writer.now) reader.old reader.new
        done now piece.now (K.taken sink.old) (K.taken sink.new)) }
    ensures stopped { IfErr result (λ stopped. HasNotPassed (P.shape writer.now) (P.stands writer.now) P.can_be_too_long reader.old
        done stopped.done stopped.refusal piece.now (K.taken sink.old) (K.taken sink.new)) }
    ensures sink { CountsBy sink_failures result (K.failures sink.new) }
{
    let mut now = done;
    let mut slot = None;
    let mut rest = piece;
    while !rest.is_empty() {
        let used = pass_batch(reader, writer, batch, sink, rest, &mut slot, &mut now)?;
        rest = &rest[used..];
    }
    Ok(now)
}

// Passes on what the front of a piece completes, counts the values of it among those that are done, and returns how many
// octets of the piece were taken.
fn pass_batch<P: Put, K: Sink>(
    reader: &mut AnyReader<'_>,
    writer: &P,
    batch: &mut Batch,
    sink: &mut K,
    piece: &[u8],
    slot: &mut Option<Value>,
    done: &mut u64,
) -> Result<usize, Stopped>
    requires { CanPass (P.shape writer.now) (P.stands writer.now) reader.old batch.old.copies (K.failures sink.old) (done.old + length piece.now) }
    ensures copies { batch.new.copies ≡ batch.old.copies }
    ensures there { IfOk result (λ used. used ≤ length piece.now) }
    ensures some { piece.now ≢ [] → IfOk result (λ used. 1 ≤ used) }
    ensures passed { IfOk result (λ used. HasPassed (P.shape writer.now) (P.stands writer.now) reader.old reader.new
        done.old done.new (take used piece.now) (K.taken sink.old) (K.taken sink.new)) }
    ensures stopped { IfErr result (λ stopped. HasNotPassed (P.shape writer.now) (P.stands writer.now) P.can_be_too_long reader.old
        done.old stopped.done stopped.refusal piece.now (K.taken sink.old) (K.taken sink.new)) }
    ensures sink { CountsBy sink_failures result (K.failures sink.new) }
{
    let gathered = batch.gather(reader, writer, piece, slot);
    let lengths = batch.lengths.as_slice();
    match write_all(sink, batch.octets.as_slice()) {
        Ok(()) => {}
        Err(at) => {
            let count = whole_parts(lengths, at);
            return Err(Stopped {
                done: *done + count as u64,
                refusal: Refusal::SinkFault,
            });
        }
    }
    *done += lengths.len() as u64;
    match gathered {
        Ok(used) => Ok(used),
        Err(refusal) => Err(Stopped {
            done: *done,
            refusal,
        }),
    }
}

/// Passes a source on to its end by a fresh reader, and returns how many values are done.
pub fn pass_all<P: Put, S: Source, K: Sink>(
    reader: &mut AnyReader<'_>,
    writer: &P,
    batch: &mut Batch,
    source: &mut S,
    sink: &mut K,
) -> Result<u64, Stopped>
    requires fresh { StandsBy (P.shape writer.now) reader.old [] }
    requires source { S.failures source.old ≡ 0 }
    requires sink { K.failures sink.old ≡ 0 }
    requires copied { IsTrue batch.old.copies → (v : Val) (octets : List ℕ) →
        IsAccepted (read_rule reader.old) (P.shape writer.now) v octets → P.stands writer.now v octets }
    ensures done { IfOk result (λ done. OfStream (S.left source.old) (K.taken sink.old) (K.taken sink.new)
        (λ stream written. Writes (read_rule reader.old) (P.shape writer.now) (P.stands writer.now) done stream [] written []
        × (length stream ≤ most_streamed))) }
    ensures stopped { IfErr result (λ stopped. OfStream (S.left source.old) (K.taken sink.old) (K.taken sink.new)
        (IsStopped (P.stands writer.now) (read_rule reader.old) (P.shape writer.now) stopped.done stopped.refusal)) }
    ensures given { IfErr result (λ stopped. stopped.refusal ≡ Refusal.SourceFault →
        HasGiven (read_rule reader.old) (P.shape writer.now) stopped.done (S.left source.old) (S.left source.new)) }
    ensures source { CountsBy source_failures result (S.failures source.new) }
    ensures sink { CountsBy sink_failures result (K.failures sink.new) }
    ensures long { IfErr result (λ stopped. stopped.refusal ≡ Refusal.OutputTooLong → P.can_be_too_long) }
    ensures numbers { IfErr result (λ stopped. IsOfConverting (read_rule reader.old) stopped.refusal) }
{
    let mut piece = Piece::new();
    let mut done = 0;
    let mut total = 0;
    loop {
        match piece.read_from(source) {
            Ok(()) => {}
            Err(_) => {
                return Err(Stopped {
                    done,
                    refusal: Refusal::SourceFault,
                });
            }
        }
        let octets = piece.octets();
        if octets.is_empty() {
            match reader.finish() {
                Ok(()) => return Ok(done),
                Err(refusal) => return Err(Stopped { done, refusal }),
            }
        }
        if octets.len() as u64 > MAX_STREAM - total {
            return Err(Stopped {
                done,
                refusal: Refusal::StreamTooLong,
            });
        }
        total += octets.len() as u64;
        done = pass(reader, writer, batch, sink, octets, done)?;
    }
}
