//! The next value of a source, read from piece to piece.

ghost use Rattle.std.specs.Prelude.{◌≡◌, ◌<◌, ◌+◌, ◌-◌, ◌⊎◌, [], length, true, false, Ok, Err, None, OnOk, IfOk, IfErr, IfSome, MatchResult};
ghost use Rattle.std.specs.Io.KnownBytes.{Consumes, IsAtEnd};
ghost use Rattle.types.specs.View.{ty_view, value_view};
ghost use Rattle.engine.specs.AnyReader.{read_rule, StandsBy};
ghost use Rattle.engine.specs.Refusal.{IsOfChecking};
ghost use Rattle.engine.specs.Stream.{most_streamed, source_failures};
ghost use Rattle.value_stream.specs.Next.{IsNext, IsStop};
ghost use Rattle.value_stream.specs.Unread.{unread, IsWithin};

use devices::{Piece, Source};
use engine::{AnyReader, MAX_STREAM};
use types::{Refusal, Value, WellTyped};

/// A source, and a reader that is given the octets of a piece of it.
#[derive(Drop)]
pub struct Reading<'a, S> {
    /// The type of the values.
    pub ty: &'a WellTyped,
    pub reader: AnyReader<'a>,
    pub source: S,
    /// The piece that was read last.
    pub piece: Piece,
    /// How many octets of the piece were read.
    pub at: usize,
    /// How many octets of the source were read.
    pub read: u64,
}

impl<S: Source> Reading<'_, S> {
    // Has octets at hand that were not read, or tells that the source has ended.
    fn fill(&mut self) -> Result<bool, Refusal>
        requires source { S.failures self.old.source ≡ 0 }
        requires within { IsWithin self.old.at self.old.piece self.old.read }
        ensures stays { self.new ≡ record self.old { source = self.new.source; piece = self.new.piece; at = self.new.at } }
        ensures kept { Consumes (unread self.old.at self.old.piece (S.left self.old.source))
            (unread self.new.at self.new.piece (S.left self.new.source)) [] }
        ensures within { OnOk result (IsWithin self.new.at self.new.piece self.new.read) }
        ensures some { result ≡ Ok true → self.new.at < length self.new.piece }
        ensures end { result ≡ Ok false → IsAtEnd (unread self.new.at self.new.piece (S.left self.new.source)) }
        ensures long { result ≡ Err Refusal.StreamTooLong →
            most_streamed < self.new.read + (length self.new.piece - self.new.at) }
        ensures source { MatchResult result (λ _. S.failures self.new.source ≡ 0)
            (λ refusal. S.failures self.new.source ≡ source_failures refusal) }
        ensures numbers { IfErr result (λ refusal. (refusal ≡ Refusal.SourceFault) ⊎ (refusal ≡ Refusal.StreamTooLong)) }
    {
        if self.at < self.piece.octets().len() {
            return Ok(true);
        }
        self.at = 0;
        match self.piece.read_from(&mut self.source) {
            Ok(()) => {}
            Err(_) => return Err(Refusal::SourceFault),
        }
        let count = self.piece.octets().len();
        if count as u64 > MAX_STREAM - self.read {
            return Err(Refusal::StreamTooLong);
        }
        Ok(count > 0)
    }

    /// The next value, if the source does not end before it. Asks for a reader of the type that is fresh, and a source
    /// that has not failed.
    pub fn next(&mut self) -> Result<Option<Value>, Refusal>
        requires source { S.failures self.old.source ≡ 0 }
        requires within { IsWithin self.old.at self.old.piece self.old.read }
        requires fresh { StandsBy (ty_view self.old.ty.now) self.old.reader [] }
        ensures ty { self.new.ty ≡ self.old.ty }
        ensures rule_stays { OnOk result (read_rule self.new.reader ≡ read_rule self.old.reader) }
        ensures within { OnOk result (IsWithin self.new.at self.new.piece self.new.read) }
        ensures value { IfOk result (λ next. IfSome next (λ value.
            IsNext (read_rule self.old.reader) (ty_view self.old.ty.now) (value_view value) self.old.read self.new.read
            (unread self.old.at self.old.piece (S.left self.old.source))
            (unread self.new.at self.new.piece (S.left self.new.source)))) }
        ensures fresh { IfOk result (λ next. IfSome next (λ _. StandsBy (ty_view self.old.ty.now) self.new.reader [])) }
        ensures end { result ≡ Ok None → IsAtEnd (unread self.old.at self.old.piece (S.left self.old.source))
            × IsAtEnd (unread self.new.at self.new.piece (S.left self.new.source)) }
        ensures stopped { IfErr result (λ refusal.
            IsStop (read_rule self.old.reader) (ty_view self.old.ty.now) refusal self.old.read
            (unread self.old.at self.old.piece (S.left self.old.source))
            (unread self.new.at self.new.piece (S.left self.new.source))) }
        ensures source { MatchResult result (λ _. S.failures self.new.source ≡ 0)
            (λ refusal. S.failures self.new.source ≡ source_failures refusal) }
        ensures numbers { IfErr result (IsOfChecking (read_rule self.old.reader)) }
    {
        loop {
            if !self.fill()? {
                self.reader.finish()?;
                return Ok(None);
            }
            let (_, rest) = self.piece.octets().split_at(self.at);
            let count = rest.len();
            let mut slot = None;
            let used = self.reader.feed(rest, &mut slot)?;
            match slot {
                None => {
                    self.at += count;
                    self.read += count as u64;
                }
                Some(value) => {
                    self.at += used;
                    self.read += used as u64;
                    return Ok(Some(value));
                }
            }
        }
    }
}
