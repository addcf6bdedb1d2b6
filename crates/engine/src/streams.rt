//! The calls over streams of values: `convert`, `check` and `list`.
//!
//! Each reads a piece, does all values that it completes, and writes what stands for them before it reads
//! the next one. It asks for devices that have not failed.

ghost use Rattle.std.specs.Prelude.{◌≡◌, None, IfOk, IfErr, IfSome};
ghost use Rattle.texts.specs.Shown.{IsShown};
ghost use Rattle.types.specs.Encoding.{IsAccepted};
ghost use Rattle.types.specs.View.{ty_view};
ghost use Rattle.engine.specs.Given.{HasGiven};
ghost use Rattle.engine.specs.Rule.{rule_of, canonical_rule_of};
ghost use Rattle.engine.specs.Refusal.{IsOfChecking, IsOfConverting, IsOfListing};
ghost use Rattle.engine.specs.Stream.{CountsBy, IsChecked, IsCheckStopped, IsConverted, IsLine, IsListed, IsStopped, OfStream, source_failures, sink_failures};

use crate::any_reader::AnyReader;
use crate::batch::Batch;
use crate::lines::Lines;
use crate::passing::pass_all;
use crate::putting::{Encodings, Nothing};
use crate::rule::is_same;
use crate::{Canonical, Rule, Stopped};
use devices::{Failed, Sink, Source};
use std::alloc::Global;
use types::{Refusal, WellTyped};

/// Reads values of `ty` by the rule `from`, one after another up to the end of the source, writes the one
/// encoding of each by the rule `to`, and returns how many there were. Where the two rules are one, what was read is
/// written.
///
/// Where it stops before, what was written is the encodings of the values done, and after `SinkFault`
/// perhaps a beginning of the next one. A failure of a device ends it with `SourceFault` or `SinkFault`.
pub fn convert<S: Source, K: Sink>(
    alloc: Global,
    ty: &WellTyped,
    from: Rule,
    to: Canonical,
    source: &mut S,
    sink: &mut K,
) -> Result<u64, Stopped>
    requires source { S.failures source.old ≡ 0 }
    requires sink { K.failures sink.old ≡ 0 }
    ensures converted { IfOk result (λ done. OfStream (S.left source.old) (K.taken sink.old) (K.taken sink.new)
        (IsConverted (rule_of from) (canonical_rule_of to) (ty_view ty.now) done)) }
    ensures stopped { IfErr result (λ stopped. OfStream (S.left source.old) (K.taken sink.old) (K.taken sink.new)
        (IsStopped (IsAccepted (canonical_rule_of to) (ty_view ty.now)) (rule_of from) (ty_view ty.now)
        stopped.done stopped.refusal)) }
    ensures given { IfErr result (λ stopped. stopped.refusal ≡ Refusal.SourceFault →
        HasGiven (rule_of from) (ty_view ty.now) stopped.done (S.left source.old) (S.left source.new)) }
    ensures source { CountsBy source_failures result (S.failures source.new) }
    ensures sink { CountsBy sink_failures result (K.failures sink.new) }
    ensures numbers { IfErr result (λ stopped. IsOfConverting (rule_of from) stopped.refusal) }
{
    let mut reader = AnyReader::new(alloc, from, ty);
    let writer = Encodings { alloc, ty, to };
    let mut batch = Batch::new(alloc, is_same(from, to));
    pass_all(&mut reader, &writer, &mut batch, source, sink)
}

/// Reads values as `convert` does, writes nothing, and returns how many there were.
pub fn check<S: Source>(
    alloc: Global,
    ty: &WellTyped,
    from: Rule,
    source: &mut S,
) -> Result<u64, Stopped>
    requires source { S.failures source.old ≡ 0 }
    ensures checked { IfOk result (λ done. IfSome (S.left source.old)
        (IsChecked (rule_of from) (ty_view ty.now) done)) }
    ensures stopped { IfErr result (λ stopped. IfSome (S.left source.old)
        (IsCheckStopped (rule_of from) (ty_view ty.now) stopped.done stopped.refusal)) }
    ensures given { IfErr result (λ stopped. stopped.refusal ≡ Refusal.SourceFault →
        HasGiven (rule_of from) (ty_view ty.now) stopped.done (S.left source.old) (S.left source.new)) }
    ensures source { CountsBy source_failures result (S.failures source.new) }
    ensures numbers { IfErr result (λ stopped. IsOfChecking (rule_of from) stopped.refusal) }
{
    let mut reader = AnyReader::new(alloc, from, ty);
    let writer = Nothing { ty };
    let mut batch = Batch::new(alloc, false);
    pass_all(&mut reader, &writer, &mut batch, source, &mut Nowhere)
}

/// Reads values as `convert` does, writes the text of each and a line feed, and returns how many there
/// were.
pub fn list<S: Source, K: Sink>(
    alloc: Global,
    ty: &WellTyped,
    from: Rule,
    source: &mut S,
    sink: &mut K,
) -> Result<u64, Stopped>
    requires source { S.failures source.old ≡ 0 }
    requires sink { K.failures sink.old ≡ 0 }
    ensures listed { IfOk result (λ done. OfStream (S.left source.old) (K.taken sink.old) (K.taken sink.new)
        (IsListed (IsShown (ty_view ty.now)) (rule_of from) (ty_view ty.now) done)) }
    ensures stopped { IfErr result (λ stopped. OfStream (S.left source.old) (K.taken sink.old) (K.taken sink.new)
        (IsStopped (IsLine (IsShown (ty_view ty.now))) (rule_of from) (ty_view ty.now) stopped.done stopped.refusal)) }
    ensures given { IfErr result (λ stopped. stopped.refusal ≡ Refusal.SourceFault →
        HasGiven (rule_of from) (ty_view ty.now) stopped.done (S.left source.old) (S.left source.new)) }
    ensures source { CountsBy source_failures result (S.failures source.new) }
    ensures sink { CountsBy sink_failures result (K.failures sink.new) }
    ensures numbers { IfErr result (λ stopped. IsOfListing (rule_of from) stopped.refusal) }
{
    let mut reader = AnyReader::new(alloc, from, ty);
    let mut batch = Batch::new(alloc, false);
    pass_all(&mut reader, &Lines { alloc, ty }, &mut batch, source, sink)
}

// A sink that takes all and tells nothing.
#[derive(Drop)]
struct Nowhere;

impl Sink for Nowhere {
    ghost taken = { λ _. None };

    ghost failures = { λ _. 0 };

    fn failed(&self) -> bool {
        false
    }

    fn write(&mut self, octets: &[u8]) -> Result<usize, Failed> {
        Ok(octets.len())
    }
}
