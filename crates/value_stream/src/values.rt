//! The values of a source, one by one.

ghost use Rattle.std.specs.Prelude.{◌≡◌, ◌≢◌, ◌≤◌, List, ℕ, Ok, Err, None, IfOk, IfErr, IfSome, MatchResult};
ghost use Rattle.std.specs.Io.KnownBytes.{Consumes, IsAtEnd};
ghost use Rattle.types.specs.View.{value_view};
ghost use Rattle.engine.specs.Refusal.{IsOfChecking};
ghost use Rattle.engine.specs.Rule.{rule_of};
ghost use Rattle.engine.specs.Stream.{most_streamed, source_failures};
ghost use Rattle.value_stream.specs.Progress.{ending, Returns, StopsBefore};

use crate::reading::Reading;
use devices::{Piece, Source};
use engine::{AnyReader, Rule, Stopped};
use std::alloc::Global;
use std::marker::Model;
use types::{Refusal, Value, WellTyped};

/// The values of a type that a source has, one after another up to its end. It holds a piece of the source, and of the
/// values only the one that is begun.
#[derive(Drop)]
pub struct Values<'a, S: Source> {
    rule: Rule,
    reading: Reading<'a, S>,
    done: u64,
    offset: u64,
    // The end, or why no value is returned any more.
    ended: Option<Result<(), Refusal>>,
}

impl<'a, S: Source> Model for Values<'a, S> {
    ghost use Rattle.std.specs.Coded.{codes};
    ghost use Rattle.types.specs.contracts.ty.Ty as ty_contract;
    ghost use Rattle.value_stream.specs.Progress.{Progress, progress};
    ghost use Rattle.value_stream.specs.Sound.{IsSound};
    ghost use Rattle.value_stream.specs.Unread.{unread};

    ghost Value = { Progress };

    ghost coded = { Prim.hlevel (codes, ty_contract.the_row.coded) };

    ghost view = { λ v. progress v.rule v.reading.ty.now v.done v.offset
        (unread v.reading.at v.reading.piece (S.left v.reading.source)) (S.failures v.reading.source) v.ended };

    ghost invariant = { λ v. IsSound (progress v.rule v.reading.ty.now v.done v.offset
        (unread v.reading.at v.reading.piece (S.left v.reading.source)) (S.failures v.reading.source) v.ended)
        v.reading.reader v.reading.at v.reading.piece v.reading.read };
}

impl<'a, S: Source> Values<'a, S> {
    /// The values of `ty` that `source` has by the rule. Nothing is read yet, and no memory is taken. Asks for a source
    /// that has not failed (`failed` is the test).
    pub fn new(alloc: Global, ty: &'a WellTyped, rule: Rule, source: S) -> Self
        requires { S.failures source ≡ 0 }
        ensures rule { result.rule ≡ rule }
        ensures ty { result.ty ≡ ty.now }
        ensures done { result.done ≡ 0 }
        ensures offset { result.offset ≡ 0 }
        ensures left { result.left ≡ S.left source }
        ensures failures { result.failures ≡ 0 }
        ensures ended { result.ended ≡ None }
    {
        Values {
            rule,
            reading: Reading {
                ty,
                reader: AnyReader::new(alloc, rule, ty),
                source,
                piece: Piece::new(),
                at: 0,
                read: 0,
            },
            done: 0,
            offset: 0,
            ended: None,
        }
    }

    /// The next value, or none at the end of the source, as `while let Some(value) = values.next()? { .. }` takes them.
    ///
    /// The end, or what stopped it, is returned again by each later call, and nothing is read then.
    pub fn next(&mut self) -> Result<Option<Value>, Stopped>
        ensures value { IfOk result (λ next. IfSome next (λ value. Returns (value_view value) self.old self.new)) }
        ensures end { result ≡ Ok None → IsAtEnd self.old.left }
        ensures stopped { IfErr result (λ stopped. self.old.ended ≡ None → StopsBefore stopped.refusal self.old self.new) }
        ensures counted { IfErr result (λ stopped. stopped.done ≡ self.old.done) }
        ensures stays { self.new.ended ≢ None → (self.new.rule ≡ self.old.rule) × (self.new.ty ≡ self.old.ty)
            × (self.new.done ≡ self.old.done) × (self.new.offset ≡ self.old.offset) }
        ensures ended { self.new.ended ≡ ending result }
        ensures again { self.old.ended ≢ None → self.new ≡ self.old }
        ensures within { self.new.offset ≤ most_streamed }
        ensures source { MatchResult result (λ _. self.new.failures ≡ 0)
            (λ stopped. self.new.failures ≡ source_failures stopped.refusal) }
        ensures numbers { IfErr result (λ stopped. IsOfChecking (rule_of self.old.rule) stopped.refusal) }
    {
        match self.ended {
            Some(Ok(())) => return Ok(None),
            Some(Err(refusal)) => {
                return Err(Stopped {
                    done: self.done,
                    refusal,
                });
            }
            None => {}
        }
        match self.reading.next() {
            Ok(Some(value)) => {
                self.done += 1;
                self.offset = self.reading.read;
                Ok(Some(value))
            }
            Ok(None) => {
                self.ended = Some(Ok(()));
                Ok(None)
            }
            Err(refusal) => {
                self.ended = Some(Err(refusal));
                Err(Stopped {
                    done: self.done,
                    refusal,
                })
            }
        }
    }

    /// How many values were returned.
    pub fn done(&self) -> u64
        ensures { result ≡ self.now.done }
    {
        self.done
    }

    /// How many octets the values returned have: where the next one begins, or what was refused.
    pub fn offset(&self) -> u64
        ensures { result ≡ self.now.offset }
    {
        self.offset
    }

    /// The source. It may have given octets behind the values returned, which are lost.
    pub fn into_source(self) -> S
        ensures failures { S.failures result ≡ self.entry.failures }
        ensures left { (given : List ℕ) × Consumes self.entry.left (S.left result) given }
    {
        self.reading.source
    }
}
