//! What the calls of the crates return.

ghost use Rattle.std.specs.Prelude.{◌≤◌};

use berreader::{Reader, Step, read};
use canon::{Canon, Cer, Der};
use convert::{
    Canonical, FromReader, FromSlice, Refusal, Rule, Stopped, ToVec, Value, WellTyped, check,
    conforms, convert, list, show, transcode,
};
use program::{Line, LineFault, line};
use std::alloc::Global;
use std::io;
use std::io::Read;
use std::test::Fail;
use strict::{read_cer, read_der};

/// What a reader of a front returns: a value and how many octets it has.
pub type ReadFront = Result<(Value, usize), Refusal>;

/// What the reader of a rule returns.
pub fn read_by(alloc: Global, rule: Rule, ty: &WellTyped, octets: &[u8]) -> ReadFront {
    match rule {
        Rule::Ber => read(alloc, ty, octets),
        Rule::Cer => read_cer(alloc, ty, octets),
        Rule::Der => read_der(alloc, ty, octets),
    }
}

/// What a writer returns for a value that conforms.
pub fn write_by(
    alloc: Global,
    to: Canonical,
    ty: &WellTyped,
    value: &Value,
) -> Result<Vec<u8>, Refusal> {
    let mut out = Vec::new(alloc);
    if conforms(ty.as_type(), value) {
        match to {
            Canonical::Cer => Cer.put(alloc, ty, value, &mut out)?,
            Canonical::Der => Der.put(alloc, ty, value, &mut out)?,
        }
    }
    Ok(out)
}

/// What the conversion of exactly one value returns.
pub fn convert_by(
    alloc: Global,
    (from, to): (Rule, Canonical),
    ty: &WellTyped,
    octets: &[u8],
) -> Result<Vec<u8>, Refusal> {
    transcode(alloc, ty, from, to, octets)
}

/// The text of a value that conforms.
pub fn text_of(alloc: Global, ty: &WellTyped, value: &Value) -> Result<String, Fail> {
    if !conforms(ty.as_type(), value) {
        return Err(Fail::new("no value of the type"));
    }
    Ok(show(alloc, ty, value)?)
}

/// What a call over a stream writes, and what it returns.
pub type Streamed = (Vec<u8>, Result<u64, Stopped>);

/// What becomes of a stream that is converted.
pub fn convert_stream(
    alloc: Global,
    (from, to): (Rule, Canonical),
    ty: &WellTyped,
    octets: &[u8],
) -> Streamed {
    let mut sink = ToVec::new(Vec::new(alloc));
    let result = convert(alloc, ty, from, to, &mut FromSlice::new(octets), &mut sink);
    (sink.into_vec(), result)
}

/// The lines of a stream that is listed.
pub fn list_stream(alloc: Global, ty: &WellTyped, octets: &[u8]) -> Streamed {
    let mut sink = ToVec::new(Vec::new(alloc));
    let mut source = FromSlice::new(octets);
    let result = list(alloc, ty, Rule::Ber, &mut source, &mut sink);
    (sink.into_vec(), result)
}

/// What the check of a stream returns.
pub fn check_stream(alloc: Global, ty: &WellTyped, octets: &[u8]) -> Result<u64, Stopped> {
    check(alloc, ty, Rule::Ber, &mut FromSlice::new(octets))
}

/// What the check of a stream by a rule returns whose octets come so many at a time.
pub fn check_parted(
    alloc: Global,
    ty: &WellTyped,
    rule: Rule,
    octets: &[u8],
    most: usize,
) -> Result<u64, Stopped> {
    check(
        alloc,
        ty,
        rule,
        &mut FromReader::new(Parted { octets, most }),
    )
}

// A reader that gives at most so many octets a call.
#[derive(Drop)]
struct Parted<'a> {
    octets: &'a [u8],
    most: usize,
}

impl Read for Parted<'_> {
    fn read(&mut self, buf: &mut [u8]) -> io::Result<usize> {
        let count = buf.len().min(self.most).min(self.octets.len());
        let (front, rest) = self.octets.split_at(count);
        buf[..count].copy_from_slice(front);
        self.octets = rest;
        Ok(count)
    }
}

/// The command line of words with commas between them.
pub fn line_of(alloc: Global, words: &str) -> Result<Line, LineFault> {
    let words: Vec<&str> = words.split(',').collect(alloc)?;
    line(alloc, words.as_slice())
}

/// The number of a refusal.
pub fn number_of<T: Drop>(answer: Result<T, Refusal>) -> Option<u8> {
    match answer {
        Ok(_) => None,
        Err(refusal) => Some(refusal.number()),
    }
}

/// What a reader of pieces returns for all of them: none where no value is begun.
pub type Fed = Result<Option<(Value, usize)>, Refusal>;

/// What it returns for two pieces.
pub fn fed_in_two(alloc: Global, ty: &WellTyped, pieces: (&[u8], &[u8])) -> Fed {
    let mut reader = Reader::new(alloc, ty);
    let fed = feed_two(&mut reader, pieces);
    ended(fed, reader.finish())
}

/// What it returns for octets that come in pieces of this size.
pub fn fed_by(alloc: Global, ty: &WellTyped, octets: &[u8], size: usize) -> Fed
    requires { 1 ≤ size }
{
    let mut reader = Reader::new(alloc, ty);
    let fed = feed_by(&mut reader, octets, size);
    ended(fed, reader.finish())
}

// What is returned where the pieces end: without a value, whether none is begun.
fn ended(fed: Fed, finished: Result<(), Refusal>) -> Fed {
    match fed {
        Ok(None) => {
            finished?;
            Ok(None)
        }
        Ok(Some(done)) => Ok(Some(done)),
        Err(refusal) => Err(refusal),
    }
}

fn feed_two(reader: &mut Reader, (first, second): (&[u8], &[u8])) -> Fed {
    match feed(reader, first, 0)? {
        Some(done) => Ok(Some(done)),
        None => feed(reader, second, first.len()),
    }
}

fn feed_by(reader: &mut Reader, octets: &[u8], size: usize) -> Fed
    requires { 1 ≤ size }
{
    let mut taken = 0usize;
    for piece in octets.chunks(size) {
        if let Some(done) = feed(reader, piece, taken)? {
            return Ok(Some(done));
        }
        taken = taken.saturating_add(piece.len());
    }
    Ok(None)
}

// What it returns for one more piece: a value and how many octets it has with those that were taken before.
fn feed(reader: &mut Reader, piece: &[u8], taken: usize) -> Fed {
    match reader.feed(piece)? {
        Step::More => Ok(None),
        Step::Done { value, used } => Ok(Some((value, taken.saturating_add(used)))),
    }
}
