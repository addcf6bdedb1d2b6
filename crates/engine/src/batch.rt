//! What stands for the values that a piece completes, gathered.

ghost use Rattle.std.specs.Prelude.{◌≡◌, ◌≢◌, ◌≤◌, ℕ, List, [], ◌++◌, length, take, None, IsTrue, OnOk, OnErr, IfOk, IfErr, IfSome, MatchOption, MatchResult};
ghost use Rattle.types.specs.Conforms.{Conforms};
ghost use Rattle.types.specs.Encoding.{IsAccepted};
ghost use Rattle.types.specs.Leaf.{IsLeaf, tag_of};
ghost use Rattle.types.specs.Shape.{Val};
ghost use Rattle.types.specs.View.{value_view};
ghost use Rattle.octets.specs.Front.{Appends};
ghost use Rattle.engine.specs.AnyReader.{read_rule, StandsBy};
ghost use Rattle.engine.specs.Feeding.{IsUnfinished};
ghost use Rattle.engine.specs.Putting.{IsFirst, IsWritten};
ghost use Rattle.engine.specs.Passing.{IsAdded, IsNotAdded, AreAdded, AreAddedUpTo, AreLeavesAdded, HasGathered, StopsGathering};
ghost use Rattle.engine.specs.Refusal.{IsOfGathering};

use crate::any_reader::AnyReader;
use crate::putting::Put;
use berreader::{read_into, read_leaf_into};
use octets::Tag;
use std::alloc::Global;
use types::{Refusal, Value};

/// A batch of so many octets is written before more is gathered, where it can outgrow the piece.
const FULL: usize = 131_072;

/// What stands for some values, one after another, and how long each part is.
#[derive(Drop)]
pub struct Batch {
    /// Memory for the values that are read.
    alloc: Global,
    /// What stands for the values, one after another.
    pub octets: Vec<u8>,
    /// How many octets stand for each of them.
    pub lengths: Vec<usize>,
    /// Memory for the line of one value.
    pub room: String,
    /// Whether the encoding that a value is read from stands for it.
    pub copies: bool,
}

impl Batch {
    /// A batch of no values.
    pub fn new(alloc: Global, copies: bool) -> Self
        ensures octets { result.octets.items ≡ [] }
        ensures lengths { result.lengths.items ≡ [] }
        ensures copies { result.copies ≡ copies }
    {
        Batch {
            alloc,
            octets: Vec::new(alloc),
            lengths: Vec::new(alloc),
            room: String::new(alloc),
            copies,
        }
    }

    // Adds what stands for a value: these octets, if there are any.
    #[inline(always)]
    fn add<P: Put>(
        &mut self,
        writer: &P,
        value: &Value,
        encoding: Option<&[u8]>,
    ) -> Result<(), Refusal>
        requires conforms { Conforms (P.shape writer.now) (value_view value.now) }
        requires stands { IfSome encoding (λ octets. P.stands writer.now (value_view value.now) octets.now) }
        ensures added { OnOk result (IsAdded (P.stands writer.now (value_view value.now))
            self.old.octets.items self.new.octets.items self.old.lengths.items self.new.lengths.items) }
        ensures octets { OnErr result (self.new.octets.items ≡ self.old.octets.items) }
        ensures lengths { OnErr result (self.new.lengths.items ≡ self.old.lengths.items) }
        ensures copies { self.new.copies ≡ self.old.copies }
        ensures refused { IfErr result (IsNotAdded (P.stands writer.now (value_view value.now)) P.can_be_too_long) }
    {
        let before = self.octets.len();
        put(writer, value, encoding, &mut self.room, &mut self.octets)?;
        let length = self.octets.len() - before;
        if self.lengths.push(length).is_err() {
            self.octets.truncate(before);
            return Err(Refusal::NoMemory);
        }
        Ok(())
    }

    // Whether the batch is to be written before more is gathered.
    #[inline(always)]
    fn is_full<P: Put>(&self, writer: &P) -> bool {
        writer.can_outgrow() && self.octets.len() >= FULL
    }

    // Adds what stands for the value in the slot, which ends with the octets `front`, and for those that are whole in front
    // of what is `behind` it, and returns how many octets these have. Others are read in BER alone, where the one in the
    // slot `is_whole` in the piece, and while no fewer octets are left than the last one has: else the next is mostly cut.
    //
    // There is one place that adds, for the first value and the others: so the writer stands in the loop, not in a call.
    #[inline(never)]
    fn add_read<P: Put>(
        &mut self,
        reader: &AnyReader<'_>,
        writer: &P,
        is_whole: bool,
        front: &[u8],
        behind: &[u8],
        slot: &mut Option<Value>,
    ) -> Result<usize, Refusal>
        requires conforms { MatchOption slot.old ⊥ (λ value. Conforms (P.shape writer.now) (value_view value)) }
        requires copied { IsTrue self.old.copies → IsTrue is_whole → MatchOption slot.old ⊥ (λ value. P.stands writer.now (value_view value) front.now) }
        ensures copies { self.new.copies ≡ self.old.copies }
        ensures added { IfOk result (AreAdded (read_rule reader.now) (P.shape writer.now) (P.stands writer.now) slot.old behind.now
            self.old.octets.items self.new.octets.items self.old.lengths.items self.new.lengths.items) }
        ensures refused { IfErr result (AreAddedUpTo (read_rule reader.now) (P.shape writer.now) (P.stands writer.now) P.can_be_too_long
            slot.old slot.new behind.now self.old.octets.items self.new.octets.items self.old.lengths.items self.new.lengths.items) }
    {
        let mut as_written = is_whole && self.copies;
        let mut last = front;
        let mut rest = behind;
        loop {
            let Some(value) = slot else { unreachable!() };
            let encoding = if as_written { Some(last) } else { None };
            self.add(writer, value, encoding)?;
            if rest.len() == behind.len() {
                if !is_whole || !reader.reads_ber() {
                    return Ok(0);
                }
                if let Some(tag) = writer.ty().as_type().leaf_tag() {
                    return Ok(self.add_leaves(writer, tag, behind, value));
                }
                as_written = self.octets.ends_with(front);
            }
            if last.len() > rest.len() || self.is_full(writer) {
                return Ok(behind.len() - rest.len());
            }
            let Some(used) = read_next(self.alloc, writer, rest, &mut as_written, slot) else {
                return Ok(behind.len() - rest.len());
            };
            let (next, others) = rest.split_at(used);
            last = next;
            rest = others;
        }
    }

    // Adds what stands for the values in BER that are whole at the front, of a type without parts, and returns how many
    // octets they have. It ends at one that is cut, refused or cannot be added. Their loop stands apart and asks the type
    // once, so that what it needs stays in registers.
    #[inline(never)]
    fn add_leaves<P: Put>(
        &mut self,
        writer: &P,
        tag: Tag,
        octets: &[u8],
        value: &mut Value,
    ) -> usize
        requires leaf { IsLeaf (P.shape writer.now) }
        requires tag { tag_of (P.shape writer.now) ≡ tag }
        ensures copies { self.new.copies ≡ self.old.copies }
        ensures added { AreLeavesAdded (P.shape writer.now) (P.stands writer.now)
            octets.now self.old.octets.items self.new.octets.items self.old.lengths.items self.new.lengths.items result }
    {
        let mut rest = octets;
        while !self.is_full(writer) {
            let Some(used) = read_leaf_into(self.alloc, writer.ty(), tag, rest, value) else {
                return octets.len() - rest.len();
            };
            match self.add(writer, value, None) {
                Ok(()) => rest = &rest[used..],
                Err(_) => return octets.len() - rest.len(),
            }
        }
        octets.len() - rest.len()
    }

    /// Gathers what stands for the values that the front of a piece completes, in place of what was gathered, and returns
    /// how many octets of the piece were taken: all, unless the batch has to be written before. The slot has the value
    /// read last, into whose room the next one is read.
    pub fn gather<P: Put>(
        &mut self,
        reader: &mut AnyReader<'_>,
        writer: &P,
        piece: &[u8],
        slot: &mut Option<Value>,
    ) -> Result<usize, Refusal>
        requires stands { (old : List ℕ) × IsUnfinished (StandsBy (P.shape writer.now) reader.old) (read_rule reader.old) (P.shape writer.now) old }
        requires copied { IsTrue self.old.copies → (v : Val) (octets : List ℕ) →
            IsAccepted (read_rule reader.old) (P.shape writer.now) v octets → P.stands writer.now v octets }
        ensures copies { self.new.copies ≡ self.old.copies }
        ensures rule_stays { OnOk result (read_rule reader.new ≡ read_rule reader.old) }
        ensures there { IfOk result (λ used. used ≤ length piece.now) }
        ensures some { piece.now ≢ [] → IfOk result (λ used. 1 ≤ used) }
        ensures gathered { IfOk result (λ used. (old : List ℕ) →
            IsUnfinished (StandsBy (P.shape writer.now) reader.old) (read_rule reader.old) (P.shape writer.now) old →
            HasGathered (IsUnfinished (StandsBy (P.shape writer.now) reader.new) (read_rule reader.old) (P.shape writer.now))
            (read_rule reader.old) (P.shape writer.now) (P.stands writer.now)
            (old ++ take used piece.now) self.new.octets.items self.new.lengths.items) }
        ensures refused { IfErr result (λ refusal. (old : List ℕ) →
            IsUnfinished (StandsBy (P.shape writer.now) reader.old) (read_rule reader.old) (P.shape writer.now) old →
            StopsGathering (read_rule reader.old) (P.shape writer.now) (P.stands writer.now) refusal
            (old ++ piece.now) self.new.octets.items self.new.lengths.items) }
        ensures long { result ≡ Err Refusal.OutputTooLong → P.can_be_too_long }
        ensures few { MatchResult result (λ used. length self.new.lengths.items ≤ used) (λ _. length self.new.lengths.items ≤ length piece.now) }
        ensures numbers { IfErr result (IsOfGathering (read_rule reader.old)) }
    {
        self.octets.clear();
        self.lengths.clear();
        let mut rest = piece;
        while !rest.is_empty() {
            let is_whole = reader.finish().is_ok();
            let used = reader.feed(rest, slot)?;
            if slot.is_none() {
                return Ok(piece.len());
            }
            let (front, behind) = rest.split_at(used);
            let added = self.add_read(reader, writer, is_whole, front, behind, slot)?;
            rest = &behind[added..];
            if self.is_full(writer) {
                return Ok(piece.len() - rest.len());
            }
        }
        Ok(piece.len())
    }
}

// Reads the value in BER that is whole at the front into the slot, and returns how many octets it has. Values that come
// as they are written are mostly followed by more of them: such a one is looked for until one has come otherwise.
#[inline(always)]
fn read_next<P: Put>(
    alloc: Global,
    writer: &P,
    octets: &[u8],
    as_written: &mut bool,
    slot: &mut Option<Value>,
) -> Option<usize>
    ensures first { IfSome result (IsFirst (P.shape writer.now) slot.new octets.now) }
    ensures written { IsTrue as_written.new → IfSome result (IsWritten (P.stands writer.now) (P.shape writer.now) slot.new octets.now) }
{
    if *as_written {
        if let Some(used) = writer.read_written(octets, slot) {
            return Some(used);
        }
        *as_written = false;
    }
    read_first(alloc, writer, octets, slot)
}

// Reads the value in BER that is whole at the front into the slot, and returns how many octets it has.
#[inline(always)]
fn read_first<P: Put>(
    alloc: Global,
    writer: &P,
    octets: &[u8],
    slot: &mut Option<Value>,
) -> Option<usize>
    ensures { IfSome result (IsFirst (P.shape writer.now) slot.new octets.now) }
{
    read_into(alloc, writer.ty(), octets, slot)
}

// Appends what stands for a value: these octets, if there are any.
#[inline(always)]
fn put<P: Put>(
    writer: &P,
    value: &Value,
    encoding: Option<&[u8]>,
    room: &mut String,
    out: &mut Vec<u8>,
) -> Result<(), Refusal>
    requires conforms { Conforms (P.shape writer.now) (value_view value.now) }
    requires stands { IfSome encoding (λ octets. P.stands writer.now (value_view value.now) octets.now) }
    ensures appended { OnOk result (Appends (P.stands writer.now (value_view value.now)) out.old.items out.new.items) }
    ensures unchanged { OnErr result (out.new.items ≡ out.old.items) }
    ensures refused { IfErr result (IsNotAdded (P.stands writer.now (value_view value.now)) P.can_be_too_long) }
{
    let Some(octets) = encoding else {
        return writer.put(value, room, out);
    };
    out.extend_from_slice(octets)?;
    Ok(())
}
