//! Values one after another, with the octets that each has.

use berreader::Reader;
use engine::{Canonical, Rule};
use std::alloc::Global;
use strict::read_into;
use types::{Refusal, Value, WellTyped};
use view_faults::Unwanted;

/// What is done with each value.
pub trait Visit {
    /// Takes a value, its octets, and how many octets of the input stand before them. Err where no more is wanted.
    fn value(&mut self, octets: &[u8], at: u64, value: &Value) -> Result<(), Unwanted>;
}

/// Why values end before the input does.
#[derive(Clone, Copy)]
pub enum Ended {
    /// Octets are refused: those of `begun`.
    Refused(Refusal),
    /// What is done with a value failed.
    Unwanted(Unwanted),
}

/// A reader of values of a type, which keeps the octets of the one that is begun.
#[derive(Drop)]
pub struct Values<'a> {
    alloc: Global,
    from: Rule,
    ty: &'a WellTyped,
    reader: Reader<'a>,
    // the value that came last, into whose room the next one goes
    slot: Option<Value>,
    begun: Vec<u8>,
    at: u64,
    done: u64,
}

impl<'a> Values<'a> {
    /// No octet has come.
    pub fn new(alloc: Global, from: Rule, ty: &'a WellTyped) -> Values<'a> {
        Values {
            alloc,
            from,
            ty,
            reader: Reader::new(alloc, ty),
            slot: None,
            begun: Vec::new(alloc),
            at: 0,
            done: 0,
        }
    }

    /// The octets of the value that is begun, or, after a refusal, that is refused. More may stand behind it.
    pub fn begun(&self) -> &[u8] {
        self.begun.as_slice()
    }

    /// How many octets of the input stand before the value that is begun.
    pub fn at(&self) -> u64 {
        self.at
    }

    /// How many values have come.
    pub fn done(&self) -> u64 {
        self.done
    }

    /// Takes a piece of the input, and hands each value that it completes to the visitor.
    pub fn take<V: Visit>(&mut self, piece: &[u8], visit: &mut V) -> Result<(), Ended> {
        let mut rest = piece;
        for _ in 0..piece.len() {
            if rest.is_empty() {
                return Ok(());
            }
            match self.read(rest) {
                Ok(None) => return self.keep(rest),
                Ok(Some(used)) => {
                    let (front, behind) = rest.split_at(used.min(rest.len()));
                    self.hand_on(front, visit)?;
                    rest = behind;
                }
                Err(refusal) => {
                    self.keep(rest)?;
                    return Err(Ended::Refused(refusal));
                }
            }
        }
        Ok(())
    }

    /// Tells whether the input may end here.
    pub fn finish(&self) -> Result<(), Ended> {
        match self.reader.finish() {
            Ok(()) => Ok(()),
            Err(refusal) => Err(Ended::Refused(refusal)),
        }
    }

    // Reads what stands at the front of a piece, by the rule, into the slot. Returns how many octets are the last of a
    // value, if there is one.
    fn read(&mut self, piece: &[u8]) -> Result<Option<usize>, Refusal> {
        match self.from {
            Rule::Ber => self.feed(piece),
            Rule::Cer => self.read_strictly(Canonical::Cer, piece),
            Rule::Der => self.read_strictly(Canonical::Der, piece),
        }
    }

    // Goes on by the BER reader, which takes the whole piece where no value ends in it.
    fn feed(&mut self, piece: &[u8]) -> Result<Option<usize>, Refusal> {
        let used = self.reader.feed_into(piece, &mut self.slot)?;
        Ok(if self.slot.is_some() {
            Some(used)
        } else {
            None
        })
    }

    // Reads by a canonical rule: a value that is whole in the piece at once. Of any other the BER reader finds the end,
    // or the refusal.
    fn read_strictly(&mut self, rule: Canonical, piece: &[u8]) -> Result<Option<usize>, Refusal> {
        if self.begun.is_empty() {
            match read_into(self.alloc, rule, self.ty, piece, &mut self.slot) {
                Ok(used) => return Ok(Some(used)),
                Err(Refusal::NoMemory) => return Err(Refusal::NoMemory),
                Err(_) => {}
            }
        }
        let Some(used) = self.feed(piece)? else {
            return Ok(None);
        };
        self.judge(rule, piece.get(..used).unwrap_or(piece))?;
        Ok(Some(used))
    }

    // Reads the value of the octets that are begun and these, which BER takes, by a canonical rule.
    fn judge(&mut self, rule: Canonical, last: &[u8]) -> Result<(), Refusal> {
        let kept = self.begun.len();
        self.begun.extend_from_slice(last)?;
        let octets = self.begun.as_slice();
        let read = read_into(self.alloc, rule, self.ty, octets, &mut self.slot);
        self.begun.truncate(kept);
        match read {
            Ok(_) => Ok(()),
            Err(Refusal::NoMemory) => Err(Refusal::NoMemory),
            Err(_) => Err(Refusal::NotCanonical),
        }
    }

    // Hands the value in the slot on, whose last octets these are.
    fn hand_on<V: Visit>(&mut self, front: &[u8], visit: &mut V) -> Result<(), Ended> {
        if !self.begun.is_empty() {
            self.keep(front)?;
        }
        let octets = kept_or(self.begun.as_slice(), front);
        let size = octets.len() as u64;
        let wanted = match &self.slot {
            Some(value) => visit.value(octets, self.at, value),
            None => Ok(()),
        };
        self.at = self.at.saturating_add(size);
        self.begun.clear();
        self.done = self.done.saturating_add(1);
        match wanted {
            Ok(()) => Ok(()),
            Err(unwanted) => Err(Ended::Unwanted(unwanted)),
        }
    }

    // Keeps octets of the value that is begun.
    fn keep(&mut self, octets: &[u8]) -> Result<(), Ended> {
        match self.begun.extend_from_slice(octets) {
            Ok(()) => Ok(()),
            Err(_) => Err(Ended::Unwanted(Unwanted::NoMemory)),
        }
    }
}

// The octets of a value: those that are kept, or those that are lent, where none are.
fn kept_or<'a>(kept: &'a [u8], lent: &'a [u8]) -> &'a [u8] {
    if kept.is_empty() { lent } else { kept }
}
