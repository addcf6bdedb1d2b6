//! Length octets, and whether a part may have them.

use crate::walk::behind;
use crate::{Reason, Stopped, Walk};
use berslice::MAX_NESTED;
use encoding_parts::{Extent, can_have_length, contents_refusal, kind_of, read_extent};
use octets::{Length, read_length};
use types::Refusal;

/// Identifier octets and length octets that have been read.
#[derive(Clone, Copy)]
pub struct Opening {
    /// Whether the encoding is constructed.
    pub constructed: bool,
    /// How many identifier octets there are.
    pub identifier: usize,
    /// How many length octets there are.
    pub length: usize,
    /// How many contents octets there are; None in the indefinite form.
    pub contents: Option<usize>,
}

impl Opening {
    /// How many octets stand before the contents octets.
    pub fn head(&self) -> usize {
        self.identifier.saturating_add(self.length)
    }

    /// The contents octets among those from the identifier octets on; none of the indefinite form.
    pub fn contents_in<'b>(&self, octets: &'b [u8]) -> &'b [u8] {
        let start = self.head();
        let end = start.saturating_add(self.contents.unwrap_or(0));
        octets.get(start..end).unwrap_or(&[])
    }
}

impl<'a> Walk<'a> {
    // Reads the length octets of the part that is told, behind so many identifier octets.
    pub(crate) fn opening(
        &mut self,
        constructed: bool,
        identifier: usize,
        rest: &[u8],
    ) -> Result<Opening, Stopped> {
        if !self.is_taken {
            self.judge_form(constructed)?;
        }
        let before = self.taken.saturating_add(identifier);
        let lengths = behind(rest, identifier);
        let (length, contents) = match read_extent(
            constructed,
            self.end_inside(),
            before,
            lengths,
        ) {
            Ok(Extent::Definite { octets, used }) => (used, Some(octets)),
            Ok(Extent::Indefinite { used }) => (used, None),
            Err(refusal) => return Err(self.no_length(refusal, before, lengths)),
        };
        let opening = Opening {
            constructed,
            identifier,
            length,
            contents,
        };
        if !self.is_taken {
            self.judge_count(&opening, rest)?;
        }
        Ok(opening)
    }

    // Refuses a form that the part cannot have.
    #[inline(never)]
    fn judge_form(&mut self, constructed: bool) -> Result<(), Stopped> {
        let node = self.line.part.node;
        let (refusal, reason) = match (constructed, node.has_no_parts()) {
            (true, true) if kind_of(node).is_none() => (Refusal::Form, Reason::Constructed(node)),
            (false, false) => (Refusal::Form, Reason::Primitive(node)),
            (true, _) if self.open.len() >= MAX_NESTED => {
                let words = "more than 64 constructed encodings nested (the limit is asn1x's own)";
                (Refusal::TooDeep, Reason::Words(words))
            }
            (_, _) => return Ok(()),
        };
        Err(self.halt_in_part(refusal, self.taken, reason))
    }

    // Goes no further, since length octets are refused.
    #[inline(never)]
    fn no_length(&mut self, refusal: Refusal, at: usize, lengths: &[u8]) -> Stopped {
        if refusal == Refusal::TooLong && !self.is_inside_definite() && !self.is_in_string() {
            if let Length::Definite { octets, .. } = read_length(lengths) {
                let node = self.line.part.node;
                if node.has_no_parts() && !can_have_length(node, octets) {
                    return self.no_count(at, octets);
                }
            }
        }
        let words = match refusal {
            Refusal::Truncated => "the input ends inside the length octets",
            Refusal::Form => "a primitive encoding of the indefinite form",
            Refusal::TooLong => "more than 1,048,576 octets (the limit is asn1x's own)",
            _ => "malformed length octets, or more than 1,048,576 (the limit is asn1x's own)",
        };
        self.halt_in_part(refusal, at, Reason::Words(words))
    }

    // Goes no further, since the type of the part that is told cannot have so many contents octets.
    #[inline(never)]
    fn no_count(&mut self, at: usize, count: usize) -> Stopped {
        let node = self.line.part.node;
        self.halt_in_part(contents_refusal(node), at, Reason::Count(node, count))
    }

    // Refuses a primitive encoding whose type cannot have as many contents octets, or that the input cuts.
    #[inline(never)]
    fn judge_count(&mut self, opening: &Opening, rest: &[u8]) -> Result<(), Stopped> {
        let count = match opening.contents {
            Some(count) if !opening.constructed => count,
            _ => return Ok(()),
        };
        if !self.is_in_string() && !can_have_length(self.line.part.node, count) {
            let at = self.taken.saturating_add(opening.identifier);
            return Err(self.no_count(at, count));
        }
        let there = rest.len().saturating_sub(opening.head());
        if count > there {
            let at = self.taken.saturating_add(rest.len());
            let reason = Reason::Missing(count - there);
            return Err(self.halt_in_part(Refusal::Truncated, at, reason));
        }
        Ok(())
    }
}
