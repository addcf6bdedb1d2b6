//! Encodings that are taken: one that opens, one of a type without parts, a segment.

use crate::open::{Held, Open};
use crate::opening::Opening;
use crate::walk::behind;
use crate::{Note, Notes, Reason, Stopped, Walk, What};
use encoding_parts::{Frame, SegmentKind, kind_of};
use judging::{is_spelt_out, value_of, why_refused};
use octets::NoMemory;
use primitives::read_bits;
use types::{Refusal, Value};

impl<'a> Walk<'a> {
    // Opens a constructed encoding.
    pub(crate) fn open_part(
        &mut self,
        default: Option<&'a Value>,
        opening: &Opening,
        octets: &[u8],
    ) -> Result<(), Stopped> {
        let notes = self.form_notes(self.line.part.node, opening);
        self.tell(opening, What::Parts, notes, octets);
        if self.push_open(default, opening).is_err() {
            return Err(self.no_memory());
        }
        self.taken = self.taken.saturating_add(opening.head());
        Ok(())
    }

    // Puts the encoding that opens behind those that it stands in.
    fn push_open(&mut self, default: Option<&'a Value>, opening: &Opening) -> Result<(), NoMemory> {
        let part = self.line.part;
        let frame = self.frame(opening);
        let first_place = self.places.first_in(self.line.place, part.node)?;
        let Some(held) = Held::of(self.alloc, part.node)? else {
            return Err(NoMemory);
        };
        self.open.push(Open {
            part,
            first_place,
            frame,
            held,
            default,
            last_item: (0, 0),
            last_tag: None,
            count: 0,
        })?;
        Ok(())
    }

    // Where the encoding that opens ends.
    fn frame(&self, opening: &Opening) -> Frame {
        let start = self.taken.saturating_add(opening.head());
        match opening.contents {
            Some(size) => Frame {
                definite: true,
                end: start.saturating_add(size),
            },
            None => Frame {
                definite: false,
                end: self.end_inside().saturating_sub(2),
            },
        }
    }

    // Takes the contents octets of a primitive encoding.
    pub(crate) fn leaf(
        &mut self,
        default: Option<&'a Value>,
        opening: &Opening,
        octets: &[u8],
        rest: &[u8],
    ) -> Result<(), Stopped> {
        let contents = opening.contents_in(rest);
        if self.is_in_string() {
            return self.segment(opening, contents, octets);
        }
        let mut notes = self.leaf_notes(self.line.part.node, opening, contents);
        let is_judged = default.is_some() || !self.is_taken;
        if is_judged && self.is_default(default, opening.head(), contents)? {
            notes.add(Note::Default);
        }
        self.tell(opening, What::Leaf, notes, octets);
        let size = opening.head().saturating_add(contents.len());
        self.taken = self.taken.saturating_add(size);
        self.is_over = self.open.is_empty();
        Ok(())
    }

    // Whether the contents octets of the part that is told, whose head has so many octets, are those of the default.
    // Refused where they have no value.
    #[inline(never)]
    fn is_default(
        &mut self,
        default: Option<&'a Value>,
        head: usize,
        contents: &[u8],
    ) -> Result<bool, Stopped> {
        match value_of(self.alloc, self.line.part.node, contents) {
            Ok(value) => Ok(is_spelt_out(default, &value)),
            Err((refusal, place, reason)) => {
                let at = self.taken.saturating_add(head).saturating_add(place);
                Err(self.halt_in_part(refusal, at, reason))
            }
        }
    }

    // Takes a primitive segment.
    #[inline(never)]
    fn segment(
        &mut self,
        opening: &Opening,
        contents: &[u8],
        octets: &[u8],
    ) -> Result<(), Stopped> {
        let start = self.taken.saturating_add(opening.head());
        let later = behind(octets, start.saturating_add(contents.len()));
        let notes = self.segment_notes(self.line.part.node, opening, contents, later);
        if !self.is_taken {
            if let Err((refusal, reason)) = self.join(contents) {
                return Err(self.halt_in_part(refusal, start, reason));
            }
        }
        if let Some(top) = self.open.last_mut() {
            top.count = top.count.saturating_add(1);
        }
        self.tell(opening, What::Segment, notes, octets);
        self.taken = start.saturating_add(contents.len());
        Ok(())
    }

    // Appends a segment to the string.
    fn join(&mut self, contents: &[u8]) -> Result<(), (Refusal, Reason<'a>)> {
        let node = self.line.part.node;
        if kind_of(node) == Some(SegmentKind::Bits) {
            return match read_bits(self.alloc, contents) {
                Ok(bits) => {
                    self.joined.unused = bits.unused();
                    Ok(())
                }
                Err(fault) => {
                    let refusal = Refusal::from(fault);
                    let (_, reason) = why_refused(refusal, node, contents);
                    Err((refusal, reason))
                }
            };
        }
        match self.joined.octets.extend_from_slice(contents) {
            Ok(()) => Ok(()),
            Err(_) => Err((Refusal::NoMemory, Reason::NoMemory)),
        }
    }

    // Tells what stands here, besides the part, with what its place in a SET or a SET OF says.
    fn tell(&mut self, opening: &Opening, what: What, notes: Notes, octets: &[u8]) {
        let mut notes = notes;
        if let Some(note) = self.order_note(opening, octets) {
            notes.add(note);
        }
        self.line.at = self.taken;
        self.line.depth = self.open.len();
        self.line.head = opening.head();
        self.line.contents = opening.contents;
        self.line.what = what;
        self.line.notes = notes;
    }
}
