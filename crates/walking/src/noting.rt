//! What is not canonical at an identifier (X.690 clauses 9 to 11).

use crate::open::{Held, Open};
use crate::opening::Opening;
use crate::walk::behind;
use crate::{Note, Notes, Stopped, Walk};
use cutting::Ends;
use encoding_parts::{SegmentKind, kind_of};
use judging::order_tag;
use octets::{Canonical, Tag};
use types::{Refusal, Ty};

// The contents octets of a full segment under CER (X.690 9.2).
const FULL_SEGMENT: usize = 1_000;

impl<'a> Walk<'a> {
    // Whether the part that is told stands out of the order of a SET or a SET OF.
    pub(crate) fn order_note(&mut self, opening: &Opening, octets: &[u8]) -> Option<Note> {
        let part = self.line.part;
        let start = self.taken;
        let rule = self.rule;
        let top = self.open.last_mut()?;
        match top.part.node {
            Ty::Set(_, _) => component_note(top, order_tag(rule, part.ty, part.tag)),
            Ty::SetOf(_, _) => {
                let (before, _) = top.last_item;
                self.item_before = before;
                item_note(top, start, opening, octets)
            }
            _ => None,
        }
    }

    // Takes away the note that the item that is told is less than the one before it, unless both are canonical: the
    // canonical encodings are what is ordered (11.6), and those of others are not known.
    #[inline(never)]
    pub(crate) fn judge_item_order(&mut self, octets: &[u8]) -> Result<(), Stopped> {
        let start = self.line.at;
        let before = octets.get(self.item_before..start).unwrap_or(&[]);
        let is_sure = self.is_canonical(before)? && self.is_canonical(behind(octets, start))?;
        if !is_sure {
            self.line.notes.remove(Note::ItemOrder);
        }
        Ok(())
    }

    // Whether an encoding of the type that is told stands in front of the octets, and nothing in it has a note.
    fn is_canonical(&mut self, octets: &[u8]) -> Result<bool, Stopped> {
        let mut walk = Walk::over(self.alloc, self.rule, self.line.part.ty);
        for _ in 0..=octets.len() {
            match walk.step(octets) {
                Ok(true) if walk.line.notes.is_empty() => {}
                Ok(there) => return Ok(!there),
                Err(_) if is_out_of_memory(&walk) => return Err(self.no_memory()),
                Err(_) => return Ok(false),
            }
        }
        Ok(false)
    }

    // What is not canonical in the head of a constructed encoding.
    pub(crate) fn form_notes(&self, node: &Ty, opening: &Opening) -> Notes {
        let mut notes = length_notes(opening);
        match (self.rule, opening.contents) {
            (Canonical::Der, None) => notes.add(Note::Indefinite),
            (Canonical::Cer, Some(_)) => notes.add(Note::Definite),
            (Canonical::Der, Some(_)) | (Canonical::Cer, None) => {}
        }
        let is_string = kind_of(node).is_some();
        if is_string && (self.rule == Canonical::Der || self.is_in_string()) {
            notes.add(Note::Segments);
        }
        notes
    }

    // What is not canonical in a primitive encoding, but that it spells a default out.
    pub(crate) fn leaf_notes(&self, node: &Ty, opening: &Opening, contents: &[u8]) -> Notes {
        let mut notes = length_notes(opening);
        if self.rule == Canonical::Cer && contents.len() > FULL_SEGMENT && kind_of(node).is_some() {
            notes.add(Note::OnePiece);
        }
        if let Some(note) = contents_note(node, contents) {
            notes.add(note);
        }
        notes
    }

    // What is not canonical in a segment, behind which these octets stand.
    pub(crate) fn segment_notes(
        &self,
        node: &Ty,
        opening: &Opening,
        contents: &[u8],
        later: &[u8],
    ) -> Notes {
        let mut notes = length_notes(opening);
        let Some(top) = self.open.last() else {
            return notes;
        };
        let end = self
            .taken
            .saturating_add(opening.head())
            .saturating_add(contents.len());
        let is_last = self.is_string_over(end, later);
        if self.rule == Canonical::Cer {
            if let Some(note) = cer_size_note(node, top.count == 0, is_last, contents.len()) {
                notes.add(note);
            }
        }
        if let Some(note) = last_bits_note(node, is_last, contents) {
            notes.add(note);
        }
        notes
    }

    // Whether the string whose segment ends at this place, before these octets, surely ends there too.
    fn is_string_over(&self, end: usize, later: &[u8]) -> bool {
        let mut end = end;
        let mut later = later;
        for open in self.open.iter().rev() {
            if !matches!(open.held, Held::Segments(_)) {
                return true;
            }
            if open.frame.definite {
                if open.frame.end != end {
                    return false;
                }
            } else if later.starts_with(&[0, 0]) {
                end = end.saturating_add(2);
                later = behind(later, 2);
            } else {
                return false;
            }
        }
        true
    }
}

// Whether the component that stands in a SET by this tag stands out of order.
fn component_note(set: &mut Open<'_>, tag: Tag) -> Option<Note> {
    let last = set.last_tag.replace(tag)?;
    if tag < last {
        Some(Note::SetOrder)
    } else {
        None
    }
}

// Whether the item that begins at this place of the octets is less than the one before it in a SET OF.
fn item_note(list: &mut Open<'_>, start: usize, opening: &Opening, octets: &[u8]) -> Option<Note> {
    let rest = behind(octets, start);
    let size = size_of(opening, rest);
    let (from, to) = list.last_item;
    list.last_item = (start, start.saturating_add(size));
    let last = octets.get(from..to).unwrap_or(&[]);
    let item = rest.get(..size).unwrap_or(rest);
    if item < last {
        Some(Note::ItemOrder)
    } else {
        None
    }
}

// Whether the walk goes no further for lack of memory.
fn is_out_of_memory(walk: &Walk<'_>) -> bool {
    walk.stop
        .as_ref()
        .is_some_and(|stop| stop.refusal == Refusal::NoMemory)
}

// Whether there are more length octets than needed.
fn length_notes(opening: &Opening) -> Notes {
    let mut notes = Notes::none();
    if let Some(size) = opening.contents {
        if opening.length > fewest_length_octets(size) {
            notes.add(Note::LongLength);
        }
    }
    notes
}

// How many octets an encoding has.
fn size_of(opening: &Opening, octets: &[u8]) -> usize {
    match opening.contents {
        Some(size) => opening.head().saturating_add(size),
        None => match Ends::new().take(octets) {
            Ok(Some(used)) => used,
            _ => octets.len(),
        },
    }
}

// How many length octets so many contents octets need.
fn fewest_length_octets(size: usize) -> usize {
    if size < 0x80 {
        1
    } else if size < 0x100 {
        2
    } else if size < 0x1_0000 {
        3
    } else {
        4
    }
}

// Whether CER gives a segment another size (X.690 9.2).
fn cer_size_note(node: &Ty, is_first: bool, is_last: bool, size: usize) -> Option<Note> {
    let least = match kind_of(node) {
        Some(SegmentKind::Bits) => 2,
        _ => 1,
    };
    if is_first && is_last {
        return Some(Note::Segments);
    }
    let fits = if is_last {
        least <= size && size <= FULL_SEGMENT
    } else {
        size == FULL_SEGMENT
    };
    if fits { None } else { Some(Note::SegmentSize) }
}

// What is not canonical in the contents octets of a primitive encoding.
fn contents_note(node: &Ty, contents: &[u8]) -> Option<Note> {
    match (node, contents) {
        (Ty::Boolean(_), [octet]) if *octet != 0 && *octet != 0xFF => Some(Note::True),
        (_, _) => last_bits_note(node, true, contents),
    }
}

// What is not canonical in the bits at the end of a BIT STRING or of a segment.
fn last_bits_note(node: &Ty, is_last: bool, contents: &[u8]) -> Option<Note> {
    let (unused, last) = match contents {
        [unused, .., last] => (*unused, *last),
        _ => return None,
    };
    let low = if unused < 8 { 1u8 << unused } else { 1 };
    match node {
        Ty::Bits(_) | Ty::NamedBits(_, _) if last % low != 0 => Some(Note::UnusedBits),
        Ty::NamedBits(_, _) if is_last && last / low % 2 == 0 => Some(Note::TrailingZeros),
        _ => None,
    }
}
