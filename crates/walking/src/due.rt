//! Which part an identifier begins.

use crate::open::{Due, Held};
use crate::places::place_behind;
use crate::{Part, Reason, Step, Stopped, Walk};
use encoding_parts::{SegmentKind, begins, by_tag, is_node, node_of, not_due, segment_tag};
use octets::Tag;
use types::{Refusal, Ty, Value};

impl<'a> Walk<'a> {
    // Tells the part that begins with the tag, and returns its default.
    pub(crate) fn due(&mut self, tag: Tag) -> Result<Option<&'a Value>, Stopped> {
        let Some(top) = self.open.last_mut() else {
            return self.due_outside(tag);
        };
        if let Held::Segments(kind) = &top.held {
            let kind = *kind;
            let string = top.part.node;
            return self.due_segment(kind, string, tag);
        }
        match top.take_due(tag) {
            Ok(due) => {
                let place = place_behind(top.first_place, due.index);
                self.tell_part(due, place, tag)
            }
            Err(refusal) => {
                let reason = why_not_due(refusal, tag, top.missing());
                Err(self.halt_here(refusal, reason))
            }
        }
    }

    // Tells the segment of the string that begins with the tag. It has no default.
    fn due_segment(
        &mut self,
        kind: SegmentKind,
        string: &'a Ty,
        tag: Tag,
    ) -> Result<Option<&'a Value>, Stopped> {
        let is_bits_end = self.joined.unused != 0;
        if let Some((refusal, words)) = segment_refused(kind, tag, is_bits_end) {
            return Err(self.halt_here(refusal, Reason::Words(words)));
        }
        self.line.part = segment_of(string, tag);
        self.line.place = None;
        Ok(None)
    }

    // Tells the value itself, if it begins with the tag.
    fn due_outside(&mut self, tag: Tag) -> Result<Option<&'a Value>, Stopped> {
        if !begins(self.ty, tag) {
            let refusal = not_due(tag);
            let reason = why_not_due(refusal, tag, None);
            return Err(self.halt_here(refusal, reason));
        }
        let due = Due {
            index: 0,
            step: Step::Whole,
            ty: self.ty,
            default: None,
        };
        self.tell_part(due, Some(0), tag)
    }

    // Tells the part that is due, which begins with the tag and may have a number, and returns its default.
    fn tell_part(
        &mut self,
        due: Due<'a>,
        place: Option<usize>,
        tag: Tag,
    ) -> Result<Option<&'a Value>, Stopped> {
        let Due {
            step,
            ty,
            default,
            ..
        } = due;
        let (node, place) = if is_node(ty) {
            (ty, place)
        } else {
            self.chosen(ty, place, tag)?
        };
        self.line.part = Part {
            step,
            ty,
            node,
            tag,
        };
        self.line.place = place;
        Ok(default)
    }

    // The alternative of a CHOICE that begins with the tag, with its number. An alternative of a CHOICE in a CHOICE has
    // none.
    #[inline(never)]
    fn chosen(
        &mut self,
        ty: &'a Ty,
        place: Option<usize>,
        tag: Tag,
    ) -> Result<(&'a Ty, Option<usize>), Stopped> {
        let Some(node) = node_of(ty, tag) else {
            return Err(self.halt_here(Refusal::Identifier, Reason::NotDue(tag)));
        };
        let Some(which) = which_alternative(ty, tag) else {
            return Ok((node, None));
        };
        match self.places.first_in(place, ty) {
            Ok(first) => Ok((node, place_behind(first, which))),
            Err(_) => Err(self.no_memory()),
        }
    }
}

// How many alternatives stand before the one that begins with the tag, if it is no CHOICE itself.
fn which_alternative(ty: &Ty, tag: Tag) -> Option<usize> {
    let Ty::Choice(alternatives) = ty else {
        return None;
    };
    let (which, alternative) = by_tag(alternatives, tag)?;
    if is_node(&alternative.ty) {
        Some(which)
    } else {
        None
    }
}

// A segment of the string.
fn segment_of(string: &Ty, tag: Tag) -> Part<'_> {
    Part {
        step: Step::Whole,
        ty: string,
        node: string,
        tag,
    }
}

// Why an identifier is refused where a segment must stand.
fn segment_refused(
    kind: SegmentKind,
    tag: Tag,
    is_bits_end: bool,
) -> Option<(Refusal, &'static str)> {
    if tag == Tag::universal(0) {
        return Some((
            Refusal::EndOfContents,
            "universal 0, the tag of end-of-contents octets, stands where a segment must begin",
        ));
    }
    if tag != segment_tag(kind) {
        let words = match kind {
            SegmentKind::Bits => "a segment of a BIT STRING, [UNIVERSAL 3], must stand here",
            SegmentKind::Octets => "a segment, [UNIVERSAL 4], must stand here",
        };
        return Some((Refusal::Identifier, words));
    }
    if is_bits_end {
        return Some((
            Refusal::Contents,
            "the segment before this one has unused bits",
        ));
    }
    None
}

// Why no part that may come begins with the tag.
fn why_not_due<'a>(refusal: Refusal, tag: Tag, missing: Option<&'a str>) -> Reason<'a> {
    match (refusal, missing) {
        (Refusal::Missing, Some(name)) => Reason::Absent(name),
        (Refusal::Repeated, _) => Reason::Words("the component has come already"),
        (Refusal::EndOfContents, _) => Reason::Words(
            "universal 0, the tag of end-of-contents octets, stands where a part must begin",
        ),
        (Refusal::NoMemory, _) => Reason::NoMemory,
        (_, _) => Reason::NotDue(tag),
    }
}
