//! The walk, from one identifier to the next.

ghost use Rattle.std.specs.Prelude.{◌≤◌};

use crate::open::{Held, Open};
use crate::places::Places;
use crate::{Line, Note, Notes, Part, Reason, Step, Stop, Stopped, What};
use berslice::MAX_NESTED;
use encoding_parts::{Joined, OUTSIDE, contents_refusal, read_end, read_head_tag};
use judging::{is_string, why_no_value};
use octets::{Canonical, MAX_ENCODING, NoMemory, Tag};
use std::alloc::Global;
use std::string::String;
use types::{Refusal, Ty, WellTyped};

/// A walk over the octets of a value, and then of the next one, in the same room.
#[derive(Drop)]
pub struct Walk<'a> {
    pub(crate) alloc: Global,
    pub(crate) ty: &'a Ty,
    // the rule that says what is canonical
    pub(crate) rule: Canonical,
    // how many octets of the value have been walked over
    pub(crate) taken: usize,
    pub(crate) open: Vec<Open<'a>>,
    pub(crate) places: Places,
    // the string whose segments come, if it is judged here
    pub(crate) joined: Joined,
    // whether a reader has taken the octets, so that what it has judged need not be judged here
    pub(crate) is_taken: bool,
    pub(crate) is_over: bool,
    pub(crate) line: Line<'a>,
    // where the item begins that stands before the one that is told in a SET OF
    pub(crate) item_before: usize,
    // why the walk goes no further, once it does not
    pub(crate) stop: Option<Stop<'a>>,
}

impl<'a> Walk<'a> {
    /// A walk over values of the type, before the first one. What is not canonical is said by the rule. Takes no memory
    /// now.
    pub fn new(alloc: Global, rule: Canonical, ty: &'a WellTyped) -> Walk<'a> {
        Walk::over(alloc, rule, ty.as_type())
    }

    // A walk over values of a type that is part of a well-typed one.
    pub(crate) fn over(alloc: Global, rule: Canonical, ty: &'a Ty) -> Walk<'a> {
        Walk {
            alloc,
            ty,
            rule,
            taken: 0,
            open: Vec::new(alloc),
            places: Places::new(alloc),
            joined: Joined::new(alloc),
            is_taken: false,
            is_over: false,
            line: Line {
                at: 0,
                depth: 0,
                head: 0,
                contents: Some(0),
                part: end_of(ty),
                place: None,
                what: What::End,
                notes: Notes::none(),
            },
            item_before: 0,
            stop: None,
        }
    }

    /// Begins with the next value. Where a reader of BER has taken its octets, what it has judged is not judged again.
    pub fn begin(&mut self, is_taken: bool) {
        self.taken = 0;
        self.open.clear();
        self.joined.octets.clear();
        self.joined.unused = 0;
        self.is_taken = is_taken;
        self.is_over = false;
        self.stop = None;
    }

    /// What stands at the identifier to which `next_line` has gone.
    pub fn line(&self) -> &Line<'a> {
        &self.line
    }

    /// Why the walk goes no further, if `next_line` has said that it does not.
    pub fn stop(&self) -> Option<&Stop<'a>> {
        self.stop.as_ref()
    }

    /// Appends the path of the part, which stands in `depth` open encodings: the names of what is around it, and its
    /// own.
    pub fn put_path(
        &self,
        depth: usize,
        part: Option<&Part<'a>>,
        out: &mut String,
    ) -> Result<(), NoMemory> {
        for open in self.open.iter().take(depth) {
            open.part.put_name(out)?;
        }
        match part {
            Some(part) => part.put_name(out),
            None => Ok(()),
        }
    }

    /// How many encodings are open.
    pub fn depth(&self) -> usize {
        self.open.len()
    }

    /// Goes to the next identifier, or the end of an indefinite form, of which `line` tells then. False behind the end
    /// of the value. The octets are those from the front of the value on, the same at each call.
    pub fn next_line(&mut self, octets: &[u8]) -> Result<bool, Stopped> {
        let is_there = self.step(octets)?;
        if is_there && self.line.notes.has(Note::ItemOrder) {
            self.judge_item_order(octets)?;
        }
        Ok(is_there)
    }

    // As `next_line`, but items of a SET OF are compared as they are encoded, canonical or not.
    pub(crate) fn step(&mut self, octets: &[u8]) -> Result<bool, Stopped> {
        self.close_definite()?;
        if self.is_over {
            return Ok(false);
        }
        let rest = behind(octets, self.taken);
        let ended = match self.open.last() {
            Some(top) => match read_end(top.frame, self.taken, rest) {
                Ok(ended) => ended,
                Err(refusal) => return Err(self.no_end(refusal, rest)),
            },
            None => None,
        };
        match ended {
            Some(used) => self.end(used)?,
            None => {
                if self.part(octets, rest).is_err() {
                    return Err(self.halt_inside());
                }
            }
        }
        Ok(true)
    }

    // Goes no further, since the end of an indefinite form is none.
    #[inline(never)]
    fn no_end(&mut self, refusal: Refusal, rest: &[u8]) -> Stopped {
        let at = self.taken.saturating_add(rest.len().min(1));
        let words = match refusal {
            Refusal::Truncated => "the input ends before the end-of-contents octets",
            _ =>
                "00 begins end-of-contents octets, and these are not 00 00, or not where they may end",
        };
        self.halt(Stop::outside(refusal, at, Reason::Words(words)))
    }

    // Closes the encodings of the definite form that end here.
    fn close_definite(&mut self) -> Result<(), Stopped> {
        for _ in 0..MAX_NESTED {
            let Some(top) = self.open.last() else {
                return Ok(());
            };
            if !top.frame.definite || top.frame.end != self.taken {
                return Ok(());
            }
            self.close()?;
        }
        Ok(())
    }

    // Takes the end-of-contents octets of the innermost open encoding.
    fn end(&mut self, used: usize) -> Result<(), Stopped> {
        let Some(top) = self.open.last() else {
            return Ok(());
        };
        self.line = Line {
            at: self.taken,
            depth: self.open.len(),
            head: used,
            contents: Some(0),
            part: end_of(top.part.node),
            place: None,
            what: What::End,
            notes: Notes::none(),
        };
        self.close()?;
        self.taken = self.taken.saturating_add(used);
        Ok(())
    }

    // Closes the innermost open encoding.
    fn close(&mut self) -> Result<(), Stopped> {
        match self.open.pop() {
            Some(open) => self.judge_closed(&open),
            None => Ok(()),
        }
    }

    // Judges what was the innermost open encoding.
    fn judge_closed(&mut self, open: &Open<'a>) -> Result<(), Stopped> {
        if self.open.is_empty() {
            self.is_over = true;
        }
        if self.is_taken {
            return Ok(());
        }
        if let Held::Segments(_) = open.held {
            return self.close_string(open.part);
        }
        match why_not_closed(open) {
            Some((refusal, reason)) => {
                Err(self.halt(Stop::of(open.part, refusal, self.taken, reason)))
            }
            None => Ok(()),
        }
    }

    // Judges a string whose segments have come, once the outermost of them ends.
    #[inline(never)]
    fn close_string(&mut self, part: Part<'a>) -> Result<(), Stopped> {
        if self.is_in_string() {
            return Ok(());
        }
        let octets = std::mem::replace(&mut self.joined.octets, Vec::new(self.alloc));
        self.joined.unused = 0;
        if is_string(part.node, octets.as_slice()) {
            return Ok(());
        }
        let (_, reason) = why_no_value(part.node, octets.as_slice());
        let at = self.taken;
        Err(self.halt(Stop::of(part, contents_refusal(part.node), at, reason)))
    }

    // Whether the innermost open encoding is a string's.
    pub(crate) fn is_in_string(&self) -> bool {
        match self.open.last() {
            Some(top) => matches!(top.held, Held::Segments(_)),
            None => false,
        }
    }

    pub(crate) fn is_inside_definite(&self) -> bool {
        self.open.iter().any(|open| open.frame.definite)
    }

    // Where what holds the next part ends.
    pub(crate) fn end_inside(&self) -> usize
        ensures { result ≤ MAX_ENCODING }
    {
        let end = match self.open.last() {
            Some(top) => top.frame.end,
            None => OUTSIDE.end,
        };
        end.min(MAX_ENCODING)
    }

    // Takes the part whose identifier stands in front of the rest of the octets.
    fn part(&mut self, octets: &[u8], rest: &[u8]) -> Result<(), Stopped> {
        let (tag, constructed, identifier) = match read_head_tag(
            self.end_inside(),
            self.taken,
            rest,
        ) {
            Ok(read) => read,
            Err(refusal) => return Err(self.no_identifier(refusal, rest)),
        };
        let default = self.due(tag)?;
        let opening = self.opening(constructed, identifier, rest)?;
        if opening.constructed {
            self.open_part(default, &opening, octets)
        } else {
            self.leaf(default, &opening, octets, rest)
        }
    }

    // Goes no further, since no identifier stands in front of the rest of the octets.
    #[inline(never)]
    fn no_identifier(&mut self, refusal: Refusal, rest: &[u8]) -> Stopped {
        let words = match refusal {
            Refusal::Truncated if rest.is_empty() =>
                "the input ends where an identifier must stand",
            Refusal::Truncated => "the input ends inside the identifier octets",
            Refusal::TooLong => "more than 1,048,576 octets (the limit is asn1x's own)",
            _ =>
                "malformed identifier octets, or a tag number above 268,435,455 (the limit is asn1x's own)",
        };
        self.halt_here(refusal, Reason::Words(words))
    }
}

// The end-of-contents octets of a type's encoding.
fn end_of(node: &Ty) -> Part<'_> {
    Part {
        step: Step::Whole,
        ty: node,
        node,
        tag: Tag::universal(0),
    }
}

// Why an encoding with parts cannot end, if it cannot.
fn why_not_closed<'a>(open: &Open<'a>) -> Option<(Refusal, Reason<'a>)> {
    if let Held::Explicit(Some(_)) = open.held {
        let refusal = if open.frame.definite {
            Refusal::Length
        } else {
            Refusal::EndOfContents
        };
        return Some((refusal, Reason::Words("nothing stands in an explicit tag")));
    }
    match open.missing() {
        Some(name) => Some((Refusal::Missing, Reason::Absent(name))),
        None => None,
    }
}

// The octets behind so many.
pub fn behind(octets: &[u8], count: usize) -> &[u8] {
    octets.get(count..).unwrap_or(&[])
}
