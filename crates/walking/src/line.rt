//! What an identifier begins.

use crate::walk::behind;
use crate::{Notes, Part};

/// What is told of an encoding at its identifier.
#[derive(Clone, Copy)]
pub struct Line<'a> {
    /// How many octets of the value stand before it.
    pub at: usize,
    /// How many encodings it stands in.
    pub depth: usize,
    /// How many identifier octets and length octets there are.
    pub head: usize,
    /// How many contents octets there are; None in the indefinite form.
    pub contents: Option<usize>,
    /// Which part it is.
    pub part: Part<'a>,
    /// The number of the part, if it has one: the same in each value, and no other's.
    pub place: Option<usize>,
    /// What the contents octets are.
    pub what: What,
    /// What is not canonical there.
    pub notes: Notes,
}

/// What contents octets are.
#[derive(Clone, Copy)]
pub enum What {
    /// Encodings of parts, or segments.
    Parts,
    /// Those of a value without parts.
    Leaf,
    /// Those of a segment.
    Segment,
    /// The end-of-contents octets of what holds them.
    End,
}

impl Line<'_> {
    /// The contents octets among the octets of the value; none of the indefinite form.
    pub fn contents_in<'b>(&self, octets: &'b [u8]) -> &'b [u8] {
        let front = behind(octets, self.at.saturating_add(self.head));
        front.get(..self.contents.unwrap_or(0)).unwrap_or(&[])
    }
}
