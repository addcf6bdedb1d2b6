//! Where a walk stops, and why.

use crate::{Part, Reason, Walk};
use encoding_parts::refusal_inside;
use types::Refusal;

/// Why a walk stops.
#[derive(Clone, Copy)]
pub struct Stop<'a> {
    /// The refusal that a reader of BER names there.
    pub refusal: Refusal,
    /// How many octets of the value stand before the fault.
    pub at: usize,
    /// The part in which it stands, if its identifier has been read.
    pub part: Option<Part<'a>>,
    /// Why it is refused.
    pub reason: Reason<'a>,
}

/// A walk goes no further: `Walk::stop` says why. A mark without contents, so that a line costs no copy of a `Stop`.
#[derive(Clone, Copy)]
pub struct Stopped;

impl<'a> Stop<'a> {
    /// A fault before a part is known.
    pub fn outside(refusal: Refusal, at: usize, reason: Reason<'a>) -> Stop<'a> {
        let part = None;
        Stop {
            refusal,
            at,
            part,
            reason,
        }
    }

    /// A fault of this part.
    pub fn of(part: Part<'a>, refusal: Refusal, at: usize, reason: Reason<'a>) -> Stop<'a> {
        let part = Some(part);
        Stop {
            refusal,
            at,
            part,
            reason,
        }
    }

    /// The stop as it is where an encoding around it has the definite form.
    pub fn inside(self, inside_definite: bool) -> Stop<'a> {
        let refusal = refusal_inside(inside_definite, self.refusal);
        let reason = if refusal == self.refusal {
            self.reason
        } else {
            Reason::Words("it goes on past the end of what holds it")
        };
        Stop {
            refusal,
            at: self.at,
            part: self.part,
            reason,
        }
    }
}

impl<'a> Walk<'a> {
    // Goes no further, for this reason.
    #[inline(never)]
    pub(crate) fn halt(&mut self, stop: Stop<'a>) -> Stopped {
        self.stop = Some(stop);
        Stopped
    }

    // Goes no further, for a fault of what stands here, before a part is known.
    #[inline(never)]
    pub(crate) fn halt_here(&mut self, refusal: Refusal, reason: Reason<'a>) -> Stopped {
        self.halt(Stop::outside(refusal, self.taken, reason))
    }

    // Goes no further, out of memory.
    #[inline(never)]
    pub(crate) fn no_memory(&mut self) -> Stopped {
        self.halt_here(Refusal::NoMemory, Reason::NoMemory)
    }

    // Goes no further, since the part that is told is refused, for a fault before which so many octets stand.
    #[inline(never)]
    pub(crate) fn halt_in_part(
        &mut self,
        refusal: Refusal,
        at: usize,
        reason: Reason<'a>,
    ) -> Stopped {
        self.halt(Stop::of(self.line.part, refusal, at, reason))
    }

    // Goes no further, for the reason that is known, as it is inside the open encodings.
    #[inline(never)]
    pub(crate) fn halt_inside(&mut self) -> Stopped {
        let inside_definite = self.is_inside_definite();
        self.stop = match self.stop {
            Some(stop) => Some(stop.inside(inside_definite)),
            None => None,
        };
        Stopped
    }
}
