//! Lists in braces, whose parts are no types.

ghost use Rattle.std.specs.Prelude.{Bool, map};
ghost use Rattle.syntax.specs.Reading.{Gives, Reads, signs_from, more_at};

use crate::refusing::refuse_part;
use crate::stop::Stop;
use crate::terminal::Terminal;
use std::alloc::Global;

/// The most parts of one list.
pub const MAX_PARTS: u32 = 256;

/// A part of a list.
pub trait Part: Sized {
    // What a part is in a tree.
    ghost Form: { Type 0 };

    ghost view: { Self → Form };

    // What is read at a place, and whether it is the last.
    ghost read: { Reads (Form × Bool) };

    /// A part, and whether it is the last of its list.
    fn part_at(
        alloc: Global,
        terminals: &[Terminal],
        at: usize,
    ) -> Result<(Self, bool, usize), Stop>
        ensures { Gives (λ r. ((view r.0, r.1), signs_from r.2 terminals.now)) result (read (signs_from at terminals.now)) };
}

/// Parts, to the brace that closes their list.
pub fn parts_at<P: Part + Drop>(
    alloc: Global,
    terminals: &[Terminal],
    at: usize,
) -> Result<(Vec<P>, usize), Stop>
    ensures { Gives (λ r. (map P.view r.0.items, signs_from r.1 terminals.now)) result (more_at P.read 256 (signs_from at terminals.now)) }
{
    let mut found = Vec::new(alloc);
    let mut next = at;
    for _count in 0..MAX_PARTS {
        let (part, is_last, behind) = P::part_at(alloc, terminals, next)?;
        found.push(part)?;
        next = behind;
        if is_last {
            return Ok((found, next));
        }
    }
    Err(refuse_part(terminals, next))
}
