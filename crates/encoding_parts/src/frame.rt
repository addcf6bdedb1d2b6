//! The stack of open constructed encodings.

ghost use Rattle.std.specs.Prelude.{◌≡◌, ◌∷◌, [], List, MatchOption, OnOk};
ghost use Rattle.encoding_parts.specs.Segments.{stack, IsTop};

use octets::{MAX_ENCODING, NoMemory};
use smallvec::SmallVec;

/// How many open encodings are held without taking memory.
pub const INLINE_FRAMES: usize = 8;

/// An open constructed encoding.
#[derive(Clone, Copy, Debug, Default, PartialEq, Eq)]
pub struct Frame {
    /// Whether its length says where it ends. If not, end-of-contents octets do.
    pub definite: bool,
    /// How many octets, counted from the front of the outermost encoding, stand before the end of its
    /// contents octets; of the indefinite form, how many may, so that it ends within what holds it.
    pub end: usize,
}

/// Around the outermost encoding stands nothing but the limit.
pub const OUTSIDE: Frame = Frame {
    definite: false,
    end: MAX_ENCODING,
};

// The innermost open encoding.
pub fn top(frames: &SmallVec<Frame, INLINE_FRAMES>) -> Option<Frame>
    ensures { MatchOption result (stack frames.now.items ≡ []) (λ frame. IsTop frame frames.now.items) }
{
    frames.last().copied()
}

// Opens an encoding inside the innermost one.
pub fn open(frames: &mut SmallVec<Frame, INLINE_FRAMES>, frame: Frame) -> Result<(), NoMemory>
    ensures { OnOk result (stack frames.new.items ≡ frame ∷ stack frames.old.items) }
{
    frames.push(frame)?;
    Ok(())
}

// Closes the innermost open encoding.
pub fn close(frames: &mut SmallVec<Frame, INLINE_FRAMES>)
    ensures { (frame : Frame) (others : List Frame) → stack frames.old.items ≡ frame ∷ others →
        stack frames.new.items ≡ others }
{
    frames.pop();
}
