//! What one encoding is made of under the basic encoding rules (X.690 clause 8), and where its contents octets
//! begin and end.
//!
//! Identifier octets and length octets are read within what holds the encoding. The contents octets are those of
//! a value without parts (`read_leaf`), the segments of a string, at whatever depth (`Segments`), or the
//! encodings of parts, whose values are put where they belong as they come (`HeldParts`). What stands around the
//! encoding is known by its end alone; the limits are this project's own (`docs/PROFILE.md`).
#![tactic(auto)]

mod choices;
mod contents;
mod filling;
mod frame;
mod head;
mod held_parts;
mod joined;
mod leaf;
mod lengths;
mod parts;
mod renewed;
mod segments;
mod set_components;
mod short;
mod slots;

pub use choices::{begins, by_tag, can_begin, is_node, node_of, node_within, wrap};
pub use contents::read_contents;
pub use filling::fill;
pub use frame::{Frame, INLINE_FRAMES, OUTSIDE};
pub use head::{Extent, read_extent, read_head_tag, read_tag, refusal_inside};
pub use held_parts::{HeldParts, held_parts_of, next_due, not_next, only_due};
pub use joined::{Joined, SegmentKind, kind_of, segment_tag};
pub use leaf::{begin_string, contents_refusal, read_leaf};
pub use lengths::can_have_length;
pub use parts::read_opening;
pub use renewed::Renewed;
pub use segments::{Segments, read_end};
pub use set_components::{SetComponents, drop_default, is_default, not_due};
pub use short::{is_identifier, short_primitive};
pub use slots::{choose, clear, emptied_slots, empty_slots, set_boolean, take_list, take_slots};
