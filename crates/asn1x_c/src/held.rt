//! A type in C's memory.

ghost use Rattle.std.specs.Prelude.{◌≡◌, is_some};

use crate::kept::Kept;

/// A type that C holds, or none. C may hold none by zeros, and has it otherwise from `asn1x_type_from` alone.
#[repr(C)]
#[derive(Drop)]
pub struct HeldType {
    pub(crate) full: bool,
    pub(crate) kept: Kept,
    ghost agrees: { full ≡ is_some kept.ty },
}
