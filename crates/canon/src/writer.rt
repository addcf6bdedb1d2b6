//! What whole values are written by; how, say `writing` and `explicit`.

use octets::Canonical;
use std::alloc::Global;

/// A canonical rule, and memory to order parts by.
#[derive(Clone, Copy)]
pub(crate) struct Writer {
    /// The memory for lists of parts, by which these are put in order.
    pub alloc: Global,
    /// The rule.
    pub rule: Canonical,
}
