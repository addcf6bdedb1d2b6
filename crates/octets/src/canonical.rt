//! The rules that give each value one encoding.

/// A rule that gives each value one encoding.
#[derive(Clone, Copy, Debug, PartialEq, Eq)]
pub enum Canonical {
    /// The canonical encoding rules (X.690 clause 9).
    Cer,
    /// The distinguished encoding rules (X.690 clause 10).
    Der,
}
