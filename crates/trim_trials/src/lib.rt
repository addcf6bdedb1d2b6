//! Tests of the program `asn1x-trim`, through what `trimmer` offers: runs over texts in memory (`trimmed`).
//!
//! They stand here and not in `trim_sources`, `trimming` or `trimmer`, since the check of a crate's tests proves the
//! crate once more.
#![tactic(auto)]

#[cfg(test)]
mod trimmed;
