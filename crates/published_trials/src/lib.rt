//! Tests of the crates that read modules as they are published, `published_tokens` and `published`.
//!
//! They stand here and not in those crates, since the check of a crate's tests proves the crate once more.
#![tactic(auto)]

#[cfg(test)]
mod files;
#[cfg(test)]
mod hostile;
#[cfg(test)]
mod outlining;
#[cfg(test)]
mod rows;
