//! Tests of the crates that read the texts of modules, of each by itself, through what it offers: `lexis` (`scanned`),
//! `syntax` (`parsed`) and `notation` (`resolved`). Their rows begin with texts (`telling`).
//!
//! They stand here and not in those crates, since the check of a crate's tests proves the crate once more.
#![tactic(auto)]

#[cfg(test)]
mod parsed;
#[cfg(test)]
mod resolved;
#[cfg(test)]
mod scanned;
#[cfg(test)]
mod telling;
