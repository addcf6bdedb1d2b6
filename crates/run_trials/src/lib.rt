//! Tests of `program`, through what it offers: command lines, hexadecimal text, runs of the whole program but its `main`,
//! and streams over devices of every kind (`programs`), and their values one by one (`programs::values`); and of `devices`
//! (`on_devices`).
//!
//! They stand here and not in those crates, since the check of a crate's tests proves the crate once more.
#![tactic(auto)]

#[cfg(test)]
mod dripping;
#[cfg(test)]
mod on_devices;
#[cfg(test)]
mod programs;
