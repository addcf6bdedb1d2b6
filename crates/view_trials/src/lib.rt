//! Tests of `cutting`, `walking` and `view`, through what they offer: whole runs of the program, from its words to what
//! it prints and its status (`runs`, `cut_runs`, `failing_outputs`), words that are refused (`refused_words`), and ends
//! of encodings in pieces (`cut_ends`).
//!
//! They stand here and not in those crates, since the check of a crate's tests proves the crate once more.
#![tactic(auto)]

#[cfg(test)]
mod cut_ends;
#[cfg(test)]
mod cut_runs;
#[cfg(test)]
mod failing_outputs;
#[cfg(test)]
mod fake;
#[cfg(test)]
mod refused_words;
#[cfg(test)]
mod runs;
