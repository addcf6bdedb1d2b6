//! Tests of the crates that have, read and write values, of each by itself, through what it offers: `octets`
//! (`identifiers_and_lengths`), `primitives` (`primitive`), `strings` (`strings_and_times`), `types` (`typed`),
//! `encoding_parts` (`one_encoding`), `berslice` (`whole_values`), `berreader` (`reading`), `canon` (`writing`),
//! `strict` (`canonical`) and `texts` (`shown`). In their tables types (`type_notation`) and values
//! (`value_notation`) have a short notation.
//!
//! They stand here and not in those crates, since the check of a crate's tests proves the crate once more.
#![tactic(auto)]

#[cfg(test)]
mod canonical;
#[cfg(test)]
mod identifiers_and_lengths;
#[cfg(test)]
mod one_encoding;
#[cfg(test)]
mod primitive;
#[cfg(test)]
mod reading;
#[cfg(test)]
mod shown;
#[cfg(test)]
mod strings_and_times;
#[cfg(test)]
mod type_notation;
#[cfg(test)]
mod typed;
#[cfg(test)]
mod value_notation;
#[cfg(test)]
mod whole_values;
#[cfg(test)]
mod writing;
