//! Tests that cross crates: encodings of whole values in, their encodings under DER and CER out.
//!
//! Most are tables of octets in a text, which `rows` reads. The octets are those of X.690 and of the limits in
//! `docs/PROFILE.md`, never what the program gave.
#![tactic(auto)]

#[cfg(test)]
mod accepted;
#[cfg(test)]
mod answers;
#[cfg(test)]
mod cer;
#[cfg(test)]
mod changed;
#[cfg(test)]
mod checks;
#[cfg(test)]
mod enumerated;
#[cfg(test)]
mod faults_in_one;
#[cfg(test)]
mod in_turn;
#[cfg(test)]
mod library_use;
#[cfg(test)]
mod many_parts;
#[cfg(test)]
mod named_bits;
#[cfg(test)]
mod nesting;
#[cfg(test)]
mod pieces;
#[cfg(test)]
mod primitive;
#[cfg(test)]
mod printed_types;
#[cfg(test)]
mod rows;
#[cfg(test)]
mod same_values;
#[cfg(test)]
mod segments;
#[cfg(test)]
mod sequences;
#[cfg(test)]
mod sets;
#[cfg(test)]
mod spellings;
#[cfg(test)]
mod steps;
#[cfg(test)]
mod streamed;
#[cfg(test)]
mod tables;
#[cfg(test)]
mod tags;
#[cfg(test)]
mod types_by_name;
#[cfg(test)]
mod types_in_code;
#[cfg(test)]
mod wide_integers;
