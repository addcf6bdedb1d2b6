//! The library's one door: what it takes to go from the text of a module and a name in it to values and to canonical
//! octets, whole or in pieces. One `use` reaches all calls, and the types that they take and return.
//!
//! `type_from` makes a type of a module's text, and `WellTyped::new` one of a type made in code. `transcode` converts
//! one encoding; `convert`, `check` and `list` go over a source of any number of them, and `Values` gives the values of
//! one. `read`, `read_cer`, `read_der` and `Reader` give values, `Cer` and `Der` write them, `show` is their text.
#![tactic(auto)]

mod hex_text;
mod module_file;

pub use berreader::{Reader, Step, read};
pub use canon::{Canon, Cer, Der, order, same};
pub use devices::{Failed, FromReader, FromSlice, Sink, Source, ToVec, ToWriter};
pub use engine::{
    Canonical, Rule, Stopped, check, convert, equal_results_exactly_if_same_values, list,
    transcode, written_octets_stay,
};
pub use hex_text::{HexFault, unhex};
pub use lexis::fault_name;
pub use module_file::{read_module, type_from};
pub use notation::Fault;
pub use octets::{Class, NoMemory, Tag};
pub use primitives::Bits;
pub use strict::{read_cer, read_der};
pub use strings::{TextKind, TimeKind};
pub use texts::{same_values_have_one_text, show};
pub use types::{
    Alternative, Field, Item, Name, NamedBit, Presence, Refusal, Ty, TypeFault, Value, WellTyped,
    conforms,
};
pub use value_stream::{Values, values_returned_are_those_of_the_source};

/// The most octets that a hexadecimal text may have, white space counted.
pub const MAX_HEX_TEXT: usize = 4_194_304;
