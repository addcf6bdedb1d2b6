//! The modules with what their names and values stand for, and the text of a module of the profile.
#![tactic(auto)]

mod bits;
mod cause;
mod copying;
mod literals;
mod messages;
mod naming;
mod printing;
mod request;
mod reserved;
mod simple;
mod sources;
mod tags;
mod values;

pub use cause::{Cause, Fault};
pub use copying::{Copier, parts_in};
pub use messages::{Kind, Message};
pub use naming::{Naming, identifier, spelled};
pub use printing::put_expr;
pub use request::{Given, Request, Substitute, given_of, with_module};
pub use simple::{
    in_profile, is_left_out_string, name_of_left_out, simple_of_words, universal_number,
};
pub use sources::{MAX_STEPS, Sources, Spot};
pub use tags::Tags;
pub use values::{Base, Budget, ValueOf};
