//! Modules as they are published, trimmed to asn1x's profile: one module for a type that is asked for.
#![tactic(auto)]

mod bits;
mod choices;
mod defaults;
mod drafting;
mod giving;
mod including;
mod items;
mod leaving;
mod lists;
mod node;
mod open;
mod reaching;
mod reporting;
mod sharing;
mod tagging;
mod trimmer;
mod trimming;
mod walking;

pub use trim_sources::{Given, Kind, Message, Request, Substitute, given_of, with_module};
pub use trimming::{Drafted, Refusal, Stop, Trimmed, draft_module, refused};
