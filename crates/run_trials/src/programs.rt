//! Tests of `program`, and what they share.

use convert::{Stopped, Tag, Ty, WellTyped};
use std::io::ErrorKind;
use std::test::Fail;

mod command_lines;
mod cuts;
mod each_call;
mod failing_devices;
mod hexadecimal;
mod letters;
mod modules;
mod printed;
mod runs;
mod shown_use;
mod streams;
mod values;

/// BOOLEAN.
pub fn boolean() -> Result<WellTyped, Fail> {
    Ok(WellTyped::new(Ty::Boolean(Tag::universal(1)))?)
}

/// How many values are done, and the refusal's number, or 0.
pub fn counted(counted: Result<u64, Stopped>) -> (u64, u8) {
    match counted {
        Ok(done) => (done, 0),
        Err(stopped) => (stopped.done, stopped.refusal.number()),
    }
}

/// The kind of error of a name.
pub fn kind_of(name: &str) -> Result<ErrorKind, Fail> {
    match name {
        "InvalidData" => Ok(ErrorKind::InvalidData),
        "IsADirectory" => Ok(ErrorKind::IsADirectory),
        "NotFound" => Ok(ErrorKind::NotFound),
        "Other" => Ok(ErrorKind::Other),
        "OutOfMemory" => Ok(ErrorKind::OutOfMemory),
        _ => Err("no kind of error".into()),
    }
}
