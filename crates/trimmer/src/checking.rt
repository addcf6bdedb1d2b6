//! Trims, and reads again what is written.

ghost use Rattle.std.specs.Prelude.{IfOk, OnOk, string_bytes};
ghost use Rattle.trimmer.specs.Trimmed.{IsTrimmed};

use notation::{Fault, parse, resolve};
use published::{Module, Place};
use std::alloc::{AllocError, Global};
use std::mem::drop;
use trimming::{Drafted, Request, Stop, Trimmed, draft_module, refused};

/// The module of the profile that has the type that is asked for, and what it reaches.
pub fn trim<'a>(alloc: Global, modules: &'a [Module], request: &'a Request) -> Result<Trimmed, Stop>
    ensures { IfOk result (λ trimmed. IsTrimmed (string_bytes trimmed.text) (string_bytes trimmed.name)) }
{
    let drafted = draft_module(alloc, modules, request)?;
    checked(alloc, drafted)
}

// The module, where its text is one of the profile, in which the name means a type.
fn checked(alloc: Global, drafted: Drafted) -> Result<Trimmed, Stop>
    ensures { IfOk result (λ found. IsTrimmed (string_bytes found.text) (string_bytes found.name)) }
{
    let Drafted { trimmed, place } = drafted;
    match check(alloc, trimmed.text.as_str(), trimmed.name.as_str()) {
        Ok(()) => Ok(trimmed),
        Err(fault) => Err(not_of_profile(alloc, place, fault.number)?),
    }
}

// Reads the text as asn1x does, and looks the name up in it.
fn check(alloc: Global, text: &str, name: &str) -> Result<(), Fault>
    ensures { OnOk result (IsTrimmed text.now name.now) }
{
    let parsed = parse(alloc, text)?;
    drop(resolve(alloc, &parsed, name)?);
    Ok(())
}

// That the module is none of the profile.
fn not_of_profile(alloc: Global, place: Option<Place>, number: u32) -> Result<Stop, AllocError> {
    if number == 33 {
        return Ok(Stop::NoMemory);
    }
    let why = match number {
        26 => "names that repeat",
        27 => "numbers that repeat",
        28 => "tags that are not distinct",
        29 => "IMPLICIT in front of a CHOICE",
        30 => "a DEFAULT that is none of its type",
        31 => "more than the limits of asn1x allow",
        _ => "what asn1x does not take",
    };
    let text = format!(in alloc;
        "the type as it is trimmed has {why}, which asn1x refuses with {number}"
    )?;
    Ok(refused(alloc, place, text))
}
