//! Makes what calls return to C, and puts octets into its buffers.

ghost use Rattle.std.specs.Prelude.{◌≡◌, ℕ, List, IfOk, IfErr};
ghost use Rattle.asn1x_c.specs.Done.{HasNoPlace, IsPut, IsWrong, done_of};
ghost use Rattle.asn1x_c.specs.Numbers.{wrong_argument};
ghost use Rattle.asn1x_c.specs.One.{IsNoOne, IsPutOne, IsRefusedOne};

use crate::done::{Done, ModuleFault, One};
use convert::{Fault, Refusal, Stopped};

// The number of an argument that a call cannot take.
pub(crate) const WRONG_ARGUMENT: u32 = 255;

impl Done {
    // The result of a call that wrote so many octets.
    pub(crate) fn of(outcome: Result<u64, Stopped>, octets: usize) -> Done
        ensures { result ≡ done_of outcome octets }
    {
        match outcome {
            Ok(values) => Done {
                refusal: 0,
                values,
                octets,
            },
            Err(stopped) => Done {
                refusal: u32::from(stopped.refusal.number()),
                values: stopped.done,
                octets,
            },
        }
    }

    // An argument is none.
    pub(crate) fn wrong() -> Done
        ensures { IsWrong result }
    {
        Done {
            refusal: WRONG_ARGUMENT,
            values: 0,
            octets: 0,
        }
    }
}

impl One {
    // What is written for a value of so many octets is put into a buffer.
    pub(crate) fn of(outcome: Result<(Vec<u8>, usize), Refusal>, out: &mut [u8]) -> One
        ensures put { IfOk outcome (λ p. IsPutOne p.1 p.0.items out.old out.new result) }
        ensures refused { IfErr outcome (λ refusal. IsRefusedOne refusal out.old out.new result) }
    {
        match outcome {
            Ok((written, used)) => One {
                refusal: 0,
                used,
                octets: put(written.as_slice(), out),
            },
            Err(refusal) => One {
                refusal: u32::from(refusal.number()),
                used: 0,
                octets: 0,
            },
        }
    }

    // An argument is none.
    pub(crate) fn wrong() -> One
        ensures { (octets : List ℕ) → IsNoOne octets octets result }
    {
        One {
            refusal: WRONG_ARGUMENT,
            used: 0,
            octets: 0,
        }
    }
}

impl ModuleFault {
    // None.
    pub(crate) fn none() -> ModuleFault
        ensures number { result.number ≡ 0 }
        ensures line { result.line ≡ 0 }
        ensures column { result.column ≡ 0 }
    {
        ModuleFault {
            number: 0,
            line: 0,
            column: 0,
        }
    }

    // Where the module is refused.
    pub(crate) fn of(fault: Fault) -> ModuleFault
        ensures number { result.number ≡ fault.number }
        ensures line { result.line ≡ fault.line }
        ensures column { result.column ≡ fault.column }
    {
        ModuleFault {
            number: fault.number,
            line: fault.line,
            column: fault.column,
        }
    }

    // A fault that has no place.
    pub(crate) fn without_place(number: u32) -> ModuleFault
        ensures number { result.number ≡ number }
        ensures place { HasNoPlace result }
    {
        ModuleFault {
            number,
            line: 1,
            column: 1,
        }
    }
}

// Puts octets into the front of a buffer that has room for all of them, and counts them.
pub(crate) fn put(written: &[u8], out: &mut [u8]) -> usize
    ensures { IsPut written.now out.old out.new result }
{
    let count = written.len();
    if count <= out.len() {
        out[..count].copy_from_slice(written);
    }
    count
}
