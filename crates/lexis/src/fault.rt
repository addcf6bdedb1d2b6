//! Why the text of a module is refused, and where.

ghost use Rattle.std.specs.Prelude.{◌≡◌, ◌+◌, ◌<◌, ◌≤◌, ◌^◌, length};
ghost use Rattle.lexis.specs.FaultName.{name_of_fault};
ghost use Rattle.lexis.specs.Place.{IsPlace};

use std::alloc::{AllocError, AllocFailed};
use std::error::Error;
use std::fmt;

/// A text of a module that is refused: the number of the fault, and its place. Lines and columns are
/// counted from 1; octet 10 ends a line, and a column is an octet of its line.
#[derive(Clone, Copy, Debug, PartialEq, Eq)]
pub struct Fault {
    /// Which fault it is, from 21 to 33.
    pub number: u32,
    /// The line, 1 for a fault that has no place.
    pub line: u32,
    /// The column, 1 for a fault that has no place.
    pub column: u32,
}

/// Its number, its name and its place, as `22 Syntax at 1:17`.
impl fmt::Display for Fault {
    ghost use Rattle.std.specs.Prelude.{Some, ◌++◌, codes, decimal};

    ghost output = { λ fault. Some (decimal fault.number ++ codes " " ++ name_of_fault fault.number
        ++ codes " at " ++ decimal fault.line ++ codes ":" ++ decimal fault.column) };

    fn fmt<W: fmt::Write>(&self, f: &mut fmt::Formatter<W>) -> fmt::Result {
        let name = fault_name(self.number);
        write!(
            f,
            "{} {} at {}:{}",
            self.number, name, self.line, self.column
        )
    }
}

impl Error for Fault {}

// A growth was refused. This fault has no place.
const NO_MEMORY: Fault = Fault {
    number: 33,
    line: 1,
    column: 1,
};

impl From<AllocError> for Fault {
    ghost from_gives = { λ _ fault. fault.number ≡ 33 };

    fn from(_refused: AllocError) -> Fault {
        NO_MEMORY
    }
}

impl<T: Drop> From<AllocFailed<T>> for Fault {
    ghost from_gives = { λ _ fault. fault.number ≡ 33 };

    fn from(_refused: AllocFailed<T>) -> Fault {
        NO_MEMORY
    }
}

/// The name of the fault of this number.
pub fn fault_name(number: u32) -> &'static str
    ensures { result.now ≡ name_of_fault number }
{
    match number {
        21 => "Token",
        22 => "Syntax",
        23 => "Reserved",
        24 => "UnknownType",
        25 => "Cycle",
        26 => "RepeatedName",
        27 => "RepeatedNumber",
        28 => "TagsNotDistinct",
        29 => "ImplicitChoice",
        30 => "BadDefault",
        31 => "TooLarge",
        32 => "NotInProfile",
        _ => "NoMemory",
    }
}

/// The fault of this number at the octet that stands at `offset`, or at the end of the text where
/// `offset` is its length. Takes no memory.
pub fn fault_at(number: u32, text: &str, offset: usize) -> Fault
    ensures number { result.number ≡ number }
    ensures place { length text.now ≤ 262144 → IsPlace text.now offset result.line result.column }
{
    let octets = text.as_bytes();
    let mut lines = 0usize;
    let mut columns = 0usize;
    for octet in &octets[..offset.min(octets.len())] {
        if *octet == b'\n' {
            lines += 1;
            columns = 0;
        } else {
            columns += 1;
        }
    }
    Fault {
        number,
        line: counted_from_1(lines),
        column: counted_from_1(columns),
    }
}

// The number of a line or a column that so many precede, or the greatest that there is.
fn counted_from_1(preceding: usize) -> u32
    ensures { preceding < 2 ^ 31 → result ≡ preceding + 1 }
{
    match u32::try_from(preceding) {
        Ok(preceding) => preceding.saturating_add(1),
        Err(_) => u32::MAX,
    }
}
