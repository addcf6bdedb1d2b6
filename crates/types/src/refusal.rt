//! Why octets or types are refused.

use octets::NoMemory;
use primitives::Fault;
use std::alloc::{AllocError, AllocFailed};
use std::error::Error;
use std::fmt;

/// Why a call over octets gave no value, or wrote none. The numbers are printed by the program and
/// never change.
#[derive(Clone, Copy, Debug, PartialEq, Eq)]
pub enum Refusal {
    /// The input ends inside an encoding, or before one that must come.
    Truncated = 1,
    /// Identifier octets that cannot stand there, or malformed ones; octets left over after the value.
    Identifier = 2,
    /// Primitive or constructed against the type; the indefinite form on a primitive encoding.
    Form = 3,
    /// Malformed length octets, a length above the limit, or a part that passes the end of what holds it.
    Length = 4,
    /// End-of-contents octets where none can stand, or malformed ones.
    EndOfContents = 5,
    /// Contents octets that encode no value of a type without an alphabet.
    Contents = 6,
    /// Contents octets of a character string or a time outside its definition.
    Alphabet = 7,
    /// A required component is absent.
    Missing = 8,
    /// A component of a SET stands twice.
    Repeated = 9,
    /// More than 64 constructed encodings nested.
    TooDeep = 10,
    /// An encoding of more than 1,048,576 octets.
    TooLong = 11,
    /// Octets that BER allows there and the strict rule does not.
    NotCanonical = 12,
    /// The source gave more than 4,294,967,295 octets.
    StreamTooLong = 13,
    /// The canonical encoding to write has more than 1,048,576 octets.
    OutputTooLong = 14,
    /// The source failed in this call.
    SourceFault = 15,
    /// The sink failed in this call.
    SinkFault = 16,
    /// A growth was refused.
    NoMemory = 17,
}

impl Refusal {
    ghost use Rattle.std.specs.Prelude.{◌≡◌};
    ghost use Rattle.types.specs.Refusal.{refusal_number, refusal_name};

    /// The number of the refusal, 1 to 17.
    pub fn number(self) -> u8
        ensures { result ≡ refusal_number self }
    {
        self as u8
    }

    /// The name of the refusal, as its variant is spelt.
    pub fn name(self) -> &'static str
        ensures { result.now ≡ refusal_name self }
    {
        match self {
            Refusal::Truncated => "Truncated",
            Refusal::Identifier => "Identifier",
            Refusal::Form => "Form",
            Refusal::Length => "Length",
            Refusal::EndOfContents => "EndOfContents",
            Refusal::Contents => "Contents",
            Refusal::Alphabet => "Alphabet",
            Refusal::Missing => "Missing",
            Refusal::Repeated => "Repeated",
            Refusal::TooDeep => "TooDeep",
            Refusal::TooLong => "TooLong",
            Refusal::NotCanonical => "NotCanonical",
            Refusal::StreamTooLong => "StreamTooLong",
            Refusal::OutputTooLong => "OutputTooLong",
            Refusal::SourceFault => "SourceFault",
            Refusal::SinkFault => "SinkFault",
            Refusal::NoMemory => "NoMemory",
        }
    }
}

/// Its number and its name, as `2 Identifier`.
impl fmt::Display for Refusal {
    ghost use Rattle.std.specs.Prelude.{Some, ◌++◌, codes, decimal};
    ghost use Rattle.types.specs.Refusal.{refusal_number, refusal_name};

    ghost output = { λ refusal. Some (decimal (refusal_number refusal) ++ codes " " ++ refusal_name refusal) };

    fn fmt<W: fmt::Write>(&self, f: &mut fmt::Formatter<W>) -> fmt::Result {
        write!(f, "{} {}", self.number(), self.name())
    }
}

impl Error for Refusal {}

impl From<NoMemory> for Refusal {
    ghost use Rattle.std.specs.Prelude.{◌≡◌};
    ghost use Rattle.types.specs.declared.refusal.Refusal.TheVariants.{NoMemory as RefusedMemory};

    ghost from_gives = { λ _ refusal. refusal ≡ RefusedMemory };

    fn from(_refused: NoMemory) -> Refusal {
        Refusal::NoMemory
    }
}

impl From<AllocError> for Refusal {
    ghost use Rattle.std.specs.Prelude.{◌≡◌};
    ghost use Rattle.types.specs.declared.refusal.Refusal.TheVariants.{NoMemory as RefusedMemory};

    ghost from_gives = { λ _ refusal. refusal ≡ RefusedMemory };

    fn from(_refused: AllocError) -> Refusal {
        Refusal::from(NoMemory)
    }
}

impl<T: Drop> From<AllocFailed<T>> for Refusal {
    ghost use Rattle.std.specs.Prelude.{◌≡◌};
    ghost use Rattle.types.specs.declared.refusal.Refusal.TheVariants.{NoMemory as RefusedMemory};

    ghost from_gives = { λ _ refusal. refusal ≡ RefusedMemory };

    fn from(_refused: AllocFailed<T>) -> Refusal {
        Refusal::from(AllocError)
    }
}

impl From<Fault> for Refusal {
    ghost use Rattle.std.specs.Prelude.{◌≡◌};
    ghost use Rattle.types.specs.OfContents.{refusal_of_fault};

    ghost from_gives = { λ fault refusal. refusal ≡ refusal_of_fault fault };

    fn from(fault: Fault) -> Refusal {
        match fault {
            Fault::Contents => Refusal::Contents,
            Fault::NoMemory => Refusal::NoMemory,
        }
    }
}

/// Why a type is not well formed. The numbers are printed by the program and never change.
#[derive(Clone, Copy, Debug, PartialEq, Eq)]
pub enum TypeFault {
    /// Two items of an ENUMERATED, or two named bits, have one number.
    RepeatedNumber = 27,
    /// Tags that must differ are equal, or a tag is universal 0, which is kept for the end of contents.
    TagsNotDistinct = 28,
    /// A DEFAULT that its type does not take.
    BadDefault = 30,
    /// A list, a tag number or a count beyond its limit.
    TooLarge = 31,
}

impl TypeFault {
    ghost use Rattle.std.specs.Prelude.{◌≡◌};
    ghost use Rattle.types.specs.FaultName.{type_fault_name};
    ghost use Rattle.types.specs.Refusal.{type_fault_number};

    /// The number of the fault: 27, 28, 30 or 31.
    pub fn number(self) -> u8
        ensures { result ≡ type_fault_number self }
    {
        self as u8
    }

    /// The name of the fault, as its variant is spelt.
    pub fn name(self) -> &'static str
        ensures { result.now ≡ type_fault_name self }
    {
        match self {
            TypeFault::RepeatedNumber => "RepeatedNumber",
            TypeFault::TagsNotDistinct => "TagsNotDistinct",
            TypeFault::BadDefault => "BadDefault",
            TypeFault::TooLarge => "TooLarge",
        }
    }
}

/// Its number and its name, as `28 TagsNotDistinct`.
impl fmt::Display for TypeFault {
    ghost use Rattle.std.specs.Prelude.{Some, ◌++◌, codes, decimal};
    ghost use Rattle.types.specs.FaultName.{type_fault_name};
    ghost use Rattle.types.specs.Refusal.{type_fault_number};

    ghost output = { λ fault. Some (decimal (type_fault_number fault) ++ codes " " ++ type_fault_name fault) };

    fn fmt<W: fmt::Write>(&self, out: &mut fmt::Formatter<W>) -> fmt::Result {
        write!(out, "{} {}", self.number(), self.name())
    }
}

impl Error for TypeFault {}
