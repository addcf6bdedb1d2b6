//! Why a type is not taken.

use crate::request::Request;
use published::Place;
use std::alloc::{AllocError, Global};
use thiserror::Error;

/// Why a type, or a part of one, is not taken.
#[derive(Clone, Copy, Debug, Error)]
pub enum Cause<'a> {
    /// `ANY`, or a field of a class.
    #[error("an open type")]
    Open,
    /// A field of a class that has a type of its own.
    #[error("a field of a class that has a type of its own")]
    FixedField,
    /// A tag with the keyword IMPLICIT in front of a CHOICE or an open type.
    #[error("IMPLICIT in front of a CHOICE or an open type")]
    ImplicitChoice,
    /// A tag without a keyword in front of a field of a class.
    #[error("a tag without a keyword in front of a field of a class")]
    UnmarkedField,
    /// An automatic tag in front of a field of a class.
    #[error("an automatic tag in front of a field of a class")]
    AutomaticField,
    /// A tag of the class UNIVERSAL.
    #[error("a tag of the class UNIVERSAL")]
    Universal,
    /// A type that the profile does not have.
    #[error("{0}")]
    NotInProfile(&'static str),
    /// A type with parameters.
    #[error("a type with parameters")]
    Parameterised,
    /// The type of an alternative.
    #[error("a selection type")]
    Selection,
    /// `INSTANCE OF`.
    #[error("INSTANCE OF")]
    InstanceOf,
    /// `COMPONENTS OF` what it is not taken of, or where it is not.
    #[error("COMPONENTS OF {0}")]
    ComponentsOf(&'static str),
    /// A DEFAULT that the profile does not have.
    #[error("a DEFAULT of a kind that asn1x does not take")]
    Default,
    /// A name that is not assigned.
    #[error("{0} is neither assigned nor imported")]
    NotAssigned(&'a str),
    /// A name that is imported from a module that is in none of the files.
    #[error("{0} is of the module {1}, which is in none of the files")]
    NotGiven(&'a str, &'a str),
    /// A type that the request gives, which the modules do not have, or several of them have.
    #[error("no type, or several, of the name {0} that --as gives")]
    NoSubstitute(&'a str),
    /// A name that is assigned more than once.
    #[error("{0} is assigned more than once")]
    Repeated(&'a str),
    /// A name that is imported from more than one module.
    #[error("{0} is imported from more than one module")]
    ImportedTwice(&'a str),
    /// A name that is imported through more modules than are followed.
    #[error("{0} is imported through 64 modules or more")]
    ImportedFar(&'a str),
    /// A module that stands in the files more than once.
    #[error("the module {0} stands in the files more than once")]
    RepeatedModule(&'a str),
    /// A type that two words name, of which the module assigns another type to this one, or imports it.
    #[error("a type of two words, of which the module assigns or imports {0}")]
    Assigned(&'static str),
    /// A name that is not one of a type.
    #[error("{0} is no type")]
    NoType(&'a str),
    /// A set of values that is used as a type.
    #[error("{0} is a set of values")]
    ValueSet(&'a str),
    /// A number that is not known, or beyond the limits.
    #[error("a number that is not known, or out of range")]
    Number,
    /// Parts beyond the limits of the profile.
    #[error("no part or more than 256 parts")]
    Parts,
    /// A type that refers to itself.
    #[error("{0} refers to itself")]
    Recursion(&'a str),
    /// An untagged CHOICE of a SET that would lose alternatives: their tags decide CER's order.
    #[error("a CHOICE without all of its alternatives in a SET")]
    CutChoice,
    /// An untagged CHOICE that would lose alternatives, where another component has the tag of one.
    #[error("a CHOICE without all of its alternatives, beside a part with one of their tags")]
    SharedChoice,
    /// More types, or longer values, than are taken.
    #[error("more types or longer values than are taken")]
    TooLarge,
    /// A type that is not taken itself.
    #[error("{0}")]
    Within(&'a str, usize),
}

impl<'a> Cause<'a> {
    /// What the user can do about it that is not asked for yet, if anything. It goes on with the place of an
    /// open type, or of a field.
    pub fn to_do(&self, request: &Request) -> &'static str {
        match self {
            Cause::Open | Cause::FixedField => "; give --as ",
            Cause::NotGiven(_, _) => "; give its file",
            Cause::RepeatedModule(_) => "; give one of its files",
            Cause::Recursion(_) if request.unroll == 0 => "; give --unroll N",
            Cause::NotInProfile(_) if !request.narrow => {
                "; --narrow leaves it out where values may do without it"
            }
            Cause::ValueSet(_) => "; write the type of these in its place",
            Cause::ComponentsOf(_) => "; write the components out",
            Cause::AutomaticField => "; give the file of the class",
            Cause::UnmarkedField => "; write EXPLICIT or IMPLICIT behind the tag",
            _ => "",
        }
    }

    /// The cause with names of at most 128 octets.
    pub fn shortened(self) -> Self {
        match self {
            Cause::NotAssigned(name) => Cause::NotAssigned(front_of(name)),
            Cause::NotGiven(name, module) => Cause::NotGiven(front_of(name), front_of(module)),
            Cause::NoSubstitute(name) => Cause::NoSubstitute(front_of(name)),
            Cause::Repeated(name) => Cause::Repeated(front_of(name)),
            Cause::ImportedTwice(name) => Cause::ImportedTwice(front_of(name)),
            Cause::ImportedFar(name) => Cause::ImportedFar(front_of(name)),
            Cause::RepeatedModule(name) => Cause::RepeatedModule(front_of(name)),
            Cause::NoType(name) => Cause::NoType(front_of(name)),
            Cause::ValueSet(name) => Cause::ValueSet(front_of(name)),
            Cause::Recursion(name) => Cause::Recursion(front_of(name)),
            Cause::Within(name, node) => Cause::Within(front_of(name), node),
            _ => self,
        }
    }
}

// At most 128 octets of a name in front.
fn front_of<'a>(name: &'a str) -> &'a str {
    match name.get(..128) {
        Some(front) => front,
        None => name,
    }
}

/// What is not taken, where and why.
#[derive(Drop)]
pub struct Fault<'a> {
    /// Where it stands.
    pub place: Place,
    /// The name of the type that it stands in, with those of components.
    pub path: String,
    /// Why.
    pub cause: Cause<'a>,
    /// Whether a component or an alternative that has it may be left out.
    pub can_be_left_out: bool,
}

impl Fault<'_> {
    /// What it is, and where.
    pub fn why(&self, alloc: Global) -> Result<String, AllocError> {
        let cause = &self.cause;
        let path = self.path.as_str();
        format!(in alloc; "{cause} at {path}")
    }

    /// What it is, where, and what to do that is not asked for yet.
    pub fn text(&self, alloc: Global, request: &Request) -> Result<String, AllocError> {
        let cause = &self.cause;
        let path = self.path.as_str();
        let to_do = cause.to_do(request);
        match cause {
            Cause::Open | Cause::FixedField => format!(in alloc;
                "{cause} at {path}{to_do}{path}=TYPE"
            ),
            _ => format!(in alloc; "{cause} at {path}{to_do}"),
        }
    }
}
