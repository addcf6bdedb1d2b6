//! Numbers and names of refusals, as the program prints them.

use octets::NoMemory;
use primitives::Fault;
use std::alloc::{AllocError, Global};
use std::test::Fail;
use types::{Refusal, TypeFault};

const REFUSALS: &[Refusal] = &[
    Refusal::Truncated,
    Refusal::Identifier,
    Refusal::Form,
    Refusal::Length,
    Refusal::EndOfContents,
    Refusal::Contents,
    Refusal::Alphabet,
    Refusal::Missing,
    Refusal::Repeated,
    Refusal::TooDeep,
    Refusal::TooLong,
    Refusal::NotCanonical,
    Refusal::StreamTooLong,
    Refusal::OutputTooLong,
    Refusal::SourceFault,
    Refusal::SinkFault,
    Refusal::NoMemory,
];

const FAULTS: &[TypeFault] = &[
    TypeFault::RepeatedNumber,
    TypeFault::TagsNotDistinct,
    TypeFault::BadDefault,
    TypeFault::TooLarge,
];

// number and name, and what is printed, of each refusal and of each fault
const PRINTED: &str = "\
1 Truncated, 1 Truncated
2 Identifier, 2 Identifier
3 Form, 3 Form
4 Length, 4 Length
5 EndOfContents, 5 EndOfContents
6 Contents, 6 Contents
7 Alphabet, 7 Alphabet
8 Missing, 8 Missing
9 Repeated, 9 Repeated
10 TooDeep, 10 TooDeep
11 TooLong, 11 TooLong
12 NotCanonical, 12 NotCanonical
13 StreamTooLong, 13 StreamTooLong
14 OutputTooLong, 14 OutputTooLong
15 SourceFault, 15 SourceFault
16 SinkFault, 16 SinkFault
17 NoMemory, 17 NoMemory
27 RepeatedNumber, 27 RepeatedNumber
28 TagsNotDistinct, 28 TagsNotDistinct
30 BadDefault, 30 BadDefault
31 TooLarge, 31 TooLarge
";

fn printed(alloc: Global) -> Result<String, Fail> {
    let mut text = String::new(alloc);
    for refusal in REFUSALS {
        let (number, name) = (refusal.number(), refusal.name());
        writeln!(text, "{number} {name}, {refusal}")?;
    }
    for fault in FAULTS {
        let (number, name) = (fault.number(), fault.name());
        writeln!(text, "{number} {name}, {fault}")?;
    }
    Ok(text)
}

#[test]
fn numbers_and_names(rt: HostRuntime) -> Result<(), Fail> {
    assert_eq!(rt; printed(rt.alloc())?.as_str(), PRINTED);
    Ok(())
}

#[test]
fn refusals_of_what_lies_below(rt: HostRuntime) {
    let of_memory = Refusal::from(NoMemory) == Refusal::NoMemory;
    let of_growth = Refusal::from(AllocError) == Refusal::NoMemory;
    let of_fault = Refusal::from(Fault::NoMemory) == Refusal::NoMemory;
    let of_contents = Refusal::from(Fault::Contents) == Refusal::Contents;
    assert_eq!(rt;
        (of_memory, of_growth, of_fault, of_contents),
        (true, true, true, true)
    );
}
