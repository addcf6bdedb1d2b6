//! The rules and the types of the tables, by their letters.

use super::boolean;
use convert::{Rule, Tag, Ty, WellTyped};
use std::alloc::Global;
use std::test::Fail;

/// The rule and the type of a column: their letters, with a space between them.
pub fn names_of(alloc: Global, column: &str) -> Result<(Rule, WellTyped), Fail> {
    let (rule, ty) = column.split_once(' ').ok_or("one letter")?;
    Ok((rule_of(rule)?, type_of(alloc, ty)?))
}

/// The rule of a letter.
pub fn rule_of(letter: &str) -> Result<Rule, Fail> {
    match letter {
        "b" => Ok(Rule::Ber),
        "c" => Ok(Rule::Cer),
        "d" => Ok(Rule::Der),
        _ => Err("no rule".into()),
    }
}

/// The type of a letter.
pub fn type_of(alloc: Global, letter: &str) -> Result<WellTyped, Fail> {
    let string = Ty::Octets(Tag::universal(4));
    match letter {
        "b" => boolean(),
        "o" => Ok(WellTyped::new(string)?),
        "s" => {
            let items = Box::new(alloc, string)?;
            Ok(WellTyped::new(Ty::SequenceOf(Tag::universal(16), items))?)
        }
        _ => Err("no type".into()),
    }
}
