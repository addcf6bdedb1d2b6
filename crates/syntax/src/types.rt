//! Types that hold others, and what they are read from (X.680 clauses 25 to 31).
ghost use Rattle.syntax.specs.View.{form, alternative};
ghost use Rattle.lexis.specs.Lexemes.{sign};
ghost use Rattle.syntax.specs.Reading.{Gives, signs_from};
ghost use Rattle.syntax.specs.PartReading.{listed, parts_at};
ghost use Rattle.syntax.specs.TypeReading.{type_at, shape_at, tagged_at, group_at, of_at, list_at, components_at, choice_at, named_at};

use crate::bits::bit_string_at;
use crate::listing::MAX_PARTS;
use crate::parts::Parts;
use crate::prefixes::prefix_at;
use crate::reading::{first_at, identifier_at, is_symbol, is_word, symbol_at};
use crate::refusing::{Wanted, refuse, refuse_part};
use crate::simple::plain_at;
use crate::stop::{Cause, Stop};
use crate::terminal::Terminal;
use crate::tree::{Alternative, Expr, Group};
use crate::values::enumerated_at;
use lexis::{Lexeme, Symbol, Word};
use names::Name;
use std::alloc::Global;

/// What a type is read from, and of how many levels at most, its own included.
#[derive(Clone, Copy)]
pub struct TypeSource<'a> {
    /// Where the tree is kept.
    pub alloc: Global,
    /// The levels.
    pub levels: u32,
    /// The terminals of the module.
    pub terminals: &'a [Terminal<'a>],
}

/// A type.
#[cycle(types)]
#[tactic(auto, unfolding(crate::specs::TypeReading::type_at))]
pub fn type_at(source: TypeSource<'_>, at: usize) -> Result<(Expr, usize), Stop>
    ensures { Gives (λ r. (form r.0, signs_from r.1 source.entry.terminals.now)) result (type_at source.entry.levels (signs_from at source.entry.terminals.now)) }
{
    let (first, next) = first_at(source.terminals, at)?;
    if source.levels == 0 {
        return Err(Stop::Refused(Cause::TooLarge, at));
    }
    let inner = TypeSource {
        levels: source.levels - 1,
        ..source
    };
    shape_at(inner, first, next)
}

/// A type whose first terminal stands in front of this place.
#[cycle(types)]
#[tactic(auto, unfolding(crate::specs::TypeReading::shape_at))]
fn shape_at(source: TypeSource<'_>, first: Lexeme, at: usize) -> Result<(Expr, usize), Stop>
    ensures { Gives (λ r. (form r.0, signs_from r.1 source.entry.terminals.now)) result (shape_at (type_at source.entry.levels) (sign first.entry) (signs_from at source.entry.terminals.now)) }
{
    if is_symbol(first, Symbol::OpenBracket) {
        tagged_at(source, at)
    } else if is_word(first, Word::Sequence) {
        group_at(source, at, Group::Sequence)
    } else if is_word(first, Word::Set) {
        group_at(source, at, Group::Set)
    } else if is_word(first, Word::Choice) {
        choice_at(source, at)
    } else if is_word(first, Word::Enumerated) {
        enumerated_at(source.alloc, source.terminals, at)
    } else if is_word(first, Word::Bit) {
        bit_string_at(source.alloc, source.terminals, at)
    } else {
        plain_at(source.alloc, source.terminals, first, at)
    }
}

/// What stands behind `[`.
#[cycle(types)]
#[tactic(auto, unfolding(crate::specs::TypeReading::tagged_at))]
fn tagged_at(source: TypeSource<'_>, at: usize) -> Result<(Expr, usize), Stop>
    ensures { Gives (λ r. (form r.0, signs_from r.1 source.entry.terminals.now)) result (tagged_at (type_at source.entry.levels) (signs_from at source.entry.terminals.now)) }
{
    let (prefix, next) = prefix_at(source.terminals, at)?;
    let (inner, next) = type_at(source, next)?;
    let inner = Box::new(source.alloc, inner)?;
    Ok((Expr::Tagged(prefix, inner), next))
}

/// What stands behind `SEQUENCE` or `SET`.
#[cycle(types)]
#[tactic(auto, unfolding(crate::specs::TypeReading::group_at))]
fn group_at(source: TypeSource<'_>, at: usize, group: Group) -> Result<(Expr, usize), Stop>
    ensures { Gives (λ r. (form r.0, signs_from r.1 source.entry.terminals.now)) result (group_at (type_at source.entry.levels) group (signs_from at source.entry.terminals.now)) }
{
    let (first, next) = first_at(source.terminals, at)?;
    if is_word(first, Word::Of) {
        of_at(source, next, group)
    } else if is_symbol(first, Symbol::OpenBrace) {
        list_at(source, next, group)
    } else {
        Err(refuse(source.terminals, at, Wanted::Other))
    }
}

/// What stands behind `OF`.
#[cycle(types)]
#[tactic(auto, unfolding(crate::specs::TypeReading::of_at))]
fn of_at(source: TypeSource<'_>, at: usize, group: Group) -> Result<(Expr, usize), Stop>
    ensures { Gives (λ r. (form r.0, signs_from r.1 source.entry.terminals.now)) result (of_at (type_at source.entry.levels) group (signs_from at source.entry.terminals.now)) }
{
    let (inner, next) = type_at(source, at)?;
    let inner = Box::new(source.alloc, inner)?;
    Ok((Expr::Of(group, inner), next))
}

/// What stands behind the opening brace of a list.
#[cycle(types)]
#[tactic(auto, using(crate::proofs::PartReading::all_components), unfolding(crate::specs::TypeReading::list_at, crate::specs::TypeReading::components_at))]
fn list_at(source: TypeSource<'_>, at: usize, group: Group) -> Result<(Expr, usize), Stop>
    ensures { Gives (λ r. (form r.0, signs_from r.1 source.entry.terminals.now)) result (list_at (type_at source.entry.levels) group (signs_from at source.entry.terminals.now)) }
{
    let (first, next) = first_at(source.terminals, at)?;
    if is_symbol(first, Symbol::CloseBrace) {
        return Ok((Expr::List(group, Vec::new(source.alloc)), next));
    }
    let parts = Parts::Components(group, Vec::new(source.alloc));
    parts_at(source, at, parts)
}

/// What stands behind `CHOICE`.
#[cycle(types)]
#[tactic(auto, using(crate::proofs::PartReading::all_alternatives), unfolding(crate::specs::TypeReading::choice_at))]
fn choice_at(source: TypeSource<'_>, at: usize) -> Result<(Expr, usize), Stop>
    ensures { Gives (λ r. (form r.0, signs_from r.1 source.entry.terminals.now)) result (choice_at (type_at source.entry.levels) (signs_from at source.entry.terminals.now)) }
{
    let next = symbol_at(source.terminals, at, Symbol::OpenBrace)?;
    let parts = Parts::Alternatives(Vec::new(source.alloc));
    parts_at(source, next, parts)
}

/// The parts of a list, to the brace that closes it, behind those that are read.
#[cycle(types)]
fn parts_at(source: TypeSource<'_>, at: usize, parts: Parts) -> Result<(Expr, usize), Stop>
    ensures { Gives (λ r. (form r.0, signs_from r.1 source.entry.terminals.now)) result (parts_at (type_at source.entry.levels) 256 (listed parts) (signs_from at source.entry.terminals.now)) }
{
    let mut found = parts;
    let mut next = at;
    for _count in 0..MAX_PARTS {
        let (named, behind) = named_at(source, next)?;
        let (longer, is_last, behind) = found.with(source.alloc, named, source.terminals, behind)?;
        if is_last {
            return Ok((longer.into_expr(), behind));
        }
        found = longer;
        next = behind;
    }
    Err(refuse_part(source.terminals, next))
}

/// An identifier and a type.
#[cycle(types)]
#[tactic(auto, unfolding(crate::specs::TypeReading::named_at))]
fn named_at(source: TypeSource<'_>, at: usize) -> Result<(Alternative, usize), Stop>
    ensures { Gives (λ r. (alternative r.0, signs_from r.1 source.entry.terminals.now)) result (named_at (type_at source.entry.levels) (signs_from at source.entry.terminals.now)) }
{
    let (name, next) = identifier_at(source.terminals, at)?;
    let (body, next) = type_at(source, next)?;
    let name = Name::new(source.alloc, name)?;
    Ok((Alternative { name, body }, next))
}
