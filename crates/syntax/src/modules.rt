//! Modules and their assignments (X.680 clauses 13 and 16).

ghost use Rattle.std.specs.Prelude.{◌≡◌, map, length};
ghost use Rattle.syntax.specs.View.{tree, assignment};
ghost use Rattle.lexis.specs.Lexemes.{sign};
ghost use Rattle.syntax.specs.Reading.{Gives, signs_from, more_at};
ghost use Rattle.syntax.specs.TypeReading.{type_at};
ghost use Rattle.syntax.specs.ModuleReading.{following_at, assignment_at, assignments_at, tagging_of, tags_at, tagging_at, module_at};

use crate::reading::{first_at, is_word, symbol_at, type_name_at, word_at};
use crate::refusing::{Wanted, refuse, refuse_behind_type};
use crate::stop::Stop;
use crate::terminal::Terminal;
use crate::tree::{Assignment, Module, Tagging};
use crate::types::{TypeSource, type_at};
use lexis::{Lexeme, Symbol, Word};
use std::alloc::Global;

/// The most types that are nested, one that holds 64 others included.
const MAX_LEVELS: u32 = 65;

/// The module in front, and the place behind it.
#[tactic(auto, unfolding(crate::specs::ModuleReading::module_at))]
pub fn module_at(alloc: Global, terminals: &[Terminal]) -> Result<(Module, usize), Stop>
    ensures { Gives (λ r. (tree r.0, signs_from r.1 terminals.now)) result (module_at (length terminals.now) (signs_from 0 terminals.now)) }
{
    let (name, next) = type_name_at(terminals, 0)?;
    let next = word_at(terminals, next, Word::Definitions)?;
    let (tagging, next) = tagging_at(terminals, next)?;
    let next = symbol_at(terminals, next, Symbol::Assignment)?;
    let next = word_at(terminals, next, Word::Begin)?;
    let (assignments, next) = assignments_at(alloc, terminals, next)?;
    let name = String::from_str(alloc, name)?;
    let module = Module {
        name,
        tagging,
        assignments,
    };
    Ok((module, next))
}

/// The tag default, or nothing.
#[tactic(auto, unfolding(crate::specs::ModuleReading::tagging_at, crate::specs::ModuleReading::tags_at))]
fn tagging_at(terminals: &[Terminal], at: usize) -> Result<(Tagging, usize), Stop>
    ensures { Gives (λ r. (r.0, signs_from r.1 terminals.now)) result (tagging_at (signs_from at terminals.now)) }
{
    let (first, next) = first_at(terminals, at)?;
    let Some(tagging) = tagging_of(first) else {
        return Ok((Tagging::Explicit, at));
    };
    let next = word_at(terminals, next, Word::Tags)?;
    Ok((tagging, next))
}

fn tagging_of(lexeme: Lexeme) -> Option<Tagging>
    ensures { result ≡ tagging_of (sign lexeme.entry) }
{
    match lexeme {
        Lexeme::Word(Word::Explicit) => Some(Tagging::Explicit),
        Lexeme::Word(Word::Implicit) => Some(Tagging::Implicit),
        Lexeme::Word(Word::Automatic) => Some(Tagging::Automatic),
        _ => None,
    }
}

/// Assignments, to the word that ends them.
#[tactic(auto, unfolding(crate::specs::ModuleReading::assignments_at))]
fn assignments_at(
    alloc: Global,
    terminals: &[Terminal],
    at: usize,
) -> Result<(Vec<Assignment>, usize), Stop>
    ensures { Gives (λ r. (map assignment r.0.items, signs_from r.1 terminals.now)) result (assignments_at (length terminals.now) (signs_from at terminals.now)) }
{
    let (first, next) = first_at(terminals, at)?;
    if is_word(first, Word::End) {
        return Ok((Vec::new(alloc), next));
    }
    more_at(alloc, terminals, at)
}

/// One assignment or more, to the word that ends them.
fn more_at(
    alloc: Global,
    terminals: &[Terminal],
    at: usize,
) -> Result<(Vec<Assignment>, usize), Stop>
    ensures { Gives (λ r. (map assignment r.0.items, signs_from r.1 terminals.now)) result (more_at assignment_at (length terminals.now) (signs_from at terminals.now)) }
{
    let mut found = Vec::new(alloc);
    let mut next = at;
    for _count in 0..terminals.len() {
        let (assignment, is_last, behind) = assignment_at(alloc, terminals, next)?;
        found.push(assignment)?;
        next = behind;
        if is_last {
            return Ok((found, next));
        }
    }
    Err(refuse(terminals, next, Wanted::Name))
}

/// An assignment, and whether it is the last.
#[tactic(auto, unfolding(crate::specs::ModuleReading::assignment_at))]
fn assignment_at(
    alloc: Global,
    terminals: &[Terminal],
    at: usize,
) -> Result<(Assignment, bool, usize), Stop>
    ensures { Gives (λ r. ((assignment r.0, r.1), signs_from r.2 terminals.now)) result (assignment_at (signs_from at terminals.now)) }
{
    let (name, next) = type_name_at(terminals, at)?;
    let next = symbol_at(terminals, next, Symbol::Assignment)?;
    let source = TypeSource {
        alloc,
        levels: MAX_LEVELS,
        terminals,
    };
    let (body, next) = type_at(source, next)?;
    let (is_last, next) = following_at(terminals, next)?;
    let name = String::from_str(alloc, name)?;
    let (line, column) = place_at(terminals, at);
    let assignment = Assignment {
        name,
        line,
        column,
        body,
    };
    Ok((assignment, is_last, next))
}

/// The word that ends the assignments (true), or a name (false), which stays.
#[tactic(auto, unfolding(crate::specs::ModuleReading::following_at))]
fn following_at(terminals: &[Terminal], at: usize) -> Result<(bool, usize), Stop>
    ensures { Gives (λ r. (r.0, signs_from r.1 terminals.now)) result (following_at (signs_from at terminals.now)) }
{
    let (first, next) = first_at(terminals, at)?;
    match first {
        Lexeme::TypeName(_) => Ok((false, at)),
        _ => {
            if is_word(first, Word::End) {
                Ok((true, next))
            } else {
                Err(refuse_behind_type(terminals, at, Wanted::Name))
            }
        }
    }
}

// The line and the column of the terminal of this index.
fn place_at(terminals: &[Terminal], at: usize) -> (u32, u32) {
    if at < terminals.len() {
        (terminals[at].line, terminals[at].column)
    } else {
        (1, 1)
    }
}
