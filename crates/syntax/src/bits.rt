//! What stands behind `BIT` (X.680 clause 22).

ghost use Rattle.std.specs.Prelude.{List, ℕ};
ghost use Rattle.syntax.specs.View.{form, bit};
ghost use Rattle.syntax.specs.Reading.{Gives, signs_from};
ghost use Rattle.syntax.specs.BitReading.{bit_number_at, named_bit_at, named_bits_at, behind_string_at, bit_string_at};

use crate::listing::{Part, parts_at};
use crate::reading::{
    end_at, first_at, identifier_at, is_symbol, limited_number_at, symbol_at, word_at,
};
use crate::stop::Stop;
use crate::terminal::Terminal;
use crate::tree::{Expr, NamedBit, Simple};
use lexis::{Symbol, Word};
use names::Name;
use std::alloc::Global;

/// The greatest number of a named bit.
const MAX_BIT: u32 = 65_535;

/// What stands behind `BIT`.
#[tactic(auto, unfolding(crate::specs::BitReading::bit_string_at))]
pub fn bit_string_at(
    alloc: Global,
    terminals: &[Terminal],
    at: usize,
) -> Result<(Expr, usize), Stop>
    ensures { Gives (λ r. (form r.0, signs_from r.1 terminals.now)) result (bit_string_at (signs_from at terminals.now)) }
{
    let next = word_at(terminals, at, Word::String)?;
    behind_string_at(alloc, terminals, next)
}

/// Named bits in braces, or nothing.
#[tactic(auto, unfolding(crate::specs::BitReading::behind_string_at))]
fn behind_string_at(alloc: Global, terminals: &[Terminal], at: usize) -> Result<(Expr, usize), Stop>
    ensures { Gives (λ r. (form r.0, signs_from r.1 terminals.now)) result (behind_string_at (signs_from at terminals.now)) }
{
    let (first, next) = first_at(terminals, at)?;
    if is_symbol(first, Symbol::OpenBrace) {
        named_bits_at(alloc, terminals, next)
    } else {
        Ok((Expr::Simple(Simple::BitString), at))
    }
}

/// What stands behind the opening brace of named bits.
#[tactic(auto, unfolding(crate::specs::BitReading::named_bits_at))]
fn named_bits_at(alloc: Global, terminals: &[Terminal], at: usize) -> Result<(Expr, usize), Stop>
    ensures { Gives (λ r. (form r.0, signs_from r.1 terminals.now)) result (named_bits_at (signs_from at terminals.now)) }
{
    let (bits, next) = parts_at(alloc, terminals, at)?;
    Ok((Expr::NamedBits(bits), next))
}

impl Part for NamedBit {
    ghost Form = { List ℕ × ℕ };

    ghost view = { bit };

    ghost read = { named_bit_at };

    #[tactic(auto, unfolding(crate::specs::BitReading::named_bit_at))]
    fn part_at(
        alloc: Global,
        terminals: &[Terminal],
        at: usize,
    ) -> Result<(NamedBit, bool, usize), Stop> {
        let (name, next) = identifier_at(terminals, at)?;
        let (number, next) = bit_number_at(terminals, next)?;
        let (is_last, next) = end_at(terminals, next)?;
        let name = Name::new(alloc, name)?;
        Ok((NamedBit { name, number }, is_last, next))
    }
}

/// The number of a bit, in parentheses.
#[tactic(auto, unfolding(crate::specs::BitReading::bit_number_at))]
fn bit_number_at(terminals: &[Terminal], at: usize) -> Result<(u32, usize), Stop>
    ensures { Gives (λ r. (r.0, signs_from r.1 terminals.now)) result (bit_number_at (signs_from at terminals.now)) }
{
    let next = symbol_at(terminals, at, Symbol::OpenParenthesis)?;
    let (number, next) = limited_number_at(terminals, next, MAX_BIT)?;
    let next = symbol_at(terminals, next, Symbol::CloseParenthesis)?;
    Ok((number, next))
}
