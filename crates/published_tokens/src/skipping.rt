//! Tokens that are passed and leave nothing, by balanced brackets.

ghost use Rattle.std.specs.Prelude.{◌≡◌, [], ◌∷◌, ◌++◌, OnOk};

use crate::fault::Reason;
use crate::reader::Reader;
use crate::stop::Stop;
use crate::symbol::Symbol;
use crate::token::Kind;
use crate::{MAX_FILE, MAX_LEVELS};
use lexis::Word as Reserved;
use std::alloc::Global;

/// The brackets that are open.
#[derive(Drop)]
struct Brackets {
    open: Vec<Symbol>,
}

impl Brackets {
    // None.
    fn new(alloc: Global) -> Self {
        Brackets {
            open: Vec::new(alloc),
        }
    }

    // Passes the token in front.
    fn pass(&mut self, reader: &mut Reader) -> Result<(), Stop> {
        match reader.kind() {
            Kind::End | Kind::Bad | Kind::Unclosed | Kind::TooGreat => return Err(reader.refuse()),
            Kind::Reserved(Reserved::End) => return Err(reader.refuse()),
            Kind::Symbol(symbol) => self.turn(reader, symbol)?,
            _ => {}
        }
        reader.take();
        Ok(())
    }

    // Opens or closes what the symbol in front does.
    fn turn(&mut self, reader: &Reader, symbol: Symbol) -> Result<(), Stop> {
        match symbol {
            Symbol::OpenBrace | Symbol::OpenParenthesis | Symbol::OpenBracket => {
                self.begin(reader, symbol)
            }
            Symbol::OpenGroup => {
                self.begin(reader, Symbol::OpenBracket)?;
                self.begin(reader, Symbol::OpenBracket)
            }
            Symbol::CloseBrace => self.end(reader, Symbol::OpenBrace),
            Symbol::CloseParenthesis => self.end(reader, Symbol::OpenParenthesis),
            Symbol::CloseBracket => self.end(reader, Symbol::OpenBracket),
            Symbol::CloseGroup => {
                self.end(reader, Symbol::OpenBracket)?;
                self.end(reader, Symbol::OpenBracket)
            }
            Symbol::Assignment => Err(reader.refuse()),
            _ => Ok(()),
        }
    }

    // Opens a bracket.
    fn begin(&mut self, reader: &Reader, symbol: Symbol) -> Result<(), Stop>
        ensures { OnOk result (self.new.open.items ≡ self.old.open.items ++ symbol ∷ []) }
    {
        if self.open.len() >= MAX_LEVELS as usize {
            return Err(reader.stop(Reason::TooDeep));
        }
        self.open.push(symbol)?;
        Ok(())
    }

    // Closes a bracket, which must be the last that was opened.
    fn end(&mut self, reader: &Reader, symbol: Symbol) -> Result<(), Stop>
        ensures { OnOk result (self.old.open.items ≡ self.new.open.items ++ symbol ∷ []) }
    {
        match self.open.pop() {
            Some(last) if last == symbol => Ok(()),
            _ => Err(reader.refuse()),
        }
    }
}

/// Passes the bracket in front and all up to the one that closes it. Another token is refused.
pub fn skip_brackets(reader: &mut Reader, symbol: Symbol) -> Result<(), Stop> {
    reader.symbol(symbol)?;
    skip_rest(reader, symbol)
}

/// Passes all up to the bracket that closes this one, behind which the token in front stands.
pub fn skip_rest(reader: &mut Reader, symbol: Symbol) -> Result<(), Stop> {
    let mut brackets = Brackets::new(reader.alloc);
    brackets.begin(reader, symbol)?;
    skip_to(reader, brackets, |_kind| true)
}

/// Passes all up to `::=` outside brackets.
pub fn skip_to_assignment(reader: &mut Reader) -> Result<(), Stop> {
    let brackets = Brackets::new(reader.alloc);
    skip_to(reader, brackets, |kind| {
        kind == Kind::Symbol(Symbol::Assignment)
    })
}

/// Passes all up to the reserved word outside brackets.
pub fn skip_to_word(reader: &mut Reader, word: Reserved) -> Result<(), Stop> {
    let brackets = Brackets::new(reader.alloc);
    skip_to(reader, brackets, |kind| kind == Kind::Reserved(word))
}

/// Passes all up to what ends a component outside brackets: `,`, `}` or `]]`.
pub fn skip_to_end_of_part(reader: &mut Reader) -> Result<(), Stop> {
    let brackets = Brackets::new(reader.alloc);
    skip_to(reader, brackets, ends_part)
}

// Passes all up to the first such token outside brackets, of which these are open.
fn skip_to<F: Fn(Kind) -> bool>(
    reader: &mut Reader,
    brackets: Brackets,
    is_end: F,
) -> Result<(), Stop>
    requires { F.IsAlwaysCallable is_end }
{
    let mut brackets = brackets;
    for _turn in 0..=MAX_FILE {
        if brackets.open.is_empty() && is_end(reader.kind()) {
            return Ok(());
        }
        brackets.pass(reader)?;
    }
    Err(reader.refuse())
}

fn ends_part(kind: Kind) -> bool {
    match kind {
        Kind::Symbol(symbol) => matches!(
            symbol,
            Symbol::Comma | Symbol::CloseBrace | Symbol::CloseGroup
        ),
        _ => false,
    }
}

/// Passes all up to the word `END` and the word itself.
pub fn skip_macro(reader: &mut Reader) -> Result<(), Stop> {
    for _turn in 0..=MAX_FILE {
        if reader.passes_word(Reserved::End) {
            return Ok(());
        }
        if reader.kind() == Kind::End {
            return Err(reader.refuse());
        }
        reader.take();
    }
    Err(reader.refuse())
}
