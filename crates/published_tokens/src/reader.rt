//! One token at a time, with the one in front looked at.

ghost use Rattle.std.specs.Prelude.{◌≡◌, ◌≢◌, ◌↔◌, ◌+◌, ◌≤◌, length, IsTrue, IsOk, IfOk, IfErr, IsErrOf, OnOk, OnErr};
ghost use Rattle.std.specs.Bool.{OnTrue, OnFalse};
ghost use Rattle.std.specs.Str.{IsUtf8};
ghost use Rattle.lexis.specs.Place.{IsPlace};
ghost use Rattle.published_tokens.specs.Reasons.{refusal_of};

use crate::fault::{Fault, Reason, reason_of};
use crate::place::Place;
use crate::scanner::Scanner;
use crate::stop::Stop;
use crate::symbol::Symbol;
use crate::token::{Kind, Token};
use lexis::Word as Reserved;
use names::Name;
use std::alloc::Global;

/// A name where it is written.
#[derive(Drop)]
pub struct Word {
    /// Its spelling. Names of vendors may have `_` in them.
    pub name: Name,
    /// Where it begins.
    pub place: Place,
}

/// The tokens of a module that are still to come, and how many parts may still be made of them.
#[derive(Clone, Copy)]
pub struct Reader<'a> {
    /// Where memory is taken.
    pub alloc: Global,
    /// What stands behind the token in front.
    pub scanner: Scanner<'a>,
    /// The token in front.
    pub front: Token,
    /// How many parts may still be made.
    pub parts: u32,
    ghost span: { front.start ≤ front.end },
    ghost behind: { front.end ≡ scanner.at },
    ghost placed: { IsPlace scanner.text.now front.start front.place.line front.place.column },
}

impl<'a> Reader<'a> {
    ghost use Rattle.published_tokens.specs.Readers.{HasPassed, spelling_in, spelling_of};

    /// The tokens behind what the scanner has passed.
    pub fn new(alloc: Global, scanner: Scanner<'a>, parts: u32) -> Reader<'a>
        ensures text { result.scanner.text.now ≡ scanner.entry.text.now }
        ensures order { scanner.entry.at ≤ result.front.start }
        ensures parts { result.parts ≡ parts }
    {
        let mut scanner = scanner;
        let front = scanner.next();
        Reader {
            alloc,
            scanner,
            front,
            parts,
        }
    }

    /// What the token in front is.
    pub fn kind(&self) -> Kind
        ensures { result ≡ self.now.front.kind }
    {
        self.front.kind
    }

    /// Where the token in front begins.
    pub fn place(&self) -> Place
        ensures { result ≡ self.now.front.place }
    {
        self.front.place
    }

    /// The octets of the token in front.
    pub fn spelling(&self) -> &'a [u8]
        ensures { result.now ≡ spelling_of self.now }
    {
        &self.scanner.text[self.front.start..self.front.end]
    }

    /// Whether the token in front is spelled so.
    pub fn is_spelled(&self, spelling: &[u8]) -> bool
        ensures { IsTrue result ↔ (spelling.now ≡ spelling_of self.now) }
    {
        self.spelling() == spelling
    }

    /// What the token behind the one in front is.
    pub fn second(&self) -> Kind {
        let mut ahead = self.scanner;
        ahead.next().kind
    }

    /// Passes the token in front.
    pub fn take(&mut self)
        ensures passed { HasPassed self.old self.new }
        ensures parts { self.new.parts ≡ self.old.parts }
    {
        self.front = self.scanner.next();
    }

    /// Whether the symbol stands in front.
    pub fn is_symbol(&self, symbol: Symbol) -> bool
        ensures { IsTrue result ↔ (self.now.front.kind ≡ Kind.Symbol symbol) }
    {
        self.front.kind == Kind::Symbol(symbol)
    }

    /// Whether the reserved word stands in front.
    pub fn is_word(&self, word: Reserved) -> bool
        ensures { IsTrue result ↔ (self.now.front.kind ≡ Kind.Reserved word) }
    {
        self.front.kind == Kind::Reserved(word)
    }

    /// Whether the symbol stood in front, which is passed then.
    pub fn passes_symbol(&mut self, symbol: Symbol) -> bool
        ensures found { IsTrue result ↔ (self.old.front.kind ≡ Kind.Symbol symbol) }
        ensures passed { OnTrue result (HasPassed self.old self.new) }
        ensures unchanged { OnFalse result (self.new ≡ self.old) }
        ensures parts { self.new.parts ≡ self.old.parts }
    {
        let found = self.is_symbol(symbol);
        if found {
            self.take();
        }
        found
    }

    /// Whether the reserved word stood in front, which is passed then.
    pub fn passes_word(&mut self, word: Reserved) -> bool
        ensures found { IsTrue result ↔ (self.old.front.kind ≡ Kind.Reserved word) }
        ensures passed { OnTrue result (HasPassed self.old self.new) }
        ensures unchanged { OnFalse result (self.new ≡ self.old) }
        ensures parts { self.new.parts ≡ self.old.parts }
    {
        let found = self.is_word(word);
        if found {
            self.take();
        }
        found
    }

    /// Passes the symbol, which must stand in front.
    pub fn symbol(&mut self, symbol: Symbol) -> Result<(), Stop>
        ensures exact { IsOk result ↔ (self.old.front.kind ≡ Kind.Symbol symbol) }
        ensures passed { OnOk result (HasPassed self.old self.new) }
        ensures refusal { IfErr result (λ stop. stop ≡ refusal_of self.old.front) }
        ensures unchanged { OnErr result (self.new ≡ self.old) }
        ensures parts { self.new.parts ≡ self.old.parts }
    {
        if self.passes_symbol(symbol) {
            Ok(())
        } else {
            Err(self.refuse())
        }
    }

    /// Passes the reserved word, which must stand in front.
    pub fn word(&mut self, word: Reserved) -> Result<(), Stop>
        ensures exact { IsOk result ↔ (self.old.front.kind ≡ Kind.Reserved word) }
        ensures passed { OnOk result (HasPassed self.old self.new) }
        ensures refusal { IfErr result (λ stop. stop ≡ refusal_of self.old.front) }
        ensures unchanged { OnErr result (self.new ≡ self.old) }
        ensures parts { self.new.parts ≡ self.old.parts }
    {
        if self.passes_word(word) {
            Ok(())
        } else {
            Err(self.refuse())
        }
    }

    /// A name of this kind, `Kind::Upper`, `Kind::Lower` or `Kind::Field`, which must stand in front.
    pub fn name(&mut self, kind: Kind) -> Result<Word, Stop>
        ensures kind { OnOk result (self.old.front.kind ≡ kind) }
        ensures name { IfOk result (λ word. word.name ≡ spelling_of self.old) }
        ensures place { IfOk result (λ word. word.place ≡ self.old.front.place) }
        ensures passed { OnOk result (HasPassed self.old self.new) }
        ensures counted { OnOk result (self.new.parts + 1 ≡ self.old.parts) }
        ensures refused { self.old.front.kind ≢ kind → IsErrOf result (refusal_of self.old.front) }
        ensures unchanged { self.old.front.kind ≢ kind → self.new ≡ self.old }
    {
        if self.front.kind != kind {
            return Err(self.refuse());
        }
        self.any_name()
    }

    /// The word in front as a name, whatever it is.
    pub fn any_name(&mut self) -> Result<Word, Stop>
        ensures name { IfOk result (λ word. word.name ≡ spelling_of self.old) }
        ensures place { IfOk result (λ word. word.place ≡ self.old.front.place) }
        ensures passed { OnOk result (HasPassed self.old self.new) }
        ensures counted { OnOk result (self.new.parts + 1 ≡ self.old.parts) }
    {
        self.count()?;
        let place = self.place();
        let name = Name::new(self.alloc, self.text()?)?;
        self.take();
        Ok(Word { name, place })
    }

    /// The name that this token is.
    pub fn word_at(&mut self, token: Token) -> Result<Word, Stop>
        ensures name { token.start ≤ token.end → token.end ≤ length self.old.scanner.text.now
            → IfOk result (λ word. word.name ≡ spelling_in self.old.scanner.text.now token) }
        ensures place { IfOk result (λ word. word.place ≡ token.place) }
        ensures counted { OnOk result (self.new.parts + 1 ≡ self.old.parts) }
        ensures front { self.new.front ≡ self.old.front }
        ensures scanner { self.new.scanner ≡ self.old.scanner }
    {
        self.count()?;
        let octets = self.scanner.text.get(token.start..token.end).unwrap_or(b"");
        match str::from_utf8(octets) {
            Ok(text) => {
                let name = Name::new(self.alloc, text)?;
                let place = token.place;
                Ok(Word { name, place })
            }
            Err(_) => Err(self.stop(Reason::NoToken)),
        }
    }

    /// The token in front as text.
    pub fn text(&self) -> Result<&'a str, Stop>
        ensures value { IfOk result (λ text. text.now ≡ spelling_of self.now) }
        ensures none { OnErr result (¬ IsUtf8 (spelling_of self.now)) }
        ensures refusal { IfErr result (λ stop.
            stop ≡ Stop.Refused (record { place = self.now.front.place; reason = Reason.NoToken })) }
    {
        match str::from_utf8(self.spelling()) {
            Ok(text) => Ok(text),
            Err(_) => Err(self.stop(Reason::NoToken)),
        }
    }

    /// Counts a part that is made.
    pub fn count(&mut self) -> Result<(), Stop>
        ensures counted { OnOk result (self.new.parts + 1 ≡ self.old.parts) }
        ensures none { OnErr result (self.old.parts ≡ 0) }
        ensures front { self.new.front ≡ self.old.front }
        ensures scanner { self.new.scanner ≡ self.old.scanner }
    {
        match self.parts.checked_sub(1) {
            Some(left) => {
                self.parts = left;
                Ok(())
            }
            None => Err(self.stop(Reason::TooManyParts)),
        }
    }

    /// Refuses the token in front, where another must stand.
    pub fn refuse(&self) -> Stop
        ensures { result ≡ refusal_of self.now.front }
    {
        self.stop(reason_of(self.front.kind))
    }

    /// Refuses what begins in front.
    pub fn stop(&self, reason: Reason) -> Stop
        ensures { result ≡ Stop.Refused (record { place = self.now.front.place; reason = reason }) }
    {
        Stop::Refused(Fault {
            place: self.front.place,
            reason,
        })
    }
}
