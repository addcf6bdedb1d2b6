//! Extension markers in lists of components, alternatives and items (X.680 clauses 20, 25 and 29).

ghost use Rattle.std.specs.Prelude.{◌≡◌, ◌+◌, if◌then◌else◌, Some, None, Ok, false, unwrap_or, IfOk, IfErr, IsErrOf, OnOk, OnErr};
ghost use Rattle.published_tokens.specs.Reasons.{refusal_of};
ghost use Rattle.published_tokens.specs.Readers.{HasPassed};
ghost use Rattle.published_tokens.specs.Sections.{section_of, behind_marker, behind_opening, before_component, behind_component, ends_with};

use crate::place::Place;
use crate::reader::Reader;
use crate::skipping::skip_to_end_of_part;
use crate::stop::Stop;
use crate::symbol::Symbol;
use crate::token::Kind;

/// The part of a list that a component belongs to.
#[derive(Clone, Copy)]
pub enum Section {
    /// The root, before the first `...`.
    Root,
    /// The additions.
    Additions,
    /// The root again, behind the second `...`.
    Tail,
}

/// How far a list has come.
#[derive(Clone, Copy)]
pub struct Extension {
    /// Where the first `...` stands.
    pub marker: Option<Place>,
    /// Where the `[[` stands that is open.
    pub group: Option<Place>,
    /// How many `...` were passed.
    pub markers: u32,
}

impl Extension {
    /// At the beginning of a list.
    pub fn new() -> Extension
        ensures { result ≡ record { marker = None; group = None; markers = 0 } }
    {
        Extension {
            marker: None,
            group: None,
            markers: 0,
        }
    }

    /// The part of the list that stands here, by how many `...` were passed: none, one or two. Takes
    /// no memory.
    pub fn section(&self) -> Section
        ensures { result ≡ section_of self.now.markers }
    {
        match self.markers {
            0 => Section::Root,
            1 => Section::Additions,
            _ => Section::Tail,
        }
    }

    /// Passes what stands before a component: `[[` and a version number. True: it was `...` instead, with
    /// its exception. A third `...` is refused, and `[[` anywhere but among the additions.
    pub fn begin(&mut self, reader: &mut Reader) -> Result<bool, Stop>
        ensures list { self.new ≡ unwrap_or (before_component self.old reader.old.front) self.old }
        ensures marker { IfOk result (λ is_marker.
            self.new.markers ≡ self.old.markers + (if is_marker then 1 else 0)) }
        ensures neither { before_component self.old reader.old.front ≡ Some self.old → result ≡ Ok false }
        ensures refused { before_component self.old reader.old.front ≡ None
            → IsErrOf result (refusal_of reader.old.front) }
        ensures unchanged { self.new ≡ self.old → reader.new ≡ reader.old }
    {
        if self.group.is_some() {
            return Ok(false);
        }
        if reader.is_symbol(Symbol::Ellipsis) {
            self.mark(reader)?;
            return Ok(true);
        }
        if reader.is_symbol(Symbol::OpenGroup) {
            self.open(reader)?;
        }
        Ok(false)
    }

    // Passes `...` and its exception.
    fn mark(&mut self, reader: &mut Reader) -> Result<(), Stop>
        ensures list { self.new ≡ unwrap_or (behind_marker self.old reader.old.front.place) self.old }
        ensures refused { behind_marker self.old reader.old.front.place ≡ None
            → IsErrOf result (refusal_of reader.old.front) }
        ensures unchanged { self.new ≡ self.old → reader.new ≡ reader.old }
    {
        if self.markers >= 2 {
            return Err(reader.refuse());
        }
        self.markers += 1;
        self.marker = self.marker.or(Some(reader.place()));
        reader.take();
        if reader.passes_symbol(Symbol::Exclamation) {
            skip_to_end_of_part(reader)?;
        }
        Ok(())
    }

    // Passes `[[` and a version number.
    fn open(&mut self, reader: &mut Reader) -> Result<(), Stop>
        ensures list { self.new ≡ unwrap_or (behind_opening self.old reader.old.front.place) self.old }
        ensures refused { behind_opening self.old reader.old.front.place ≡ None
            → IsErrOf result (refusal_of reader.old.front) }
        ensures unchanged { self.old.group ≡ None → self.new ≡ self.old → reader.new ≡ reader.old }
    {
        if self.markers != 1 {
            return Err(reader.refuse());
        }
        self.group = Some(reader.place());
        reader.take();
        if let Kind::Number(_) = reader.kind() {
            reader.take();
            reader.symbol(Symbol::Colon)?;
        }
        Ok(())
    }

    /// Passes what stands behind a component: `]]`, and then `,` (false) or the `}` of the list (true), which is
    /// refused while a `[[` is open.
    pub fn end(&mut self, reader: &mut Reader) -> Result<bool, Stop>
        ensures list { self.new ≡ behind_component self.old reader.old.front.kind }
        // Where no `]]` was passed, the token in front alone says it.
        ensures value { IfOk result (λ is_last. self.new ≡ self.old
            → ends_with self.old reader.old.front.kind ≡ Some is_last) }
        ensures refused { OnErr result (ends_with self.new reader.new.front.kind ≡ None) }
        ensures refusal { IfErr result (λ stop. stop ≡ refusal_of reader.new.front) }
        ensures passed { OnOk result (HasPassed reader.old reader.new) }
        ensures unchanged { OnErr result (self.new ≡ self.old → reader.new ≡ reader.old) }
        ensures parts { reader.new.parts ≡ reader.old.parts }
    {
        if self.group.is_some() && reader.passes_symbol(Symbol::CloseGroup) {
            self.group = None;
        }
        if self.group.is_none() && reader.passes_symbol(Symbol::CloseBrace) {
            return Ok(true);
        }
        reader.symbol(Symbol::Comma)?;
        Ok(false)
    }
}
