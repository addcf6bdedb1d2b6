//! The text of a module, cut at its assignments.

use crate::expected::{expected_behind, what_to_do};
use crate::place::Place;
use lexis::{Fault, Kind, Token};
use octets::NoMemory;
use simdutf8::basic::from_utf8;
use std::alloc::Global;
use std::string::String;
use view_faults::{FaultLine, words_of_fault};

/// A text and its parts.
#[derive(Drop)]
pub struct ModuleText<'a> {
    octets: &'a [u8],
    tokens: Vec<Token>,
    /// The header, what stands before the first assignment, and each assignment.
    pub parts: Vec<Part>,
}

/// A part of a text.
#[derive(Clone, Copy)]
pub struct Part {
    /// Whether it is the header, which has its own BEGIN.
    pub is_header: bool,
    /// Its first token.
    pub first: usize,
    /// The token behind its last one.
    pub end: usize,
    /// The line of its first octet, counted from 1.
    pub line: u32,
    /// The column of its first octet, counted from 1.
    pub column: u32,
}

impl Part {
    /// Whether a fault of the whole text stands at its first octet.
    pub fn is_at(&self, fault: Fault) -> bool {
        self.line == fault.line && self.column == fault.column
    }

    // The line and the column in the whole text of a fault of the part, which was parsed by itself.
    fn place_of(&self, fault: Fault) -> (u32, u32) {
        if self.is_header {
            return (fault.line, fault.column);
        }
        let line = self.line.saturating_add(fault.line.saturating_sub(2));
        let column = if fault.line == 2 {
            self.column.saturating_add(fault.column.saturating_sub(1))
        } else {
            fault.column
        };
        (line, column)
    }
}

impl<'a> ModuleText<'a> {
    /// The text with its parts.
    pub fn new(
        alloc: Global,
        octets: &'a [u8],
        tokens: Vec<Token>,
    ) -> Result<ModuleText<'a>, NoMemory> {
        let mut module = ModuleText {
            octets,
            tokens,
            parts: Vec::new(alloc),
        };
        module.cut()?;
        Ok(module)
    }

    // Finds the parts.
    fn cut(&mut self) -> Result<(), NoMemory> {
        let mut place = Place::new();
        let mut part = Part {
            is_header: true,
            first: 0,
            end: 0,
            line: 1,
            column: 1,
        };
        let last = self.tokens.len().saturating_sub(1);
        for which in 0..self.tokens.len() {
            let token = self.tokens[which];
            let is_new = if part.is_header {
                self.spelling_before(which) == "BEGIN"
            } else {
                self.begins_assignment(which) || (which == last && self.spelling(which) == "END")
            };
            if is_new {
                part.end = which;
                self.parts.push(part)?;
                place.go_to(self.octets, token.start);
                part = Part {
                    is_header: false,
                    first: which,
                    end: which,
                    line: place.line,
                    column: place.column,
                };
            }
        }
        part.end = self.tokens.len();
        self.parts.push(part)?;
        Ok(())
    }

    // Whether an assignment begins with the token: it is a name that is assigned, and no type that is.
    fn begins_assignment(&self, which: usize) -> bool {
        self.is_assigned(which) && self.spelling(which.saturating_sub(1)) != "::="
    }

    /// Whether the token is a name that is assigned.
    pub fn is_assigned(&self, which: usize) -> bool {
        self.is_type_name(which) && self.spelling(which.saturating_add(1)) == "::="
    }

    /// Whether the token is a name with a large first letter.
    pub fn is_type_name(&self, which: usize) -> bool {
        match self.tokens.get(which) {
            Some(token) => token.kind == Kind::TypeName,
            None => false,
        }
    }

    /// How a token is spelled; empty where there is none.
    pub fn spelling(&self, which: usize) -> &'a str {
        let Some(token) = self.tokens.get(which) else {
            return "";
        };
        let octets = self.octets.get(token.start..token.end).unwrap_or(&[]);
        from_utf8(octets).unwrap_or("")
    }

    // How the token before this one is spelled; empty where there is none.
    fn spelling_before(&self, which: usize) -> &'a str {
        match which.checked_sub(1) {
            Some(before) => self.spelling(before),
            None => "",
        }
    }

    /// The token behind a tag that begins with this one.
    pub fn behind_tag(&self, bracket: usize) -> usize {
        let behind = self.tag_end(bracket).saturating_add(1);
        match self.spelling(behind) {
            "IMPLICIT" | "EXPLICIT" => behind.saturating_add(1),
            _ => behind,
        }
    }

    // The last token of a tag that begins with this one.
    fn tag_end(&self, bracket: usize) -> usize {
        let mut which = bracket;
        for _ in 0..3 {
            which = which.saturating_add(1);
            if self.spelling(which) == "]" {
                break;
            }
        }
        which
    }

    /// The text with these tokens and `more` in the place of the type that the part assigns.
    pub fn text_with(
        &self,
        alloc: Global,
        part: &Part,
        first: usize,
        end: usize,
        more: &str,
    ) -> Result<String, NoMemory> {
        let mut text = String::new(alloc);
        text.push_str(self.slice(0, self.behind(part.first.saturating_add(2))))?;
        text.push_str(" ")?;
        text.push_str(self.slice(self.start(first), self.behind(end)))?;
        text.push_str(more)?;
        text.push_str(" ")?;
        text.push_str(self.slice(self.start(part.end), self.octets.len()))?;
        Ok(text)
    }

    // Where a token starts; the end of the text where there is none.
    fn start(&self, which: usize) -> usize {
        match self.tokens.get(which) {
            Some(token) => token.start,
            None => self.octets.len(),
        }
    }

    // Where the token before this one ends.
    fn behind(&self, which: usize) -> usize {
        if which == 0 {
            return 0;
        }
        match self.tokens.get(which - 1) {
            Some(token) => token.end,
            None => self.octets.len(),
        }
    }

    fn slice(&self, start: usize, end: usize) -> &'a str {
        from_utf8(self.octets.get(start..end).unwrap_or(&[])).unwrap_or("")
    }

    /// The line and the column of a token.
    pub fn place(&self, which: usize) -> (u32, u32) {
        let mut place = Place::new();
        place.go_to(self.octets, self.start(which));
        (place.line, place.column)
    }

    /// A token as a fault names it: a tag whole.
    pub fn subject(&self, which: usize) -> &'a str {
        if self.spelling(which) == "[" {
            let end = self.tag_end(which).saturating_add(1);
            return self.slice(self.start(which), self.behind(end));
        }
        self.spelling(which)
    }

    /// The part as a module by itself.
    pub fn text_of(&self, alloc: Global, part: &Part) -> Result<String, NoMemory> {
        let mut text = String::new(alloc);
        if !part.is_header {
            text.push_str("M DEFINITIONS ::= BEGIN\n")?;
        }
        let start = match self.tokens.get(part.first) {
            Some(token) if !part.is_header => token.start,
            _ => 0,
        };
        let end = match self.tokens.get(part.end.saturating_sub(1)) {
            Some(token) => token.end,
            None => self.octets.len(),
        };
        let octets = self.octets.get(start..end).unwrap_or(&[]);
        text.push_str(from_utf8(octets).unwrap_or(""))?;
        if self.spelling(part.end.saturating_sub(1)) != "END" {
            text.push_str("\nEND")?;
        }
        Ok(text)
    }

    /// Appends the line of a fault of a part, which was parsed by itself.
    pub fn put_fault(
        &self,
        alloc: Global,
        part: &Part,
        fault: Fault,
        lines: &mut FaultLine<'_, '_>,
    ) -> Result<(), NoMemory> {
        let (line, column) = part.place_of(fault);
        let (which, place) = self.token_at(part, line, column);
        let spelling = self.spelling(which);
        if fault.number == 31 {
            // what stands here is what could, and is too much
            let words = words_of_fault(fault.number);
            return lines.put(line, column, fault.number, spelling, words);
        }
        // The END that `text_of` puts behind a part is not in the text: the part ends too early.
        let number = if which == part.end { 22 } else { fault.number };
        let expected = expected_behind(self.spelling_before(which));
        let advice = what_to_do(number, spelling);
        let words = format!(in alloc; "{expected} could stand here{advice}")?;
        lines.put(place.line, place.column, number, spelling, words.as_str())
    }

    /// Appends a line for each name that is assigned twice, and for each that stands in a type and is not assigned.
    pub fn put_names(&self, alloc: Global, lines: &mut FaultLine<'_, '_>) -> Result<(), NoMemory> {
        let mut assigned = self.assigned(alloc)?;
        assigned.sort()?;
        let mut place = Place::new();
        for which in 1..self.tokens.len() {
            let token = self.tokens[which];
            if token.kind != Kind::TypeName {
                continue;
            }
            let name = self.spelling(which);
            let first = assigned.partition_point(|(other, _)| *other < name);
            let words = match assigned.get(first) {
                Some((other, at)) if *other == name => {
                    if !self.is_assigned(which) || *at == which {
                        continue;
                    }
                    "the name is assigned already"
                }
                _ => "no type has this name in the module",
            };
            let number = if self.is_assigned(which) { 26 } else { 24 };
            place.go_to(self.octets, token.start);
            lines.put(place.line, place.column, number, name, words)?;
        }
        Ok(())
    }

    // The names that are assigned, with the tokens that they are.
    fn assigned(&self, alloc: Global) -> Result<Vec<(&'a str, usize)>, NoMemory> {
        let mut assigned = Vec::new(alloc);
        for which in 1..self.tokens.len() {
            if self.is_assigned(which) {
                assigned.push((self.spelling(which), which))?;
            }
        }
        Ok(assigned)
    }

    // The token of the part that stands at a line and a column, or the one behind the part.
    fn token_at(&self, part: &Part, line: u32, column: u32) -> (usize, Place) {
        let mut place = if part.is_header {
            Place::new()
        } else {
            Place {
                at: self.start(part.first),
                line: part.line,
                column: part.column,
            }
        };
        for which in part.first..part.end {
            place.go_to(self.octets, self.start(which));
            if place.line > line || (place.line == line && place.column >= column) {
                return (which, place);
            }
        }
        place.go_to(self.octets, self.start(part.end));
        (part.end, place)
    }
}
