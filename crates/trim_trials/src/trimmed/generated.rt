//! Modules of the profile that numbers give, with odd gaps between their tokens.

use super::equal::{has_meaning, is_kept};
use std::alloc::{AllocError, Global};
use std::test::Fail;

// Types, with a value behind `;` where DEFAULT has one, in tokens with one space between.
const TYPES: [&str; 20] = [
    "BOOLEAN;TRUE",
    "INTEGER;-5",
    "INTEGER;170141183460469231731687303715884105727",
    "NULL",
    "OBJECT IDENTIFIER",
    "RELATIVE-OID",
    "OCTET STRING;'0FA0'H",
    "BIT STRING;'01'B",
    "BIT STRING { p ( 1 ) , q ( 4 ) };'0100'B",
    "UTF8String;\"a--b\"",
    "NumericString;\"\"",
    "BMPString",
    "UTCTime",
    "ENUMERATED { x ( 3 ) , y , z ( -1 ) };y",
    "CHOICE { x NULL , y BOOLEAN }",
    "SEQUENCE { }",
    "SEQUENCE { x NULL OPTIONAL , y OCTET STRING DEFAULT ''H }",
    "SET { x [ 1 ] NULL , y [ APPLICATION 1 ] EXPLICIT BOOLEAN OPTIONAL }",
    "SEQUENCE OF INTEGER",
    "SET OF CHOICE { x SET OF NULL , y [ PRIVATE 268435455 ] IA5String }",
];

// What may stand between two tokens.
const GAPS: [&str; 12] = [
    " ",
    " ",
    "\n",
    "\t \r\n",
    " -- c\n",
    "--c--",
    " -- T0 ::= NULL -- ",
    "/**/",
    "/* END -- */",
    " /* M /* DEFINITIONS */ ::= BEGIN */\n",
    "\u{b}\u{c}",
    "\n-- \"\n",
];

/// A module that is being made.
#[derive(Drop)]
struct Maker {
    alloc: Global,
    text: String,
    state: u64,
    tags: u32,
}

impl Maker {
    // A number below this one, which goes by the state.
    fn pick(&mut self, count: usize) -> usize {
        self.state = self
            .state
            .wrapping_mul(6_364_136_223_846_793_005)
            .wrapping_add(1_442_695_040_888_963_407);
        let high = (self.state >> 33) as usize;
        high.checked_rem(count).unwrap_or(0)
    }

    // One of these.
    fn pick_of(&mut self, from: &[&'static str]) -> &'static str {
        let place = self.pick(from.len());
        from.get(place).copied().unwrap_or("")
    }

    // Tokens, each behind a gap.
    fn put(&mut self, tokens: &str) -> Result<(), AllocError> {
        for token in tokens.split(' ') {
            let needs_none = ends_itself(self.text.as_str().chars().last())
                || ends_itself(token.chars().next());
            if !needs_none || self.pick(2) == 0 {
                let gap = self.pick_of(GAPS.as_slice());
                self.text.push_str(gap)?;
            }
            self.text.push_str(token)?;
        }
        Ok(())
    }

    // A tag that no other type of the module has.
    fn put_tag(&mut self) -> Result<(), AllocError> {
        self.tags = self.tags.saturating_add(1);
        let number = self.tags;
        let tag = format!(in self.alloc; "[ {number} ]")?;
        self.put(tag.as_str())?;
        match self.pick(8) {
            0 => self.put("IMPLICIT"),
            1 => self.put("EXPLICIT"),
            _ => Ok(()),
        }
    }

    // A type without parts of this module, or one that is assigned behind this place, and its default.
    fn put_type(&mut self, place: usize, count: usize) -> Result<&'static str, AllocError> {
        let behind = count.saturating_sub(place).saturating_sub(1);
        if behind > 0 && self.pick(4) == 0 {
            let other = place.saturating_add(1).saturating_add(self.pick(behind));
            let name = format!(in self.alloc; "T{other}")?;
            self.put(name.as_str())?;
            return Ok("");
        }
        let row = self.pick_of(TYPES.as_slice());
        let (words, value) = row.split_once(';').unwrap_or((row, ""));
        self.put(words)?;
        Ok(value)
    }

    // A part of the type at this place.
    fn put_part(
        &mut self,
        at: usize,
        place: usize,
        count: usize,
    ) -> Result<&'static str, AllocError> {
        let name = format!(in self.alloc; "a{at}")?;
        self.put(name.as_str())?;
        if self.tags > 0 {
            self.put_tag()?;
        }
        self.put_type(place, count)
    }

    // A list of components at this place.
    fn put_list(&mut self, word: &str, place: usize, count: usize) -> Result<(), AllocError> {
        self.put(word)?;
        self.put("{")?;
        for at in 0..self.pick(5) {
            if at > 0 {
                self.put(",")?;
            }
            let value = self.put_part(at, place, count)?;
            match self.pick(3) {
                0 => self.put("OPTIONAL")?,
                1 if !value.is_empty() => {
                    self.put("DEFAULT")?;
                    self.put(value)?;
                }
                _ => {}
            }
        }
        self.put("}")
    }

    // A CHOICE at this place.
    fn put_choice(&mut self, place: usize, count: usize) -> Result<(), AllocError> {
        self.put("CHOICE {")?;
        for at in 0..self.pick(4).saturating_add(1) {
            if at > 0 {
                self.put(",")?;
            }
            self.put_part(at, place, count)?;
        }
        self.put("}")
    }

    // The assignment at this place of so many.
    fn put_assignment(&mut self, place: usize, count: usize) -> Result<(), AllocError> {
        let name = format!(in self.alloc; "T{place}")?;
        self.put(name.as_str())?;
        self.put("::=")?;
        match self.pick(6) {
            0 => self.put_choice(place, count),
            1 | 2 => self.put_list("SET", place, count),
            3 => {
                self.put("SEQUENCE OF")?;
                self.put_type(place, count)?;
                Ok(())
            }
            _ => self.put_list("SEQUENCE", place, count),
        }
    }
}

// Whether no gap is needed beside this character of a token.
fn ends_itself(c: Option<char>) -> bool {
    match c {
        Some(c) => matches!(c, '{' | '}' | '(' | ')' | ',' | '='),
        None => false,
    }
}

// The module of this number, which assigns T0 and those that it refers to. Some are refused.
fn module(alloc: Global, number: u64) -> Result<String, AllocError> {
    let mut maker = Maker {
        alloc,
        text: String::new(alloc),
        state: number,
        tags: 0,
    };
    let tags = maker.pick_of(&[
        "::=",
        "EXPLICIT TAGS ::=",
        "IMPLICIT TAGS ::=",
        "AUTOMATIC TAGS ::=",
    ]);
    if !tags.starts_with('A') || maker.pick(8) == 0 {
        maker.tags = 1;
    }
    maker.put("M DEFINITIONS")?;
    maker.put(tags)?;
    maker.put("BEGIN")?;
    let count = maker.pick(6).saturating_add(1);
    for place in 0..count {
        maker.put_assignment(place, count)?;
    }
    maker.put("END")?;
    Ok(maker.text)
}

#[test]
fn modules_that_numbers_give(rt: HostRuntime) -> Result<(), Fail> {
    let mut taken = 0u32;
    for number in 0..100 {
        let text = module(rt.alloc(), number)?;
        assert!(rt;
            is_kept(rt.alloc(), text.as_str(), "T0")?,
            "at {number}: {text}"
        );
        if has_meaning(rt.alloc(), text.as_str(), "T0") {
            taken = taken.saturating_add(1);
        }
    }
    assert!(rt; taken > 50, "{taken}");
    Ok(())
}
