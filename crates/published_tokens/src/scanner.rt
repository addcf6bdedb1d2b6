//! Tokens on demand, from left to right.

ghost use Rattle.std.specs.Prelude.{◌≡◌, ◌≤◌, ◌+◌, length};
ghost use Rattle.lexis.specs.Place.{IsPlace};

use crate::MAX_FILE;
use crate::front::token_in_front;
use crate::gap::{Piece, piece_in_front};
use crate::place::Place;
use crate::prose::{prose_piece, prose_token_in_front};
use crate::token::{Kind, Token};

/// The tokens of a text that are still to come.
#[derive(Clone, Copy)]
pub struct Scanner<'a> {
    /// The text.
    pub text: &'a [u8],
    /// How many octets of it were passed.
    pub at: usize,
    file: u32,
    line: u32,
    column: u32,
    finds_no_end: bool,
    ghost short: { length text.now ≤ 16777216 },
    ghost within: { at ≤ length text.now },
    ghost line_within: { line ≤ at + 1 },
    ghost column_within: { column ≤ at + 1 },
    ghost placed: { IsPlace text.now at line column },
}

impl<'a> Scanner<'a> {
    /// The tokens of this text, which is the file of this number.
    pub fn new(text: &'a [u8], file: u32) -> Scanner<'a>
        requires { length text.now ≤ 16777216 }
        ensures text { result.text.now ≡ text.now }
        ensures front { result.at ≡ 0 }
    {
        Scanner {
            text,
            at: 0,
            file,
            line: 1,
            column: 1,
            finds_no_end: false,
        }
    }

    /// The next token of a module. At the end of the text it is `Kind::End`, however often it is asked for.
    pub fn next(&mut self) -> Token
        ensures text { self.new.text.now ≡ self.old.text.now }
        ensures order { self.old.at ≤ result.start }
        ensures span { result.start ≤ result.end }
        ensures behind { result.end ≡ self.new.at }
        ensures place { IsPlace self.old.text.now result.start result.place.line result.place.column }
    {
        if self.skip_gap() {
            let (kind, used) = token_in_front(&self.text[self.at..]);
            self.token(kind, used)
        } else {
            self.token(Kind::Unclosed, self.text.len() - self.at)
        }
    }

    /// The next token of prose. `in_head` says whether the head of a module may have begun, so that
    /// a comment may stand in any line; else `/*` begins one only as the first of its line.
    pub fn next_in_prose(&mut self, in_head: bool) -> Token
        ensures text { self.new.text.now ≡ self.old.text.now }
        ensures order { self.old.at ≤ result.start }
        ensures span { result.start ≤ result.end }
        ensures behind { result.end ≡ self.new.at }
        ensures place { IsPlace self.old.text.now result.start result.place.line result.place.column }
    {
        self.skip_prose_gap(in_head);
        let (kind, used) = prose_token_in_front(&self.text[self.at..]);
        self.token(kind, used)
    }

    // Passes the gap that stands next. Whether its comments are closed.
    fn skip_gap(&mut self) -> bool
        ensures text { self.new.text.now ≡ self.old.text.now }
        ensures order { self.old.at ≤ self.new.at }
    {
        for _turn in 0..=MAX_FILE {
            match piece_in_front(&self.text[self.at..], self.column == 1) {
                Piece::Of(count) => self.advance(count),
                Piece::Unclosed => return false,
                Piece::Nothing => return true,
            }
        }
        true
    }

    // Passes the gap that stands next in prose. A comment that is not closed is none, and from there on no
    // other is looked for.
    fn skip_prose_gap(&mut self, in_head: bool)
        ensures text { self.new.text.now ≡ self.old.text.now }
        ensures order { self.old.at ≤ self.new.at }
    {
        let mut is_first = self.column == 1;
        for _turn in 0..=MAX_FILE {
            is_first = is_first || self.column == 1;
            let takes_blocks = (in_head || is_first) && !self.finds_no_end;
            let rest = &self.text[self.at..];
            match prose_piece(rest, self.column == 1, takes_blocks) {
                Piece::Of(count) => self.advance(count),
                Piece::Unclosed => self.finds_no_end = true,
                Piece::Nothing => return,
            }
        }
    }

    // The token of so many octets that stands next, which is passed.
    fn token(&mut self, kind: Kind, used: usize) -> Token
        requires { self.old.at + used ≤ length self.old.text.now }
        ensures text { self.new.text.now ≡ self.old.text.now }
        ensures start { result.start ≡ self.old.at }
        ensures end { result.end ≡ self.old.at + used }
        ensures behind { self.new.at ≡ self.old.at + used }
        ensures place { IsPlace self.old.text.now result.start result.place.line result.place.column }
    {
        let start = self.at;
        let place = self.place();
        self.advance(used);
        let end = self.at;
        Token {
            kind,
            start,
            end,
            place,
        }
    }

    // The place of the octet that stands next.
    fn place(&self) -> Place
        ensures { IsPlace self.now.text.now self.now.at result.line result.column }
    {
        Place {
            file: self.file,
            line: self.line,
            column: self.column,
        }
    }

    // Passes so many octets.
    fn advance(&mut self, count: usize)
        requires { self.old.at + count ≤ length self.old.text.now }
        ensures text { self.new.text.now ≡ self.old.text.now }
        ensures at { self.new.at ≡ self.old.at + count }
    {
        let end = self.at + count;
        for at in self.at..end {
            if self.text[at] == b'\n' {
                self.line += 1;
                self.column = 1;
            } else {
                self.column += 1;
            }
            self.at = at + 1;
        }
    }
}
