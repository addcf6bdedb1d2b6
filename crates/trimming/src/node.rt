//! A type that is reached from the one that is asked for.

use crate::trimmer::{Draft, Work};
use names::Name;
use published::{Type, Word};
use std::alloc::Global;
use std::mem::{self, drop};
use syntax::Expr;
use trim_rules::{Additions, Root};
use trim_sources::{Fault, Message, Spot};

/// How far a type is.
#[derive(Clone, Copy, PartialEq, Eq)]
pub enum State {
    /// Not looked at.
    New,
    /// Begun: it waits for types that it refers to.
    Open,
    /// Made, or refused.
    Done,
}

/// A type that is reached, which may be one of several copies of an assignment.
#[derive(Drop)]
pub struct Node<'a> {
    /// Where it is assigned.
    pub spot: Spot,
    /// How often it may still refer to itself.
    pub level: usize,
    /// Its name where it is assigned.
    pub word: &'a Word,
    /// The type as it is written.
    pub body: &'a Type,
    /// Its name in the module that is written.
    pub name: Name,
    /// How far it is.
    pub state: State,
    /// What it is at its root, once it is made.
    pub root: Root,
    /// Whether it is an untagged CHOICE without some of its alternatives.
    pub is_cut: bool,
    /// Whether it is made, and neither refers to itself nor to a type that does.
    pub is_finite: bool,
    /// What came of it.
    pub made: Made<'a>,
}

impl<'a> Node<'a> {
    /// Takes what was made of it, which is this at its root, and what was noted of it.
    pub fn finish(&mut self, root: Root, draft: Draft, work: &mut Work<'a>) {
        let Draft { expr, is_cut } = draft;
        self.state = State::Done;
        self.root = root;
        self.is_cut = is_cut;
        self.is_finite = work.is_finite;
        mem::swap(&mut self.made, &mut work.made);
        drop(mem::replace(&mut self.made.expr, Some(expr)));
    }
}

/// What came of a type.
#[derive(Drop)]
pub struct Made<'a> {
    /// The type in the profile, where nothing is wrong with it.
    pub expr: Option<Expr>,
    /// What is wrong with it.
    pub faults: Vec<Fault<'a>>,
    /// Whether all that is wrong with it allows that what refers to it is left out.
    pub can_be_left_out: bool,
    /// What is left out of it.
    pub messages: Vec<Message>,
    /// The types that it refers to.
    pub uses: Vec<usize>,
    /// The types whose components are put in.
    pub included: Vec<usize>,
    /// Of a list, where its additions are among its components.
    pub additions: Additions,
    /// Of a list, where those that its additions refer to are among the types that it refers to.
    pub uses_of_additions: Additions,
    /// Whether an untagged open type at the end of a list is left out.
    pub has_open_end: bool,
    /// Whether a part of it is left out, or of an untagged CHOICE in it.
    pub is_narrowed: bool,
}

impl Made<'_> {
    /// Nothing.
    pub fn new(alloc: Global) -> Self {
        Made {
            expr: None,
            faults: Vec::new(alloc),
            can_be_left_out: true,
            messages: Vec::new(alloc),
            uses: Vec::new(alloc),
            included: Vec::new(alloc),
            additions: Additions::new(),
            uses_of_additions: Additions::new(),
            has_open_end: false,
            is_narrowed: false,
        }
    }
}
