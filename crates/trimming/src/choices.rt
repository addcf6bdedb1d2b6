//! CHOICE (X.680 clause 29).

use crate::leaving::Mark;
use crate::lists::is_tagged;
use crate::trimmer::{Draft, Trimmer};
use published::{Alternative as Written, Alternatives, Place};
use std::alloc::{AllocError, Global};
use std::mem::drop;
use syntax::{Alternative, Expr};
use trim_rules::{MAX_PARTS, Section, first_number, is_automatic};
use trim_sources::{Cause, Fault, identifier};

/// The alternatives of a CHOICE that are made, and what is wrong with the others.
#[derive(Drop)]
struct Chosen<'a> {
    /// Those that are made.
    made: Vec<Alternative>,
    /// What is wrong with those that are left out.
    lost: Vec<Fault<'a>>,
    /// Whether one is an untagged CHOICE without some of its alternatives.
    is_cut: bool,
    /// Where what is noted of the tags of the next one stands.
    mark: usize,
}

impl<'a> Trimmer<'a> {
    /// The alternatives of a CHOICE, additions behind the root.
    #[cycle(drafting)]
    pub fn choice(
        &mut self,
        alloc: Global,
        place: Place,
        alternatives: &'a Alternatives,
    ) -> Result<Draft, AllocError> {
        let root = alternatives.root.len();
        let count = root.saturating_add(alternatives.additions.len());
        if count == 0 || count > MAX_PARTS {
            return self.refuse(alloc, place, Cause::Parts);
        }
        if let Some(marker) = alternatives.marker {
            self.drop_part(alloc, marker, "an extension marker")?;
        }
        let is_automatic = self.is_automatic_choice(alternatives);
        let marks = self.work.shared.len();
        self.note_shared_of_choice(alloc, alternatives)?;
        let mut chosen = Chosen {
            made: Vec::new(alloc),
            lost: Vec::new(alloc),
            is_cut: false,
            mark: marks,
        };
        let first = first_of(is_automatic, Section::Root, root);
        self.alternatives(alloc, first, &alternatives.root, &mut chosen)?;
        let first = first_of(is_automatic, Section::Additions, root);
        self.alternatives(alloc, first, &alternatives.additions, &mut chosen)?;
        self.work.shared.truncate(marks);
        self.chosen(alloc, chosen)
    }

    /// Whether the alternatives are tagged automatically, which is judged as they are written.
    pub fn is_automatic_choice(&self, alternatives: &Alternatives) -> bool {
        let is_tag_written = has_tag(&alternatives.root) || has_tag(&alternatives.additions);
        is_automatic(self.work.tagging, is_tag_written)
    }

    // Alternatives, of which the first has this automatic tag if there is one.
    #[cycle(drafting)]
    fn alternatives(
        &mut self,
        alloc: Global,
        first: Option<usize>,
        alternatives: &'a [Written],
        chosen: &mut Chosen<'a>,
    ) -> Result<(), AllocError> {
        for (place, written) in alternatives.iter().enumerate() {
            let number = first.map(|first| first.saturating_add(place));
            self.alternative(alloc, number, written, chosen)?;
            chosen.mark = chosen.mark.saturating_add(1);
        }
        Ok(())
    }

    // An alternative, which is left out where it is not taken and may be.
    #[cycle(drafting)]
    fn alternative(
        &mut self,
        alloc: Global,
        number: Option<usize>,
        written: &'a Written,
        chosen: &mut Chosen<'a>,
    ) -> Result<(), AllocError> {
        let mark = self.mark();
        let name = identifier(alloc, &written.name.name)?;
        self.work.path.push(written.name.name.as_str())?;
        let Draft { expr: body, is_cut } = self.part(alloc, number, &written.body)?;
        chosen.is_cut = chosen.is_cut || is_cut;
        if is_cut && self.shares_tag(chosen.mark) {
            self.note(alloc, written.body.place, Cause::SharedChoice)?;
        }
        if self.work.made.faults.len() == mark.faults {
            chosen.made.push(Alternative { name, body })?;
        } else {
            drop((name, body));
            self.leave_alternative_out(alloc, number, written, mark, chosen)?;
        }
        self.work.path.pop();
        Ok(())
    }

    // Leaves an alternative out, where it may be.
    fn leave_alternative_out(
        &mut self,
        alloc: Global,
        number: Option<usize>,
        written: &'a Written,
        mark: Mark,
        chosen: &mut Chosen<'a>,
    ) -> Result<(), AllocError> {
        if self.shares_tag(chosen.mark)
            || !self.can_leave_out_since(mark)
            || !self.is_told_apart(alloc, number, written)?
        {
            return Ok(());
        }
        chosen.is_cut = true;
        let why = self.why_since(alloc, mark)?;
        for _one in mark.faults..self.work.made.faults.len() {
            if let Some(fault) = self.work.made.faults.pop() {
                chosen.lost.push(fault)?;
            }
        }
        self.leave_out(alloc, written.body.place, mark, why.as_str())
    }

    // Whether no value that takes the alternative can be taken for another one: it is no untagged open type.
    fn is_told_apart(
        &mut self,
        alloc: Global,
        number: Option<usize>,
        written: &'a Written,
    ) -> Result<bool, AllocError> {
        Ok(number.is_some() || !self.root_of(alloc, &written.body)?.takes_any())
    }

    // The CHOICE of what is made. Where none is, what is wrong with all is wrong with it.
    fn chosen(&mut self, alloc: Global, chosen: Chosen<'a>) -> Result<Draft, AllocError> {
        let Chosen {
            made,
            mut lost,
            is_cut,
            mark: _,
        } = chosen;
        if made.is_empty() {
            self.work.made.faults.append(&mut lost)?;
            return Ok(Draft::nothing());
        }
        Ok(Draft {
            expr: Expr::Choice(made),
            is_cut,
        })
    }
}

// The automatic tag of the first alternative of a section.
fn first_of(is_automatic: bool, section: Section, root: usize) -> Option<usize> {
    if is_automatic {
        Some(first_number(section, root, 0))
    } else {
        None
    }
}

/// Whether the type of an alternative is written with a tag (X.680 29.2).
pub fn has_tag(alternatives: &[Written]) -> bool {
    alternatives
        .iter()
        .any(|alternative| is_tagged(&alternative.body))
}
