//! SEQUENCE and SET (X.680 clauses 25 and 27).

use crate::including::Inclusion;
use crate::leaving::Mark;
use crate::tagging::Label;
use crate::trimmer::{Draft, Trimmer};
use published::{
    Component as Written, Components, Form, Place, Presence as WrittenPresence, Type, Word,
};
use std::alloc::{AllocError, Global};
use std::mem::drop;
use syntax::{Component, Expr, Group, Presence, TagClass, TagMode};
use trim_rules::{
    Additions, MAX_PARTS, Section, Standing, first_number, is_automatic, number_at, presence_of,
    standing_in,
};
use trim_sources::{Cause, identifier};

/// What a list says of one of its components.
#[derive(Clone, Copy)]
struct Slot {
    /// SEQUENCE or SET.
    group: Group,
    /// Its automatic tag, where its list has them.
    number: Option<usize>,
    /// How it may be absent.
    standing: Standing,
    /// Whether an open type here cannot be taken for another component where it is left out.
    is_apart: bool,
    /// Whether it shares a tag with another component, for which it could be taken.
    shares_tag: bool,
}

/// A list that is being made.
#[derive(Clone, Copy)]
struct List {
    /// SEQUENCE or SET.
    group: Group,
    /// Whether it is tagged automatically.
    is_automatic: bool,
    /// How many components are in the root before the additions.
    root: usize,
    /// How many are behind them.
    tail: usize,
    /// How many components there are.
    count: usize,
    /// Where what is noted of the tags of the first one stands.
    marks: usize,
}

impl<'a> Trimmer<'a> {
    /// The components of a list, additions among them as components that may be absent.
    #[cycle(drafting)]
    pub fn list(
        &mut self,
        alloc: Global,
        place: Place,
        group: Group,
        components: &'a Components,
    ) -> Result<Draft, AllocError> {
        let is_automatic = is_automatic(self.work.tagging, has_tags(components));
        let marks = self.work.shared.len();
        let list = list_of(is_automatic, group, components, marks);
        if list.count > MAX_PARTS {
            return self.refuse(alloc, place, Cause::Parts);
        }
        if let Some(marker) = components.marker {
            self.drop_part(alloc, marker, "an extension marker")?;
        }
        if !is_automatic {
            self.note_shared(alloc, group, components)?;
        }
        let mut made = Vec::new(alloc);
        self.section(alloc, list, Section::Root, &components.root, &mut made)?;
        let (start, first_use) = (made.len(), self.work.made.uses.len());
        let additions = &components.additions;
        self.section(alloc, list, Section::Additions, additions, &mut made)?;
        let (end, end_of_uses) = (made.len(), self.work.made.uses.len());
        self.section(alloc, list, Section::Tail, &components.tail, &mut made)?;
        self.work.shared.truncate(marks);
        // (a list within the tail has noted its own)
        self.work.made.additions = Additions { start, end };
        self.work.made.uses_of_additions = Additions {
            start: first_use,
            end: end_of_uses,
        };
        Ok(Draft::whole(Expr::List(group, made)))
    }

    // The components of a section of a list.
    #[cycle(drafting)]
    fn section(
        &mut self,
        alloc: Global,
        list: List,
        section: Section,
        components: &'a [Written],
        made: &mut Vec<Component>,
    ) -> Result<(), AllocError> {
        let first = first_number(section, list.root, list.tail);
        for (place, written) in components.iter().enumerate() {
            let shares_tag = self.shares_tag(mark_of(list, section, place));
            let Some(word) = &written.name else {
                let at = inclusion_in(list, section, shares_tag);
                self.include(alloc, at, &written.body, made)?;
                continue;
            };
            let slot = Slot {
                group: list.group,
                number: number_at(list.is_automatic, first, place),
                standing: standing_in(section, standing_of(&written.presence)),
                is_apart: is_apart(list, section, components, place),
                shares_tag,
            };
            self.component(alloc, slot, word, written, made)?;
        }
        Ok(())
    }

    // A component, which is left out where it is not taken and may be.
    #[cycle(drafting)]
    fn component(
        &mut self,
        alloc: Global,
        slot: Slot,
        word: &'a Word,
        written: &'a Written,
        made: &mut Vec<Component>,
    ) -> Result<(), AllocError> {
        let mark = self.mark();
        self.work.path.push(word.name.as_str())?;
        let component = self.component_of(alloc, slot, word, written)?;
        if self.work.made.faults.len() == mark.faults {
            made.push(component)?;
        } else {
            drop(component);
            self.leave_component_out(alloc, slot, written, mark)?;
        }
        self.work.path.pop();
        Ok(())
    }

    // What becomes of a component. What is wrong with it is noted.
    #[cycle(drafting)]
    fn component_of(
        &mut self,
        alloc: Global,
        slot: Slot,
        word: &'a Word,
        written: &'a Written,
    ) -> Result<Component, AllocError> {
        let name = identifier(alloc, &word.name)?;
        let draft = self.part(alloc, slot.number, &written.body)?;
        self.presence(alloc, slot, written, draft.is_cut)
            .map(|presence| Component {
                name,
                body: draft.expr,
                presence,
            })
    }

    // Leaves a component out, where it may be.
    fn leave_component_out(
        &mut self,
        alloc: Global,
        slot: Slot,
        written: &'a Written,
        mark: Mark,
    ) -> Result<(), AllocError> {
        if self.can_leave_out(alloc, slot, written, mark)? {
            let why = self.why_since(alloc, mark)?;
            self.leave_out(alloc, written.body.place, mark, why.as_str())?;
        }
        Ok(())
    }

    /// The type of a component or an alternative, with its automatic tag where it has one.
    #[cycle(drafting)]
    pub fn part(
        &mut self,
        alloc: Global,
        number: Option<usize>,
        body: &'a Type,
    ) -> Result<Draft, AllocError> {
        let Some(number) = number else {
            return self.draft(alloc, body);
        };
        let Ok(number) = u32::try_from(number) else {
            return self.refuse(alloc, body.place, Cause::Parts);
        };
        let label = Label {
            place: body.place,
            class: TagClass::ContextSpecific,
            number,
            mode: TagMode::Unmarked,
            is_automatic: true,
        };
        self.labelled(alloc, label, body)
    }

    // Whether a component may be left out: it may be absent, all that is wrong with it allows so, and no
    // value that holds it is then taken for another.
    fn can_leave_out(
        &mut self,
        alloc: Global,
        slot: Slot,
        written: &'a Written,
        mark: Mark,
    ) -> Result<bool, AllocError> {
        let is_needed = slot.standing == Standing::Required || slot.shares_tag;
        if is_needed || !self.can_leave_out_since(mark) {
            return Ok(false);
        }
        let is_open = slot.number.is_none() && self.root_of(alloc, &written.body)?.takes_any();
        self.work.made.has_open_end |= is_open && slot.is_apart;
        Ok(!is_open || slot.is_apart)
    }

    // Notes that the type of a component is a CHOICE without some of its alternatives, which a SET does not take, nor a
    // list in which another component has the tag of one.
    fn note_cut(&mut self, alloc: Global, slot: Slot, place: Place) -> Result<(), AllocError> {
        self.work.made.is_narrowed = true;
        if slot.group == Group::Set {
            self.note(alloc, place, Cause::CutChoice)
        } else if slot.shares_tag {
            self.note(alloc, place, Cause::SharedChoice)
        } else {
            Ok(())
        }
    }

    // What stands behind the component.
    fn presence(
        &mut self,
        alloc: Global,
        slot: Slot,
        written: &'a Written,
        is_cut: bool,
    ) -> Result<Presence, AllocError> {
        if is_cut {
            self.note_cut(alloc, slot, written.body.place)?;
        }
        let literal = match &written.presence {
            WrittenPresence::Default(value) => self.literal(alloc, &written.body, value)?,
            WrittenPresence::Required | WrittenPresence::Optional => None,
        };
        match presence_of(slot.standing, literal) {
            Some(presence) => Ok(presence),
            None => {
                self.note(alloc, place_of(written), Cause::Default)?;
                Ok(Presence::Required)
            }
        }
    }
}

// Where the DEFAULT of a component stands, or else its type.
fn place_of(written: &Written) -> Place {
    match &written.presence {
        WrittenPresence::Default(value) => value.place,
        WrittenPresence::Required | WrittenPresence::Optional => written.body.place,
    }
}

// The numbers of components of a list.
fn list_of(is_automatic: bool, group: Group, components: &Components, marks: usize) -> List {
    let root = components.root.len();
    let tail = components.tail.len();
    List {
        group,
        is_automatic,
        root,
        tail,
        count: root
            .saturating_add(tail)
            .saturating_add(components.additions.len()),
        marks,
    }
}

// Where it stands whether a component of a section shares its tag.
fn mark_of(list: List, section: Section, place: usize) -> usize {
    let before = match section {
        Section::Root => 0,
        Section::Additions => list.root,
        Section::Tail => list.count.saturating_sub(list.tail),
    };
    list.marks.saturating_add(before).saturating_add(place)
}

/// Whether a tag is written in a list, as it stands before COMPONENTS OF is written out (X.680 25.3).
pub fn has_tags(components: &Components) -> bool {
    has_tag(&components.root) || has_tag(&components.additions) || has_tag(&components.tail)
}

// What is written behind a component.
fn standing_of(presence: &WrittenPresence) -> Standing {
    match presence {
        WrittenPresence::Required => Standing::Required,
        WrittenPresence::Optional => Standing::Optional,
        WrittenPresence::Default(_) => Standing::Default,
    }
}

// Where COMPONENTS OF stands in a section of a list.
fn inclusion_in(list: List, section: Section, shares_tag: bool) -> Inclusion {
    Inclusion {
        group: list.group,
        is_automatic: list.is_automatic,
        section,
        shares_tag,
    }
}

// Whether the type of a component is written with a tag.
fn has_tag(components: &[Written]) -> bool {
    components
        .iter()
        .any(|component| is_tagged(&component.body))
}

/// Whether the type is written with a tag.
pub fn is_tagged(ty: &Type) -> bool {
    matches!(&ty.form, Form::Tagged(_, _))
}

// Whether an open type here cannot be taken for another component: the last of a SEQUENCE without additions,
// behind one that is always there, and not behind COMPONENTS OF.
fn is_apart(list: List, section: Section, components: &[Written], place: usize) -> bool {
    let is_last = section == Section::Root && list.count == place.saturating_add(1);
    let before = match place.checked_sub(1) {
        Some(before) => components.get(before),
        None => None,
    };
    let is_behind_required = match before {
        Some(before) => {
            before.name.is_some() && standing_of(&before.presence) == Standing::Required
        }
        None => true,
    };
    list.group == Group::Sequence && is_last && is_behind_required
}
