//! Tags in front of types (X.680 clause 31).

use crate::trimmer::{Draft, Trimmer};
use published::{Place, Tag, TagClass as WrittenClass, Type};
use std::alloc::{AllocError, Global};
use syntax::{Expr, SignedNumber, Simple, TagClass, TagMode};
use trim_rules::{Keyword, Root, keyword_of, prefix_of};
use trim_sources::Cause;

/// The greatest tag number of the profile.
const MAX_TAG_NUMBER: u32 = 268_435_455;

/// A tag as it is written, or as automatic tagging gives it.
#[derive(Clone, Copy)]
pub struct Label {
    /// Where it stands.
    pub place: Place,
    /// Its class.
    pub class: TagClass,
    /// Its number.
    pub number: u32,
    /// Its keyword.
    pub mode: TagMode,
    /// Whether automatic tagging gives it.
    pub is_automatic: bool,
}

impl<'a> Trimmer<'a> {
    /// A type with a tag in front as it is written. Where the tag is not taken, what is wrong with the type
    /// itself is noted too.
    #[cycle(drafting)]
    pub fn tagged(
        &mut self,
        alloc: Global,
        place: Place,
        tag: &'a Tag,
        inner: &'a Type,
    ) -> Result<Draft, AllocError> {
        match self.label_of(place, tag) {
            Ok(label) => self.labelled(alloc, label, inner),
            Err(cause) => {
                self.note(alloc, place, cause)?;
                self.draft(alloc, inner)
            }
        }
    }

    // The tag, or why it is not taken.
    fn label_of(&mut self, place: Place, tag: &'a Tag) -> Result<Label, Cause<'a>> {
        let Some(class) = class_of(tag.class) else {
            return Err(Cause::Universal);
        };
        let number = self
            .sources
            .number_of(self.work.module, &tag.number, &mut self.budget);
        match number.and_then(tag_number) {
            Some(number) => Ok(Label {
                place,
                class,
                number,
                mode: tag.mode,
                is_automatic: false,
            }),
            None => Err(Cause::Number),
        }
    }

    /// A type with a tag in front, which gets its keyword. A character string type that the profile does not
    /// have is an OCTET STRING under an implicit tag.
    #[cycle(drafting)]
    pub fn labelled(
        &mut self,
        alloc: Global,
        label: Label,
        inner: &'a Type,
    ) -> Result<Draft, AllocError> {
        let root = self.root_of(alloc, inner)?;
        let keyword = match self.keyword_at(label, root) {
            Ok(keyword) => keyword,
            Err(cause) => {
                self.refuse_label(alloc, label, cause, inner)?;
                return self.draft(alloc, inner);
            }
        };
        let inner = match (keyword, root) {
            (Keyword::Implicit, Root::LeftOutString) => Expr::Simple(Simple::OctetString),
            _ => self.draft(alloc, inner)?.expr,
        };
        let prefix = prefix_of(label.class, label.number, keyword);
        Ok(Draft::whole(Expr::Tagged(prefix, Box::new(alloc, inner)?)))
    }

    // Notes why the tag in front of the type is not taken. A field that has a type of its own is refused itself where
    // no keyword is known, since its type is not given; the tag is all right then.
    fn refuse_label(
        &mut self,
        alloc: Global,
        label: Label,
        cause: Cause<'a>,
        inner: &'a Type,
    ) -> Result<(), AllocError> {
        let is_by_field = matches!(cause, Cause::UnmarkedField | Cause::AutomaticField);
        if !is_by_field || !self.sources.is_fixed_field(self.work.module, inner) {
            self.note(alloc, label.place, cause)?;
        }
        Ok(())
    }

    // The keyword of a tag in front of a type that is this at its root, or why it has none. IMPLICIT is written in front
    // of no open type and no CHOICE (X.680 31.2.9), so a field with it is neither.
    fn keyword_at(&self, label: Label, root: Root) -> Result<Keyword, Cause<'a>> {
        if label.mode == TagMode::Implicit && root == Root::Field {
            return Ok(Keyword::Implicit);
        }
        if label.mode == TagMode::Unmarked && root == Root::Field {
            return Err(if label.is_automatic {
                Cause::AutomaticField
            } else {
                Cause::UnmarkedField
            });
        }
        match keyword_of(self.work.tagging, label.mode, root.is_open()) {
            Some(keyword) => Ok(keyword),
            None => Err(Cause::ImplicitChoice),
        }
    }
}

fn class_of(class: WrittenClass) -> Option<TagClass> {
    match class {
        WrittenClass::Universal => None,
        WrittenClass::Application => Some(TagClass::Application),
        WrittenClass::ContextSpecific => Some(TagClass::ContextSpecific),
        WrittenClass::Private => Some(TagClass::Private),
    }
}

fn tag_number(number: SignedNumber) -> Option<u32> {
    if number.negative && number.magnitude > 0 {
        return None;
    }
    let number = u32::try_from(number.magnitude).ok()?;
    if number <= MAX_TAG_NUMBER {
        Some(number)
    } else {
        None
    }
}
