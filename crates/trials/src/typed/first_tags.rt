//! The tags that tell the parts of a type apart (X.680 25.6, 27.3 and 29.3).

use super::Faults;
use crate::type_notation::ty_of;
use std::alloc::Global;
use std::test::Fail;
use test_tables::{Table, check, prints, two};

// type | fault
const TAGS: &str = "\
SEQUENCE{ } | none
SEQUENCE{ INTEGER INTEGER } | none
SEQUENCE{ INTEGER INTEGER? } | none
SEQUENCE{ INTEGER? INTEGER } | TagsNotDistinct
SEQUENCE{ NULL? BOOLEAN=TRUE NULL } | TagsNotDistinct
SEQUENCE{ NULL? BOOLEAN? NULL? } | TagsNotDistinct
SEQUENCE{ NULL? BOOLEAN NULL? } | none
SEQUENCE{ NULL BOOLEAN NULL } | none
SEQUENCE{ INTEGER? CHOICE{ NULL INTEGER } } | TagsNotDistinct
SEQUENCE{ CHOICE{ BOOLEAN CHOICE{ NULL } }? NULL? } | TagsNotDistinct
// the tags behind an explicit tag, and those of components, do not count
SET{ NULL BOOLEAN NULL } | TagsNotDistinct
SET{ CHOICE{ NULL BOOLEAN } INTEGER } | none
SET{ CHOICE{ NULL BOOLEAN } BOOLEAN } | TagsNotDistinct
SET{ BOOLEAN CHOICE{ NULL CHOICE{ BOOLEAN } }? } | TagsNotDistinct
SET{ [0]{ CHOICE{ NULL } } NULL } | none
SET{ SEQUENCE{ NULL } NULL } | none
CHOICE{ NULL CHOICE{ BOOLEAN [3]NULL } } | none
CHOICE{ NULL CHOICE{ NULL } } | TagsNotDistinct
CHOICE{ CHOICE{ BOOLEAN NULL } CHOICE{ INTEGER BOOLEAN } } | TagsNotDistinct
SEQUENCE-OF{ CHOICE{ NULL NULL } } | TagsNotDistinct
SET-OF{ [1]{ SET{ NULL NULL? } } } | TagsNotDistinct
// universal 0
[UNIVERSAL.0]NULL | TagsNotDistinct
[UNIVERSAL.0]BOOLEAN | TagsNotDistinct
SEQUENCE-OF{ [UNIVERSAL.0]NULL } | TagsNotDistinct
[UNIVERSAL.0]{ NULL } | TagsNotDistinct
SEQUENCE-OF{ [UNIVERSAL.0]{ NULL } } | TagsNotDistinct
[1]{ [UNIVERSAL.0]NULL } | TagsNotDistinct
[0]NULL | none
[0]{ NULL } | none";

#[test]
fn tags_that_must_differ(rt: HostRuntime) -> Result<(), Fail> {
    check(rt.alloc(), &Faults, TAGS)
}

// type | the tag that each encoding begins with
const FIRST_TAGS: &str = "\
NULL | Some(Tag { class: Universal, number: 5 })
[7]NULL | Some(Tag { class: Context, number: 7 })
SEQUENCE{ } | Some(Tag { class: Universal, number: 16 })
SET{ } | Some(Tag { class: Universal, number: 17 })
[0]{ CHOICE{ NULL BOOLEAN } } | Some(Tag { class: Context, number: 0 })
CHOICE{ NULL } | None";

struct FirstTags;

impl Table for FirstTags {
    fn holds(&self, alloc: Global, row: &str) -> Result<bool, Fail> {
        let (ty, want) = two(row)?;
        prints(alloc, &ty_of(alloc, ty)?.tag(), want)
    }
}

#[test]
fn first_tag(rt: HostRuntime) -> Result<(), Fail> {
    check(rt.alloc(), &FirstTags, FIRST_TAGS)
}
