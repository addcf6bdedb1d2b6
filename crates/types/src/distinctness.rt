//! The tags that tell the parts of a type apart (X.680 25.6, 27.3 and 29.3).
//!
//! Each pair of parts of a list is judged once, the tags that one can begin with against those of the
//! other. Whether the alternatives of an untagged CHOICE within are apart is judged at that CHOICE.

ghost use Rattle.std.specs.Prelude.{◌↔◌, IsTrue, Contains};
ghost use Rattle.types.specs.FirstTags.{first_tags, tags_of_components, tags_of_run, tags_of_alternatives, IsUsable};
ghost use Rattle.types.specs.Judging.{AreApart, RunsAreApart, ComponentsAreApart, AlternativesAreApart, TellsPartsApart};
ghost use Rattle.types.specs.Conforms.{MayBeAbsent};
ghost use Rattle.types.specs.View.{ty_view, field_view, components_view, alternatives_view};

use crate::conforming::may_be_absent;
use crate::{Alternative, Field, Ty};
use octets::{Class, Tag};

// Whether the tag of the outermost node is usable, and its parts are apart where they must be.
pub fn tells_parts_apart(ty: &Ty) -> bool
    ensures { IsTrue result ↔ TellsPartsApart (ty_view ty.now) }
{
    match ty {
        Ty::Sequence(tag, fields) => is_usable(tag) && runs_are_apart(fields),
        Ty::Set(tag, fields) => is_usable(tag) && components_are_apart(fields),
        Ty::Choice(alternatives) => alternatives_are_apart(alternatives),
        Ty::Boolean(tag) | Ty::Integer(tag) | Ty::Enumerated(tag, _) => is_usable(tag),
        Ty::Null(tag) | Ty::Oid(tag) | Ty::RelativeOid(tag) => is_usable(tag),
        Ty::Bits(tag) | Ty::NamedBits(tag, _) | Ty::Octets(tag) => is_usable(tag),
        Ty::Text(tag, _) | Ty::Time(tag, _) => is_usable(tag),
        Ty::SequenceOf(tag, _) | Ty::SetOf(tag, _) | Ty::Explicit(tag, _) => is_usable(tag),
    }
}

// Whether the tag is not universal 0.
fn is_usable(tag: &Tag) -> bool
    ensures { IsTrue result ↔ IsUsable tag.now }
{
    tag.class != Class::Universal || tag.number != 0
}

fn runs_are_apart(fields: &[Field]) -> bool
    ensures { IsTrue result ↔ RunsAreApart (components_view fields.now) }
{
    for (i, field) in fields.iter().enumerate() {
        if !is_told_from_run(field, &fields[i + 1..]) {
            return false;
        }
    }
    true
}

// Whether a component that may be absent is apart from the run behind it.
fn is_told_from_run(field: &Field, others: &[Field]) -> bool
    ensures { IsTrue result ↔ (MayBeAbsent (field_view field.now).requirement → AreApart (first_tags (field_view field.now).type) (tags_of_run (components_view others.now))) }
{
    !may_be_absent(&field.presence) || is_apart_from_run(&field.ty, others)
}

// Whether the type is apart from the components up to the first one that must stand, with it.
fn is_apart_from_run(ty: &Ty, others: &[Field]) -> bool
    ensures { IsTrue result ↔ AreApart (first_tags (ty_view ty.now)) (tags_of_run (components_view others.now)) }
{
    for next in others {
        if !are_apart(ty, &next.ty) {
            return false;
        }
        if !may_be_absent(&next.presence) {
            return true;
        }
    }
    true
}

fn components_are_apart(fields: &[Field]) -> bool
    ensures { IsTrue result ↔ ComponentsAreApart (components_view fields.now) }
{
    for (i, field) in fields.iter().enumerate() {
        if !is_apart_from_components(&field.ty, &fields[i + 1..]) {
            return false;
        }
    }
    true
}

fn is_apart_from_components(ty: &Ty, others: &[Field]) -> bool
    ensures { IsTrue result ↔ AreApart (first_tags (ty_view ty.now)) (tags_of_components (components_view others.now)) }
{
    for other in others {
        if !are_apart(ty, &other.ty) {
            return false;
        }
    }
    true
}

fn alternatives_are_apart(alternatives: &[Alternative]) -> bool
    ensures { IsTrue result ↔ AlternativesAreApart (alternatives_view alternatives.now) }
{
    for (i, alternative) in alternatives.iter().enumerate() {
        if !is_apart_from_alternatives(&alternative.ty, &alternatives[i + 1..]) {
            return false;
        }
    }
    true
}

fn is_apart_from_alternatives(ty: &Ty, others: &[Alternative]) -> bool
    ensures { IsTrue result ↔ AreApart (first_tags (ty_view ty.now)) (tags_of_alternatives (alternatives_view others.now)) }
{
    for other in others {
        if !are_apart(ty, &other.ty) {
            return false;
        }
    }
    true
}

// Whether no encoding of one type begins with a tag that one of the other begins with.
fn are_apart(ty: &Ty, other: &Ty) -> bool
    ensures { IsTrue result ↔ AreApart (first_tags (ty_view ty.now)) (first_tags (ty_view other.now)) }
{
    if let Some(tag) = ty.tag() {
        return never_begins(other, tag);
    }
    let Ty::Choice(alternatives) = ty else {
        return true;
    };
    for alternative in alternatives {
        if !are_apart(&alternative.ty, other) {
            return false;
        }
    }
    true
}

// Whether no encoding of the type begins with the tag.
fn never_begins(ty: &Ty, tag: Tag) -> bool
    ensures { IsTrue result ↔ ¬ Contains (first_tags (ty_view ty.now)) tag }
{
    let Ty::Choice(alternatives) = ty else {
        return ty.tag() != Some(tag);
    };
    for alternative in alternatives {
        if !never_begins(&alternative.ty, tag) {
            return false;
        }
    }
    true
}
