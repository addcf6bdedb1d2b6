//! What stands at the front where a component must begin or the contents octets end.

ghost use Rattle.std.specs.Prelude.{◌≡◌, ◌↔◌, ◌⊎◌, Option, Contains, IsTrue, IfOk, IfErr, MatchOption};
ghost use Rattle.octets.specs.declared.canonical.Canonical.{Canonical};
ghost use Rattle.octets.specs.declared.tag.Tag.{Tag};
ghost use Rattle.octets.specs.Rule.{rule_of};
ghost use Rattle.types.specs.FirstTags.{first_tags};
ghost use Rattle.types.specs.Refusal.{IsFinal};
ghost use Rattle.types.specs.View.{ty_view};
ghost use Rattle.encoding_parts.specs.Parts.{IsGoodType};
ghost use Rattle.strict.specs.Bars.{RefusesStrictly};
ghost use Rattle.strict.specs.Components.{IsFront, EndsOrBegins};
ghost use Rattle.strict.specs.Head.{AreFewer};
ghost use Rattle.strict.specs.Reading.{HasPart};
ghost use Rattle.strict.specs.Refusal.{IsOfStrictReading};

use crate::ends::ends;
use crate::head::Inside;
use encoding_parts::{begins, can_begin, not_due, not_next, read_head_tag};
use octets::Tag;
use types::{Field, Refusal, Ty, Value};

// The tag at the front, or none where the contents octets end there.
#[inline(always)]
pub fn front_tag(definite: bool, room: usize, octets: &[u8]) -> Result<Option<Tag>, Refusal>
    ensures value { IfOk result (λ front. IsFront front definite room octets.now) }
    ensures refused { IfErr result (RefusesStrictly (EndsOrBegins definite room) (AreFewer definite room) octets.now) }
{
    if ends(definite, room, octets)? {
        return Ok(None);
    }
    let (tag, _, _) = read_head_tag(room, 0, octets)?;
    Ok(Some(tag))
}

// Whether the tag at the front is one that encodings of the type begin with.
#[inline(always)]
pub fn stands_next(definite: bool, room: usize, octets: &[u8], ty: &Ty) -> Result<bool, Refusal>
    ensures value { IfOk result (λ stands. (front : Option Tag) × IsFront front definite room octets.now
        × (IsTrue stands ↔ MatchOption front ⊥ (λ tag. Contains (first_tags (ty_view ty.now)) tag))) }
    ensures refused { IfErr result (RefusesStrictly (EndsOrBegins definite room) (AreFewer definite room) octets.now) }
{
    match front_tag(definite, room, octets)? {
        Some(tag) => Ok(can_begin(ty, tag)),
        None => Ok(false),
    }
}

// Why no encoding of the component is read at the front, before these: it is refused so, or none begins there.
#[inline(never)]
pub fn why_not_read(
    refusal: Refusal,
    inside: &Inside,
    octets: &[u8],
    field: &Field,
    later: &[Field],
) -> Refusal
    requires { IsGoodType (ty_view field.now.ty) }
    ensures { (result ≡ refusal) ⊎ ((rule : Canonical) → RefusesStrictly (HasPart (rule_of rule) (ty_view field.now.ty) inside.now.room) (AreFewer inside.now.definite inside.now.room) octets.now result) }
{
    match front_tag(inside.definite, inside.room, octets) {
        Ok(Some(tag)) => if begins(&field.ty, tag) {
            refusal
        } else {
            not_next(later, tag)
        },
        Ok(None) => Refusal::Missing,
        Err(unknown) => unknown,
    }
}

// Why the tag is refused behind the components that have these slots.
pub fn left_over(tag: Tag, slots: &[Option<Value>]) -> Refusal
    ensures never { IsFinal result }
    ensures numbers { IsOfStrictReading result }
{
    match slots.last() {
        Some(None) => not_due(tag),
        Some(Some(_)) => Refusal::Identifier,
        None => Refusal::Identifier,
    }
}
