//! Which type within a CHOICE an encoding is of (X.690 8.13): tags tell the alternatives apart.

ghost use Rattle.std.specs.Prelude.{◌≡◌, ◌↔◌, ◌<◌, ℕ, List, true, false, length, get_or, Contains, IsTrue, IfOk, IfSome, MatchOption};
ghost use Rattle.octets.specs.declared.tag.Tag.{Tag};
ghost use Rattle.octets.specs.Rule.{ber};
ghost use Rattle.types.specs.Encoding.{IsEncoding};
ghost use Rattle.types.specs.FirstTags.{first_tags, tags_of_alternatives};
ghost use Rattle.types.specs.Shape.{Shape, Val};
ghost use Rattle.types.specs.View.{alternatives_view, ty_view, value_view};
ghost use Rattle.encoding_parts.specs.HeldParts.{IsNode};
ghost use Rattle.encoding_parts.specs.Parts.{IsGoodType, IsNodeFor, IsWrapped};

use octets::{NoMemory, Tag};
use std::alloc::Global;
use types::{Alternative, Ty, Value};

/// Whether encodings of the type can begin with the tag. Takes no memory.
#[cycle(choices)]
pub fn begins(ty: &Ty, tag: Tag) -> bool
    ensures { IsTrue result ↔ Contains (first_tags (ty_view ty.now)) tag }
{
    let Ty::Choice(alternatives) = ty else {
        return ty.tag() == Some(tag);
    };
    by_tag(alternatives, tag).is_some()
}

/// What `begins` says, without a call but of a CHOICE: any other type has one tag. Takes no memory.
#[inline(always)]
pub fn can_begin(ty: &Ty, tag: Tag) -> bool
    ensures { IsTrue result ↔ Contains (first_tags (ty_view ty.now)) tag }
{
    match ty.tag() {
        Some(own) => own == tag,
        None => begins(ty, tag),
    }
}

/// The alternative whose encodings can begin with the tag, and its place. None where there is no such alternative.
/// Those whose numbers follow one another are not searched. Takes no memory.
#[cycle(choices)]
pub fn by_tag<'a>(alternatives: &'a [Alternative], tag: Tag) -> Option<(usize, &'a Alternative)>
    ensures { MatchOption result (¬ Contains (tags_of_alternatives (alternatives_view alternatives.now)) tag)
        (λ p. (p.0 < length alternatives.now) × (p.1.now ≡ get_or alternatives.now p.0 p.1.now)
        × Contains (first_tags (ty_view p.1.now.ty)) tag) }
{
    if let Some((which, alternative)) = by_number(alternatives, tag) {
        if alternative.ty.tag() == Some(tag) {
            return Some((which, alternative));
        }
    }
    for (which, alternative) in alternatives.iter().enumerate() {
        if begins(&alternative.ty, tag) {
            return Some((which, alternative));
        }
    }
    None
}

// The alternative at the place that the number of the tag says, counted from the number of the first one's.
fn by_number<'a>(alternatives: &'a [Alternative], tag: Tag) -> Option<(usize, &'a Alternative)>
    ensures { IfSome result (λ p. (p.0 < length alternatives.now) × (p.1.now ≡ get_or alternatives.now p.0 p.1.now)) }
{
    let first = alternatives.first()?.ty.tag()?;
    let which = tag.number.checked_sub(first.number)? as usize;
    Some((which, alternatives.get(which)?))
}

/// The type, which is no CHOICE, of the encodings of `ty` that begin with the tag: `ty` itself, or, of a CHOICE,
/// the node of an alternative. None where no encoding of `ty` begins so. Takes no memory.
pub fn node_of<'a>(ty: &'a Ty, tag: Tag) -> Option<&'a Ty>
    ensures { MatchOption result ((node : Shape) → ¬ IsNodeFor tag (ty_view ty.now) node)
        (λ node. IsNodeFor tag (ty_view ty.now) (ty_view node.now)) }
{
    let Ty::Choice(alternatives) = ty else {
        return if ty.tag() == Some(tag) {
            Some(ty)
        } else {
            None
        };
    };
    let (_, alternative) = by_tag(alternatives, tag)?;
    node_of(&alternative.ty, tag)
}

/// The node that `node_of` finds, where encodings of the type can begin with the tag: only a CHOICE is looked into.
/// Takes no memory.
pub fn node_within<'a>(ty: &'a Ty, tag: Tag) -> Option<&'a Ty>
    requires { Contains (first_tags (ty_view ty.now)) tag }
    ensures { MatchOption result ((node : Shape) → ¬ IsNodeFor tag (ty_view ty.now) node)
        (λ node. IsNodeFor tag (ty_view ty.now) (ty_view node.now)) }
{
    if is_node(ty) {
        Some(ty)
    } else {
        node_of(ty, tag)
    }
}

/// Whether the value of a node of the type (`node_of`) is one of the type itself, as it is unless that is a
/// CHOICE. Takes no memory.
pub fn is_node(ty: &Ty) -> bool
    ensures wrapped { IsTrue result → (tag : Tag) (value : Val) → IsWrapped (ty_view ty.now) tag value value }
    ensures node { IsTrue result ↔ IsNode (ty_view ty.now) }
{
    let Ty::Choice(_) = ty else {
        return true;
    };
    false
}

/// The value of the type that an encoding has which begins with the tag, by the value of that node (`node_of`):
/// `value` itself, or that value in the alternative of each CHOICE around it.
///
/// Asks for a type whose tags tell alternatives apart. Refused where memory runs out; each CHOICE takes some.
pub fn wrap(alloc: Global, ty: &Ty, tag: Tag, value: Value) -> Result<Value, NoMemory>
    requires { IsGoodType (ty_view ty.now) }
    ensures { IfOk result (λ wrapped. (node : Shape) (octets : List ℕ) → IsNodeFor tag (ty_view ty.now) node →
        IsEncoding ber node (value_view value) octets → IsEncoding ber (ty_view ty.now) (value_view wrapped) octets) }
{
    let Ty::Choice(alternatives) = ty else {
        return Ok(value);
    };
    let Some((which, alternative)) = by_tag(alternatives, tag) else {
        return Ok(value);
    };
    let chosen = wrap(alloc, &alternative.ty, tag, value)?;
    Ok(Value::Chosen(which, Box::new(alloc, chosen)?))
}
