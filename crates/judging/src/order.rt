//! The tags by which the components of a SET are ordered (X.690 9.3 and 10.3).

ghost use Rattle.std.specs.Prelude.{◌≡◌, ◌∷◌, Contains};
ghost use Rattle.types.specs.FirstTags.{first_tags, tags_of_alternatives};
ghost use Rattle.types.specs.Order.{IsLeast};
ghost use Rattle.types.specs.View.{ty_view, alternatives_view};

use octets::{Canonical, Tag};
use types::{Alternative, Ty};

/// The tag by which a component is ordered that begins with this one: the least that its type can begin with under
/// CER, the one that stands there under DER.
pub fn order_tag(rule: Canonical, ty: &Ty, tag: Tag) -> Tag
    ensures cer { rule ≡ Canonical.Cer → Contains (first_tags (ty_view ty.now)) tag →
        IsLeast (first_tags (ty_view ty.now)) result }
    ensures der { rule ≡ Canonical.Der → result ≡ tag }
{
    match rule {
        Canonical::Der => tag,
        Canonical::Cer => match ty.tag() {
            Some(_) => tag,
            None => least_of_type(ty, tag),
        },
    }
}

// The least tag that the alternatives can begin with, or `tag` if it is less.
#[cycle(least)]
fn least_of(alternatives: &[Alternative], tag: Tag) -> Tag
    ensures { IsLeast (tag ∷ tags_of_alternatives (alternatives_view alternatives.now)) result }
{
    let mut least = tag;
    for alternative in alternatives {
        least = least_of_type(&alternative.ty, least);
    }
    least
}

#[cycle(least)]
fn least_of_type(ty: &Ty, tag: Tag) -> Tag
    ensures { IsLeast (tag ∷ first_tags (ty_view ty.now)) result }
{
    if let Some(own) = ty.tag() {
        return if own.comes_before(tag) { own } else { tag };
    }
    let Ty::Choice(alternatives) = ty else {
        unreachable!()
    };
    least_of(alternatives, tag)
}
