//! The least tags of types, by which CER orders the components of a SET (X.690 9.3).

ghost use Rattle.std.specs.List.{AllByRecursion};
ghost use Rattle.types.specs.FirstTags.{first_tags, tags_of_alternatives};
ghost use Rattle.types.specs.Order.{IsLeast};
ghost use Rattle.types.specs.Shape.{Shape};
ghost use Rattle.types.specs.View.{ty_view, alternatives_view};
ghost use Rattle.types.specs.WellFormed.{nodes_of, IsNodeWithin};

use crate::ty::{Alternative, Ty};
use octets::Tag;

/// The least tag that the encodings of the type begin with: its own, or, of a CHOICE, the least of its alternatives'.
/// Takes no memory.
#[cycle(least)]
pub fn least_tag(ty: &Ty) -> Tag
    requires { AllByRecursion IsNodeWithin (nodes_of (ty_view ty.now)) }
    ensures { IsLeast (first_tags (ty_view ty.now)) result }
{
    if let Some(tag) = ty.tag() {
        return tag;
    }
    let Ty::Choice(alternatives) = ty else {
        unreachable!()
    };
    least_of(alternatives)
}

// The least tag that the encodings of the alternatives begin with.
#[cycle(least)]
fn least_of(alternatives: &[Alternative]) -> Tag
    requires { AllByRecursion IsNodeWithin (nodes_of (Shape.choice (alternatives_view alternatives.now))) }
    ensures { IsLeast (tags_of_alternatives (alternatives_view alternatives.now)) result }
{
    // From the last to the first: what is behind an alternative is a list of the definition.
    let last = alternatives.len() - 1;
    let mut least = least_tag(&alternatives[last].ty);
    for done in 0..last {
        let tag = least_tag(&alternatives[last - 1 - done].ty);
        if tag.comes_before(least) {
            least = tag;
        }
    }
    least
}
