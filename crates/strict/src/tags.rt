//! The tags by which the components of a SET are ordered (X.690 9.3 and 10.3).

ghost use Rattle.std.specs.Prelude.{◌↔◌, ⊤, IsTrue, MatchOption};
ghost use Rattle.octets.specs.Rule.{rule_of};
ghost use Rattle.octets.specs.Tag.{ComesBefore};
ghost use Rattle.types.specs.View.{ty_view};
ghost use Rattle.encoding_parts.specs.Parts.{IsGoodType};
ghost use Rattle.strict.specs.Members.{IsOrderTagOf};

use octets::{Canonical, Tag};
use types::{Ty, least_tag};

// The tag by which an encoding of the type is ordered that begins with this one.
pub fn order_tag(rule: Canonical, ty: &Ty, tag: Tag) -> Tag
    requires { IsGoodType (ty_view ty.now) }
    ensures { IsOrderTagOf (rule_of rule) (ty_view ty.now) tag result }
{
    match rule {
        Canonical::Cer => least_tag(ty),
        Canonical::Der => tag,
    }
}

// Whether the tag comes behind the last one, if there is one.
pub fn comes_behind(last: Option<Tag>, tag: Tag) -> bool
    ensures { IsTrue result ↔ MatchOption last ⊤ (λ before. ComesBefore before tag) }
{
    match last {
        Some(before) => before.comes_before(tag),
        None => true,
    }
}
