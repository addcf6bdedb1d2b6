//! The tags by which the components of a SET are ordered (X.690 9.3 and 10.3).

ghost use Rattle.std.specs.Prelude.{◌≡◌, ◌≤◌, ◌+◌, ◌*◌, ◌^◌, ◌∷◌, IsTrue};
ghost use Rattle.std.specs.List.{AllPairs};
ghost use Rattle.octets.specs.declared.TheConstants.{MAX_TAG_NUMBER};
ghost use Rattle.octets.specs.declared.tag.Tag.{Tag as TagOf};
ghost use Rattle.octets.specs.Identifier.{class_bits};
ghost use Rattle.octets.specs.Rule.{rule_of};
ghost use Rattle.octets.specs.Tag.{ComesBefore};
ghost use Rattle.types.specs.FirstTags.{tags_of_components};
ghost use Rattle.types.specs.Shape.{Val};
ghost use Rattle.types.specs.Encoding.{IsEncoding};
ghost use Rattle.types.specs.Order.{BeginsWith, IsOrderTag};
ghost use Rattle.types.specs.View.{components_view, ty_view};
ghost use Rattle.canon.specs.Node.{HasGoodNodes};

use octets::{Canonical, Head, Tag, class_octet, read_identifier};
use types::{Field, Ty, least_tag};

// The tag by which an encoding of the type is ordered. Takes no memory.
pub(crate) fn order_tag(rule: Canonical, ty: &Ty, encoding: &[u8]) -> Tag
    requires { HasGoodNodes (ty_view ty.now) }
    ensures { (v : Val) → IsEncoding (rule_of rule) (ty_view ty.now) v encoding.now →
        IsOrderTag (rule_of rule) (ty_view ty.now) encoding.now result }
{
    if let Some(tag) = ty.tag() {
        return tag;
    }
    match rule {
        Canonical::Cer => least_tag(ty),
        Canonical::Der => tag_at_front(encoding),
    }
}

// Whether each component has a tag of its own, and they are declared in the order of these. Takes no memory.
pub(crate) fn are_declared_by_tag(fields: &[Field]) -> bool
    ensures { IsTrue result → AllPairs ComesBefore (tags_of_components (components_view fields.now)) }
{
    let Some((first, others)) = fields.split_first() else {
        return true;
    };
    match first.ty.tag() {
        Some(tag) => rise_from(number_of_tag(tag), others),
        None => false,
    }
}

// Whether that is so of these components, and their tags come behind the one of this number.
fn rise_from(before: u64, fields: &[Field]) -> bool
    ensures { IsTrue result → (tag : TagOf) → before ≡ class_bits tag.class * 2 ^ 56 + tag.number →
        AllPairs ComesBefore (tag ∷ tags_of_components (components_view fields.now)) }
{
    let Some((first, others)) = fields.split_first() else {
        return true;
    };
    match first.ty.tag() {
        Some(tag) => {
            let number = number_of_tag(tag);
            before < number && rise_from(number, others)
        }
        None => false,
    }
}

// The class of a tag as the first two bits of a word, and its number as the last 32: so two are compared in one step.
fn number_of_tag(tag: Tag) -> u64
    ensures { result ≡ class_bits tag.class * 2 ^ 56 + tag.number }
{
    (u64::from(class_octet(tag.class)) << 56) + u64::from(tag.number)
}

// The tag that stands at the front of octets; some tag where none does.
fn tag_at_front(octets: &[u8]) -> Tag
    ensures { (tag : TagOf) → tag.number ≤ MAX_TAG_NUMBER → BeginsWith tag octets.now →
        BeginsWith result octets.now }
{
    match read_identifier(octets) {
        Head::Done { tag, .. } => tag,
        Head::More | Head::Bad => Tag::universal(0),
    }
}
