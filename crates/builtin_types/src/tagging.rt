//! Tags that are written (X.680 31.2), and automatic tagging (25.3, 25.7 and 29.2).

ghost use Rattle.std.specs.Prelude.{◌≡◌, ◌≤◌, IfSome, IsNone, map};
ghost use Rattle.syntax.specs.View.{component, alternative, form};
ghost use Rattle.builtin_types.specs.Tagging.{tag_of, context, has_automatic_tags, is_tag_written, are_written_with_tag, are_alternatives_written_with_tag};

use octets::{Class, Tag};
use syntax::{Alternative, Component, Expr, TagClass, TagPrefix, Tagging};

/// The tag that is written in front of a type, context-specific where no class is (X.680 31.2). Takes no
/// memory.
pub fn tag_of(prefix: &TagPrefix) -> Tag
    ensures { result ≡ tag_of prefix.now }
{
    Tag {
        class: match prefix.class {
            TagClass::ContextSpecific => Class::Context,
            TagClass::Application => Class::Application,
            TagClass::Private => Class::Private,
        },
        number: prefix.number,
    }
}

/// Whether a list is tagged automatically: in a module with AUTOMATIC TAGS, where no part of it is written
/// with a tag (X.680 25.3 and 29.2). Takes no memory.
pub fn is_automatic(tagging: Tagging, tagged: bool) -> bool
    ensures { result ≡ has_automatic_tags tagging tagged }
{
    match tagging {
        Tagging::Automatic => !tagged,
        Tagging::Explicit | Tagging::Implicit => false,
    }
}

/// Whether the type of a component is written with a tag (X.680 25.3); a reference is not, whatever it
/// means. Takes no memory.
pub fn are_components_tagged(components: &[Component]) -> bool
    ensures { result ≡ are_written_with_tag (map component components.now) }
{
    for component in components {
        if is_tagged(&component.body) {
            return true;
        }
    }
    false
}

/// Whether the type of an alternative is written with a tag (X.680 29.2); a reference is not, whatever it
/// means. Takes no memory.
pub fn are_alternatives_tagged(alternatives: &[Alternative]) -> bool
    ensures { result ≡ are_alternatives_written_with_tag (map alternative alternatives.now) }
{
    for alternative in alternatives {
        if is_tagged(&alternative.body) {
            return true;
        }
    }
    false
}

fn is_tagged(expr: &Expr) -> bool
    ensures { result ≡ is_tag_written (form expr.now) }
{
    match expr {
        Expr::Tagged(_, _) => true,
        Expr::List(_, _) | Expr::Of(_, _) | Expr::Choice(_) => false,
        Expr::Enumerated(_) | Expr::NamedBits(_) => false,
        Expr::Simple(_) | Expr::Reference(_) => false,
    }
}

/// The automatic tag of the part at this place, the first at 0, where its number is one of 32 bits (X.680
/// 25.7). Takes no memory.
pub fn automatic_tag(place: usize) -> Option<Tag>
    ensures tag { IfSome result (λ tag. tag ≡ context place) }
    ensures none { IsNone result → 4_294_967_296 ≤ place }
{
    Some(Tag {
        class: Class::Context,
        number: u32::try_from(place).ok()?,
    })
}
