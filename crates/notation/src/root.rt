//! What a type expression is at its root, through references and implicit tags (X.680 31.2).

ghost use Rattle.std.specs.Prelude.{◌≡◌, ◌↔◌, IsTrue, IfSome, IsNone, None as Nothing};
ghost use Rattle.syntax.specs.Tree.{Tree};
ghost use Rattle.syntax.specs.View.{form, tree};
ghost use Rattle.builtin_types.specs.Tagging.{tag_of};
ghost use Rattle.notation.specs.Settled.{NamesTold, MeansNothing};
ghost use Rattle.notation.specs.Refused.{HasNoType};
ghost use Rattle.notation.specs.Under.{IsAtRoot};
ghost use Rattle.notation.specs.Apart.{IsApart, AreApart};
ghost use Rattle.notation.specs.Known.{IsChoice, IsNoReference, IsOuterWithin, IsReferenceTo, IsScope, LeadsTo, TellsChoice, TellsExplicit};

use crate::scope::Scope;
use builtin_types::tag_of;
use octets::{MAX_TAG_NUMBER, Tag};
use syntax::{Expr, TagMode, TagPrefix, Tagging};

/// A type expression that is neither a reference nor tagged implicitly, and the tag that replaces its
/// outermost one.
#[derive(Clone, Copy)]
pub struct Root<'a> {
    /// The expression.
    pub expr: &'a Expr,
    /// The tag that replaces its outermost one, where one does.
    pub tag: Option<Tag>,
}

impl Root<'_> {
    /// Whether the type is a CHOICE without a tag.
    pub fn is_untagged_choice(self) -> bool
        ensures { IsTrue result ↔ (IsChoice (form self.entry.expr.now) × (self.entry.tag ≡ Nothing)) }
    {
        is_choice(self.expr) && self.tag.is_none()
    }

    /// Whether the number of the outermost tag is within its limit.
    pub fn is_tag_within(self) -> bool
        ensures within { IsTrue result → IsOuterWithin self.entry.tag (form self.entry.expr.now) }
        ensures refused { (m : Tree) → IsAtRoot m (form self.entry.expr.now) → (IsTrue result → ⊥) → HasNoType m self.entry.tag (form self.entry.expr.now) }
    {
        match self.tag {
            Some(tag) => tag.number <= MAX_TAG_NUMBER,
            None => is_own_tag_within(self.expr),
        }
    }
}

fn is_choice(expr: &Expr) -> bool
    ensures { IsTrue result ↔ IsChoice (form expr.now) }
{
    match expr {
        Expr::Choice(_) => true,
        Expr::Tagged(_, _) | Expr::List(_, _) | Expr::Of(_, _) => false,
        Expr::Enumerated(_) | Expr::NamedBits(_) | Expr::Simple(_) | Expr::Reference(_) => false,
    }
}

/// The name that the expression refers to, where it is nothing else.
fn name_in(expr: &Expr) -> Option<&str>
    ensures some { IfSome result (λ name. IsReferenceTo (form expr.now) name.now) }
    ensures none { IsNone result → IsNoReference (form expr.now) }
{
    match expr {
        Expr::Reference(name) => Some(name.as_str()),
        Expr::Tagged(_, _) | Expr::List(_, _) | Expr::Of(_, _) => None,
        Expr::Choice(_) | Expr::Enumerated(_) | Expr::NamedBits(_) | Expr::Simple(_) => None,
    }
}

fn is_own_tag_within(expr: &Expr) -> bool
    ensures within { IsTrue result → IsOuterWithin Nothing (form expr.now) }
    ensures refused { (m : Tree) → IsAtRoot m (form expr.now) → (IsTrue result → ⊥) → HasNoType m Nothing (form expr.now) }
{
    match expr {
        Expr::Tagged(prefix, _) => prefix.number <= MAX_TAG_NUMBER,
        Expr::Choice(_) | Expr::List(_, _) | Expr::Of(_, _) => true,
        Expr::Enumerated(_) | Expr::NamedBits(_) | Expr::Simple(_) | Expr::Reference(_) => true,
    }
}

impl<'a> Scope<'a> {
    /// What the expression is at its root, `outer` being the tag that replaces its outermost one. None
    /// where it leads to a name of which nothing is known.
    pub fn root_of(&self, expr: &'a Expr, outer: Option<Tag>) -> Option<Root<'a>>
        ensures leads { IfSome result (λ root. IsScope self.now.module.now self.now → LeadsTo (tree self.now.module.now) outer (form expr.now) root) }
        ensures apart { IfSome result (λ root. IsScope self.now.module.now self.now → AreApart self.now → IsApart self.now (form expr.now) → IsApart self.now (form root.expr.now)) }
        ensures unknown { IsNone result → IsScope self.now.module.now self.now → NamesTold (tree self.now.module.now) self.now.seen.items (form expr.now) → MeansNothing (tree self.now.module.now) (form expr.now) }
    {
        match expr {
            Expr::Tagged(prefix, inner) => {
                if self.is_explicit(prefix.mode, inner)? {
                    return Some(Root { expr, tag: outer });
                }
                self.root_of(inner, outer.or(Some(tag_of(prefix))))
            }
            Expr::Reference(name) => {
                let root = self.seen_of(name)?.root;
                Some(Root {
                    expr: root.expr,
                    tag: outer.or(root.tag),
                })
            }
            Expr::List(_, _) | Expr::Of(_, _) | Expr::Choice(_) => Some(Root { expr, tag: outer }),
            Expr::Enumerated(_) | Expr::NamedBits(_) | Expr::Simple(_) => {
                Some(Root { expr, tag: outer })
            }
        }
    }

    /// Whether a tag with this keyword is explicit in front of the type: where EXPLICIT is written, and
    /// without a keyword in a module with EXPLICIT TAGS and in front of an untagged CHOICE.
    #[tactic(auto, using(crate::proofs::ScopeLemmas::default_told, crate::proofs::UnderLemmas::explicit_default))]
    pub fn is_explicit(&self, mode: TagMode, inner: &'a Expr) -> Option<bool>
        ensures tells { IfSome result (λ explicit. IsScope self.now.module.now self.now → (prefix : TagPrefix) → prefix.mode ≡ mode → TellsExplicit explicit (tree self.now.module.now) prefix (form inner.now)) }
        ensures unknown { IsNone result → IsScope self.now.module.now self.now → NamesTold (tree self.now.module.now) self.now.seen.items (form inner.now) → MeansNothing (tree self.now.module.now) (form inner.now) }
    {
        match mode {
            TagMode::Explicit => Some(true),
            TagMode::Implicit => Some(false),
            TagMode::Unmarked => match self.module.tagging {
                Tagging::Explicit => Some(true),
                Tagging::Implicit => self.is_untagged_choice(inner),
                Tagging::Automatic => self.is_untagged_choice(inner),
            },
        }
    }

    /// Whether the expression is a CHOICE without a tag, or a reference to one. None where it is a name
    /// of which nothing is known.
    #[tactic(auto, using(crate::proofs::RootLemmas::form_tells, crate::proofs::RootLemmas::named_tells))]
    pub fn is_untagged_choice(&self, expr: &'a Expr) -> Option<bool>
        ensures tells { IfSome result (λ told. IsScope self.now.module.now self.now → TellsChoice told (tree self.now.module.now) (form expr.now)) }
        ensures unknown { IsNone result → IsScope self.now.module.now self.now → NamesTold (tree self.now.module.now) self.now.seen.items (form expr.now) → MeansNothing (tree self.now.module.now) (form expr.now) }
    {
        match name_in(expr) {
            Some(name) => Some(self.seen_of(name)?.root.is_untagged_choice()),
            None => Some(is_choice(expr)),
        }
    }
}
