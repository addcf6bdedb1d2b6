//! How large the type of an expression is, and what is wrong with it, as far as its own text and what
//! is known of the names in it tell.

ghost use Rattle.std.specs.Prelude.{◌≡◌, ◌↔◌, ◌≤◌, ℕ, IfOk, IsTrue, map, None as Nothing};
ghost use Rattle.syntax.specs.declared.tree.Group.{Group};
ghost use Rattle.syntax.specs.Tree.{Tree, tagged, list, choice, enumerated, named_bits};
ghost use Rattle.syntax.specs.View.{form, tree, component, alternative, entry, bit, components_of, alternatives_of};
ghost use Rattle.builtin_types.specs.Names.{NamesDiffer};
ghost use Rattle.notation.specs.Known.{IsScope};
ghost use Rattle.notation.specs.Apart.{IsApart};
ghost use Rattle.notation.specs.Weighed.{CanWeigh, IsWeight, IsOwnWeight, IsPartWeight};

use crate::scope::Scope;
use crate::weight::Weight;
use builtin_types::{
    Cause, alternatives_differ, are_alternatives_tagged, are_bits_within, are_components_tagged,
    are_numbers_within, bit_numbers_differ, components_differ, items_differ, named_bits_differ,
    numbers_differ,
};
use std::alloc::{AllocError, Global};
use syntax::{Alternative, Component, Expr, Item, NamedBit, TagMode, TagPrefix};
use types::MAX_LIST;

impl<'a> Scope<'a> {
    /// How large the type is. The tag that a type within it begins with is judged there, its own tag is
    /// not.
    #[cycle(weighing)]
    pub fn weight_of(&self, alloc: Global, expr: &'a Expr) -> Result<Weight, AllocError>
        ensures weight { IfOk result (λ weight. CanWeigh self.now.module.now self.now (form expr.now) → IsWeight (tree self.now.module.now) (form expr.now) weight) }
        ensures apart { IfOk result (λ weight. IsScope self.now.module.now self.now → weight.cause ≡ Nothing → IsApart self.now (form expr.now)) }
    {
        match expr {
            Expr::Tagged(prefix, inner) => self.weight_of_tagged(alloc, prefix, inner),
            Expr::List(_, components) => self.weight_of_list(alloc, components),
            Expr::Of(_, inner) => Ok(self.weight_within(alloc, inner)?.as_constructed()),
            Expr::Choice(alternatives) => self.weight_of_choice(alloc, alternatives),
            Expr::Enumerated(items) => weight_of_items(alloc, items),
            Expr::NamedBits(bits) => weight_of_bits(alloc, bits),
            Expr::Simple(_) => Ok(Weight::NOTHING.with_node()),
            Expr::Reference(name) => Ok(match self.seen_of(name) {
                Some(seen) => seen.weight,
                None => Weight::refused(Cause::UnknownType),
            }),
        }
    }

    #[cycle(weighing)]
    fn weight_of_tagged(
        &self,
        alloc: Global,
        prefix: &TagPrefix,
        inner: &'a Expr,
    ) -> Result<Weight, AllocError>
        ensures weight { IfOk result (λ weight. CanWeigh self.now.module.now self.now (form inner.now) → IsWeight (tree self.now.module.now) (tagged prefix.now (form inner.now)) weight) }
        ensures apart { IfOk result (λ weight. IsScope self.now.module.now self.now → weight.cause ≡ Nothing → IsApart self.now (form inner.now)) }
    {
        if self.is_explicit(prefix.mode, inner) == Some(true) {
            return Ok(self.weight_within(alloc, inner)?.as_constructed());
        }
        let is_choice = self.is_untagged_choice(inner) == Some(true);
        let fits = prefix.mode != TagMode::Implicit || !is_choice;
        Ok(
            self.weight_of(alloc, inner)?
                .unless(fits, Cause::ImplicitChoice),
        )
    }

    #[cycle(weighing)]
    fn weight_of_list(
        &self,
        alloc: Global,
        components: &'a [Component],
    ) -> Result<Weight, AllocError>
        ensures weight { IfOk result (λ weight. (group : Group) → CanWeigh self.now.module.now self.now (list group (components_of (map component components.now))) → IsWeight (tree self.now.module.now) (list group (components_of (map component components.now))) weight) }
        ensures apart { IfOk result (λ weight. IsScope self.now.module.now self.now → weight.cause ≡ Nothing → (group : Group) → IsApart self.now (list group (components_of (map component components.now)))) }
    {
        let automatic = self.is_automatic(are_components_tagged(components));
        let mut weight = Weight::NOTHING;
        for component in components {
            weight = weight.beside(self.weight_of_part(alloc, automatic, &component.body)?);
        }
        Ok(
            weight
                .as_constructed()
                .unless(components.len() <= MAX_LIST, Cause::TooLarge)
                .unless(components_differ(alloc, components)?, Cause::RepeatedName),
        )
    }

    #[cycle(weighing)]
    fn weight_of_choice(
        &self,
        alloc: Global,
        alternatives: &'a [Alternative],
    ) -> Result<Weight, AllocError>
        ensures weight { IfOk result (λ weight. CanWeigh self.now.module.now self.now (choice (alternatives_of (map alternative alternatives.now))) → IsWeight (tree self.now.module.now) (choice (alternatives_of (map alternative alternatives.now))) weight) }
        ensures apart { IfOk result (λ weight. IsScope self.now.module.now self.now → weight.cause ≡ Nothing → IsApart self.now (choice (alternatives_of (map alternative alternatives.now)))) }
    {
        let automatic = self.is_automatic(are_alternatives_tagged(alternatives));
        let mut weight = Weight::NOTHING;
        for alternative in alternatives {
            weight = weight.beside(self.weight_of_part(alloc, automatic, &alternative.body)?);
        }
        Ok(
            weight
                .with_node()
                .unless(is_length_within(alternatives.len()), Cause::TooLarge)
                .unless(
                    alternatives_differ(alloc, alternatives)?,
                    Cause::RepeatedName,
                ),
        )
    }

    /// How large a component or an alternative is, which may be tagged automatically.
    #[cycle(weighing)]
    fn weight_of_part(
        &self,
        alloc: Global,
        automatic: bool,
        body: &'a Expr,
    ) -> Result<Weight, AllocError>
        ensures weight { IfOk result (λ weight. CanWeigh self.now.module.now self.now (form body.now) → (place : ℕ) → IsPartWeight (tree self.now.module.now) automatic place (form body.now) weight) }
        ensures apart { IfOk result (λ weight. IsScope self.now.module.now self.now → weight.cause ≡ Nothing → IsApart self.now (form body.now)) }
    {
        if !automatic {
            return self.weight_within(alloc, body);
        }
        let weight = self.weight_of(alloc, body)?;
        if self.is_untagged_choice(body) == Some(true) {
            Ok(weight.as_constructed())
        } else {
            Ok(weight)
        }
    }

    /// How large a type is that stands with its own tag.
    #[cycle(weighing)]
    pub fn weight_within(&self, alloc: Global, expr: &'a Expr) -> Result<Weight, AllocError>
        ensures weight { IfOk result (λ weight. CanWeigh self.now.module.now self.now (form expr.now) → IsOwnWeight (tree self.now.module.now) (form expr.now) weight) }
        ensures apart { IfOk result (λ weight. IsScope self.now.module.now self.now → weight.cause ≡ Nothing → IsApart self.now (form expr.now)) }
    {
        let weight = self.weight_of(alloc, expr)?;
        match self.root_of(expr, None) {
            Some(root) => Ok(weight.unless(root.is_tag_within(), Cause::TooLarge)),
            None => Ok(weight),
        }
    }
}

fn weight_of_items(alloc: Global, items: &[Item]) -> Result<Weight, AllocError>
    ensures weight { IfOk result (λ weight. (m : Tree) → IsWeight m (enumerated (map entry items.now)) weight) }
    ensures apart { IfOk result (λ weight. weight.cause ≡ Nothing → NamesDiffer (map (λ entry. entry.0) (map entry items.now))) }
{
    let weight = Weight::NOTHING.with_node();
    let within = is_length_within(items.len()) && are_numbers_within(items);
    Ok(
        weight
            .unless(within, Cause::TooLarge)
            .unless(items_differ(alloc, items)?, Cause::RepeatedName)
            .unless(numbers_differ(alloc, items)?, Cause::RepeatedNumber),
    )
}

fn weight_of_bits(alloc: Global, bits: &[NamedBit]) -> Result<Weight, AllocError>
    ensures weight { IfOk result (λ weight. (m : Tree) → IsWeight m (named_bits (map bit bits.now)) weight) }
    ensures apart { IfOk result (λ weight. weight.cause ≡ Nothing → NamesDiffer (map (λ bit. bit.0) (map bit bits.now))) }
{
    let weight = Weight::NOTHING.with_node();
    let within = is_length_within(bits.len()) && are_bits_within(bits);
    Ok(
        weight
            .unless(within, Cause::TooLarge)
            .unless(named_bits_differ(alloc, bits)?, Cause::RepeatedName)
            .unless(bit_numbers_differ(alloc, bits)?, Cause::RepeatedNumber),
    )
}

/// Whether a CHOICE, an ENUMERATED or a list of named bits may have so many alternatives, items or bits.
fn is_length_within(length: usize) -> bool
    ensures { IsTrue result ↔ ((1 ≤ length) × (length ≤ 256)) }
{
    1 <= length && length <= MAX_LIST
}
