//! The type that an expression means.

ghost use Rattle.std.specs.Prelude.{◌≢◌, suc, Option, IfOk, IfErr, map, None as Nothing};
ghost use Rattle.types.specs.View.{ty_view, field_view, requirement_view};
ghost use Rattle.types.specs.Shape.{Requirement};
ghost use Rattle.syntax.specs.Tree.{Tree, list, choice, enumerated, named_bits};
ghost use Rattle.syntax.specs.View.{form, tree, component, alternative, components_of, alternatives_of, entry, bit, ending};
ghost use Rattle.builtin_types.specs.Defaults.{IsRequirement};
ghost use Rattle.builtin_types.specs.Names.{NamesDiffer};
ghost use Rattle.notation.specs.Meaning.{IsMeaning};
ghost use Rattle.notation.specs.Under.{MeansUnder};
ghost use Rattle.notation.specs.Parts.{IsPart};
ghost use Rattle.notation.specs.Made.{IsAround, IsRepeated, AreMade};
ghost use Rattle.notation.specs.Settled.{MeansNothing};
ghost use Rattle.notation.specs.Apart.{CanMake};
ghost use Rattle.notation.specs.Refused.{HasNoTypeWithin, PartHasNoTypeWithin};

use crate::scope::Scope;
use builtin_types::{
    Cause, Stop, are_alternatives_tagged, are_components_tagged, automatic_tag, bit_string_tag,
    default_of, enumerated_tag, group_tag, list_type, named_bits, numbered, of_type, simple_tag,
    simple_type, tag_of,
};
use octets::Tag;
use std::alloc::{AllocError, Global};
use syntax::{Alternative, Component, Expr, Group, Item, NamedBit, Presence};
use types::{Field, Ty};

impl<'a> Scope<'a> {
    /// The type that the expression means, `outer` being the tag that replaces its outermost one. At
    /// most `depth` nodes stand one within the other.
    #[cycle(expanding)]
    pub fn expand(
        &self,
        alloc: Global,
        expr: &'a Expr,
        outer: Option<Tag>,
        depth: usize,
    ) -> Result<Ty, Stop>
        ensures value { IfOk result (λ ty. CanMake self.now.module.now self.now (form expr.now) → MeansUnder (tree self.now.module.now) outer (form expr.now) (ty_view ty)) }
        ensures never { IfErr result (λ stop. stop ≢ Stop.NoMemory → CanMake self.now.module.now self.now (form expr.now) → HasNoTypeWithin (tree self.now.module.now) depth outer (form expr.now)) }
    {
        let root = self.root_of(expr, outer).ok_or(Cause::UnknownType)?;
        let depth = depth.checked_sub(1).ok_or(Cause::TooLarge)?;
        match root.expr {
            Expr::Tagged(prefix, inner) => {
                self.explicit(alloc, root.tag.unwrap_or(tag_of(prefix)), inner, depth)
            }
            Expr::List(group, components) => {
                let fields = self.fields(alloc, components, depth)?;
                Ok(list_type(*group, root.tag.unwrap_or(group_tag(*group)), fields))
            }
            Expr::Of(group, inner) => {
                self.of(
                    alloc,
                    *group,
                    root.tag.unwrap_or(group_tag(*group)),
                    inner,
                    depth,
                )
            }
            Expr::Choice(alternatives) => match root.tag {
                Some(_) => Err(Stop::Refused(Cause::ImplicitChoice)),
                None => self.choice(alloc, alternatives, depth),
            },
            Expr::Enumerated(items) => enumerated(alloc, root.tag, items),
            Expr::NamedBits(bits) => Ok(bit_string(alloc, root.tag, bits)?),
            Expr::Simple(simple) => {
                Ok(simple_type(*simple, root.tag.unwrap_or(simple_tag(*simple))))
            }
            Expr::Reference(_) => Err(Stop::Refused(Cause::UnknownType)),
        }
    }

    #[cycle(expanding)]
    fn explicit(&self, alloc: Global, tag: Tag, inner: &'a Expr, depth: usize) -> Result<Ty, Stop>
        ensures value { IfOk result (λ ty. CanMake self.now.module.now self.now (form inner.now) → IsAround (tree self.now.module.now) tag (form inner.now) (ty_view ty)) }
        ensures never { IfErr result (λ stop. stop ≢ Stop.NoMemory → CanMake self.now.module.now self.now (form inner.now) → HasNoTypeWithin (tree self.now.module.now) depth Nothing (form inner.now)) }
    {
        let inner = self.expand(alloc, inner, None, depth)?;
        Ok(Ty::Explicit(tag, Box::new(alloc, inner)?))
    }

    #[cycle(expanding)]
    fn of(
        &self,
        alloc: Global,
        group: Group,
        tag: Tag,
        inner: &'a Expr,
        depth: usize,
    ) -> Result<Ty, Stop>
        ensures value { IfOk result (λ ty. CanMake self.now.module.now self.now (form inner.now) → IsRepeated (tree self.now.module.now) group tag (form inner.now) (ty_view ty)) }
        ensures never { IfErr result (λ stop. stop ≢ Stop.NoMemory → CanMake self.now.module.now self.now (form inner.now) → HasNoTypeWithin (tree self.now.module.now) depth Nothing (form inner.now)) }
    {
        let inner = self.expand(alloc, inner, None, depth)?;
        Ok(of_type(group, tag, Box::new(alloc, inner)?))
    }

    #[cycle(expanding)]
    fn fields(
        &self,
        alloc: Global,
        components: &'a [Component],
        depth: usize,
    ) -> Result<Vec<Field>, Stop>
        ensures value { IfOk result (λ fields. (group : Group) → CanMake self.now.module.now self.now (list group (components_of (map component components.now))) → AreMade (tree self.now.module.now) (map component components.now) (map field_view fields.items)) }
        ensures never { IfErr result (λ stop. stop ≢ Stop.NoMemory → (group : Group) → CanMake self.now.module.now self.now (list group (components_of (map component components.now))) → (under : Option Tag) → HasNoTypeWithin (tree self.now.module.now) (suc depth) under (list group (components_of (map component components.now)))) }
    {
        let automatic = self.is_automatic(are_components_tagged(components));
        let mut fields = Vec::with_capacity(alloc, components.len())?;
        for (place, component) in components.iter().enumerate() {
            let ty = self.part(alloc, automatic, place, &component.body, depth)?;
            let presence = presence_of(alloc, &ty, &component.presence)?;
            let name = component.name.clone()?;
            fields.push(Field { name, ty, presence })?;
        }
        Ok(fields)
    }

    #[cycle(expanding)]
    fn choice(
        &self,
        alloc: Global,
        alternatives: &'a [Alternative],
        depth: usize,
    ) -> Result<Ty, Stop>
        ensures value { IfOk result (λ ty. CanMake self.now.module.now self.now (choice (alternatives_of (map alternative alternatives.now))) → IsMeaning (tree self.now.module.now) (choice (alternatives_of (map alternative alternatives.now))) (ty_view ty)) }
        ensures never { IfErr result (λ stop. stop ≢ Stop.NoMemory → CanMake self.now.module.now self.now (choice (alternatives_of (map alternative alternatives.now))) → (under : Option Tag) → HasNoTypeWithin (tree self.now.module.now) (suc depth) under (choice (alternatives_of (map alternative alternatives.now)))) }
    {
        let automatic = self.is_automatic(are_alternatives_tagged(alternatives));
        let mut found = Vec::with_capacity(alloc, alternatives.len())?;
        for (place, alternative) in alternatives.iter().enumerate() {
            let ty = self.part(alloc, automatic, place, &alternative.body, depth)?;
            let name = alternative.name.clone()?;
            found.push(types::Alternative { name, ty })?;
        }
        Ok(Ty::Choice(found))
    }

    /// The type of a component or an alternative, in a list that has automatic tags with that of its
    /// place, which is explicit in front of an untagged CHOICE.
    #[cycle(expanding)]
    fn part(
        &self,
        alloc: Global,
        automatic: bool,
        place: usize,
        body: &'a Expr,
        depth: usize,
    ) -> Result<Ty, Stop>
        ensures value { IfOk result (λ ty. CanMake self.now.module.now self.now (form body.now) → IsPart (tree self.now.module.now) automatic place (form body.now) (ty_view ty)) }
        ensures never { IfErr result (λ stop. stop ≢ Stop.NoMemory → CanMake self.now.module.now self.now (form body.now) → PartHasNoTypeWithin (tree self.now.module.now) depth automatic place (form body.now)) }
    {
        if !automatic {
            return self.expand(alloc, body, None, depth);
        }
        let tag = automatic_tag(place).ok_or(Cause::TooLarge)?;
        if self.is_untagged_choice(body).ok_or(Cause::UnknownType)? {
            let depth = depth.checked_sub(1).ok_or(Cause::TooLarge)?;
            self.explicit(alloc, tag, body, depth)
        } else {
            self.expand(alloc, body, Some(tag), depth)
        }
    }
}

fn enumerated(alloc: Global, outer: Option<Tag>, items: &[Item]) -> Result<Ty, Stop>
    ensures value { IfOk result (λ ty. NamesDiffer (map (λ entry. entry.0) (map entry items.now)) → (m : Tree) → MeansUnder m outer (enumerated (map entry items.now)) (ty_view ty)) }
    ensures never { IfErr result (λ stop. stop ≢ Stop.NoMemory → (m : Tree) → MeansNothing m (enumerated (map entry items.now))) }
{
    let tag = outer.unwrap_or(enumerated_tag());
    Ok(Ty::Enumerated(tag, numbered(alloc, items)?))
}

/// A BIT STRING with these named bits.
fn bit_string(alloc: Global, outer: Option<Tag>, bits: &[NamedBit]) -> Result<Ty, AllocError>
    ensures { IfOk result (λ ty. NamesDiffer (map (λ bit. bit.0) (map bit bits.now)) → (m : Tree) → MeansUnder m outer (named_bits (map bit bits.now)) (ty_view ty)) }
{
    let tag = outer.unwrap_or(bit_string_tag());
    Ok(Ty::NamedBits(tag, named_bits(alloc, bits)?))
}

fn presence_of(alloc: Global, ty: &Ty, written: &Presence) -> Result<types::Presence, Stop>
    ensures value { IfOk result (λ presence. IsRequirement (ty_view ty.now) (ending written.now) (requirement_view presence)) }
    ensures never { IfErr result (λ stop. stop ≢ Stop.NoMemory → (requirement : Requirement) → ¬ IsRequirement (ty_view ty.now) (ending written.now) requirement) }
{
    match written {
        Presence::Required => Ok(types::Presence::Required),
        Presence::Optional => Ok(types::Presence::Optional),
        Presence::Default(value) => Ok(types::Presence::Default(default_of(alloc, ty, value)?)),
    }
}
