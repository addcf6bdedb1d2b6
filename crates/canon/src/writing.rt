//! Whole values, written from the first octet to the last. The parts of a SET or SET OF are put in order once
//! they stand.

ghost use Rattle.std.specs.Prelude.{map, IfOk, OnErr};
ghost use Rattle.octets.specs.Rule.{rule_of};
ghost use Rattle.types.specs.Encoding.{IsEncoding};
ghost use Rattle.types.specs.FirstTags.{tags_of_components, AreDistinct};
ghost use Rattle.types.specs.Leaf.{IsLeaf};
ghost use Rattle.types.specs.Shape.{Shape};
ghost use Rattle.types.specs.View.{ty_view, value_view, alternatives_view, components_view, slots_view};
ghost use Rattle.canon.specs.Node.{ArePartsOf, AreItems, AreItemsInOrder, AreComponents, AreComponentsByTag};
ghost use Rattle.canon.specs.Part.{IsPut, Keeps};
ghost use Rattle.canon.specs.Writes.{IsWritable, AreWritable, AreWritableSlots, Writes};

use crate::heads::{put_closing, put_opening};
use crate::leaf::put_leaf;
use crate::leaves::put_leaves;
use crate::parts::{chosen_in, items_in, slots_in};
use crate::spans::{Keyed, Span, arrange, arrange_by_tag, part, with_key_of};
use crate::tags::{are_declared_by_tag, order_tag};
use crate::writer::Writer;
use octets::NoMemory;
use types::{Alternative, Field, Ty, Value};

impl Writer {
    // Appends the encoding of `value`, or a part of it where memory runs out.
    #[cycle(writing)]
    #[inline(always)]
    pub(crate) fn put_value(self, ty: &Ty, value: &Value, out: &mut Vec<u8>) -> Result<(), NoMemory>
        requires { IsWritable (ty_view ty.now) (value_view value.now) }
        ensures { Writes (IsEncoding (rule_of self.rule) (ty_view ty.now) (value_view value.now))
            result out.old.items out.new.items }
    {
        match ty.leaf_tag() {
            Some(tag) => put_leaf(self.rule, tag, value, out),
            None => self.put_node(ty, value, out),
        }
    }

    // Appends the encoding of a value of a type that has parts. One under an explicit tag needs none of the room that
    // `put_constructed` takes on the stack.
    #[cycle(writing)]
    #[inline(never)]
    fn put_node(self, ty: &Ty, value: &Value, out: &mut Vec<u8>) -> Result<(), NoMemory>
        requires parts { ¬ IsLeaf (ty_view ty.now) }
        requires writable { IsWritable (ty_view ty.now) (value_view value.now) }
        ensures { Writes (IsEncoding (rule_of self.rule) (ty_view ty.now) (value_view value.now))
            result out.old.items out.new.items }
    {
        match ty {
            Ty::Explicit(tag, inner) => self.put_explicit(*tag, inner, value, out),
            _ => self.put_constructed(ty, value, out),
        }
    }

    // Appends the encoding of a value of such a type with room for its parts. Items come here at once, unless they are
    // of a CHOICE.
    #[cycle(writing)]
    #[inline(never)]
    fn put_constructed(self, ty: &Ty, value: &Value, out: &mut Vec<u8>) -> Result<(), NoMemory>
        requires parts { ¬ IsLeaf (ty_view ty.now) }
        requires writable { IsWritable (ty_view ty.now) (value_view value.now) }
        ensures { Writes (IsEncoding (rule_of self.rule) (ty_view ty.now) (value_view value.now))
            result out.old.items out.new.items }
    {
        match ty {
            Ty::Choice(alternatives) => self.put_alternative(alternatives, value, out),
            Ty::Explicit(tag, inner) => self.put_explicit(*tag, inner, value, out),
            Ty::Sequence(tag, _) | Ty::Set(tag, _) | Ty::SequenceOf(tag, _) | Ty::SetOf(tag, _) => {
                let place = put_opening(*tag, true, out)?;
                self.put_parts(ty, value, out)?;
                put_closing(self.rule, place, out)
            }
            _ => unreachable!(),
        }
    }

    // Appends the encoding of the alternative that `value` has of a CHOICE.
    #[cycle(writing)]
    #[inline(always)]
    fn put_alternative(
        self,
        alternatives: &[Alternative],
        value: &Value,
        out: &mut Vec<u8>,
    ) -> Result<(), NoMemory>
        requires { IsWritable (Shape.choice (alternatives_view alternatives.now)) (value_view value.now) }
        ensures { Writes (IsEncoding (rule_of self.rule) (Shape.choice (alternatives_view alternatives.now)) (value_view value.now))
            result out.old.items out.new.items }
    {
        let Some((which, chosen)) = chosen_in(value) else {
            unreachable!()
        };
        self.put_value(&alternatives[which].ty, chosen, out)
    }

    // Appends the contents octets of a constructed encoding of `value`; nothing where it has none.
    #[cycle(writing)]
    fn put_parts(self, ty: &Ty, value: &Value, out: &mut Vec<u8>) -> Result<(), NoMemory>
        requires { IsWritable (ty_view ty.now) (value_view value.now) }
        ensures { Writes (ArePartsOf (rule_of self.rule) (ty_view ty.now) (value_view value.now))
            result out.old.items out.new.items }
    {
        match ty {
            Ty::Sequence(_, fields) | Ty::Set(_, fields) => {
                let slots = slots_in(value);
                if matches!(ty, Ty::Set(..)) && !are_declared_by_tag(fields) {
                    return self.put_by_tag(fields, slots, out);
                }
                self.put_components(fields, slots, out)
            }
            Ty::SequenceOf(_, inner) => self.put_items(inner, items_in(value), out),
            Ty::SetOf(_, inner) => self.put_in_order(inner, items_in(value), out),
            _ => Ok(()),
        }
    }

    // Appends the encodings of the alternatives that items have of a CHOICE, one behind another.
    #[cycle(writing)]
    #[inline(never)]
    fn put_alternatives(
        self,
        alternatives: &[Alternative],
        items: &[Value],
        out: &mut Vec<u8>,
    ) -> Result<(), NoMemory>
        requires { AreWritable (Shape.choice (alternatives_view alternatives.now)) (map value_view items.now) }
        ensures { Writes (AreItems (IsEncoding (rule_of self.rule) (Shape.choice (alternatives_view alternatives.now))) (map value_view items.now))
            result out.old.items out.new.items }
    {
        for item in items {
            self.put_alternative(alternatives, item, out)?;
        }
        Ok(())
    }

    // Appends the encodings of items, one behind another.
    #[cycle(writing)]
    fn put_items(self, ty: &Ty, items: &[Value], out: &mut Vec<u8>) -> Result<(), NoMemory>
        requires { AreWritable (ty_view ty.now) (map value_view items.now) }
        ensures { Writes (AreItems (IsEncoding (rule_of self.rule) (ty_view ty.now)) (map value_view items.now))
            result out.old.items out.new.items }
    {
        if let Some(tag) = ty.leaf_tag() {
            return put_leaves(self.rule, tag, items, out);
        }
        if let Ty::Choice(alternatives) = ty {
            return self.put_alternatives(alternatives, items, out);
        }
        for item in items {
            self.put_constructed(ty, item, out)?;
        }
        Ok(())
    }

    // Appends the encodings of items in ascending order (X.690 11.6). Of one item there is nothing to order.
    #[cycle(writing)]
    fn put_in_order(self, ty: &Ty, items: &[Value], out: &mut Vec<u8>) -> Result<(), NoMemory>
        requires { AreWritable (ty_view ty.now) (map value_view items.now) }
        ensures { Writes
            (AreItemsInOrder (IsEncoding (rule_of self.rule) (ty_view ty.now)) (map value_view items.now))
            result out.old.items out.new.items }
    {
        if items.len() < 2 {
            return self.put_items(ty, items, out);
        }
        let from = out.len();
        let mut parts = Vec::new(self.alloc);
        parts.reserve(items.len())?;
        for item in items {
            let span = self.put_span(ty, item, out)?;
            parts.push(with_key_of(out, span))?;
        }
        arrange(self.alloc, out, from, parts)
    }

    // Appends the encodings of components, in order of declaration.
    #[cycle(writing)]
    fn put_components(
        self,
        fields: &[Field],
        slots: &[Option<Value>],
        out: &mut Vec<u8>,
    ) -> Result<(), NoMemory>
        requires { AreWritableSlots (components_view fields.now) (slots_view slots.now) }
        ensures { Writes (AreComponents (rule_of self.rule) (components_view fields.now) (slots_view slots.now))
            result out.old.items out.new.items }
    {
        let count = fields.len().min(slots.len());
        for place in 0..count {
            let Some(value) = &slots[place] else {
                continue;
            };
            self.put_value(&fields[place].ty, value, out)?;
        }
        Ok(())
    }

    // Appends the encodings of components in ascending order of their tags.
    #[cycle(writing)]
    #[inline(never)]
    fn put_by_tag(
        self,
        fields: &[Field],
        slots: &[Option<Value>],
        out: &mut Vec<u8>,
    ) -> Result<(), NoMemory>
        requires slots { AreWritableSlots (components_view fields.now) (slots_view slots.now) }
        requires distinct { AreDistinct (tags_of_components (components_view fields.now)) }
        ensures { Writes (AreComponentsByTag (rule_of self.rule) (components_view fields.now) (slots_view slots.now))
            result out.old.items out.new.items }
    {
        let from = out.len();
        let count = fields.len().min(slots.len());
        let mut parts = Vec::new(self.alloc);
        parts.reserve(count)?;
        for index in 0..count {
            let Some(value) = &slots[index] else {
                continue;
            };
            let ty = &fields[index].ty;
            let span = self.put_span(ty, value, out)?;
            let tag = order_tag(self.rule, ty, part(out, span));
            parts.push(Keyed { key: tag, span })?;
        }
        arrange_by_tag(self.alloc, out, from, parts)
    }

    // Appends the encoding of `value`, and returns where it stands.
    #[cycle(writing)]
    #[inline(always)]
    pub(crate) fn put_span(
        self,
        ty: &Ty,
        value: &Value,
        out: &mut Vec<u8>,
    ) -> Result<Span, NoMemory>
        requires { IsWritable (ty_view ty.now) (value_view value.now) }
        ensures put { IfOk result (IsPut
            (IsEncoding (rule_of self.rule) (ty_view ty.now) (value_view value.now)) out.old.items out.new.items) }
        ensures kept { OnErr result (Keeps out.old.items out.new.items) }
    {
        let start = out.len();
        self.put_value(ty, value, out)?;
        let end = out.len();
        Ok(Span { start, end })
    }
}
