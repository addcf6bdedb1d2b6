//! Components of a SET that are read over the values of the one before.

ghost use Rattle.std.specs.Prelude.{◌≡◌, ◌<◌, ◌≤◌, None, map, length, get_or, IsNone, IsTrue, IfSome, MatchOption};
ghost use Rattle.types.specs.Leaf.{tag_of, IsLeaf};
ghost use Rattle.types.specs.View.{field_view, ty_view, value_view};
ghost use Rattle.encoding_parts.specs.HeldParts.{members_view};
ghost use Rattle.encoding_parts.specs.Parts.{IsValueOf, Parts};
ghost use Rattle.berslice.specs.Heads.{IsIdentifierOf};
ghost use Rattle.berslice.specs.RenewedSet.{renewed_view, IsEmptied, IsFilled, IsLeafOf, IsNext, IsNextAt, IsRoomy};

use crate::heads::{Identifier, identifier_under};
use encoding_parts::{SetComponents, begins, can_begin, take_slots};
use octets::Tag;
use std::alloc::Global;
use types::{Field, Ty, Value};

/// What has come of a SET, read over the SET that came before. There is a range of components of which none has come and
/// whose slots hold old values: one that comes is read over the old value in its slot. Where the components come in
/// order or in reverse, it is the first or the last of the range. The slots of those that are passed over are emptied.
#[derive(Drop)]
pub struct RenewedSet<'a> {
    /// The components, and their slots.
    pub set_components: SetComponents<'a>,
    /// From this place on none has come, whatever is in their slots.
    pub first: usize,
    /// The place where those end.
    pub stop: usize,
    /// Whether some were passed over: unless so, all outside the range have come.
    pub has_passed: bool,
}

/// A component that is due.
#[derive(Clone, Copy)]
pub struct Due<'a> {
    /// Its place.
    pub place: usize,
    /// Its type.
    pub ty: &'a Ty,
    /// Whether it is one without parts, of the tag that it begins with.
    pub is_leaf: bool,
}

/// A component without parts, of which a primitive encoding stands at the front.
#[derive(Clone, Copy)]
pub struct Awaited<'a> {
    /// Its place.
    pub place: usize,
    /// Its type.
    pub ty: &'a Ty,
    /// The identifier octets of the encoding.
    pub identifier: Identifier,
}

impl<'a> RenewedSet<'a> {
    // A SET of which nothing has come, in the room of the one that the value holds.
    pub fn over(alloc: Global, fields: &'a [Field], value: &mut Value) -> Option<RenewedSet<'a>>
        ensures none { IfSome result (λ set. renewed_view set ≡ members_view fields.now (map (λ c. None) (map field_view fields.now))) }
        ensures fields { IfSome result (λ set. set.set_components.fields.now ≡ fields.now) }
        ensures roomy { IfSome result IsRoomy }
        ensures filled { IfSome result IsFilled }
    {
        let Ok(slots) = take_slots(alloc, fields, value) else {
            return None;
        };
        let behind = 0;
        let set_components = SetComponents {
            fields,
            slots,
            behind,
        };
        Some(RenewedSet {
            set_components,
            first: 0,
            stop: fields.len(),
            has_passed: false,
        })
    }

    // The last component of the range, or else the first one, if it has no parts and a primitive encoding of it stands
    // at the front. It counts as come from now on, with what is put into its slot. Nothing changes where neither does.
    #[inline(always)]
    pub fn awaited(&mut self, octets: &[u8]) -> Option<Awaited<'a>>
        requires { IsRoomy self.old }
        ensures roomy { IsRoomy self.new }
        ensures next { IfSome result (λ awaited. IsNext self.old self.new awaited.place (ty_view awaited.ty.now)) }
        ensures leaf { IfSome result (λ awaited. IsLeaf (ty_view awaited.ty.now)) }
        ensures tag { IfSome result (λ awaited. tag_of (ty_view awaited.ty.now) ≡ awaited.identifier.tag) }
        ensures front { IfSome result (λ awaited. IsIdentifierOf awaited.identifier octets.now) }
        ensures unchanged { IsNone result → self.new ≡ self.old }
    {
        if self.first >= self.stop {
            return None;
        }
        let fields = self.set_components.fields;
        let last = self.stop - 1;
        if let Some(awaited) = Awaited::at(fields, last, octets) {
            self.stop = last;
            return Some(awaited);
        }
        let awaited = Awaited::at(fields, self.first, octets)?;
        self.first += 1;
        Some(awaited)
    }

    // The component that has not come and begins with the tag. It counts as come from now on, with what is put into its
    // slot.
    #[inline(always)]
    pub fn due(&mut self, tag: Tag) -> Option<Due<'a>>
        requires { IsRoomy self.old }
        ensures roomy { IsRoomy self.new }
        ensures next { IfSome result (λ due. IsNext self.old self.new due.place (ty_view due.ty.now)) }
        ensures leaf { IfSome result (λ due. IsLeafOf tag due) }
    {
        if self.first < self.stop {
            let fields = self.set_components.fields;
            let first = self.first;
            let last = self.stop - 1;
            if let Some(due) = Due::at(fields, last, tag) {
                self.stop = last;
                return Some(due);
            }
            if let Some(due) = Due::at(fields, first, tag) {
                self.first = first + 1;
                return Some(due);
            }
            if let Some(place) = self.due_ahead(tag) {
                return Some(Due::of(place, &fields[place].ty, tag));
            }
        }
        let Ok((place, ty)) = self.set_components.due(tag) else {
            return None;
        };
        self.set_components.behind = place + 1;
        Some(Due::of(place, ty, tag))
    }

    // The place of the component in the range that begins with the tag. The range begins behind it from now on. Nothing
    // is left of the range where there is none. A call of its own, out of the way of components that come in order.
    #[inline(never)]
    fn due_ahead(&mut self, tag: Tag) -> Option<usize>
        requires { IsRoomy self.old }
        ensures next { MatchOption result (IsEmptied self.old.stop self.old self.new) (λ place. IsRoomy self.new × IsNextAt self.old self.new place) }
        ensures passed { IsTrue self.new.has_passed }
    {
        let place = self.ahead(tag);
        self.empty_up_to(place);
        self.has_passed = true;
        if place >= self.stop {
            return None;
        }
        self.first = place + 1;
        Some(place)
    }

    // The place of the first component in the range that begins with the tag, or else where the range ends.
    fn ahead(&self, tag: Tag) -> usize
        requires { IsRoomy self.now }
        ensures { (self.now.first ≤ result) × (result ≤ self.now.stop) }
    {
        let fields = self.set_components.fields;
        for place in self.first..self.stop {
            if can_begin(&fields[place].ty, tag) {
                return place;
            }
        }
        self.stop
    }

    // Empties the slots of the range up to the place, where it begins from now on.
    fn empty_up_to(&mut self, end: usize)
        requires { IsRoomy self.old × (self.old.first ≤ end) × (end ≤ self.old.stop) }
        ensures { IsEmptied end self.old self.new }
    {
        for place in self.first..end {
            self.set_components.slots[place] = None;
        }
        self.first = end;
    }

    // The value of the SET, if each component has come that may not be absent.
    pub fn into_value(self) -> Option<Value>
        requires roomy { IsRoomy self }
        requires filled { IsFilled self }
        ensures { IfSome result (λ value. IsValueOf (Parts.set (renewed_view self.entry)) (value_view value)) }
    {
        if self.first == self.stop && !self.has_passed {
            return Some(self.set_components.filled_value());
        }
        let mut renewed = self;
        let stop = renewed.stop;
        renewed.empty_up_to(stop);
        match renewed.set_components.into_value() {
            Ok(value) => Some(value),
            Err(_) => None,
        }
    }
}

impl<'a> Due<'a> {
    // The component at the place, if an encoding of it can begin with the tag. One without parts needs no call.
    #[inline(always)]
    fn at(fields: &'a [Field], place: usize, tag: Tag) -> Option<Due<'a>>
        requires { place < length fields.now }
        ensures same { IfSome result (λ due. (due.place ≡ place) × ((f : Field) → f ≡ get_or fields.now place f → due.ty.now ≡ f.ty)) }
        ensures leaf { IfSome result (IsLeafOf tag) }
    {
        let ty = &fields[place].ty;
        let is_leaf = match ty.leaf_tag() {
            Some(own) if own == tag => true,
            Some(_) => return None,
            None if begins(ty, tag) => false,
            None => return None,
        };
        Some(Due { place, ty, is_leaf })
    }

    // The component of this type at the place, which begins with the tag.
    #[inline(always)]
    fn of(place: usize, ty: &'a Ty, tag: Tag) -> Due<'a>
        ensures same { (result.place ≡ place) × (result.ty.now ≡ ty.now) }
        ensures leaf { IsLeafOf tag result }
    {
        let is_leaf = match ty.leaf_tag() {
            Some(own) => own == tag,
            None => false,
        };
        Due { place, ty, is_leaf }
    }
}

impl<'a> Awaited<'a> {
    // The component at the place, if it has no parts and a primitive encoding of it stands at the front.
    #[inline(always)]
    fn at(fields: &'a [Field], place: usize, octets: &[u8]) -> Option<Awaited<'a>>
        requires { place < length fields.now }
        ensures same { IfSome result (λ awaited. (awaited.place ≡ place) × ((f : Field) → f ≡ get_or fields.now place f → awaited.ty.now ≡ f.ty)) }
        ensures leaf { IfSome result (λ awaited. IsLeaf (ty_view awaited.ty.now)) }
        ensures tag { IfSome result (λ awaited. tag_of (ty_view awaited.ty.now) ≡ awaited.identifier.tag) }
        ensures front { IfSome result (λ awaited. IsIdentifierOf awaited.identifier octets.now) }
    {
        let ty = &fields[place].ty;
        let identifier = identifier_under(ty.leaf_tag()?, octets)?;
        Some(Awaited {
            place,
            ty,
            identifier,
        })
    }
}
