//! Items of a SEQUENCE OF or SET OF, in the order in which they stand (X.690 8.10 and 8.12).

ghost use Rattle.std.specs.Prelude.{◌≡◌, ◌≤◌, None, IfSome, vec_len};
ghost use Rattle.types.specs.FirstTags.{IsUsable};
ghost use Rattle.types.specs.Shape.{Shape};
ghost use Rattle.types.specs.View.{alternatives_view, ty_view};
ghost use Rattle.encoding_parts.specs.Parts.{IsGoodType};
ghost use Rattle.encoding_parts.specs.Renewed.{new_items};
ghost use Rattle.berslice.specs.Reading.{IsRead, IsItemRead, AreMoreItemsRead};

use crate::heads::{ends_at, identifier_of, opened};
use crate::leaf::read_leaf_behind;
use crate::leaf_items::read_leaf_items;
use crate::places::Places;
use crate::reading::{read_alternative, read_nested, read_one};
use encoding_parts::{Renewed, choose};
use octets::Tag;
use std::alloc::Global;
use types::{Alternative, Ty, Value};

// Reads a SEQUENCE OF or SET OF at the front into the value.
#[cycle(reading)]
#[inline(never)]
pub fn read_list(
    alloc: Global,
    tag: Tag,
    inner: &Ty,
    levels: usize,
    octets: &[u8],
    value: &mut Value,
) -> Option<usize>
    requires usable { IsUsable tag }
    requires good { IsGoodType (ty_view inner.now) }
    ensures sequence { IfSome result (λ used. IsRead levels (Shape.sequence_of tag (ty_view inner.now)) octets.now value.new used) }
    ensures set { IfSome result (λ used. IsRead levels (Shape.set_of tag (ty_view inner.now)) octets.now value.new used) }
{
    let inside = opened(tag, octets)?;
    if levels == 0 {
        return None;
    }
    let mut list = Renewed::over(alloc, value);
    let used = read_items(
        alloc,
        inner,
        levels - 1,
        inside.octets,
        inside.definite,
        &mut list,
    );
    let whole = inside.close(octets, used);
    *value = Value::Items(match whole {
        Some(_) => list.into_items(),
        None => list.items,
    });
    whole
}

/// Puts the items at the front of `octets` that are read at once behind the new ones of the list, and returns how many
/// octets they have. It goes as far as the contents octets do, which of the definite form are all of `octets`, or to an
/// item that is cut or refused, of which it takes nothing.
///
/// Takes memory as the items do; where there is too little it ends.
#[cycle(reading)]
pub fn read_items(
    alloc: Global,
    inner: &Ty,
    levels: usize,
    octets: &[u8],
    definite: bool,
    list: &mut Renewed,
) -> usize
    requires { IsGoodType (ty_view inner.now) }
    ensures { AreMoreItemsRead levels (ty_view inner.now) octets.now (new_items list.old) (new_items list.new) result }
{
    if let Some(tag) = inner.leaf_tag() {
        return read_leaf_items(alloc, inner, tag, levels, octets, definite, list);
    }
    let before = list.count;
    let mut places = Places::of(inner);
    let mut rest = octets;
    while !ends_at(rest, definite) {
        match read_item(alloc, inner, levels, rest, before, &mut places, list) {
            Some(used) => rest = &rest[used..],
            None => {
                drop_begun(list);
                return octets.len() - rest.len();
            }
        }
    }
    octets.len() - rest.len()
}

// Drops what has come of the item behind the new ones, which was begun and is read again, part by part, or refused.
pub fn drop_begun(list: &mut Renewed)
    ensures { new_items list.new ≡ new_items list.old }
{
    if list.count < list.items.len() {
        list.items[list.count] = Value::Null;
    }
}

// Puts the item at the front, of a type that has parts, into the list, and returns how many octets it has. So many had
// come `before` these octets.
#[cycle(reading)]
#[inline(always)]
fn read_item(
    alloc: Global,
    inner: &Ty,
    levels: usize,
    octets: &[u8],
    before: usize,
    places: &mut Option<Places>,
    list: &mut Renewed,
) -> Option<usize>
    requires { IsGoodType (ty_view inner.now) }
    ensures some { IfSome result (λ used. IsItemRead levels (ty_view inner.now) octets.now (new_items list.old) (new_items list.new) used) }
    ensures none { result ≡ None → new_items list.new ≡ new_items list.old }
{
    if !list.has_next() {
        return read_growing(alloc, inner, levels, octets, before, list);
    }
    let next = list.count;
    let item = &mut list.items[next];
    let used = read_among(alloc, inner, levels, octets, places, item)?;
    list.keep();
    Some(used)
}

// Reads the item at the front, for which the list has no place yet, and puts it behind the others. A call of its own,
// since a list grows seldom.
#[cycle(reading)]
#[inline(never)]
pub fn read_growing(
    alloc: Global,
    inner: &Ty,
    levels: usize,
    octets: &[u8],
    before: usize,
    list: &mut Renewed,
) -> Option<usize>
    requires room { vec_len list.old.items ≤ list.old.count }
    requires good { IsGoodType (ty_view inner.now) }
    ensures some { IfSome result (λ used. IsItemRead levels (ty_view inner.now) octets.now (new_items list.old) (new_items list.new) used) }
    ensures none { result ≡ None → new_items list.new ≡ new_items list.old }
{
    let mut item = Value::Null;
    let used = read_one(alloc, inner, levels, octets, &mut item)?;
    if list.put(item, before, used, octets.len()) {
        Some(used)
    } else {
        None
    }
}

// Reads the encoding at the front into the value, of a type that has parts, of which others may have come: of a CHOICE
// with its `places`, or of any other.
#[cycle(reading)]
#[inline(always)]
fn read_among(
    alloc: Global,
    ty: &Ty,
    levels: usize,
    octets: &[u8],
    places: &mut Option<Places>,
    value: &mut Value,
) -> Option<usize>
    requires { IsGoodType (ty_view ty.now) }
    ensures { IfSome result (λ used. IsRead levels (ty_view ty.now) octets.now value.new used) }
{
    if let Some(places) = places {
        if let Ty::Choice(alternatives) = ty {
            return read_choice(alloc, alternatives, places, levels, octets, value);
        }
    }
    read_nested(alloc, ty, levels, octets, value)
}

// Reads the encoding at the front into the value. Mostly it is one of an alternative without parts that has come.
#[cycle(reading)]
#[inline(always)]
fn read_choice(
    alloc: Global,
    alternatives: &[Alternative],
    places: &mut Places,
    levels: usize,
    octets: &[u8],
    value: &mut Value,
) -> Option<usize>
    requires { IsGoodType (Shape.choice (alternatives_view alternatives.now)) }
    ensures { IfSome result (λ used. IsRead levels (Shape.choice (alternatives_view alternatives.now)) octets.now value.new used) }
{
    let identifier = identifier_of(octets)?;
    let Some((which, alternative)) = places.leaf_of(alternatives, identifier.tag) else {
        return read_other_choice(alloc, alternatives, levels, octets, places, value);
    };
    if !choose(alloc, which, value) {
        return None;
    }
    let Value::Chosen(_, boxed) = value else {
        return None;
    };
    read_leaf_behind(alloc, &alternative.ty, identifier, levels, octets, boxed)
}

// Reads the encoding at the front, of an alternative that has parts or has not come, into the value. It reads the
// identifier octets once more: handed on, they would go through memory in `read_choice` too.
#[cycle(reading)]
#[inline(never)]
fn read_other_choice(
    alloc: Global,
    alternatives: &[Alternative],
    levels: usize,
    octets: &[u8],
    places: &mut Places,
    value: &mut Value,
) -> Option<usize>
    requires { IsGoodType (Shape.choice (alternatives_view alternatives.now)) }
    ensures { IfSome result (λ used. IsRead levels (Shape.choice (alternatives_view alternatives.now)) octets.now value.new used) }
{
    let identifier = identifier_of(octets)?;
    let which = places.place_of(alternatives, identifier.tag)?;
    read_alternative(
        alloc,
        alternatives,
        which,
        identifier,
        levels,
        octets,
        value,
    )
}
