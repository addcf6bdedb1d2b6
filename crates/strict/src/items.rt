//! SEQUENCE OF and SET OF (X.690 8.10, 8.12 and 11.6).

ghost use Rattle.std.specs.Prelude.{◌≡◌, ◌-◌, ◌≤◌, ℕ, [], false, drop, vec_len, IsTrue, IfOk, IfErr};
ghost use Rattle.std.specs.Ordering.{nat_cmp, is_lt};
ghost use Rattle.std.specs.Cmp.Lexicographic.{slice_cmp};
ghost use Rattle.octets.specs.declared.TheConstants.{MAX_ENCODING};
ghost use Rattle.octets.specs.declared.tag.Tag.{Tag};
ghost use Rattle.octets.specs.Rule.{rule_of};
ghost use Rattle.types.specs.View.{ty_view};
ghost use Rattle.encoding_parts.specs.Parts.{IsGoodType};
ghost use Rattle.encoding_parts.specs.Renewed.{new_items};
ghost use Rattle.strict.specs.Bars.{RefusesStrictly};
ghost use Rattle.strict.specs.Head.{AreFewer, EndsHere};
ghost use Rattle.strict.specs.Inside.{IsInsideRead, list_of};
ghost use Rattle.strict.specs.Items.{HasItems, IsItemRead, AreItemsRead};
ghost use Rattle.strict.specs.Reading.{RefusesPart};

use crate::ends::ends;
use crate::head::Inside;
use crate::parts::read_one;
use encoding_parts::Renewed;
use octets::{Canonical, MAX_ENCODING};
use std::alloc::Global;
use types::{Refusal, Ty, Value};

// So many octets of two neighbours are compared one by one, since most differ there. `cmp` goes over many at a time,
// and takes longer to begin.
const FEW: usize = 8;

// Reads the encodings of items up to the end into the value, and returns how many octets they have. Where they are to
// be `ordered`, as those of a SET OF, none may come before the one that it follows. Where they are refused, the value
// keeps the list, with all that is in it: the next one is read into its room.
#[cycle(reading)]
#[inline(always)]
pub fn read_items(
    alloc: Global,
    rule: Canonical,
    inner: &Ty,
    ordered: bool,
    inside: &Inside,
    octets: &[u8],
    value: &mut Value,
) -> Result<usize, Refusal>
    requires good { IsGoodType (ty_view inner.now) }
    requires room { inside.now.room ≤ MAX_ENCODING }
    ensures value { IfOk result (λ used. (tag : Tag) → IsInsideRead (rule_of rule) (list_of ordered tag (ty_view inner.now)) inside.now.definite inside.now.room octets.now value.new used) }
    ensures refused { IfErr result (RefusesStrictly (HasItems (rule_of rule) (ty_view inner.now) ordered inside.now.definite inside.now.room []) (AreFewer inside.now.definite inside.now.room) octets.now) }
{
    let mut list = Renewed::over(alloc, value);
    let read = read_listed(alloc, rule, inner, ordered, inside, octets, &mut list);
    *value = Value::Items(match read {
        Ok(_) => list.into_items(),
        Err(_) => list.items,
    });
    read
}

// Reads the encodings of items up to the end into the list, in which none is new yet, as `read_items` does.
#[cycle(reading)]
#[inline(always)]
fn read_listed(
    alloc: Global,
    rule: Canonical,
    inner: &Ty,
    ordered: bool,
    inside: &Inside,
    octets: &[u8],
    list: &mut Renewed,
) -> Result<usize, Refusal>
    requires good { IsGoodType (ty_view inner.now) }
    requires room { inside.now.room ≤ MAX_ENCODING }
    requires fresh { new_items list.old ≡ [] }
    ensures value { IfOk result (λ used. (before : ℕ) × AreItemsRead (rule_of rule) (ty_view inner.now) ordered inside.now.definite inside.now.room octets.now (new_items list.new) before used
        × EndsHere inside.now.definite (inside.now.room - used) (drop used octets.now)) }
    ensures refused { IfErr result (RefusesStrictly (HasItems (rule_of rule) (ty_view inner.now) ordered inside.now.definite inside.now.room []) (AreFewer inside.now.definite inside.now.room) octets.now) }
{
    let mut room = inside.room;
    let mut rest = octets;
    let mut last = &octets[..0];
    while !ends(inside.definite, room, rest)? {
        let used = read_item(alloc, rule, inner, room, rest, list)?;
        let item = &rest[..used];
        if is_out_of_order(ordered, item, last) {
            return Err(Refusal::NotCanonical);
        }
        last = item;
        room -= used;
        rest = &rest[used..];
    }
    Ok(octets.len() - rest.len())
}

// Reads the encoding of the next item at the front into its place in the list, and returns how many octets it has: at
// most `room`.
#[cycle(reading)]
#[inline(always)]
fn read_item(
    alloc: Global,
    rule: Canonical,
    inner: &Ty,
    room: usize,
    octets: &[u8],
    list: &mut Renewed,
) -> Result<usize, Refusal>
    requires good { IsGoodType (ty_view inner.now) }
    requires room { room ≤ MAX_ENCODING }
    ensures value { IfOk result (λ used. IsItemRead (rule_of rule) (ty_view inner.now) room octets.now (new_items list.old) (new_items list.new) used) }
    ensures refused { IfErr result (RefusesPart rule (ty_view inner.now) room octets.now) }
{
    if !list.has_next() {
        return read_growing(alloc, list, rule, inner, room, octets);
    }
    let place = list.count;
    let used = read_one(alloc, rule, inner, room, octets, &mut list.items[place])?;
    list.keep();
    Ok(used)
}

// Reads the encoding of the next item, for which the list has no place yet, and puts the item behind the others. A call
// of its own, since a list grows seldom.
#[cycle(reading)]
#[inline(never)]
fn read_growing(
    alloc: Global,
    list: &mut Renewed,
    rule: Canonical,
    inner: &Ty,
    room: usize,
    octets: &[u8],
) -> Result<usize, Refusal>
    requires good { IsGoodType (ty_view inner.now) }
    requires room { room ≤ MAX_ENCODING }
    requires grows { vec_len list.old.items ≤ list.old.count }
    ensures value { IfOk result (λ used. IsItemRead (rule_of rule) (ty_view inner.now) room octets.now (new_items list.old) (new_items list.new) used) }
    ensures refused { IfErr result (RefusesPart rule (ty_view inner.now) room octets.now) }
{
    let mut item = Value::Null;
    let used = read_one(alloc, rule, inner, room, octets, &mut item)?;
    if list.put(item, 0, used, octets.len()) {
        Ok(used)
    } else {
        Err(Refusal::NoMemory)
    }
}

// Whether the encoding of an item comes before that of the last one, where they are to be ordered (X.690 11.6). Nothing
// is padded: two encodings that are equal with zeros behind the shorter one are equal (`encodings_that_tie_are_equal`).
#[inline(always)]
fn is_out_of_order(ordered: bool, item: &[u8], last: &[u8]) -> bool
    ensures { (IsTrue result → IsTrue ordered × IsTrue (is_lt (slice_cmp nat_cmp item.now last.now))) × (result ≡ false → IsTrue ordered → is_lt (slice_cmp nat_cmp item.now last.now) ≡ false) }
{
    ordered && comes_before(item, last)
}

// Whether the one list of octets comes before the other in the order of lists: nothing comes before an empty one, as
// the last item is in front of the first.
fn comes_before(a: &[u8], b: &[u8]) -> bool
    ensures { result ≡ is_lt (slice_cmp nat_cmp a.now b.now) }
{
    if b.len() == 0 {
        return false;
    }
    for i in 0..a.len().min(b.len()).min(FEW) {
        if a[i] != b[i] {
            return a[i] < b[i];
        }
    }
    a.cmp(b).is_lt()
}
