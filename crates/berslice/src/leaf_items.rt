//! Items without parts of a SEQUENCE OF or SET OF. Their loop stands apart from that of others, so that what it needs
//! stays in registers.

ghost use Rattle.std.specs.Prelude.{◌≡◌, None, IfSome};
ghost use Rattle.types.specs.Leaf.{IsLeaf, tag_of};
ghost use Rattle.types.specs.View.{ty_view};
ghost use Rattle.encoding_parts.specs.Parts.{IsGoodType};
ghost use Rattle.encoding_parts.specs.Renewed.{new_items};
ghost use Rattle.berslice.specs.Reading.{IsItemRead, AreMoreItemsRead};

use crate::heads::ends_at;
use crate::items::{drop_begun, read_growing};
use crate::leaf::read_leaf;
use encoding_parts::Renewed;
use octets::Tag;
use std::alloc::Global;
use types::Ty;

// Puts the items at the front that are read at once behind the new ones of the list, and returns how many octets they
// have. It ends where `read_items` does.
#[cycle(reading)]
#[inline(never)]
pub fn read_leaf_items(
    alloc: Global,
    inner: &Ty,
    tag: Tag,
    levels: usize,
    octets: &[u8],
    definite: bool,
    list: &mut Renewed,
) -> usize
    requires leaf { IsLeaf (ty_view inner.now) }
    requires tag { tag_of (ty_view inner.now) ≡ tag }
    requires good { IsGoodType (ty_view inner.now) }
    ensures { AreMoreItemsRead levels (ty_view inner.now) octets.now (new_items list.old) (new_items list.new) result }
{
    let before = list.count;
    let mut rest = octets;
    while !ends_at(rest, definite) {
        match read_leaf_item(alloc, inner, tag, levels, rest, before, list) {
            None => {
                drop_begun(list);
                return octets.len() - rest.len();
            }
            Some(used) => rest = &rest[used..],
        }
    }
    octets.len() - rest.len()
}

// Puts the item at the front into the list, and returns how many octets it has. So many had come `before` these octets.
#[cycle(reading)]
#[inline(always)]
fn read_leaf_item(
    alloc: Global,
    inner: &Ty,
    tag: Tag,
    levels: usize,
    octets: &[u8],
    before: usize,
    list: &mut Renewed,
) -> Option<usize>
    requires leaf { IsLeaf (ty_view inner.now) }
    requires tag { tag_of (ty_view inner.now) ≡ tag }
    requires good { IsGoodType (ty_view inner.now) }
    ensures some { IfSome result (λ used. IsItemRead levels (ty_view inner.now) octets.now (new_items list.old) (new_items list.new) used) }
    ensures none { result ≡ None → new_items list.new ≡ new_items list.old }
{
    if list.has_next() {
        let next = list.count;
        let used = read_leaf(alloc, inner, tag, levels, octets, &mut list.items[next])?;
        list.keep();
        return Some(used);
    }
    read_growing(alloc, inner, levels, octets, before, list)
}
