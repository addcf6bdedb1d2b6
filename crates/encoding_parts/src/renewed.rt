//! Lists that are made in the room of old ones.

ghost use Rattle.std.specs.Prelude.{◌≡◌, ◌↔◌, ◌++◌, ◌∷◌, ◌+◌, ◌<◌, ◌≤◌, [], false, take, IsTrue, OnOk, OnErr, vec_len, vec_capacity};
ghost use Rattle.encoding_parts.specs.Renewed.{new_items};

use crate::slots::take_list;
use octets::NoMemory;
use std::alloc::Global;
use types::Value;

/// A list of so many items is a long one.
const LONG: usize = 4096;

/// A list of which so many items are new. Old ones stand behind them, in whose places the next ones are read.
#[derive(Debug, Drop)]
pub struct Renewed {
    /// The new items, and behind them the old ones.
    pub items: Vec<Value>,
    /// How many are new.
    pub count: usize,
}

impl Renewed {
    /// A list without new items, in the room of the list that the value holds. Takes no memory.
    pub fn over(alloc: Global, value: &mut Value) -> Renewed
        ensures { new_items result ≡ [] }
    {
        let items = take_list(alloc, value);
        let count = 0;
        Renewed { items, count }
    }

    /// A list without items. Takes no memory.
    pub fn new(alloc: Global) -> Renewed
        ensures { new_items result ≡ [] }
    {
        Renewed {
            items: Vec::new(alloc),
            count: 0,
        }
    }

    /// Whether the next item has its place already: that of an old one, or one in the list's room, where NULL is put
    /// for now. Takes no memory.
    #[inline(always)]
    pub fn has_next(&mut self) -> bool
        ensures next { IsTrue result ↔ self.new.count < vec_len self.new.items }
        ensures count { self.new.count ≡ self.old.count }
        ensures kept { new_items self.new ≡ new_items self.old }
    {
        let place = self.count;
        if place == self.items.len() && place < self.items.capacity() {
            self.items.push_reserved(Value::Null);
            return true;
        }
        place < self.items.len()
    }

    /// Counts what stands in the next place as an item from now on.
    #[inline(always)]
    pub fn keep(&mut self)
        requires { self.old.count < vec_len self.old.items }
        ensures { new_items self.new ≡ take (self.old.count + 1) self.old.items.items }
    {
        self.count += 1;
    }

    /// Puts an item behind the new ones where it has no place yet, and says whether it has; not where memory runs out.
    /// It is one of `used` octets, with which so many are `left` of those at hand, and so many items had come `before`
    /// these. By that the list makes room: for as many items as there are, but for no more than can come.
    pub fn put(&mut self, item: Value, before: usize, used: usize, left: usize) -> bool
        requires { vec_len self.old.items ≤ self.old.count }
        ensures put { IsTrue result → new_items self.new ≡ new_items self.old ++ (item ∷ []) }
        ensures kept { result ≡ false → new_items self.new ≡ new_items self.old }
    {
        reserve(&mut self.items, before, used, left) && self.push(item).is_ok()
    }

    /// Puts an item behind the new ones, in the place of an old one if there is one. Refused where memory runs out.
    pub fn push(&mut self, item: Value) -> Result<(), NoMemory>
        ensures put { OnOk result (new_items self.new ≡ new_items self.old ++ (item ∷ [])) }
        ensures kept { OnErr result (new_items self.new ≡ new_items self.old) }
    {
        let place = self.count;
        if place < self.items.len() {
            let _old = std::mem::replace(&mut self.items[place], item);
            self.keep();
            return Ok(());
        }
        grow(&mut self.items)?;
        self.items.push_reserved(item);
        self.count = self.items.len();
        Ok(())
    }

    /// The new items. What stands behind them is dropped: old ones, or one that was begun and refused.
    pub fn into_items(self) -> Vec<Value>
        ensures { result.items ≡ new_items self }
    {
        let mut items = self.items;
        items.truncate(self.count);
        items
    }
}

// Makes room for one item more: for one alone at first, and then for as many again, so that a list of two items, of which
// a large value may have a hundred thousand, has no room to give back.
fn grow(items: &mut Vec<Value>) -> Result<(), NoMemory>
    ensures items { items.new.items ≡ items.old.items }
    ensures room { OnOk result (vec_len items.new < vec_capacity items.new) }
{
    let count = items.len();
    if count == items.capacity() {
        items.reserve_exact(count.max(1))?;
    }
    Ok(())
}

// Makes room for one item more where there is none: for as many as there are, and for four at least, but for no more
// than had come `before` these octets, or than those that are `left` have of the size of this item, which has `used`. So
// the short lists of which a large value is made take memory once and mostly have no room to spare, and a list that goes
// on from piece to piece grows seldom. A long list doubles, and so ends at a power of two. A call of its own, so that
// items that have room pay for no division.
#[inline(never)]
fn reserve(items: &mut Vec<Value>, before: usize, used: usize, left: usize) -> bool
    ensures items { items.new.items ≡ items.old.items }
    ensures room { IsTrue result → vec_len items.new < vec_capacity items.new }
{
    let count = items.len();
    let most = before.max(left / used.max(1));
    let more = if count < LONG {
        count.max(4).min(most)
    } else {
        count
    };
    items.reserve_exact(more.max(1)).is_ok()
}
