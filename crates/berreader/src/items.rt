//! Items of a list that are whole in the octets at hand, and taken at once.

ghost use Rattle.berreader.specs.Cursor.{AreTaken, IsSoundCursor};

use crate::cursor::Cursor;
use berslice::MAX_NESTED;
use std::alloc::Global;
use types::Value;

impl Cursor<'_> {
    // Takes the items at the front that are read at once, if no string has begun and the innermost open encoding is a
    // list, and returns how many octets they have. The next one is then read step by step, and what is in it is not
    // tried again: `stepped` is how many encodings were open around it, and more than any where there is none.
    pub fn take_items(
        &mut self,
        alloc: Global,
        octets: &[u8],
        stepped: &mut usize,
        room: &mut Vec<Value>,
    ) -> usize
        requires { IsSoundCursor self.old }
        ensures taken { AreTaken self.old self.new octets.now result }
        ensures sound { IsSoundCursor self.new }
    {
        if self.string.is_some() {
            return 0;
        }
        let nest = &mut self.nest;
        let depth = nest.layers.depth();
        if depth > *stepped {
            return 0;
        }
        if !nest.layers.is_list() {
            *stepped = MAX_NESTED;
            return 0;
        }
        *stepped = depth;
        let levels = MAX_NESTED - depth;
        let used = nest
            .layers
            .take_items(alloc, levels, nest.taken, octets, room);
        nest.taken += used;
        used
    }
}
