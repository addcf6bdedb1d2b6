//! Where a reader stands in a value, and the steps by which it goes on, from one part or segment to the
//! next. A step is one of the nest, or one in the constructed string that has begun in it.

ghost use Rattle.std.specs.Prelude.{◌≡◌, None, []};
ghost use Rattle.types.specs.View.{ty_view};
ghost use Rattle.berreader.specs.Stack.{layers_of, IsCounted};
ghost use Rattle.berreader.specs.Cursor.{taken_of, IsSoundCursor, Steps};

use crate::nest::{Nest, OpenString};
use crate::stack::Stack;
use std::alloc::Global;
use types::{Refusal, Ty, Value};

/// Where a reader stands in a value.
#[derive(Debug, Drop)]
pub struct Cursor<'a> {
    /// The encodings with parts that are open.
    pub nest: Nest<'a>,
    /// The constructed string that has begun in the innermost, if one has.
    pub string: Option<OpenString<'a>>,
}

impl<'a> Cursor<'a> {
    // Nothing has been taken of a value of the type.
    pub fn new(alloc: Global, ty: &'a Ty) -> Cursor<'a>
        ensures ty { ty_view result.nest.ty.now ≡ ty_view ty.now }
        ensures layers { layers_of result.nest.layers ≡ [] }
        ensures counted { IsCounted result.nest.layers }
        ensures taken { result.nest.taken ≡ 0 }
        ensures string { result.string ≡ None }
    {
        let nest = Nest {
            ty,
            layers: Stack::new(alloc),
            taken: 0,
        };
        Cursor { nest, string: None }
    }

    // Takes what stands next, and returns how many octets it has: in a string that has begun, and the
    // string itself once its last end has come; else in the innermost open encoding. A value that is whole
    // with them is put into `whole`.
    pub fn step(
        &mut self,
        alloc: Global,
        octets: &[u8],
        whole: &mut Option<Value>,
    ) -> Result<usize, Refusal>
        requires sound { IsSoundCursor self.old }
        requires whole { whole.old ≡ None }
        ensures { Steps self.old self.new octets.now whole.new result }
    {
        if self.string.is_none() {
            self.nest.step(alloc, octets, &mut self.string, whole)
        } else {
            self.go_on(alloc, octets, whole)
        }
    }

    // Takes what stands next in the string that has begun, or, behind its last end, puts the string where it belongs
    // and takes no octet. A call of its own, since most steps are in no string.
    #[inline(never)]
    fn go_on(
        &mut self,
        alloc: Global,
        octets: &[u8],
        whole: &mut Option<Value>,
    ) -> Result<usize, Refusal>
        requires sound { IsSoundCursor self.old }
        requires whole { whole.old ≡ None }
        ensures { Steps self.old self.new octets.now whole.new result }
    {
        if let Some(string) = &mut self.string {
            if !string.segments.is_closed() {
                return match string.segments.pass(string.kind, octets) {
                    Ok(used) => Ok(used),
                    Err(refusal) => Err(self.nest.refusal_inside(refusal)),
                };
            }
        }
        let Some(string) = self.string.take() else {
            return self.nest.step(alloc, octets, &mut self.string, whole);
        };
        self.nest.close_string(alloc, string, whole)?;
        Ok(0)
    }

    // How many octets of the value have been taken.
    pub fn taken(&self) -> usize
        ensures { result ≡ taken_of self.now }
    {
        match &self.string {
            Some(string) => string.segments.taken,
            None => self.nest.taken,
        }
    }
}
