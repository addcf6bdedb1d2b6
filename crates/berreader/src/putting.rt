//! Values that have come, each put where it belongs.

ghost use Rattle.std.specs.Prelude.{◌≡◌, ◌+◌, ◌≤◌, IfOk, OnOk, None};
ghost use Rattle.octets.specs.declared.TheConstants.{MAX_ENCODING};
ghost use Rattle.octets.specs.declared.tag.Tag.{Tag};
ghost use Rattle.types.specs.Shape.{Shape, Val};
ghost use Rattle.types.specs.View.{ty_view, value_view};
ghost use Rattle.berreader.specs.Stack.{layers_of, IsCounted};
ghost use Rattle.berreader.specs.Nest.{IsCome, IsDueInside, IsPlaced, MayCome};
ghost use Rattle.encoding_parts.specs.Parts.{IsWrapped};

use crate::nest::Nest;
use encoding_parts::{is_node, wrap};
use octets::{NoMemory, Tag};
use std::alloc::Global;
use types::{Ty, Value};

impl Nest<'_> {
    // Puts a value that has come where it belongs: into the innermost open encoding, if there is one, and
    // else into `whole`.
    pub fn place_value(
        &mut self,
        alloc: Global,
        ty: &Ty,
        tag: Tag,
        value: Value,
        used: usize,
        whole: &mut Option<Value>,
    ) -> Result<usize, NoMemory>
        requires { MayCome self.old (ty_view ty.now) used whole.old }
        ensures { IfOk result (IsPlaced self.old self.new (ty_view ty.now) tag (value_view value) used whole.new) }
    {
        if is_node(ty) {
            return self.put(value, used, whole);
        }
        let wrapped = wrap(alloc, ty, tag, value)?;
        self.put(wrapped, used, whole)
    }

    // Puts a value of the type of the part that has come: into the innermost open encoding, or into `whole`.
    fn put(
        &mut self,
        value: Value,
        used: usize,
        whole: &mut Option<Value>,
    ) -> Result<usize, NoMemory>
        requires due { (type : Shape) × IsDueInside (ty_view self.old.ty.now) (layers_of self.old.layers) type }
        requires room { self.old.taken + used ≤ MAX_ENCODING }
        requires whole { whole.old ≡ None }
        ensures come { IfOk result (λ n. (type : Shape) (tag : Tag) (v : Val) → IsWrapped type tag v (value_view value) →
            IsCome self.old self.new type tag v used whole.new n) }
        ensures counted { IsCounted self.old.layers → OnOk result (IsCounted self.new.layers) }
    {
        match &mut self.layers.top {
            Some(top) => {
                top.held_parts.put(top.which, value)?;
                self.taken += used;
            }
            None => {
                *whole = Some(value);
                self.taken = 0;
            }
        }
        Ok(used)
    }
}
