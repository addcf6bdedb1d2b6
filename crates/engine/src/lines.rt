//! Lines of text for values.

ghost use Rattle.types.specs.View.{ty_view};
ghost use Rattle.texts.specs.Shown.{IsShown};
ghost use Rattle.engine.specs.Stream.{IsLine};

use crate::putting::Put;
use std::alloc::Global;
use texts::put_shown;
use types::{Refusal, Value, WellTyped};

/// Writes a value's text and a line feed.
#[derive(Drop)]
pub struct Lines<'a> {
    pub alloc: Global,
    pub ty: &'a WellTyped,
}

impl Put for Lines<'_> {
    ghost shape = { λ writer. ty_view writer.ty.now };

    ghost stands = { λ writer. IsLine (IsShown (ty_view writer.ty.now)) };

    ghost can_be_too_long = { ⊥ };

    fn ty(&self) -> &WellTyped {
        self.ty
    }

    fn can_outgrow(&self) -> bool {
        true
    }

    fn read_written(&self, _octets: &[u8], _slot: &mut Option<Value>) -> Option<usize> {
        None
    }

    fn put(&self, value: &Value, room: &mut String, out: &mut Vec<u8>) -> Result<(), Refusal> {
        room.clear();
        put_shown(self.alloc, self.ty, value, room)?;
        room.push('\n')?;
        out.extend_from_slice(room.as_bytes())?;
        Ok(())
    }
}
