//! Takes a type out of C's memory for a call, and puts it back.

ghost use Rattle.std.specs.Prelude.{◌≡◌, ◌⊎◌, Some, None, IfSome, IfNone};
ghost use Rattle.asn1x_c.specs.Held.{type_of, HasGiven};

use crate::held::HeldType;
use crate::kept::Kept;
use crate::loose::Loose;
use convert::WellTyped;
use std::alloc::Global;
use std::mem::replace;

impl HeldType {
    // No type.
    pub(crate) fn none() -> HeldType
        ensures { type_of result ≡ None }
    {
        HeldType {
            full: false,
            kept: Kept::empty(),
        }
    }

    // Hands out the type, and holds none.
    pub(crate) fn take(&mut self, alloc: Global) -> Option<Box<WellTyped>>
        ensures left { type_of self.new ≡ None }
        ensures given { HasGiven (type_of self.old) result }
    {
        let HeldType { full, kept } = replace(self, HeldType::none());
        if full {
            Some(kept.into_loose(alloc).into_box())
        } else {
            None
        }
    }

    // Hands out the type with the rules of a call, and holds none; without either nothing changes.
    pub(crate) fn take_for<R: Copy>(
        &mut self,
        alloc: Global,
        rules: Option<R>,
    ) -> Option<(R, Box<WellTyped>)>
        ensures given { IfSome result (λ given. (rules ≡ Some given.0) × (type_of self.old ≡ Some given.1.value)) }
        ensures none { IfNone result ((rules ≡ None) ⊎ (type_of self.old ≡ None)) }
        ensures kept { IfNone result (type_of self.new ≡ type_of self.old) }
    {
        let rules = rules?;
        let ty = self.take(alloc)?;
        Some((rules, ty))
    }

    // Holds the type, and frees the one that it held.
    pub(crate) fn put(&mut self, alloc: Global, ty: Box<WellTyped>)
        ensures { type_of self.new ≡ Some ty.value }
    {
        let _freed = self.take(alloc);
        *self = HeldType {
            full: true,
            kept: Kept::of(Loose::of(ty)),
        };
    }
}
