//! A type behind a pointer that C carries and never follows.

ghost use Rattle.std.specs.Prelude.{◌≡◌, ◌≢◌, Option, Some, None};
ghost use Rattle.std.specs.Coded.{coded_option};
ghost use Rattle.types.specs.declared.ty.Ty.{Ty};
ghost use Rattle.types.specs.contracts.ty.Ty.{the_row};
ghost use Rattle.asn1x_c.specs.Kept.{kept_owns};

use crate::loose::Loose;
use convert::WellTyped;
use std::alloc::Global;
use std::marker::Model;
use std::ptr::null_mut;

/// The pointer to a type, with the right to its memory, or null.
// What is dropped is not freed: only one that is empty is let go.
#[repr(C)]
#[derive(Drop)]
pub struct Kept {
    at: *mut u8,
    ghost ty: { Option Ty } by { coded_option the_row.coded },
}

impl Model for Kept {
    ghost also_owns = { λ kept. kept_owns kept.at kept.ty };
}

impl Kept {
    // Keeps a type.
    pub(crate) fn of(ty: Loose<WellTyped, Global>) -> Kept
        ensures { result.ty ≡ Some ty.value }
    {
        let Loose { at, alloc: _alloc } = ty;
        Kept { at: at as *mut u8 }
    }

    // The type that is kept.
    pub(crate) fn into_loose(self, alloc: Global) -> Loose<WellTyped, Global>
        requires { self.ty ≢ None }
        ensures { self.ty ≡ Some result.value }
    {
        let Kept { at } = self;
        Loose {
            at: at as *mut WellTyped,
            alloc,
        }
    }

    // Keeps none.
    pub(crate) fn empty() -> Kept
        ensures { result.ty ≡ None }
    {
        Kept { at: null_mut() }
    }
}
