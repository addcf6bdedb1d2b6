//! Types that are well formed.

ghost use Rattle.std.specs.Prelude.{◌≡◌, ◌↔◌, IsOk, IfOk};
ghost use Rattle.std.specs.List.{AllByRecursion};

use crate::condition::{Condition, each_meets};
use crate::limits::nodes_left;
use crate::{MAX_LEVELS, MAX_NODES, Ty, TypeFault};
use std::marker::Model;

/// A type that is well formed: it keeps the limits, the tags that tell its parts apart differ and none
/// is universal 0, the numbers of an ENUMERATED or of named bits differ, and each default is a value of
/// its type.
#[derive(Debug, Drop)]
pub struct WellTyped {
    ty: Ty,
}

impl Model for WellTyped {
    ghost use Rattle.types.specs.declared.ty.Ty.{Ty};
    ghost use Rattle.types.specs.contracts.ty.Ty as ty_contract;
    ghost use Rattle.types.specs.View.{ty_view};
    ghost use Rattle.types.specs.WellFormed.{IsWellFormed};

    ghost Value = { Ty };

    ghost coded = { ty_contract.the_row.coded };

    ghost view = { λ w. w.ty };

    ghost invariant = { λ w. IsWellFormed (ty_view w.ty) };
}

impl WellTyped {
    ghost use Rattle.types.specs.View.{ty_view};
    ghost use Rattle.types.specs.FirstTags.{HasDistinctTags};
    ghost use Rattle.types.specs.WellFormed.{IsWellFormed, KeepsLimits, NumbersDiffer, HasGoodDefaults, nodes_of};

    /// The type, where it is well formed. Of several faults it names the first of `TooLarge`,
    /// `RepeatedNumber`, `TagsNotDistinct` and `BadDefault`.
    ///
    /// The nodes and levels are counted first, and no further than to the limits. On a type that keeps
    /// them, the numbers of each ENUMERATED and of named bits are put in order, each pair of tags that must differ is
    /// compared once, and each default is looked at once: some ten million steps at most, and those
    /// that the octets of the defaults take. Takes no memory.
    pub fn new(ty: Ty) -> Result<WellTyped, TypeFault>
        ensures value { IfOk result (λ well_typed. well_typed ≡ ty) }
        ensures exact { IsOk result ↔ IsWellFormed (ty_view ty) }
        ensures limits { result ≡ Err TypeFault.TooLarge → ¬ KeepsLimits (ty_view ty) }
        ensures numbers { result ≡ Err TypeFault.RepeatedNumber → ¬ AllByRecursion NumbersDiffer (nodes_of (ty_view ty)) }
        ensures tags { result ≡ Err TypeFault.TagsNotDistinct → ¬ AllByRecursion HasDistinctTags (nodes_of (ty_view ty)) }
        ensures defaults { result ≡ Err TypeFault.BadDefault → ¬ AllByRecursion HasGoodDefaults (nodes_of (ty_view ty)) }
    {
        if nodes_left(&ty, MAX_NODES, MAX_LEVELS).is_none() || !each_meets(Condition::Limits, &ty) {
            return Err(TypeFault::TooLarge);
        }
        if !each_meets(Condition::Numbers, &ty) {
            return Err(TypeFault::RepeatedNumber);
        }
        if !each_meets(Condition::Tags, &ty) {
            return Err(TypeFault::TagsNotDistinct);
        }
        if !each_meets(Condition::Defaults, &ty) {
            return Err(TypeFault::BadDefault);
        }
        Ok(WellTyped { ty })
    }

    /// The type. Takes no memory.
    pub fn as_type(&self) -> &Ty
        ensures value { result.now ≡ self.now }
        ensures well_formed { IsWellFormed (ty_view self.now) }
    {
        &self.ty
    }
}
