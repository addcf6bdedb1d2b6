//! From a name to its type.

ghost use Rattle.std.specs.Prelude.{◌≡◌, ◌≢◌, IfOk, IfErr};
ghost use Rattle.types.specs.View.{ty_view};
ghost use Rattle.types.specs.WellFormed.{IsWellFormed};
ghost use Rattle.types.specs.Shape.{Shape};
ghost use Rattle.syntax.specs.View.{tree};
ghost use Rattle.notation.specs.Meaning.{NameMeans};
ghost use Rattle.notation.specs.Fault.{IsResolvingFault};

use crate::scope::{Scope, Seen};
use crate::unresolved::Unresolved;
use builtin_types::{Cause, Stop};
use lexis::Fault;
use std::alloc::Global;
use syntax::Module;
use types::{MAX_NODES, Ty, TypeFault, WellTyped};

/// The type that the module means by the name.
///
/// Any two equal assigned names are refused, at the first that repeats an earlier one. Else only what
/// the name reaches is judged, and a fault stands at the name's assignment, or at 1:1 where it has none.
/// The module is looked at once; no type is made before its nodes and levels are counted.
pub fn resolve(alloc: Global, module: &Module, name: &str) -> Result<WellTyped, Fault>
    ensures value { IfOk result (λ resolved. NameMeans (tree «module».now) name.now (ty_view resolved)) }
    ensures only { IfOk result (λ resolved. (other : Shape) → NameMeans (tree «module».now) name.now other → other ≡ ty_view resolved) }
    ensures well_formed { IfOk result (λ resolved. IsWellFormed (ty_view resolved)) }
    ensures numbers { IfErr result IsResolvingFault }
    ensures refused { IfErr result (λ fault. fault.number ≢ 33 → (type : Shape) → NameMeans (tree «module».now) name.now type → ¬ IsWellFormed type) }
    ensures cycle { IfErr result (λ fault. fault.number ≡ 25 → (type : Shape) → NameMeans (tree «module».now) name.now type → ⊥) }
{
    let mut scope = match Scope::new(alloc, module)? {
        Ok(scope) => scope,
        Err(place) => return Err(fault_at(module, Some(place), 26)),
    };
    let place = match scope.place_of(name) {
        Some(place) => place,
        None => return Err(fault_at(module, None, Unresolved::NotAssigned.number())),
    };
    scope.settle(alloc)?;
    match scope.seen_at(place) {
        Some(seen) => match scope.type_of(alloc, seen) {
            Ok(ty) => Ok(ty),
            Err(Stop::NoMemory) => Err(fault_at(module, None, 33)),
            Err(Stop::Refused(cause)) => Err(fault_at(module, Some(place), cause.number())),
        },
        None => {
            let cause = scope.cause_to_refuse(alloc, place)?;
            Err(fault_at(module, Some(place), cause.number()))
        }
    }
}

/// The fault of this number at the assignment at this place, or at 1:1.
fn fault_at(module: &Module, place: Option<usize>, number: u32) -> Fault
    ensures { result.number ≡ number }
{
    let assignment = place.and_then(|place| module.assignments.get(place));
    match assignment {
        Some(assignment) => Fault {
            number,
            line: assignment.line,
            column: assignment.column,
        },
        None => Fault {
            number,
            line: 1,
            column: 1,
        },
    }
}

impl<'a> Scope<'a> {
    ghost use Rattle.std.specs.Prelude.{None as Nothing};
    ghost use Rattle.syntax.specs.Tree.{Form};
    ghost use Rattle.syntax.specs.View.{form};
    ghost use Rattle.notation.specs.Known.{LeadsTo};
    ghost use Rattle.notation.specs.Apart.{CanMake};
    ghost use Rattle.notation.specs.Weighed.{IsWeight};
    ghost use Rattle.notation.specs.Refused.{HasNoType};
    ghost use Rattle.notation.specs.Under.{MeansUnder};

    /// The type of an assignment of which this is known.
    fn type_of(&self, alloc: Global, seen: Seen<'a>) -> Result<WellTyped, Stop>
        ensures value { IfOk result (λ resolved. (seen.entry.weight.cause ≡ Nothing → CanMake self.now.module.now self.now (form seen.entry.root.expr.now)) → MeansUnder (tree self.now.module.now) seen.entry.root.tag (form seen.entry.root.expr.now) (ty_view resolved)) }
        ensures well_formed { IfOk result (λ resolved. IsWellFormed (ty_view resolved)) }
        ensures never { IfErr result (λ stop. stop ≢ Stop.NoMemory → (seen.entry.weight.cause ≡ Nothing → CanMake self.now.module.now self.now (form seen.entry.root.expr.now)) → (f : Form) →
            LeadsTo (tree self.now.module.now) Nothing f seen.entry.root → IsWeight (tree self.now.module.now) f seen.entry.weight → HasNoType (tree self.now.module.now) Nothing f) }
    {
        let weight = seen
            .weight
            .unless(seen.root.is_tag_within(), Cause::TooLarge);
        if let Some(cause) = weight.cause {
            return Err(Stop::Refused(cause));
        }
        let ty = self.expand(alloc, seen.root.expr, seen.root.tag, MAX_NODES)?;
        well_typed(ty)
    }
}

fn well_typed(ty: Ty) -> Result<WellTyped, Stop>
    ensures value { IfOk result (λ resolved. resolved ≡ ty) }
    ensures well_formed { IfOk result (λ resolved. IsWellFormed (ty_view resolved)) }
    ensures refused { IfErr result (λ stop. ¬ IsWellFormed (ty_view ty)) }
{
    match WellTyped::new(ty) {
        Ok(ty) => Ok(ty),
        Err(TypeFault::TooLarge) => Err(Stop::Refused(Cause::TooLarge)),
        Err(TypeFault::RepeatedNumber) => Err(Stop::Refused(Cause::RepeatedNumber)),
        Err(TypeFault::TagsNotDistinct) => Err(Stop::Refused(Cause::TagsNotDistinct)),
        Err(TypeFault::BadDefault) => Err(Stop::Refused(Cause::BadDefault)),
    }
}
