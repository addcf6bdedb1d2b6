//! The exports that make and free types, and name numbers.

ghost use Rattle.std.specs.Prelude.{◌≡◌, ◌≢◌, ◌↔◌, ◌⊎◌, None, Some, IfOk, IfErr, IfSome, MatchResult};
ghost use Rattle.std.specs.Str.{IsUtf8};
ghost use Rattle.types.specs.Shape.{Shape};
ghost use Rattle.types.specs.View.{ty_view};
ghost use Rattle.types.specs.WellFormed.{IsWellFormed};
ghost use Rattle.types.specs.declared.ty.Ty.{Ty};
ghost use Rattle.convert.specs.ModuleFile.{FileMeans};
ghost use Rattle.asn1x_c.specs.Done.{HasNoPlace, IsPut};
ghost use Rattle.asn1x_c.specs.Held.{type_of};
ghost use Rattle.asn1x_c.specs.Numbers.{IsFaultNumber, name_numbered, wrong_argument};

use crate::done::ModuleFault;
use crate::held::HeldType;
use crate::numbers::name_numbered;
use crate::outcomes::{WRONG_ARGUMENT, put};
use convert::{WellTyped, type_from};
use std::alloc::Global;
use std::str::from_utf8;

/// Makes the type that a module means by the name, and frees the one that is held.
#[unsafe(no_mangle)]
pub extern "C" fn asn1x_type_from(
    alloc: Global,
    held: &mut HeldType,
    text: &[u8],
    name: &[u8],
) -> ModuleFault
    ensures value { result.number ≡ 0 → (ty : Ty) × (type_of held.new ≡ Some ty)
        × FileMeans text.now name.now (ty_view ty) × IsWellFormed (ty_view ty) }
    ensures only { result.number ≡ 0 → (other : Shape) → FileMeans text.now name.now other →
        IfSome (type_of held.new) (λ ty. other ≡ ty_view ty) }
    ensures none { result.number ≢ 0 → type_of held.new ≡ None }
    ensures refused { result.number ≢ 0 → result.number ≢ 33 → result.number ≢ wrong_argument → (type : Shape) →
        FileMeans text.now name.now type → ¬ IsWellFormed type }
    ensures cycle { result.number ≡ 25 → (type : Shape) → ¬ FileMeans text.now name.now type }
    ensures wrong { result.number ≡ wrong_argument ↔ ¬ IsUtf8 name.now }
    ensures place { result.number ≡ wrong_argument → HasNoPlace result }
    ensures zeros { result.number ≡ 0 → (result.line ≡ 0) × (result.column ≡ 0) }
    ensures numbers { (result.number ≡ 0) ⊎ IsFaultNumber result.number ⊎ (result.number ≡ wrong_argument) }
{
    let _former = held.take(alloc);
    match type_named(alloc, text, name) {
        Ok(ty) => {
            held.put(alloc, ty);
            ModuleFault::none()
        }
        Err(fault) => fault,
    }
}

// The type, in memory of its own.
fn type_named(alloc: Global, text: &[u8], name: &[u8]) -> Result<Box<WellTyped>, ModuleFault>
    ensures value { IfOk result (λ ty. FileMeans text.now name.now (ty_view ty.value)) }
    ensures only { IfOk result (λ ty. (other : Shape) → FileMeans text.now name.now other →
        other ≡ ty_view ty.value) }
    ensures well_formed { IfOk result (λ ty. IsWellFormed (ty_view ty.value)) }
    ensures refused { IfErr result (λ fault. fault.number ≢ 33 → fault.number ≢ wrong_argument → (type : Shape) →
        FileMeans text.now name.now type → ¬ IsWellFormed type) }
    ensures cycle { IfErr result (λ fault. fault.number ≡ 25 → (type : Shape) → ¬ FileMeans text.now name.now type) }
    ensures wrong { MatchResult result (λ _. IsUtf8 name.now) (λ fault. fault.number ≡ wrong_argument ↔ ¬ IsUtf8 name.now) }
    ensures place { IfErr result (λ fault. fault.number ≡ wrong_argument → HasNoPlace fault) }
    ensures numbers { IfErr result (λ fault. IsFaultNumber fault.number ⊎ (fault.number ≡ wrong_argument)) }
{
    let Ok(name) = from_utf8(name) else {
        return Err(ModuleFault::without_place(WRONG_ARGUMENT));
    };
    match type_from(alloc, text, name) {
        Ok(ty) => match Box::new(alloc, ty) {
            Ok(ty) => Ok(ty),
            Err(_) => Err(ModuleFault::without_place(33)),
        },
        Err(fault) => Err(ModuleFault::of(fault)),
    }
}

/// Frees the type that is held, if there is one, and holds none.
#[unsafe(no_mangle)]
pub extern "C" fn asn1x_type_free(alloc: Global, held: &mut HeldType)
    ensures { type_of held.new ≡ None }
{
    let _freed = held.take(alloc);
}

/// Puts the name of a refusal or of a module's fault into `out` where there is room for all of it.
#[unsafe(no_mangle)]
pub extern "C" fn asn1x_name(number: u32, out: &mut [u8]) -> usize
    ensures { IsPut (name_numbered number) out.old out.new result }
{
    put(name_numbered(number).as_bytes(), out)
}
