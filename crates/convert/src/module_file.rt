//! A module's file, and the type that a name of the module means.

ghost use Rattle.std.specs.Prelude.{◌≡◌, ◌≢◌, ◌<◌, ◌≤◌, ◌⊎◌, IfOk, IfErr, IfSome, length, take};
ghost use Rattle.std.specs.Str.{IsUtf8};
ghost use Rattle.types.specs.Shape.{Shape};
ghost use Rattle.types.specs.View.{ty_view};
ghost use Rattle.types.specs.WellFormed.{IsWellFormed};
ghost use Rattle.syntax.specs.Tree.{Tree};
ghost use Rattle.convert.specs.ModuleFile.{FileMeans, IsAtFront, IsFileFault, IsModuleFile};

use lexis::MAX_TEXT;
use notation::{parse, resolve};
use simdutf8::basic::from_utf8;
use std::alloc::Global;
use std::io::{self, Read};
use types::WellTyped;

/// The type that the module in these octets, of at most 262,144, means by the name. Refused with the faults 21 to 32, of
/// which 21 and 31 stand at 1:1 where the octets are no UTF-8 or too many, and with 33 where memory runs out.
pub fn type_from(alloc: Global, octets: &[u8], name: &str) -> Result<WellTyped, notation::Fault>
    ensures value { IfOk result (λ ty. FileMeans octets.now name.now (ty_view ty)) }
    ensures only { IfOk result (λ ty. (other : Shape) → FileMeans octets.now name.now other → other ≡ ty_view ty) }
    ensures well_formed { IfOk result (λ ty. IsWellFormed (ty_view ty)) }
    ensures refused { IfErr result (λ fault. fault.number ≢ 33 →
        (type : Shape) → FileMeans octets.now name.now type → ¬ IsWellFormed type) }
    ensures cycle { IfErr result (λ fault. fault.number ≡ 25 → (type : Shape) → ¬ FileMeans octets.now name.now type) }
    ensures numbers { IfErr result IsFileFault }
    ensures too_long { 262_144 < length octets.now → IfErr result (IsAtFront 31) }
    ensures front { length octets.now ≤ 262_144 → ¬ IsUtf8 octets.now → IfErr result (IsAtFront 21) }
{
    let text = text_of(octets)?;
    let module = parse(alloc, text)?;
    resolve(alloc, &module, name)
}

// The octets as text. The limit is judged before the characters.
fn text_of(octets: &[u8]) -> Result<&str, notation::Fault>
    ensures text { IfOk result (λ text. text.now ≡ octets.now) }
    ensures utf8 { IfOk result (λ _. IsUtf8 octets.now) }
    ensures refused { IfErr result (λ _. (m : Tree) → ¬ IsModuleFile octets.now m) }
    ensures numbers { IfErr result (λ fault. (fault.number ≡ 21) ⊎ (fault.number ≡ 31)) }
    ensures within { IfOk result (λ _. length octets.now ≤ 262_144) }
    ensures too_long { 262_144 < length octets.now → IfErr result (IsAtFront 31) }
    ensures front { length octets.now ≤ 262_144 → IfErr result (IsAtFront 21) }
{
    if octets.len() > MAX_TEXT {
        return Err(at_front(31));
    }
    match from_utf8(octets) {
        Ok(text) => Ok(text),
        Err(_) => Err(at_front(21)),
    }
}

// The fault of this number at 1:1.
fn at_front(number: u32) -> notation::Fault
    ensures { IsAtFront number result }
{
    notation::Fault {
        number,
        line: 1,
        column: 1,
    }
}

/// The octets of a module's file, or so many of them that it is seen to be too long: 262,145. It fails where the file
/// does, or memory runs out, which is the error `OutOfMemory`.
pub fn read_module<R: Read>(alloc: Global, file: &mut R) -> io::Result<Vec<u8>>
    ensures { IfOk result (λ octets. IfSome (R.remaining file.old) (λ left. octets.items ≡ take 262_145 left)) }
{
    let mut octets = Vec::new(alloc);
    file.take(MAX_TEXT as u64 + 1).read_to_end(&mut octets)?;
    Ok(octets)
}
