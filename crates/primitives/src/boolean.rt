//! Contents octets of a BOOLEAN (X.690 8.2 and 11.1).

ghost use Rattle.std.specs.Prelude.{◌≡◌, Bool, IfSome, IfNone, OnOk, OnErr};
ghost use Rattle.octets.specs.Front.{Appends};
ghost use Rattle.octets.specs.Rule.{ber};
ghost use Rattle.primitives.specs.Boolean.{IsBoolean, IsCanonicalBoolean};

use octets::NoMemory;

/// The value of a BOOLEAN's contents octets under BER (X.690 8.2). Takes no memory.
pub fn read_boolean(contents: &[u8]) -> Option<bool>
    ensures value { IfSome result (λ value. IsBoolean ber value contents.now) }
    ensures none { IfNone result ((value : Bool) → ¬ IsBoolean ber value contents.now) }
{
    match contents {
        [octet] => Some(*octet != 0),
        _ => None,
    }
}

/// Appends the contents octets of a BOOLEAN under CER and DER (X.690 11.1).
#[inline(always)]
pub fn put_boolean(out: &mut Vec<u8>, value: bool) -> Result<(), NoMemory>
    ensures appended { OnOk result (Appends (IsCanonicalBoolean value) out.old.items out.new.items) }
    ensures unchanged { OnErr result (out.new.items ≡ out.old.items) }
{
    out.push(if value { 0xFF } else { 0x00 })?;
    Ok(())
}
