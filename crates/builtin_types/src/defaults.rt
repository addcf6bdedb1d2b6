//! The values behind DEFAULT (X.680 25.1).
//!
//! Which types take a default is this project's own choice (`docs/PROFILE.md`, "Defaults").

ghost use Rattle.std.specs.Prelude.{◌≡◌, ◌≢◌, Bool, List, map, Contains, IfOk, IfErr, IfSome, IsNone, MatchOption};
ghost use Rattle.types.specs.Shape.{EnumerationItem, NamedBitView, SimpleType, StringType, StringValue, Val};
ghost use Rattle.types.specs.View.{item_view, ty_view, value_view};
ghost use Rattle.syntax.specs.View.{value_view as written_view};
ghost use Rattle.builtin_types.specs.Defaults.{AreWritten, IsDefault};
ghost use Rattle.builtin_types.specs.Taken.{IsSimpleTaken, IsStringTaken, IsTaken, IsTakenText};

use crate::digits::{binary_bits, hex_bits, hex_octets, quoted_octets};
use crate::numbering::number_of;
use crate::stop::{Cause, Stop};
use primitives::Bits;
use std::alloc::{AllocError, Global};
use strings::{TextKind, allowed};
use syntax::DefaultValue;
use types::{Item, Ty, Value};

/// The value that is written behind DEFAULT for a component of this type, seen through explicit tags
/// (X.680 25.1). Refused as `BadDefault` where the notation has no value of the type. Takes memory for the
/// octets of a string.
pub fn default_of(alloc: Global, ty: &Ty, written: &DefaultValue) -> Result<Value, Stop>
    ensures value { IfOk result (λ value. IsDefault (ty_view ty.now) (written_view written.now) (value_view value)) }
    ensures refused { IfErr result (λ stop. stop ≢ Stop.NoMemory → (v : Val) → ¬ IsDefault (ty_view ty.now) (written_view written.now) v) }
    ensures numbers { IfErr result (λ stop. stop ≢ Stop.NoMemory → stop ≡ Stop.Refused Cause.BadDefault) }
{
    match taken(alloc, ty, written)? {
        Some(value) => Ok(value),
        None => Err(Stop::Refused(Cause::BadDefault)),
    }
}

/// The default, where the type takes it.
fn taken(alloc: Global, ty: &Ty, written: &DefaultValue) -> Result<Option<Value>, AllocError>
    ensures { IfOk result (λ found. IsTaken (ty_view ty.now) (written_view written.now) found) }
{
    match ty {
        Ty::Boolean(_) => Ok(boolean(written)),
        Ty::Integer(_) => Ok(integer(written)),
        Ty::Enumerated(_, items) => Ok(item(items, written)),
        Ty::Bits(_) => bits(alloc, written),
        Ty::NamedBits(_, _) => named_bits(alloc, written),
        Ty::Octets(_) => octets(alloc, written),
        Ty::Text(_, kind) => text(alloc, *kind, written),
        Ty::Explicit(_, inner) => taken(alloc, inner, written),
        Ty::Null(_) | Ty::Oid(_) | Ty::RelativeOid(_) | Ty::Time(_, _) => Ok(None),
        Ty::Sequence(_, _) | Ty::Set(_, _) | Ty::Choice(_) => Ok(None),
        Ty::SequenceOf(_, _) | Ty::SetOf(_, _) => Ok(None),
    }
}

fn boolean(written: &DefaultValue) -> Option<Value>
    ensures { IsSimpleTaken SimpleType.boolean (written_view written.now) result }
{
    match written {
        DefaultValue::True => Some(Value::Boolean(true)),
        DefaultValue::False => Some(Value::Boolean(false)),
        DefaultValue::Number(_) | DefaultValue::Name(_) => None,
        DefaultValue::Binary(_) | DefaultValue::Hex(_) | DefaultValue::Chars(_) => None,
    }
}

fn integer(written: &DefaultValue) -> Option<Value>
    ensures { IsSimpleTaken SimpleType.integer (written_view written.now) result }
{
    match written {
        DefaultValue::Number(signed) => Some(Value::Integer(number_of(*signed)?)),
        DefaultValue::True | DefaultValue::False | DefaultValue::Name(_) => None,
        DefaultValue::Binary(_) | DefaultValue::Hex(_) | DefaultValue::Chars(_) => None,
    }
}

fn item(items: &[Item], written: &DefaultValue) -> Option<Value>
    ensures { IsSimpleTaken (SimpleType.enumerated (map item_view items.now)) (written_view written.now) result }
{
    match written {
        DefaultValue::Name(name) => Some(Value::Enumerated(number_named(items, name.as_str())?)),
        DefaultValue::True | DefaultValue::False | DefaultValue::Number(_) => None,
        DefaultValue::Binary(_) | DefaultValue::Hex(_) | DefaultValue::Chars(_) => None,
    }
}

/// The number of the item with the name.
fn number_named(items: &[Item], name: &str) -> Option<i128>
    ensures some { IfSome result (λ number. (item : EnumerationItem) × Contains (map item_view items.now) item × (item.name ≡ name.now) × (item.number ≡ number)) }
    ensures none { IsNone result → (item : EnumerationItem) → Contains (map item_view items.now) item → item.name ≢ name.now }
{
    for item in items {
        if item.name.as_str() == name {
            return Some(item.number);
        }
    }
    None
}

fn bits(alloc: Global, written: &DefaultValue) -> Result<Option<Value>, AllocError>
    ensures { IfOk result (λ found. IsStringTaken StringType.bit_string (written_view written.now) found) }
{
    match bits_of(alloc, written)? {
        Some(bits) => Ok(Some(Value::Bits(bits))),
        None => Ok(None),
    }
}

/// The default of a BIT STRING with named bits, where bits 0 at the end mean nothing (X.680 22.7).
fn named_bits(alloc: Global, written: &DefaultValue) -> Result<Option<Value>, AllocError>
    ensures { (names : List NamedBitView) → IfOk result (λ found. IsStringTaken (StringType.named_bits names) (written_view written.now) found) }
{
    match bits_of(alloc, written)? {
        Some(bits) => Ok(Some(Value::Bits(bits.trimmed()))),
        None => Ok(None),
    }
}

/// The bits that are written.
fn bits_of(alloc: Global, written: &DefaultValue) -> Result<Option<Bits>, AllocError>
    ensures { IfOk result (λ found. MatchOption found ((bits : List Bool) → ¬ AreWritten (written_view written.now) bits) (λ bits. AreWritten (written_view written.now) bits)) }
{
    match written {
        DefaultValue::Binary(spelled) => binary_bits(alloc, spelled.as_str()),
        DefaultValue::Hex(spelled) => hex_bits(alloc, spelled.as_str()),
        DefaultValue::True | DefaultValue::False | DefaultValue::Number(_) => Ok(None),
        DefaultValue::Name(_) | DefaultValue::Chars(_) => Ok(None),
    }
}

fn octets(alloc: Global, written: &DefaultValue) -> Result<Option<Value>, AllocError>
    ensures { IfOk result (λ found. IsStringTaken StringType.octet_string (written_view written.now) found) }
{
    match written {
        DefaultValue::Hex(spelled) => match hex_octets(alloc, spelled.as_str())? {
            Some(octets) => Ok(Some(Value::Octets(octets))),
            None => Ok(None),
        },
        DefaultValue::True | DefaultValue::False | DefaultValue::Number(_) => Ok(None),
        DefaultValue::Name(_) | DefaultValue::Binary(_) | DefaultValue::Chars(_) => Ok(None),
    }
}

fn text(alloc: Global, kind: TextKind, written: &DefaultValue) -> Result<Option<Value>, AllocError>
    ensures { IfOk result (λ found. IsStringTaken (StringType.text kind) (written_view written.now) found) }
{
    match written {
        DefaultValue::Chars(spelled) => match quoted_octets(alloc, spelled.as_str())? {
            Some(octets) => Ok(text_of(kind, octets)),
            None => Ok(None),
        },
        DefaultValue::True | DefaultValue::False | DefaultValue::Number(_) => Ok(None),
        DefaultValue::Name(_) | DefaultValue::Binary(_) | DefaultValue::Hex(_) => Ok(None),
    }
}

/// The string of these octets, where the type takes it.
fn text_of(kind: TextKind, octets: Vec<u8>) -> Option<Value>
    ensures value { IfSome result (λ value. IsTakenText kind octets.items × (value_view value ≡ Val.string (StringValue.text octets.items))) }
    ensures none { IsNone result → ¬ IsTakenText kind octets.items }
{
    if kind == TextKind::Bmp {
        return None;
    }
    if !allowed(kind, &octets) {
        return None;
    }
    Some(Value::Text(octets))
}
