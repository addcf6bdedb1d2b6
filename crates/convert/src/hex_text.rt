//! Hexadecimal text.

ghost use Rattle.std.specs.Prelude.{◌≡◌, ℕ, List, ◌<◌, ◌↔◌, length, IfOk};
ghost use Rattle.convert.specs.HexText.{is_space, without_spaces, IsHexText, most_text_octets};

use crate::MAX_HEX_TEXT;
use hex::FromHexError;
use std::alloc::{AllocError, Global};
use thiserror::Error;

/// Why a text gives no octets.
#[derive(Clone, Copy, Debug, PartialEq, Eq, Error)]
pub enum HexFault {
    /// Without the white space it is no row of pairs of hexadecimal digits.
    #[error("not hexadecimal")]
    NotHex,
    /// It has more than `MAX_HEX_TEXT` octets.
    #[error("hexadecimal text too long")]
    TooLong,
    /// A growth was refused.
    #[error("out of memory")]
    NoMemory,
}

impl From<FromHexError> for HexFault {
    ghost use Rattle.convert.specs.HexFault.{hex_fault_of};

    ghost from_gives = { λ error fault. fault ≡ hex_fault_of error };

    fn from(error: FromHexError) -> HexFault {
        match error {
            FromHexError::OutOfMemory => HexFault::NoMemory,
            FromHexError::InvalidHexCharacter { .. }
            | FromHexError::OddLength
            | FromHexError::InvalidStringLength => HexFault::NotHex,
        }
    }
}

impl From<AllocError> for HexFault {
    ghost use Rattle.convert.specs.declared.hex_text.HexFault.TheVariants.{NoMemory as RefusedMemory};

    ghost from_gives = { λ _ fault. fault ≡ RefusedMemory };

    fn from(_refused: AllocError) -> HexFault {
        HexFault::NoMemory
    }
}

/// The octets of a hexadecimal text, in either case. Octets 9, 10, 13 and 32 in it are skipped.
pub fn unhex(alloc: Global, text: &[u8]) -> Result<Vec<u8>, HexFault>
    ensures value { IfOk result (λ octets. IsHexText octets.items text.now) }
    ensures none { result ≡ Err HexFault.NotHex → (octets : List ℕ) → ¬ IsHexText octets text.now }
    ensures too_long { (result ≡ Err HexFault.TooLong) ↔ (most_text_octets < length text.now) }
{
    if text.len() > MAX_HEX_TEXT {
        return Err(HexFault::TooLong);
    }
    let digits = digits_of(alloc, text)?;
    Ok(hex::decode(alloc, digits.as_slice())?)
}

// The text without white space.
fn digits_of(alloc: Global, text: &[u8]) -> Result<Vec<u8>, AllocError>
    ensures { IfOk result (λ digits. digits.items ≡ without_spaces text.now) }
{
    let mut digits = Vec::from_slice(alloc, text)?;
    digits.retain(|octet| !is_space(*octet));
    Ok(digits)
}

fn is_space(octet: u8) -> bool
    ensures { result ≡ is_space octet }
{
    matches!(octet, b'\t' | b'\n' | b'\r' | b' ')
}
