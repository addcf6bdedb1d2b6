//! One subidentifier (X.690 8.19.2): a number in base 128, in the fewest octets, with bit 8 set on each
//! octet but the last. That it is below 2^128 is this project's own limit (`docs/PROFILE.md`).

ghost use Rattle.std.specs.Prelude.{ℕ, ◌^◌, ◌<◌, IfSome, IfNone};
ghost use Rattle.octets.specs.Base128.{IsBase128};
ghost use Rattle.octets.specs.Front.{HasFront};
ghost use Rattle.primitives.specs.Oid.{IsReadSubidentifier};

/// Reads the subidentifier at the front of `octets`, and says how many octets it has: mostly one.
#[inline(always)]
pub fn read_subidentifier(octets: &[u8]) -> Option<(u128, usize)>
    ensures value { IfSome result (λ read. IsReadSubidentifier octets.now read.0 read.1) }
    ensures none { IfNone result ((number : ℕ) → number < 2 ^ 128 → ¬ HasFront (IsBase128 number) octets.now) }
{
    let first = *octets.first()?;
    if first < 0x80 {
        return Some((u128::from(first), 1));
    }
    read_long_subidentifier(octets)
}

// Reads the subidentifier at the front of `octets`, of any size.
#[inline(never)]
fn read_long_subidentifier(octets: &[u8]) -> Option<(u128, usize)>
    ensures value { IfSome result (λ read. IsReadSubidentifier octets.now read.0 read.1) }
    ensures none { IfNone result ((number : ℕ) → number < 2 ^ 128 → ¬ HasFront (IsBase128 number) octets.now) }
{
    let mut number = 0u128;
    for (i, octet) in octets.iter().enumerate() {
        if i == 0 && *octet == 0x80 {
            return None;
        }
        if number > u128::MAX / 128 {
            return None;
        }
        number = number * 128 + u128::from(*octet % 128);
        if *octet < 0x80 {
            return Some((number, i + 1));
        }
    }
    None
}
