//! Encodings of an INTEGER and of an ENUMERATED number (X.690 8.3 and 8.4): contents octets by words of eight.

ghost use Rattle.std.specs.Prelude.{Bool, ◌≡◌, ◌≤◌, ◌<◌, ◌+◌, ◌*◌, ◌^◌, ◌-◌, ◌++◌, ℕ, List, All, length, OnOk, OnErr};
ghost use Rattle.octets.specs.Digits.{number_of};
ghost use Rattle.primitives.specs.Integer.{IsInteger, number_at};
ghost use Rattle.canon.specs.Few.{Spells};
ghost use Rattle.canon.specs.Leaf.{IsNumberEncoding};
ghost use Rattle.canon.specs.Part.{Keeps};
ghost use Rattle.canon.specs.Writes.{Writes};

use crate::contents::{distance_of, size_of_integer};
use crate::few::{Few, joined, put_few, put_word};
use crate::heads::{high_head, low_head, put_primitive_head};
use octets::{NoMemory, Tag};

// Appends the encoding of a number under `tag`: mostly a word of eight octets has all of it.
#[inline(never)]
pub(crate) fn put_number(tag: Tag, number: i128, out: &mut Vec<u8>) -> Result<(), NoMemory>
    ensures { Writes (IsNumberEncoding tag number) result out.old.items out.new.items }
{
    if tag.number >= 31 {
        return put_high_number(tag, number, out);
    }
    let distance = distance_of(number);
    if distance >= 1 << 47 {
        return put_long_number(tag, number, out);
    }
    let contents = contents_near(number, distance as u64);
    put_few(joined(low_head(tag, contents.count), contents), out)
}

// Appends the encoding of a number under a tag whose number follows the leading octet.
#[inline(never)]
fn put_high_number(tag: Tag, number: i128, out: &mut Vec<u8>) -> Result<(), NoMemory>
    requires { 31 ≤ tag.number }
    ensures { Writes (IsNumberEncoding tag number) result out.old.items out.new.items }
{
    if tag.number < 0x4000 {
        let distance = distance_of(number);
        if distance < 1 << 31 {
            let contents = contents_near(number, distance as u64);
            return put_few(joined(high_head(tag, contents.count), contents), out);
        }
    }
    put_long_number(tag, number, out)
}

// The contents octets of a number that stands so far above 0, or below -1.
fn contents_near(number: i128, distance: u64) -> Few
    requires near { distance < 2 ^ 47 }
    requires distance { (negative : Bool) × (number ≡ number_at negative distance) }
    ensures contents { Spells (IsInteger number) result }
    ensures few { (most : ℕ) → distance < 2 ^ (8 * most + 7) → result.count ≤ most + 1 }
{
    // Twice the distance has a bit more than the distance, for the sign.
    let free = (2 * distance + 1).leading_zeros() as usize / 8;
    let low = (number.cast_unsigned() % (1 << 64)) as u64;
    Few {
        count: 8 - free,
        word: low << (8 * free),
    }
}

// Appends the encoding of a number of any size.
#[inline(never)]
fn put_long_number(tag: Tag, number: i128, out: &mut Vec<u8>) -> Result<(), NoMemory>
    ensures { Writes (IsNumberEncoding tag number) result out.old.items out.new.items }
{
    let count = size_of_integer(number);
    put_primitive_head(tag, count, out)?;
    // Sixteen octets: the contents octets, and then zeros.
    let sixteen = number.cast_unsigned() << (8 * (16 - count));
    put_first(count, sixteen, out)
}

// Appends the first `count` of sixteen octets.
fn put_first(count: usize, sixteen: u128, out: &mut Vec<u8>) -> Result<(), NoMemory>
    requires few { count ≤ 16 }
    ensures appended { OnOk result ((octets : List ℕ) → All (λ octet. octet < 256) octets → length octets ≡ count →
        sixteen ≡ number_of 256 octets * 256 ^ (16 - count) → out.new.items ≡ out.old.items ++ octets) }
    ensures kept { OnErr result (Keeps out.old.items out.new.items) }
{
    let end = out.len() + count;
    put_word((sixteen >> 64) as u64, out)?;
    if count > 8 {
        put_word((sixteen % (1 << 64)) as u64, out)?;
    }
    out.truncate(end);
    Ok(())
}
