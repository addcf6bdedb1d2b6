//! Numbers in base 128 with bit 8 set on each octet but the last, in the fewest octets: tag numbers
//! from 31 on (X.690 8.1.2.4.2) and subidentifiers (8.19.2).

ghost use Rattle.std.specs.Prelude.{◌≡◌, OnOk, OnErr};
ghost use Rattle.octets.specs.Base128.{IsBase128};
ghost use Rattle.octets.specs.Front.{Appends};

use crate::NoMemory;

/// Appends the octets of `number` in base 128. One octet, for which there is room, is put here; all else by a call.
#[inline(always)]
pub fn put_base_128(out: &mut Vec<u8>, number: u128) -> Result<(), NoMemory>
    ensures appended { OnOk result (Appends (IsBase128 number) out.old.items out.new.items) }
    ensures unchanged { OnErr result (out.new.items ≡ out.old.items) }
{
    if number < 0x80 && out.len() < out.capacity() {
        out.push_reserved(number as u8);
        return Ok(());
    }
    put_long_base_128(out, number)
}

// Appends the octets of `number` in base 128, of any size. Two or three, for which there is room, are put here.
#[inline(never)]
fn put_long_base_128(out: &mut Vec<u8>, number: u128) -> Result<(), NoMemory>
    ensures appended { OnOk result (Appends (IsBase128 number) out.old.items out.new.items) }
    ensures unchanged { OnErr result (out.new.items ≡ out.old.items) }
{
    if number >= 0x80 && number < 0x4000 && out.capacity() - out.len() >= 2 {
        out.push_reserved(0x80 + (number / 128) as u8);
        out.push_reserved((number % 128) as u8);
        return Ok(());
    }
    if number >= 0x4000 && number < 0x20_0000 && out.capacity() - out.len() >= 3 {
        out.push_reserved(0x80 + (number / 128 / 128) as u8);
        out.push_reserved(0x80 + (number / 128 % 128) as u8);
        out.push_reserved((number % 128) as u8);
        return Ok(());
    }
    put_any_base_128(out, number)
}

// Appends the octets of `number` in base 128, of any size, and makes room for them.
#[inline(never)]
fn put_any_base_128(out: &mut Vec<u8>, number: u128) -> Result<(), NoMemory>
    ensures appended { OnOk result (Appends (IsBase128 number) out.old.items out.new.items) }
    ensures unchanged { OnErr result (out.new.items ≡ out.old.items) }
{
    // The octets come from the last to the first, and stand at the end of the room for nineteen.
    let mut room = [0u8; 19];
    let mut start = 18usize;
    let mut rest = number / 128;
    room[start] = (number % 128) as u8;
    while rest > 0 {
        start -= 1;
        room[start] = 0x80 + (rest % 128) as u8;
        rest /= 128;
    }
    out.extend_from_slice(&room[start..])?;
    Ok(())
}
