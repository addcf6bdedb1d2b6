//! What stands around contents octets (X.690 9.1 and 10.1).

ghost use Rattle.std.specs.Prelude.{true, ◌≡◌, ◌≤◌, ◌<◌, ◌+◌, ◌-◌, ◌∷◌, [], ◌++◌, ℕ, List, length, take, drop, IfOk, OnOk, OnErr};
ghost use Rattle.octets.specs.declared.canonical.Canonical.TheVariants.{Cer, Der};
ghost use Rattle.octets.specs.declared.tag.Tag.{Tag as TagOf};
ghost use Rattle.octets.specs.Front.{Appends};
ghost use Rattle.octets.specs.Rule.{rule_of};
ghost use Rattle.types.specs.Form.{IsConstructed};
ghost use Rattle.canon.specs.Few.{Spells};
ghost use Rattle.canon.specs.Leaf.{IsPrimitiveHead};
ghost use Rattle.canon.specs.Opening.{IsOpening, IsBroughtForward, IsLengthPut};
ghost use Rattle.canon.specs.Part.{Keeps};
ghost use Rattle.canon.specs.Writes.{Writes};

use crate::few::{Few, put_few, put_pair};
use octets::{
    Canonical, NoMemory, Tag, class_octet, leading_octet, put_identifier, put_shortest_length,
};

// Appends what stands before so many contents octets of a primitive encoding: mostly two octets.
#[inline(always)]
pub(crate) fn put_primitive_head(
    tag: Tag,
    contents: usize,
    out: &mut Vec<u8>,
) -> Result<(), NoMemory>
    ensures { Writes (IsPrimitiveHead tag contents) result out.old.items out.new.items }
{
    if tag.number < 31 && contents < 0x80 {
        return put_pair(leading_octet(tag), contents as u8, out);
    }
    put_long_primitive_head(tag, contents, out)
}

// Appends the head of a primitive encoding, of any size.
#[inline(never)]
fn put_long_primitive_head(tag: Tag, contents: usize, out: &mut Vec<u8>) -> Result<(), NoMemory>
    ensures { Writes (IsPrimitiveHead tag contents) result out.old.items out.new.items }
{
    if 31 <= tag.number && tag.number < 0x4000 && contents < 0x80 {
        return put_few(high_head(tag, contents), out);
    }
    put_identifier(out, tag, false)?;
    put_shortest_length(out, contents)
}

// The head of so many contents octets of a primitive encoding, if it has two octets.
#[inline(always)]
pub(crate) fn low_head(tag: Tag, contents: usize) -> Few
    requires low { tag.number ≤ 30 }
    requires short { contents < 128 }
    ensures head { Spells (IsPrimitiveHead tag contents) result }
    ensures two { result.count ≡ 2 }
{
    let first = u64::from(leading_octet(tag));
    Few {
        count: 2,
        word: (first << 56) + ((contents as u64) << 48),
    }
}

// The head of which the tag's number has one digit or two behind the leading octet, and the length one octet. It is
// made without a branch: how many digits the next tag of a list has, a processor cannot guess.
#[inline(always)]
pub(crate) fn high_head(tag: Tag, contents: usize) -> Few
    requires high { 31 ≤ tag.number }
    requires digits { tag.number < 16384 }
    requires short { contents < 128 }
    ensures head { Spells (IsPrimitiveHead tag contents) result }
    ensures few { result.count ≤ 4 }
{
    let first = u64::from(class_octet(tag.class)) + 0x1F;
    let number = u64::from(tag.number);
    // Of two digits the first has bit 8 set (X.690 8.1.2.4.2), and comes one bit higher than in the number.
    let (count, digits) = if number < 0x80 {
        (3, number)
    } else {
        (4, 0x8000 + number / 128 * 128 + number)
    };
    let head = ((first << (8 * count - 16)) + digits) * 256 + contents as u64;
    Few {
        count,
        word: head << (64 - 8 * count),
    }
}

// Appends end-of-contents octets (X.690 8.1.5).
pub(crate) fn put_end(out: &mut Vec<u8>) -> Result<(), NoMemory>
    ensures appended { OnOk result (out.new.items ≡ out.old.items ++ 0 ∷ 0 ∷ []) }
    ensures unchanged { OnErr result (out.new.items ≡ out.old.items) }
{
    Ok(out.extend_from_slice(&[0x00, 0x00])?)
}

// Appends identifier octets and the octet 80, and returns where the latter stands.
#[inline(always)]
pub(crate) fn put_opening(tag: Tag, constructed: bool, out: &mut Vec<u8>) -> Result<usize, NoMemory>
    ensures opened { IfOk result (IsOpening tag constructed out.old.items out.new.items) }
    ensures kept { OnErr result (Keeps out.old.items out.new.items) }
{
    if tag.number < 31 {
        let form = if constructed { 0x20 } else { 0x00 };
        put_pair(leading_octet(tag) + form, 0x80, out)?;
        return Ok(out.len() - 1);
    }
    put_long_opening(tag, constructed, out)
}

// Appends them, whatever the tag.
#[inline(never)]
fn put_long_opening(tag: Tag, constructed: bool, out: &mut Vec<u8>) -> Result<usize, NoMemory>
    ensures opened { IfOk result (IsOpening tag constructed out.old.items out.new.items) }
    ensures kept { OnErr result (Keeps out.old.items out.new.items) }
{
    put_identifier(out, tag, constructed)?;
    out.push(0x80)?;
    Ok(out.len() - 1)
}

// Ends the constructed encoding that was opened at `place`: by end-of-contents octets, or by a length in
// the place of the octet 80 (X.690 9.1 and 10.1).
#[inline(always)]
pub(crate) fn put_closing(rule: Canonical, place: usize, out: &mut Vec<u8>) -> Result<(), NoMemory>
    requires { place < length out.old.items }
    ensures closed { OnOk result ((tag : TagOf) (before opened inside : List ℕ) →
        IsOpening tag true before opened place → out.old.items ≡ opened ++ inside →
        Appends (IsConstructed (rule_of rule) tag inside) before out.new.items) }
    ensures kept { OnErr result (Keeps out.old.items out.new.items) }
{
    match rule {
        Canonical::Cer => put_end(out),
        Canonical::Der => put_length(place, out),
    }
}

// Puts the shortest length of what stands behind `place` there.
pub(crate) fn put_length(place: usize, out: &mut Vec<u8>) -> Result<(), NoMemory>
    requires { place < length out.old.items }
    ensures put { OnOk result (IsLengthPut place out.old.items out.new.items) }
    ensures kept { OnErr result (Keeps out.old.items out.new.items) }
{
    let contents = out.len() - place - 1;
    if contents < 0x80 {
        out[place] = contents as u8;
        return Ok(());
    }
    put_long_length(place, contents, out)
}

// Puts the length of so many contents octets behind `place`, also one of the long form.
#[inline(never)]
fn put_long_length(place: usize, contents: usize, out: &mut Vec<u8>) -> Result<(), NoMemory>
    requires { place + 1 + contents ≡ length out.old.items }
    ensures put { OnOk result (IsLengthPut place out.old.items out.new.items) }
    ensures kept { OnErr result (Keeps out.old.items out.new.items) }
{
    // The last of the length octets comes to `place`, and the others then before it.
    put_shortest_length(out, contents)?;
    out.swap_remove(place);
    bring_forward(place, contents + 1, out);
    Ok(())
}

// Moves what stands behind the `count` octets at `place` before them.
pub(crate) fn bring_forward(place: usize, count: usize, out: &mut Vec<u8>)
    requires { place + count ≤ length out.old.items }
    ensures { IsBroughtForward place count out.old.items out.new.items }
{
    let few = out.len() - place - count;
    last_to_front(few, &mut out[place..]);
}

// Moves the last octets before the others, as `rotate_right` does. Of a few, one octet at a time costs less: for more
// than one std clears room on the stack, and it moves the others quickly only by 16 octets and more.
fn last_to_front(few: usize, octets: &mut [u8])
    requires { few ≤ length octets.old }
    ensures { octets.new ≡ drop (length octets.old - few) octets.old ++ take (length octets.old - few) octets.old }
{
    if few >= 16 {
        octets.rotate_right(few);
        return;
    }
    for done in 0..few {
        octets.rotate_right(1);
    }
}
