//! Identifier and length octets of explicit tags around one another: they are written behind the contents octets,
//! from the inside out and the last octet first, and stand before them at the end. So the contents octets move once,
//! however many tags there are.

ghost use Rattle.std.specs.Prelude.{IsTrue, ◌≡◌, ◌≤◌, ◌++◌, length, take, drop, reverse, OnOk, OnErr};
ghost use Rattle.octets.specs.Front.{Appends};
ghost use Rattle.octets.specs.Rule.{der, rule_of};
ghost use Rattle.canon.specs.Part.{Keeps};
ghost use Rattle.canon.specs.Turned.{IsTurnedHead, IsTurnedForward};

use crate::few::put_pair;
use crate::heads::bring_forward;
use octets::{Canonical, NoMemory, Tag, leading_octet, put_identifier, put_shortest_length};
use types::{Ty, Value};

// Whether long contents octets would move for each of four explicit tags or more, one of them around `ty`. Under CER
// none move.
#[inline(always)]
pub(crate) fn moves_often(rule: Canonical, ty: &Ty, value: &Value) -> bool
    ensures { IsTrue result → rule_of rule ≡ der }
{
    match rule {
        Canonical::Cer => false,
        Canonical::Der => is_long_under_tags(ty, value),
    }
}

// Whether a value is long, and its type begins with three explicit tags. Mostly it begins with none.
#[inline(always)]
fn is_long_under_tags(ty: &Ty, value: &Value) -> bool {
    match ty {
        Ty::Explicit(_, inner) => has_tags(inner, 2) && is_long(value),
        _ => false,
    }
}

// Whether a value surely has contents octets by the thousand, which are dear to move. Takes a few steps.
fn is_long(value: &Value) -> bool {
    match value {
        Value::Items(items) => items.len() >= 512,
        Value::Octets(octets) | Value::Text(octets) => octets.len() >= 1024,
        Value::Bits(bits) => bits.octets().len() >= 1024,
        _ => false,
    }
}

// Whether a type begins with so many explicit tags.
fn has_tags(ty: &Ty, count: usize) -> bool {
    if count == 0 {
        return true;
    }
    match ty {
        Ty::Explicit(_, inner) => has_tags(inner, count - 1),
        _ => false,
    }
}

// Appends what stands before so many contents octets of a constructed encoding, the last octet first.
#[inline(always)]
pub(crate) fn put_turned_head(tag: Tag, contents: usize, out: &mut Vec<u8>) -> Result<(), NoMemory>
    ensures appended { OnOk result (Appends (IsTurnedHead tag contents) out.old.items out.new.items) }
    ensures kept { OnErr result (Keeps out.old.items out.new.items) }
{
    if tag.number < 31 && contents < 0x80 {
        return put_pair(contents as u8, leading_octet(tag) + 0x20, out);
    }
    put_long_turned_head(tag, contents, out)
}

// Appends what stands before them, whatever the tag and the length are, the last octet first.
#[inline(never)]
fn put_long_turned_head(tag: Tag, contents: usize, out: &mut Vec<u8>) -> Result<(), NoMemory>
    ensures appended { OnOk result (Appends (IsTurnedHead tag contents) out.old.items out.new.items) }
    ensures kept { OnErr result (Keeps out.old.items out.new.items) }
{
    let from = out.len();
    put_identifier(out, tag, true)?;
    put_shortest_length(out, contents)?;
    turn(from, out);
    Ok(())
}

// Turns the octets from `from` on round.
fn turn(from: usize, out: &mut Vec<u8>)
    requires { from ≤ length out.old.items }
    ensures { out.new.items ≡ take from out.old.items ++ reverse (drop from out.old.items) }
{
    let octets = &mut out[from..];
    octets.reverse();
}

// Brings the octets from `from` on before those from `start` on, and turns them round.
pub(crate) fn turn_forward(start: usize, from: usize, out: &mut Vec<u8>)
    requires in_order { start ≤ from }
    requires there { from ≤ length out.old.items }
    ensures { IsTurnedForward start from out.old.items out.new.items }
{
    turn(from, out);
    bring_forward(start, from - start, out);
}
