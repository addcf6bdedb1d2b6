//! What stands around contents octets under explicit tags inside one another, where it begins with two octets for each.

ghost use Rattle.std.specs.Prelude.{ℕ, List, IfOk, OnErr};
ghost use Rattle.octets.specs.Rule.{rule_of};
ghost use Rattle.types.specs.Encoding.{IsEncoding};
ghost use Rattle.types.specs.Shape.{Shape, Val};
ghost use Rattle.types.specs.View.{ty_view};
ghost use Rattle.canon.specs.Nested.{IsBehind, IsOpened, IsInside};
ghost use Rattle.canon.specs.Part.{Keeps};
ghost use Rattle.canon.specs.Writes.{Writes};

use crate::heads::{put_closing, put_opening};
use octets::{Canonical, NoMemory};
use types::Ty;

// Appends what stands before contents octets for each of the explicit tags that a type begins with, up to one that has
// more than one identifier octet. Returns the type behind them.
#[inline(always)]
pub(crate) fn open_tags<'a>(ty: &'a Ty, out: &mut Vec<u8>) -> Result<&'a Ty, NoMemory>
    ensures opened { IfOk result (λ inner.
        (count : ℕ) × IsOpened count (ty_view ty.now) out.old.items (ty_view inner.now) out.new.items) }
    ensures behind { IfOk result (λ inner. (count : ℕ) × IsBehind count ty.now inner.now) }
    ensures kept { OnErr result (Keeps out.old.items out.new.items) }
{
    let mut inner = ty;
    while let Ty::Explicit(tag, behind) = inner {
        if tag.number >= 31 {
            break;
        }
        put_opening(*tag, true, out)?;
        inner = behind;
    }
    Ok(inner)
}

// Closes what was opened from `start` to `end`, the last of it first, behind the contents octets.
pub(crate) fn close_tags(
    rule: Canonical,
    start: usize,
    end: usize,
    out: &mut Vec<u8>,
) -> Result<(), NoMemory>
    requires { (outer : Shape) × (v : Val) × (old : List ℕ) × IsInside (rule_of rule) outer v start end old out.old.items }
    ensures { (outer : Shape) (v : Val) (old : List ℕ) → IsInside (rule_of rule) outer v start end old out.old.items →
        Writes (IsEncoding (rule_of rule) outer v) result old out.new.items }
{
    if end <= start {
        return Ok(());
    }
    put_closing(rule, end - 1, out)?;
    close_tags(rule, start, end - 2, out)
}
