//! Encodings under explicit tags (X.690 8.14).

ghost use Rattle.std.specs.Prelude.{IfSome};
ghost use Rattle.types.specs.Shape.{Shape};
ghost use Rattle.types.specs.View.{ty_view};
ghost use Rattle.encoding_parts.specs.Parts.{IsGoodType};
ghost use Rattle.berslice.specs.Heads.{IsOpened};
ghost use Rattle.berslice.specs.Reading.{IsRead};

use crate::heads::{Inside, is_short, long_opened, short_opened};
use crate::reading::read_one;
use octets::Tag;
use std::alloc::Global;
use types::{Ty, Value};

// Reads the encoding under an explicit tag at the front into the value, of the type `ty`. A call of its own, since
// explicit tags nest deep and need less room on the stack than what has components.
#[cycle(reading)]
#[inline(never)]
pub fn read_under_tag(
    alloc: Global,
    tag: Tag,
    ty: &Ty,
    levels: usize,
    octets: &[u8],
    value: &mut Value,
) -> Option<usize>
    requires { IsGoodType (Shape.explicit tag (ty_view ty.now)) }
    ensures { IfSome result (λ used. IsRead levels (Shape.explicit tag (ty_view ty.now)) octets.now value.new used) }
{
    if is_short(tag, octets) {
        let inside = short_opened(tag, octets)?;
        return read_within(alloc, tag, ty, levels, &inside, octets, value);
    }
    read_under_long_tag(alloc, tag, ty, levels, octets, value)
}

// Reads an encoding under a tag that has more than two octets before the contents octets. A call of its own, so that
// what mostly comes does not go through memory.
#[cycle(reading)]
#[inline(never)]
fn read_under_long_tag(
    alloc: Global,
    tag: Tag,
    ty: &Ty,
    levels: usize,
    octets: &[u8],
    value: &mut Value,
) -> Option<usize>
    requires { IsGoodType (Shape.explicit tag (ty_view ty.now)) }
    ensures { IfSome result (λ used. IsRead levels (Shape.explicit tag (ty_view ty.now)) octets.now value.new used) }
{
    let inside = long_opened(tag, octets)?;
    read_within(alloc, tag, ty, levels, &inside, octets, value)
}

// Reads an encoding under a tag behind what stands before its contents octets.
#[cycle(reading)]
#[inline(always)]
fn read_within(
    alloc: Global,
    tag: Tag,
    ty: &Ty,
    levels: usize,
    inside: &Inside<'_>,
    octets: &[u8],
    value: &mut Value,
) -> Option<usize>
    requires good { IsGoodType (Shape.explicit tag (ty_view ty.now)) }
    requires opened { IsOpened tag octets.now inside.now }
    ensures { IfSome result (λ used. IsRead levels (Shape.explicit tag (ty_view ty.now)) octets.now value.new used) }
{
    if levels == 0 {
        return None;
    }
    let used = read_tagged(alloc, ty, levels - 1, inside.octets, value)?;
    inside.close(octets, used)
}

// Reads the encoding behind an explicit tag into the value: mostly it is under a further tag.
#[cycle(reading)]
#[inline(always)]
fn read_tagged(
    alloc: Global,
    ty: &Ty,
    levels: usize,
    octets: &[u8],
    value: &mut Value,
) -> Option<usize>
    requires { IsGoodType (ty_view ty.now) }
    ensures { IfSome result (λ used. IsRead levels (ty_view ty.now) octets.now value.new used) }
{
    if let Ty::Explicit(tag, inner) = ty {
        return read_under_tag(alloc, *tag, inner, levels, octets, value);
    }
    read_innermost(alloc, ty, levels, octets, value)
}

// Reads the encoding behind the last explicit tag into the value. A call of its own, so that a call for a tag around it
// has few registers to keep.
#[cycle(reading)]
#[inline(never)]
fn read_innermost(
    alloc: Global,
    ty: &Ty,
    levels: usize,
    octets: &[u8],
    value: &mut Value,
) -> Option<usize>
    requires { IsGoodType (ty_view ty.now) }
    ensures { IfSome result (λ used. IsRead levels (ty_view ty.now) octets.now value.new used) }
{
    read_one(alloc, ty, levels, octets, value)
}
