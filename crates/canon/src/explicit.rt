//! Values under explicit tags, and under further ones inside.

ghost use Rattle.std.specs.Prelude.{IfOk, OnErr};
ghost use Rattle.octets.specs.Rule.{der, rule_of};
ghost use Rattle.types.specs.Encoding.{IsEncoding};
ghost use Rattle.types.specs.Shape.{Shape};
ghost use Rattle.types.specs.View.{ty_view, value_view};
ghost use Rattle.canon.specs.Part.{Keeps};
ghost use Rattle.canon.specs.Turned.{IsTurned};
ghost use Rattle.canon.specs.Writes.{IsWritable, Writes};

use crate::heads::{put_closing, put_opening};
use crate::nested::{close_tags, open_tags};
use crate::turned::{moves_often, put_turned_head, turn_forward};
use crate::writer::Writer;
use octets::{Canonical, NoMemory, Tag};
use std::alloc::Global;
use types::{Ty, Value};

impl Writer {
    // Appends the encoding of a value of the type `ty` under an explicit tag.
    #[cycle(writing)]
    #[inline(always)]
    pub(crate) fn put_explicit(
        self,
        tag: Tag,
        ty: &Ty,
        value: &Value,
        out: &mut Vec<u8>,
    ) -> Result<(), NoMemory>
        requires { IsWritable (ty_view ty.now) (value_view value.now) }
        ensures { Writes (IsEncoding (rule_of self.rule) (Shape.explicit tag (ty_view ty.now)) (value_view value.now))
            result out.old.items out.new.items }
    {
        if moves_often(self.rule, ty, value) {
            return put_from_inside(self.alloc, tag, ty, value, out);
        }
        self.put_tagged(tag, ty, value, out)
    }

    // Appends the encoding of a value of the type `ty` under an explicit tag, from the first octet to the last.
    #[cycle(writing)]
    fn put_tagged(self, tag: Tag, ty: &Ty, value: &Value, out: &mut Vec<u8>) -> Result<(), NoMemory>
        requires { IsWritable (ty_view ty.now) (value_view value.now) }
        ensures { Writes (IsEncoding (rule_of self.rule) (Shape.explicit tag (ty_view ty.now)) (value_view value.now))
            result out.old.items out.new.items }
    {
        let place = put_opening(tag, true, out)?;
        self.put_inside(ty, value, out)?;
        put_closing(self.rule, place, out)
    }

    // Appends the contents octets behind an explicit tag: the encoding of a value, mostly under a further tag.
    #[cycle(writing)]
    #[inline(always)]
    fn put_inside(self, ty: &Ty, value: &Value, out: &mut Vec<u8>) -> Result<(), NoMemory>
        requires { IsWritable (ty_view ty.now) (value_view value.now) }
        ensures { Writes (IsEncoding (rule_of self.rule) (ty_view ty.now) (value_view value.now))
            result out.old.items out.new.items }
    {
        if let Ty::Explicit(..) = ty {
            return self.put_under_tags(ty, value, out);
        }
        self.put_value(ty, value, out)
    }

    // Appends the encoding of a value of a type that begins with explicit tags: first what stands before the contents
    // octets of all of them, and at the end what closes these, from the inside out.
    #[cycle(writing)]
    #[inline(never)]
    fn put_under_tags(self, ty: &Ty, value: &Value, out: &mut Vec<u8>) -> Result<(), NoMemory>
        requires { IsWritable (ty_view ty.now) (value_view value.now) }
        ensures { Writes (IsEncoding (rule_of self.rule) (ty_view ty.now) (value_view value.now))
            result out.old.items out.new.items }
    {
        let start = out.len();
        let inner = open_tags(ty, out)?;
        let end = out.len();
        if end == start {
            return self.put_value(ty, value, out);
        }
        self.put_value(inner, value, out)?;
        close_tags(self.rule, start, end, out)
    }
}

// Appends the encoding that DER gives a value under an explicit tag, with the heads from the inside out.
#[cycle(writing)]
#[inline(never)]
fn put_from_inside(
    alloc: Global,
    tag: Tag,
    ty: &Ty,
    value: &Value,
    out: &mut Vec<u8>,
) -> Result<(), NoMemory>
    requires { IsWritable (ty_view ty.now) (value_view value.now) }
    ensures { Writes (IsEncoding der (Shape.explicit tag (ty_view ty.now)) (value_view value.now))
        result out.old.items out.new.items }
{
    let start = out.len();
    let from = put_turned_around(alloc, tag, ty, value, out)?;
    turn_forward(start, from, out);
    Ok(())
}

// Appends the contents octets of a value under an explicit tag and behind them, turned round, what stands before
// them. Returns where the latter begins.
#[cycle(writing)]
fn put_turned_around(
    alloc: Global,
    tag: Tag,
    ty: &Ty,
    value: &Value,
    out: &mut Vec<u8>,
) -> Result<usize, NoMemory>
    requires { IsWritable (ty_view ty.now) (value_view value.now) }
    ensures put { IfOk result (IsTurned
        (IsEncoding der (Shape.explicit tag (ty_view ty.now)) (value_view value.now)) out.old.items out.new.items) }
    ensures kept { OnErr result (Keeps out.old.items out.new.items) }
{
    let start = out.len();
    let from = put_turned(alloc, ty, value, out)?;
    put_turned_head(tag, out.len() - start, out)?;
    Ok(from)
}

// Appends the contents octets of a value under explicit tags, or its encoding where it is under none, and behind them,
// turned round, what stands before them. Returns where the latter begins.
#[cycle(writing)]
fn put_turned(alloc: Global, ty: &Ty, value: &Value, out: &mut Vec<u8>) -> Result<usize, NoMemory>
    requires { IsWritable (ty_view ty.now) (value_view value.now) }
    ensures put { IfOk result (IsTurned
        (IsEncoding der (ty_view ty.now) (value_view value.now)) out.old.items out.new.items) }
    ensures kept { OnErr result (Keeps out.old.items out.new.items) }
{
    match ty {
        Ty::Explicit(tag, inner) => put_turned_around(alloc, *tag, inner, value, out),
        _ => {
            let rule = Canonical::Der;
            Writer { alloc, rule }.put_value(ty, value, out)?;
            Ok(out.len())
        }
    }
}
