//! The exports that go over octets.

ghost use Rattle.std.specs.Prelude.{◌≡◌};
ghost use Rattle.asn1x_c.specs.Done.{ByRule, ByRules, HasChecked, HasConverted, HasListed, HasRead, IsWrong};
ghost use Rattle.asn1x_c.specs.Held.{type_of};
ghost use Rattle.asn1x_c.specs.Numbers.{canonical_numbered, rule_numbered};
ghost use Rattle.asn1x_c.specs.One.{HasConvertedFirst, HasShownFirst, IsNoOne};

use crate::doing::{convert_all, list_all, read_first};
use crate::done::{Done, One};
use crate::first_value::{encode_first, print_first};
use crate::held::HeldType;
use crate::numbers::{rule_numbered, rules_numbered};
use convert::{FromSlice, check};
use std::alloc::Global;

/// Converts the values of `octets`, and puts what is written into `out` where there is room for all of it.
#[unsafe(no_mangle)]
pub extern "C" fn asn1x_convert(
    alloc: Global,
    held: &mut HeldType,
    from: u32,
    to: u32,
    octets: &[u8],
    out: &mut [u8],
) -> Done
    ensures held { type_of held.new ≡ type_of held.old }
    ensures done { ByRules (type_of held.old) (rule_numbered from) (canonical_numbered to)
        (λ shape from to. HasConverted from to shape octets.now out.old out.new result)
        (IsWrong result × (out.new ≡ out.old)) }
{
    let Some(((from, to), ty)) = held.take_for(alloc, rules_numbered(from, to)) else {
        return Done::wrong();
    };
    let done = convert_all(alloc, &ty, from, to, octets, out);
    held.put(alloc, ty);
    done
}

/// Puts a line of text for each value of `octets` into `out` where there is room for all of them.
#[unsafe(no_mangle)]
pub extern "C" fn asn1x_show(
    alloc: Global,
    held: &mut HeldType,
    from: u32,
    octets: &[u8],
    out: &mut [u8],
) -> Done
    ensures held { type_of held.new ≡ type_of held.old }
    ensures done { ByRule (type_of held.old) (rule_numbered from)
        (λ shape from. HasListed from shape octets.now out.old out.new result)
        (IsWrong result × (out.new ≡ out.old)) }
{
    let Some((from, ty)) = held.take_for(alloc, rule_numbered(from)) else {
        return Done::wrong();
    };
    let done = list_all(alloc, &ty, from, octets, out);
    held.put(alloc, ty);
    done
}

/// Reads the values of `octets`, and writes nothing.
#[unsafe(no_mangle)]
pub extern "C" fn asn1x_check(alloc: Global, held: &mut HeldType, from: u32, octets: &[u8]) -> Done
    ensures held { type_of held.new ≡ type_of held.old }
    ensures done { ByRule (type_of held.old) (rule_numbered from)
        (λ shape from. HasChecked from shape octets.now result) (IsWrong result) }
{
    let Some((from, ty)) = held.take_for(alloc, rule_numbered(from)) else {
        return Done::wrong();
    };
    let outcome = check(alloc, &ty, from, &mut FromSlice::new(octets));
    held.put(alloc, ty);
    Done::of(outcome, 0)
}

/// Reads the first value of `octets`, and says how many octets it has. What is behind them is not looked at.
#[unsafe(no_mangle)]
pub extern "C" fn asn1x_first(alloc: Global, held: &mut HeldType, from: u32, octets: &[u8]) -> Done
    ensures held { type_of held.new ≡ type_of held.old }
    ensures done { ByRule (type_of held.old) (rule_numbered from)
        (λ shape from. HasRead from shape octets.now result) (IsWrong result) }
{
    let Some((from, ty)) = held.take_for(alloc, rule_numbered(from)) else {
        return Done::wrong();
    };
    let done = read_first(alloc, &ty, from, octets);
    held.put(alloc, ty);
    done
}

/// Converts the first value of `octets`, and puts its encoding into `out` where there is room for all of it. What is
/// behind the value is not looked at.
#[unsafe(no_mangle)]
pub extern "C" fn asn1x_convert_first(
    alloc: Global,
    held: &mut HeldType,
    from: u32,
    to: u32,
    octets: &[u8],
    out: &mut [u8],
) -> One
    ensures held { type_of held.new ≡ type_of held.old }
    ensures done { ByRules (type_of held.old) (rule_numbered from) (canonical_numbered to) (λ shape from to.
        HasConvertedFirst from to shape octets.now out.old out.new result) (IsNoOne out.old out.new result) }
{
    let Some(((from, to), ty)) = held.take_for(alloc, rules_numbered(from, to)) else {
        return One::wrong();
    };
    let outcome = encode_first(alloc, &ty, from, to, octets);
    held.put(alloc, ty);
    One::of(outcome, out)
}

/// Puts a line of text for the first value of `octets` into `out` where there is room for all of it. What is behind the
/// value is not looked at.
#[unsafe(no_mangle)]
pub extern "C" fn asn1x_show_first(
    alloc: Global,
    held: &mut HeldType,
    from: u32,
    octets: &[u8],
    out: &mut [u8],
) -> One
    ensures held { type_of held.new ≡ type_of held.old }
    ensures done { ByRule (type_of held.old) (rule_numbered from) (λ shape from.
        HasShownFirst from shape octets.now out.old out.new result) (IsNoOne out.old out.new result) }
{
    let Some((from, ty)) = held.take_for(alloc, rule_numbered(from)) else {
        return One::wrong();
    };
    let outcome = print_first(alloc, &ty, from, octets);
    held.put(alloc, ty);
    One::of(outcome, out)
}
