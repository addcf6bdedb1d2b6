//! Texts of values without parts that are no strings.

ghost use Rattle.std.specs.Prelude.{◌≡◌, ◌++◌, OnOk, decimal, map, string_bytes};
ghost use Rattle.std.specs.Fmt.{signed_decimal};
ghost use Rattle.types.specs.View.{item_view};
ghost use Rattle.texts.specs.Leaf.{boolean_text, arcs_text, item_name};

use itoa::Buffer;
use octets::NoMemory;
use std::string::String;
use types::Item;

pub(crate) fn put_boolean(truth: bool, out: &mut String) -> Result<(), NoMemory>
    ensures { OnOk result (string_bytes out.new ≡ string_bytes out.old ++ boolean_text truth) }
{
    out.push_str(if truth { "TRUE" } else { "FALSE" })?;
    Ok(())
}

/// Appends the text of an INTEGER within 128 bits: the number in decimal.
pub fn put_integer(number: i128, out: &mut String) -> Result<(), NoMemory>
    ensures { OnOk result (string_bytes out.new ≡ string_bytes out.old ++ signed_decimal number) }
{
    let mut buffer = Buffer::new();
    out.push_str(buffer.format(number))?;
    Ok(())
}

// The name of the item that has the number; empty where there is none.
pub(crate) fn name_of(items: &[Item], number: i128) -> &str
    ensures { result.now ≡ item_name (map item_view items.now) number }
{
    for item in items {
        if item.number == number {
            return item.name.as_str();
        }
    }
    ""
}

// Appends arcs in decimal, with dots between them.
pub(crate) fn put_arcs(arcs: &[u128], out: &mut String) -> Result<(), NoMemory>
    ensures { OnOk result (string_bytes out.new ≡ string_bytes out.old ++ arcs_text arcs.now) }
{
    let Some((first, others)) = arcs.split_first() else {
        return Ok(());
    };
    put_arc(*first, out)?;
    for arc in others {
        out.push_str(".")?;
        put_arc(*arc, out)?;
    }
    Ok(())
}

// Appends an arc in decimal. Most are one digit.
fn put_arc(arc: u128, out: &mut String) -> Result<(), NoMemory>
    ensures { OnOk result (string_bytes out.new ≡ string_bytes out.old ++ decimal arc) }
{
    if arc < 10 {
        out.push((b'0' + arc as u8) as char)?;
        return Ok(());
    }
    let mut buffer = Buffer::new();
    out.push_str(buffer.format(arc))?;
    Ok(())
}
