//! Lists of values without parts.

ghost use Rattle.std.specs.Prelude.{◌≤◌, map};
ghost use Rattle.std.specs.List.{AllByRecursion};
ghost use Rattle.octets.specs.declared.TheConstants.{MAX_TAG_NUMBER};
ghost use Rattle.octets.specs.Rule.{rule_of};
ghost use Rattle.types.specs.View.{value_view};
ghost use Rattle.canon.specs.Leaf.{IsLeafValue, IsLeafEncoding};
ghost use Rattle.canon.specs.Node.{AreItems};
ghost use Rattle.canon.specs.Writes.{Writes};

use crate::leaf::put_leaf;
use octets::{Canonical, NoMemory, Tag};
use types::Value;

// Appends the encodings of values under `tag`, one behind another.
pub(crate) fn put_leaves(
    rule: Canonical,
    tag: Tag,
    values: &[Value],
    out: &mut Vec<u8>,
) -> Result<(), NoMemory>
    requires tag { tag.number ≤ MAX_TAG_NUMBER }
    requires leaves { AllByRecursion IsLeafValue (map value_view values.now) }
    ensures { Writes (AreItems (IsLeafEncoding (rule_of rule) tag) (map value_view values.now))
        result out.old.items out.new.items }
{
    for value in values {
        put_leaf(rule, tag, value, out)?;
    }
    Ok(())
}
