//! The numbers of items of an ENUMERATED that have none written (X.680 clause 20).

ghost use Rattle.std.specs.Prelude.{IfSome, IfNone};
ghost use Rattle.trim_rules.specs.Numbering.{IsNextFree, AreAllUsed};

/// The least number from here on that is not among these. None: all are, as far as numbers go.
///
/// In the root, `used` has the numbers that are written there, and `from` goes up by one behind each item
/// without one, from 0 on. Of an addition without a number, `used` has all numbers of the root, and `from`
/// is one more than the number of the addition before it, or 0.
pub fn next_free(used: &[u128], from: u128) -> Option<u128>
    ensures value { IfSome result (IsNextFree used.now from) }
    ensures none { IfNone result (AreAllUsed used.now from) }
{
    let last = from.saturating_add(used.len() as u128);
    for number in from..=last {
        if !used.contains(&number) {
            return Some(number);
        }
    }
    None
}
