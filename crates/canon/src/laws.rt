//! What holds of all values in order.

ghost use Rattle.canon.specs.Laws.{EqualInOrderExactlyIfSame};

/// Two values are the same exactly if they are equal once the items of each SET OF are in order.
#[tactic(auto, using(crate::proofs::OrderedOnceLemmas::equal_in_order))]
pub fn equal_in_order_exactly_if_same()
    ensures { EqualInOrderExactlyIfSame }
{}
