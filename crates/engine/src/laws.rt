//! What holds of all conversions of one value.

ghost use Rattle.engine.specs.Laws.{EqualExactlyIfSame, WrittenOctetsStay};

/// Two accepted inputs of a type, each read by a rule of its own, become the same octets exactly if their values
/// are the same.
pub fn equal_results_exactly_if_same_values()
    ensures { EqualExactlyIfSame }
{}

/// What was written becomes itself, and nothing else, by the rule that it was written by, whether it is read by that
/// rule or by BER.
pub fn written_octets_stay()
    ensures { WrittenOctetsStay }
{}
