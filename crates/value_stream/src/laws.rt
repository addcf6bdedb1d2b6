//! What holds of all values that are returned.

ghost use Rattle.value_stream.specs.Laws.{ValuesAreThoseOfTheSource};

/// The values returned of a source are the values of its octets, in order: of all octets at the end, and else of those
/// before the stop.
pub fn values_returned_are_those_of_the_source()
    ensures { ValuesAreThoseOfTheSource }
{}
