//! What holds of all texts of values of a well-formed type.

ghost use Rattle.texts.specs.Laws.{SameValuesHaveOneText};

/// Values that are the same have one text.
pub fn same_values_have_one_text()
    ensures { SameValuesHaveOneText }
{}
