//! What holds of all encodings of a well-formed type.

ghost use Rattle.types.specs.Laws.{NoEncodingBeginsAnother, EncodingsThatTieAreEqual, EncodedValuesConform, SameValuesHaveTheSameEncodings, OneCanonicalEncoding, CanonicalEncodingsAreBer, EveryValueHasACanonicalEncoding, EqualExactlyIfSame};

/// No BER encoding of a type begins another one, and one encoding has one value.
pub fn no_encoding_begins_another()
    ensures { NoEncodingBeginsAnother }
{}

/// BER encodings of a type that tie in the order of a SET OF (X.690 11.6) are equal.
pub fn encodings_that_tie_are_equal()
    ensures { EncodingsThatTieAreEqual }
{}

/// Under each rule, only a value of the type has an encoding.
pub fn encoded_values_conform()
    ensures { EncodedValuesConform }
{}

/// Under each rule, the same values have the same encodings.
pub fn same_values_have_the_same_encodings()
    ensures { SameValuesHaveTheSameEncodings }
{}

/// A value has at most one encoding under CER and at most one under DER.
pub fn one_canonical_encoding()
    ensures { OneCanonicalEncoding }
{}

/// What CER or DER spells, BER spells as the same value, nested at most 61 deep.
pub fn canonical_encodings_are_ber()
    ensures { CanonicalEncodingsAreBer }
{}

/// A value of the type that weighs less than 2^128 has an encoding under CER and one under DER.
pub fn every_value_has_a_canonical_encoding()
    ensures { EveryValueHasACanonicalEncoding }
{}

/// Two encodings under CER, or two under DER, are equal exactly if their values are the same.
pub fn equal_canonical_encodings_exactly_if_same()
    ensures { EqualExactlyIfSame }
{}
