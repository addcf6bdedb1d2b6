//! Laws of contents octets.

ghost use Rattle.primitives.specs.Laws.{OneBooleanValue, CanonicalBooleanIsBer, OneCanonicalBoolean, OneIntegerValue, OneIntegerEncoding, AtMostSixteenOctets, OneOidValue, OneOidEncoding, OneRelativeOidValue, OneRelativeOidEncoding, OneBitsValue, CanonicalBitsAreBer, OneCanonicalBits};

/// Contents octets have one truth value.
pub fn one_boolean_value()
    ensures { OneBooleanValue }
{}

/// What CER and DER write for a truth value, BER reads as the same.
pub fn canonical_boolean_is_ber()
    ensures { CanonicalBooleanIsBer }
{}

/// A truth value has one encoding under CER and DER.
pub fn one_canonical_boolean()
    ensures { OneCanonicalBoolean }
{}

/// Contents octets have one number.
pub fn one_integer_value()
    ensures { OneIntegerValue }
{}

/// A number has one encoding, under every rule.
pub fn one_integer_encoding()
    ensures { OneIntegerEncoding }
{}

/// A number from -2^127 to 2^127 - 1 has at most 16 contents octets.
pub fn at_most_sixteen_octets()
    ensures { AtMostSixteenOctets }
{}

/// Contents octets have one OBJECT IDENTIFIER.
pub fn one_oid_value()
    ensures { OneOidValue }
{}

/// An OBJECT IDENTIFIER has one encoding, under every rule.
pub fn one_oid_encoding()
    ensures { OneOidEncoding }
{}

/// Contents octets have one RELATIVE-OID.
pub fn one_relative_oid_value()
    ensures { OneRelativeOidValue }
{}

/// A RELATIVE-OID has one encoding, under every rule.
pub fn one_relative_oid_encoding()
    ensures { OneRelativeOidEncoding }
{}

/// Contents octets of a BIT STRING have one list of bits.
pub fn one_bits_value()
    ensures { OneBitsValue }
{}

/// What CER and DER write for bits, BER reads as the same.
pub fn canonical_bits_are_ber()
    ensures { CanonicalBitsAreBer }
{}

/// Bits have one primitive encoding under CER and DER.
pub fn one_canonical_bits()
    ensures { OneCanonicalBits }
{}
