//! Values.

use primitives::Bits;

/// A value of some type. Under an explicit tag it is a value of the type within.
#[derive(Debug, PartialEq, Eq, Drop)]
pub enum Value {
    /// A value of BOOLEAN.
    Boolean(bool),
    /// A value of INTEGER, from -2^127 to 2^127 - 1.
    Integer(i128),
    /// Any other value of INTEGER: its contents octets, 17 to 1,024.
    WideInteger(Vec<u8>),
    /// A value of ENUMERATED: the number of an item.
    Enumerated(i128),
    /// The value of NULL.
    Null,
    /// The arcs of an OBJECT IDENTIFIER.
    Oid(Vec<u128>),
    /// The arcs of a RELATIVE-OID.
    RelativeOid(Vec<u128>),
    /// The bits of a BIT STRING. Of one with named bits there is none, or the last is 1.
    Bits(Bits),
    /// The octets of an OCTET STRING.
    Octets(Vec<u8>),
    /// The octets of a character string or a time.
    Text(Vec<u8>),
    /// The components of a SEQUENCE or SET in order of declaration. One that is absent, or equal to
    /// its default, is None.
    Fields(Vec<Option<Value>>),
    /// The items of a SEQUENCE OF or SET OF.
    Items(Vec<Value>),
    /// The chosen alternative of a CHOICE, counted from 0, and its value.
    Chosen(usize, Box<Value>),
}
