//! Types that are named by reserved words alone.

use lexis::Word as Reserved;

/// A type that is named by reserved words alone.
#[derive(Clone, Copy, Debug)]
pub enum Simple {
    /// `BOOLEAN`.
    Boolean,
    /// `INTEGER`, and no named numbers.
    Integer,
    /// `BIT STRING`, and no named bits.
    BitString,
    /// `OCTET STRING`.
    OctetString,
    /// `NULL`.
    Null,
    /// `OBJECT IDENTIFIER`.
    ObjectIdentifier,
    /// `RELATIVE-OID`.
    RelativeOid,
    /// `OID-IRI`.
    OidIri,
    /// `RELATIVE-OID-IRI`.
    RelativeOidIri,
    /// `REAL`.
    Real,
    /// `EXTERNAL`.
    External,
    /// `EMBEDDED PDV`.
    EmbeddedPdv,
    /// `CHARACTER STRING`.
    CharacterString,
    /// `ObjectDescriptor`.
    ObjectDescriptor,
    /// `UTF8String`.
    Utf8String,
    /// `NumericString`.
    NumericString,
    /// `PrintableString`.
    PrintableString,
    /// `TeletexString` or `T61String`.
    TeletexString,
    /// `VideotexString`.
    VideotexString,
    /// `IA5String`.
    Ia5String,
    /// `GraphicString`.
    GraphicString,
    /// `VisibleString` or `ISO646String`.
    VisibleString,
    /// `GeneralString`.
    GeneralString,
    /// `UniversalString`.
    UniversalString,
    /// `BMPString`.
    BmpString,
    /// `UTCTime`.
    UtcTime,
    /// `GeneralizedTime`.
    GeneralizedTime,
    /// `TIME`.
    Time,
    /// `DATE`.
    Date,
    /// `TIME-OF-DAY`.
    TimeOfDay,
    /// `DATE-TIME`.
    DateTime,
    /// `DURATION`.
    Duration,
}

/// The type that the word is by itself.
pub(crate) fn simple_of(word: Reserved) -> Option<Simple> {
    let found = match word {
        Reserved::Boolean => Simple::Boolean,
        Reserved::Null => Simple::Null,
        Reserved::RelativeOid => Simple::RelativeOid,
        Reserved::OidIri => Simple::OidIri,
        Reserved::RelativeOidIri => Simple::RelativeOidIri,
        Reserved::Real => Simple::Real,
        Reserved::External => Simple::External,
        Reserved::ObjectDescriptor => Simple::ObjectDescriptor,
        Reserved::UtcTime => Simple::UtcTime,
        Reserved::GeneralizedTime => Simple::GeneralizedTime,
        Reserved::Time => Simple::Time,
        Reserved::Date => Simple::Date,
        Reserved::TimeOfDay => Simple::TimeOfDay,
        Reserved::DateTime => Simple::DateTime,
        Reserved::Duration => Simple::Duration,
        _ => return characters_of(word),
    };
    Some(found)
}

// The character string type that the word is.
fn characters_of(word: Reserved) -> Option<Simple> {
    let found = match word {
        Reserved::Utf8String => Simple::Utf8String,
        Reserved::NumericString => Simple::NumericString,
        Reserved::PrintableString => Simple::PrintableString,
        Reserved::TeletexString | Reserved::T61String => Simple::TeletexString,
        Reserved::VideotexString => Simple::VideotexString,
        Reserved::Ia5String => Simple::Ia5String,
        Reserved::GraphicString => Simple::GraphicString,
        Reserved::VisibleString | Reserved::Iso646String => Simple::VisibleString,
        Reserved::GeneralString => Simple::GeneralString,
        Reserved::UniversalString => Simple::UniversalString,
        Reserved::BmpString => Simple::BmpString,
        _ => return None,
    };
    Some(found)
}
