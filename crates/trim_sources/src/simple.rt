//! Types that are named by reserved words alone, and which of them the profile has.

use published::Simple;

/// The type in the profile; None where it has none.
pub fn in_profile(simple: Simple) -> Option<syntax::Simple> {
    match simple {
        Simple::Boolean => Some(syntax::Simple::Boolean),
        Simple::Integer => Some(syntax::Simple::Integer),
        Simple::BitString => Some(syntax::Simple::BitString),
        Simple::OctetString => Some(syntax::Simple::OctetString),
        Simple::Null => Some(syntax::Simple::Null),
        Simple::ObjectIdentifier => Some(syntax::Simple::ObjectIdentifier),
        Simple::RelativeOid => Some(syntax::Simple::RelativeOid),
        Simple::UtcTime => Some(syntax::Simple::UtcTime),
        Simple::GeneralizedTime => Some(syntax::Simple::GeneralizedTime),
        _ => string_in_profile(simple),
    }
}

// The character string type in the profile.
fn string_in_profile(simple: Simple) -> Option<syntax::Simple> {
    match simple {
        Simple::Utf8String => Some(syntax::Simple::Utf8String),
        Simple::NumericString => Some(syntax::Simple::NumericString),
        Simple::PrintableString => Some(syntax::Simple::PrintableString),
        Simple::Ia5String => Some(syntax::Simple::Ia5String),
        Simple::VisibleString => Some(syntax::Simple::VisibleString),
        Simple::BmpString => Some(syntax::Simple::BmpString),
        _ => None,
    }
}

/// Whether the type is a character string type that the profile does not have. Its encodings are those of an
/// OCTET STRING but for the tag (X.690 8.23), so under an implicit tag nothing tells them apart.
pub fn is_left_out_string(simple: Simple) -> bool {
    matches!(
        simple,
        Simple::TeletexString
            | Simple::VideotexString
            | Simple::GraphicString
            | Simple::GeneralString
            | Simple::UniversalString
            | Simple::ObjectDescriptor
    )
}

/// What a type is called that the profile does not have.
pub fn name_of_left_out(simple: Simple) -> &'static str {
    match simple {
        Simple::OidIri => "OID-IRI",
        Simple::RelativeOidIri => "RELATIVE-OID-IRI",
        Simple::Real => "REAL",
        Simple::External => "EXTERNAL",
        Simple::EmbeddedPdv => "EMBEDDED PDV",
        Simple::CharacterString => "CHARACTER STRING",
        Simple::ObjectDescriptor => "ObjectDescriptor",
        Simple::TeletexString => "TeletexString",
        Simple::VideotexString => "VideotexString",
        Simple::GraphicString => "GraphicString",
        Simple::GeneralString => "GeneralString",
        Simple::UniversalString => "UniversalString",
        Simple::Time => "TIME",
        Simple::Date => "DATE",
        Simple::TimeOfDay => "TIME-OF-DAY",
        Simple::DateTime => "DATE-TIME",
        Simple::Duration => "DURATION",
        _ => "a type of the profile",
    }
}

/// The type that these reserved words name in the profile.
pub fn simple_of_words(words: &str) -> Option<syntax::Simple> {
    let (_, simple, _) = PROFILE.iter().find(|row| row.0 == words)?;
    Some(*simple)
}

// The words of each type of the profile that is named by reserved words alone, and the number of its universal tag
// (X.680 table 1).
static PROFILE: [(&str, syntax::Simple, u128); 15] = [
    ("BOOLEAN", syntax::Simple::Boolean, 1),
    ("INTEGER", syntax::Simple::Integer, 2),
    ("BIT STRING", syntax::Simple::BitString, 3),
    ("OCTET STRING", syntax::Simple::OctetString, 4),
    ("NULL", syntax::Simple::Null, 5),
    ("OBJECT IDENTIFIER", syntax::Simple::ObjectIdentifier, 6),
    ("UTF8String", syntax::Simple::Utf8String, 12),
    ("RELATIVE-OID", syntax::Simple::RelativeOid, 13),
    ("NumericString", syntax::Simple::NumericString, 18),
    ("PrintableString", syntax::Simple::PrintableString, 19),
    ("IA5String", syntax::Simple::Ia5String, 22),
    ("UTCTime", syntax::Simple::UtcTime, 23),
    ("GeneralizedTime", syntax::Simple::GeneralizedTime, 24),
    ("VisibleString", syntax::Simple::VisibleString, 26),
    ("BMPString", syntax::Simple::BmpString, 30),
];

/// The words that name a type of the profile.
pub fn words_of(simple: syntax::Simple) -> &'static str {
    match PROFILE.iter().find(|row| row.1 == simple) {
        Some((words, _, _)) => words,
        None => "NULL",
    }
}

/// The number of the universal tag of a type of the profile.
pub fn universal_number(simple: syntax::Simple) -> u128 {
    match PROFILE.iter().find(|row| row.1 == simple) {
        Some((_, _, number)) => *number,
        None => 5,
    }
}
