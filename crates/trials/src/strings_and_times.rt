//! Which contents octets character strings and times have.

use std::alloc::Global;
use std::test::Fail;
use strings::{TextKind, TimeKind, allowed, is_time};
use test_tables::{Table, check, is_yes, octets_of, three};

/// The type of a name.
pub fn kind_of(name: &str) -> Result<TextKind, Fail> {
    Ok(match name {
        "BMPString" => TextKind::Bmp,
        "IA5String" => TextKind::Ia5,
        "NumericString" => TextKind::Numeric,
        "PrintableString" => TextKind::Printable,
        "UTF8String" => TextKind::Utf8,
        "VisibleString" => TextKind::Visible,
        _ => return Err("a type without a name".into()),
    })
}

struct Strings;

impl Table for Strings {
    fn holds(&self, alloc: Global, row: &str) -> Result<bool, Fail> {
        let (name, contents, want) = three(row)?;
        let contents = octets_of(alloc, contents)?;
        let found = match name {
            "GeneralizedTime" => is_time(TimeKind::Generalized, &contents),
            "UTCTime" => is_time(TimeKind::Utc, &contents),
            _ => allowed(kind_of(name)?, &contents),
        };
        Ok(found == is_yes(want)?)
    }
}

// type | contents octets | whether the type has them
const CONTENTS: &str = "\
UTF8String | '' | yes
NumericString | '' | yes
PrintableString | '' | yes
IA5String | '' | yes
VisibleString | '' | yes
BMPString | '' | yes
NumericString | '1 ' | yes
NumericString | '-' | no
NumericString | '09' | yes
NumericString | '/' | no
NumericString | ':' | no
PrintableString | 'azAZ09 '()+', 2C, '-./:=?' | yes
PrintableString | '?' | yes
PrintableString | '*' | no
PrintableString | '@' | no
PrintableString | '[' | no
PrintableString | 'a{' | no
PrintableString | '<' | no
VisibleString | ' ~' | yes
VisibleString | 1F | no
VisibleString | 7F | no
IA5String | 00 7F | yes
IA5String | 80 | no
UTF8String | C3 A9 | yes
UTF8String | F4 8F BF BF | yes
UTF8String | C3 | no
UTF8String | C0 80 | no
UTF8String | ED A0 80 | no
UTF8String | F4 90 80 80 | no
BMPString | 00 41 | yes
BMPString | D7 FF | yes
BMPString | E0 00 | yes
BMPString | FF FF | yes
BMPString | 00 D8 00 DF | yes
BMPString | 41 | no
BMPString | 00 41 00 | no
BMPString | D8 00 | no
BMPString | DF FF | no
BMPString | D8 00 DC 00 | no
BMPString | 00 41 D8 00 | no
GeneralizedTime | '20240229120000Z' | yes
GeneralizedTime | '20000229000000Z' | yes
GeneralizedTime | '00000229000000Z' | yes
GeneralizedTime | '20230229120000Z' | no
GeneralizedTime | '19000229000000Z' | no
GeneralizedTime | '20240230000000Z' | no
GeneralizedTime | '20240131000000Z' | yes
GeneralizedTime | '20240430000000Z' | yes
GeneralizedTime | '20240431000000Z' | no
GeneralizedTime | '20241231000000Z' | yes
GeneralizedTime | '20241232000000Z' | no
GeneralizedTime | '20240400000000Z' | no
GeneralizedTime | '20240001000000Z' | no
GeneralizedTime | '20241301000000Z' | no
GeneralizedTime | '99991231235959Z' | yes
GeneralizedTime | '20240101235959.05Z' | yes
GeneralizedTime | '20240101000000.000000000001Z' | yes
GeneralizedTime | '20240101000000.123456789012Z' | yes
GeneralizedTime | '20240101000000.1234567890123Z' | no
GeneralizedTime | '20240101000000.50Z' | no
GeneralizedTime | '20240101000000.0Z' | no
GeneralizedTime | '20240101000000.Z' | no
GeneralizedTime | '20240101000000', 2C, '5Z' | no
GeneralizedTime | '20240101000000.5' | no
GeneralizedTime | '20240101000000.5.5Z' | no
GeneralizedTime | '20240101000000.5ZZ' | no
GeneralizedTime | '20240101240000Z' | no
GeneralizedTime | '20240101230000Z' | yes
GeneralizedTime | '20240101006000Z' | no
GeneralizedTime | '20240101000060Z' | no
GeneralizedTime | '202401010000Z' | no
GeneralizedTime | '20240101000000' | no
GeneralizedTime | '20240101000000z' | no
GeneralizedTime | '20240101000000+0000' | no
GeneralizedTime | '20240101000000Z ' | no
GeneralizedTime | ' 20240101000000Z' | no
GeneralizedTime | '2024010100000:Z' | no
GeneralizedTime | '2024010100000/Z' | no
GeneralizedTime | '20240101000000Z\0' | no
GeneralizedTime | '240229120000Z' | no
GeneralizedTime | '' | no
GeneralizedTime | 'Z' | no
GeneralizedTime | '2024' | no
UTCTime | '240229120000Z' | yes
UTCTime | '000229000000Z' | yes
UTCTime | '991231235959Z' | yes
UTCTime | '230229120000Z' | no
UTCTime | '2402291200Z' | no
UTCTime | '240229120000.5Z' | no
UTCTime | '20240229120000Z' | no
UTCTime | '240431000000Z' | no
UTCTime | '240229120000' | no
UTCTime | '240229120000z' | no
UTCTime | '240229120000+0000' | no
UTCTime | '240229240000Z' | no
UTCTime | '240229126000Z' | no
UTCTime | '240229120060Z' | no
UTCTime | '' | no";

#[test]
fn contents_octets(rt: HostRuntime) -> Result<(), Fail> {
    check(rt.alloc(), &Strings, CONTENTS)
}
