//! Strings and times in segments (X.690 8.6.4, 8.7.3, 8.23, 8.25): constructed encodings that hold encodings
//! of BIT STRING or of OCTET STRING under its universal tag. A character may begin in one segment and end in
//! the next: the alphabet is asked of the whole.

use crate::checks::check_table;
use std::test::Fail;

// octets | under DER | under CER | text
const ROWS: &str = "
OCTET STRING:
24 00                                         | 04 00          | 04 00          | ''H
24 80 00 00                                   | 04 00          | 04 00          | ''H
24 02 24 00                                   | 04 00          | 04 00          | ''H
24 80 04 01 41 00 00                          | 04 01 41       | 04 01 41       | '41'H
24 82 00 03 04 01 41                          | 04 01 41       | 04 01 41       | '41'H
24 80 04 02 00 00 00 00                       | 04 02 00 00    | 04 02 00 00    | '0000'H
24 80 04 02 01 02 24 80 04 01 03 00 00 00 00  | 04 03 01 02 03 | 04 03 01 02 03 | '010203'H
24 0B 24 80 04 81 01 41 00 00 04 01 42        | 04 02 41 42    | 04 02 41 42    | '4142'H
24 80 24 03 04 01 41 24 03 04 01 42 00 00     | 04 02 41 42    | 04 02 41 42    | '4142'H
24 80 03 02 00 41 00 00                       | refused 2
24 80 04 01 41 00 00 00                       | left over
24 03 04 82 00 01 41                          | refused 4
24 02 1F 81 00                                | refused 4
24 81 03 04 01 AA                             | 04 01 AA    | 04 01 AA    | 'AA'H
24 04 04 02 4A 6F                             | 04 02 4A 6F | 04 02 4A 6F | '4A6F'H
24 06 04 01 41 04 01 42                       | 04 02 41 42 | 04 02 41 42 | '4142'H
24 80 04 01                                   | refused 1
24 04 80 02 4A 6F                             | refused 2
24 04 24 02 1A 00                             | refused 2
24 80 1F 1E                                   | refused 2
24 04 04 80 00 00                             | refused 3
24 01 04 00                                   | refused 4
24 01 1F 81 00                                | refused 4
24 02 04 01                                   | refused 4
24 03 04 02 41 42                             | refused 4
24 80 00 01                                   | refused 5
24 02 00 00                                   | refused 5
24 02 20 00                                   | refused 5
24 80 24 02 00 00 00 00                       | refused 5
BIT STRING:
23 00                                         | 03 01 00          | 03 01 00          | ''B
23 80 00 00                                   | 03 01 00          | 03 01 00          | ''B
23 04 03 02 07 80                             | 03 02 07 80       | 03 02 07 80       | '1'B
23 80 03 02 04 FF 00 00                       | 03 02 04 F0       | 03 02 04 F0       | '1111'B
23 07 03 01 00 03 02 04 F0                    | 03 02 04 F0       | 03 02 04 F0       | '1111'B
23 09 03 03 00 AA BB 03 02 04 F0              | 03 04 04 AA BB F0 | 03 04 04 AA BB F0 | '10101010101110111111'B
23 80 03 02 00 AA 23 04 03 02 04 F0 00 00     | 03 03 04 AA F0    | 03 03 04 AA F0    | '101010101111'B
23 04 04 02 00 AA                             | refused 2
23 80 00 01                                   | refused 5
23 03 03 01 00                                | 03 01 00       | 03 01 00       | ''B
23 0A 03 02 00 AA 23 04 03 02 04 F0           | 03 03 04 AA F0 | 03 03 04 AA F0 | '101010101111'B
23 0B 03 01 00 03 02 00 AA 03 02 04 FF        | 03 03 04 AA F0 | 03 03 04 AA F0 | '101010101111'B
23 80 23 80 03 02 07 80 00 00 00 00           | 03 02 07 80    | 03 02 07 80    | '1'B
23 03 04 01 41                                | refused 2
23 02 03 00                                   | refused 6
23 03 03 01 01                                | refused 6
23 04 03 02 08 AA                             | refused 6
// another tag, and a wrong end, after a segment with unused bits
23 06 03 02 04 F0 04 00                       | refused 2
23 80 03 02 04 F0 00 01                       | refused 5
// nothing follows a segment with unused bits, not even what has no bits
23 09 03 03 04 AA B0 03 02 00 F0              | refused 6
23 08 03 02 04 F0 03 02 04 F0                 | refused 6
23 0A 23 04 03 02 04 F0 03 02 00 AA           | refused 6
23 07 03 02 04 F0 03 01 00                    | refused 6
23 06 03 02 04 F0 23 00                       | refused 6
[0] OCTET STRING:
A0 04 04 02 4A 6F                             | 80 02 4A 6F | 80 02 4A 6F | '4A6F'H
A0 04 80 02 4A 6F                             | refused 2
[0] BIT STRING:
A0 04 03 02 04 F0                             | 80 02 04 F0 | 80 02 04 F0 | '1111'B
A0 04 80 02 04 F0                             | refused 2
// tags of two and of three identifier octets
[31] OCTET STRING:
BF 1F 04 04 02 4A 6F                          | 9F 1F 02 4A 6F | 9F 1F 02 4A 6F | '4A6F'H
BF 1F 03 04 02 4A 6F                          | refused 4
[128] OCTET STRING:
BF 81 00 80 04 01 41 00 00                    | 9F 81 00 01 41 | 9F 81 00 01 41 | '41'H
// character strings and times
VisibleString:
3A 80 00 00                                     | 1A 00          | 1A 00          | \"\"
3A 09 04 03, 'Jon', 04 02, 'es'                 | 1A 05, 'Jones' | 1A 05, 'Jones' | \"Jones\"
3A 80 04 03, 'Jon', 24 04 04 02, 'es', 00 00    | 1A 05, 'Jones' | 1A 05, 'Jones' | \"Jones\"
3A 09 1A 03, 'Jon', 1A 02, 'es'                 | refused 2
3A 06 04 01, 'J', 04 01 7F                      | refused 7
3A 06 04 01, 'J', 04 01, 'o'                    | 1A 02, 'Jo' | 1A 02, 'Jo' | \"Jo\"
3A 03 1A 01, 'J'                                | refused 2
3A 03 04 01 7F                                  | refused 7
IA5String:
36 06 04 01, 'J', 04 01 7F                      | 16 02, 'J', 7F | 16 02 4A 7F | '4A7F'H
36 06 04 01, 'J', 04 01 80                      | refused 7
PrintableString:
33 07 04 01, 'a', 04 02, ' ?'                   | 13 03, 'a ?' | 13 03, 'a ?' | \"a ?\"
33 06 04 01, 'a', 04 01, '*'                    | refused 7
NumericString:
32 07 04 02, '1 ', 04 01, '2'                   | 12 03, '1 2' | 12 03, '1 2' | \"1 2\"
32 06 04 01, '1', 04 01, '-'                    | refused 7
UTF8String:
2C 06 04 01 C3 04 01 A9                         | 0C 02 C3 A9 | 0C 02 C3 A9 | 'C3A9'H
2C 05 04 01 C3 04 00                            | refused 7
2C 06 04 01 C3 04 01 41                         | refused 7
2C 06 0C 01 C3 0C 01 A9                         | refused 2
2C 03 04 01 C3                                  | refused 7
BMPString:
3E 00                                           | 1E 00             | 1E 00             | ''H
3E 06 04 01 00 04 01 41                         | 1E 02 00 41       | 1E 02 00 41       | '0041'H
3E 80 04 03 00 41 00 04 01 42 00 00             | 1E 04 00 41 00 42 | 1E 04 00 41 00 42 | '00410042'H
3E 06 04 01 D8 04 01 00                         | refused 7
3E 07 04 02 00 41 04 01 00                      | refused 7
GeneralizedTime:
38 13 04 08, '20240229', 04 07, '120000Z'       | 18 0F, '20240229120000Z'    | 18 0F, '20240229120000Z'    | \"20240229120000Z\"
38 80 24 0A 04 08, '20240229', 04 07, '120000Z', 00 00       | 18 0F, '20240229120000Z'    | 18 0F, '20240229120000Z'    | \"20240229120000Z\"
38 80 04 0E, '20240101235959', 04 04, '.05Z', 00 00          | 18 12, '20240101235959.05Z' | 18 12, '20240101235959.05Z' | \"20240101235959.05Z\"
38 13 04 08, '20230229', 04 07, '120000Z'       | refused 7
38 11 18 0F, '20240229120000Z'                  | refused 2
38 00                                           | refused 7
38 80 00 00                                     | refused 7
UTCTime:
37 11 04 06, '240229', 04 07, '120000Z'         | 17 0D, '240229120000Z' | 17 0D, '240229120000Z' | \"240229120000Z\"
37 80 04 06, '240229', 04 07, '120000Z', 00 00  | 17 0D, '240229120000Z' | 17 0D, '240229120000Z' | \"240229120000Z\"
37 80 04 06, '230229', 04 07, '120000Z', 00 00  | refused 7
37 05                                           | refused 1
37 80 17 00 00 00                               | refused 2
37 80 00 00                                     | refused 7
[0] VisibleString:
A0 04 04 02, 'Jo'                               | 80 02, 'Jo' | 80 02, 'Jo' | \"Jo\"
A0 04 1A 02, 'Jo'                               | refused 2
[0] UTCTime:
A0 80 04 0D, '240229120000Z', 00 00             | 80 0D, '240229120000Z' | 80 0D, '240229120000Z' | \"240229120000Z\"
// ends
OCTET STRING:
// in a definite encoding what passes its end is named before what it is, and so is what leaves no room for
// the end-of-contents octets of an indefinite one in it
24 04 24 80 00 00                 | 04 00 | 04 00 | ''H
24 04 24 80 04 48                 | refused 4
24 04 24 80 1A 00                 | refused 4
24 04 24 80 24 80                 | refused 4
24 02 24 80 00 00                 | refused 4
24 03 24 80 00 00                 | refused 4
24 04 24 80 04 00                 | refused 4
24 05 24 80 04 01                 | refused 4
24 03 24 80                       | refused 4
24 06 24 80 04 01 41 00           | refused 4
24 02 1A 00                       | refused 2
24 04 24 80 00 48                 | refused 5
// in an indefinite one alone nothing is passed
24 80 24 80 1A 00                 | refused 2
// cut, before anything whole shows a fault and behind it
24                                | refused 1
24 01                             | refused 1
24 80 1F                          | refused 1
24 04 24 80                       | refused 1
24 04 24 80 00                    | refused 1
24 04 24 80 04                    | refused 4
BIT STRING:
23 06 03 02 04 C0                 | refused 1
23 06 03 02 04 C0 03 00           | refused 6
";

#[test]
fn encodings(rt: HostRuntime) -> Result<(), Fail> {
    check_table(rt.alloc(), ROWS)
}
