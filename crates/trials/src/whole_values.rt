//! Which encodings are read at once, as what, and which are left to be read step by step.

use crate::type_notation::{OctetsTable, OfOctets};
use crate::value_notation::is_read_as;
use berslice::read_whole;
use std::alloc::Global;
use std::test::Fail;
use test_tables::check;
use types::{Value, WellTyped};

// What is read at once, and how many octets it has.
fn at_once(alloc: Global, ty: &WellTyped, octets: &[u8]) -> Option<(Value, usize)> {
    let mut whole = None;
    let mut room = Vec::new(alloc);
    let used = read_whole(alloc, ty.as_type(), octets, &mut whole, &mut room)?;
    Some((whole?, used))
}

// Whether none of the fronts of fewer octets, of those of up to 100, is read at once.
fn reads_no_front(alloc: Global, ty: &WellTyped, octets: &[u8], used: usize) -> bool {
    for cut in 0..used.min(100) {
        let (front, _) = octets.split_at(cut.min(octets.len()));
        if at_once(alloc, ty, front).is_some() {
            return false;
        }
    }
    true
}

struct AtOnce;

impl OctetsTable for AtOnce {
    fn holds(
        &self,
        alloc: Global,
        ty: &WellTyped,
        octets: &[u8],
        others: &str,
    ) -> Result<bool, Fail> {
        match at_once(alloc, ty, octets) {
            Some((value, used)) if reads_no_front(alloc, ty, octets, used) => {
                is_read_as(alloc, &value, used, others)
            }
            Some(_) => Ok(false),
            None => Ok(others.starts_with("none: ")),
        }
    }
}

// type | an encoding, and two octets behind it | how many octets are read at once, where no fewer are, and the value; or
// none, and why
const VALUES: &str = "\
BOOLEAN | 01 01 2A 00 00 | 3 TRUE
BOOLEAN | 01 81 01 00 00 00 | 4 FALSE
INTEGER | 02 02 01 00 00 00 | 4 256
INTEGER | 02 82 00 01 FF 00 00 | 5 -1
[31]INTEGER | 9F 1F 01 05 00 00 | 4 5
[31]INTEGER | 9F 1F 81 01 05 00 00 | 5 5
ENUMERATED(2,7) | 0A 01 07 00 00 | 3 enum:7
NULL | 05 00 00 00 | 2 NULL
OID | 06 03 2A 03 04 00 00 | 5 oid:1.2.3.4
RELATIVE-OID | 0D 02 08 01 00 00 | 4 relative:8.1
BITS | 03 02 04 F0 00 00 | 4 bits:F0/4
OCTETS | 04 02 41 42 00 00 | 4 octets:4142
OCTETS | 04 81 00 00 00 | 3 octets:''
OCTETS | 24 03 04 01 41 00 00 | 5 octets:41
OCTETS | 24 80 04 01 41 24 03 04 01 42 00 00 00 00 | 12 octets:4142
OCTETS | 24 00 00 00 | 2 octets:''
[31]OCTETS | BF 1F 80 04 00 04 01 41 00 00 00 00 | 10 octets:41
BITS | 23 80 03 02 00 41 03 02 04 F0 00 00 00 00 | 12 bits:41F0/4
PrintableString | 33 80 04 01 41 04 01 62 00 00 00 00 | 10 text:'Ab'
UTCTime | 37 11 04 06 32 36 30 31 30 31 04 07 30 30 30 30 30 30 5A 00 00 | 19 text:'260101000000Z'
PrintableString | 13 02 41 62 00 00 | 4 text:'Ab'
PrintableString | 13 00 00 00 | 2 text:''
UTCTime | 17 0D 32 36 30 31 30 31 30 30 30 30 30 30 5A 00 00 | 15 text:'260101000000Z'
[1]{ INTEGER } | A1 03 02 01 05 00 00 | 5 5
[1]{ INTEGER } | A1 80 02 01 05 00 00 00 00 | 7 5
[1]{ INTEGER } | A1 81 03 02 01 05 00 00 | 6 5
[31]{ INTEGER } | BF 1F 03 02 01 05 00 00 | 6 5
[1]{ [2]{ INTEGER } } | A1 80 A2 03 02 01 05 00 00 00 00 | 9 5
SEQUENCE{ INTEGER BOOLEAN? [0]INTEGER=5 } | 30 03 02 01 07 00 00 | 5 fields( 7 - - )
SEQUENCE{ INTEGER BOOLEAN? [0]INTEGER=5 } | 30 80 02 01 07 01 01 FF 80 01 06 00 00 00 00 | 13 fields( 7 TRUE 6 )
SEQUENCE{ INTEGER BOOLEAN? [0]INTEGER=5 } | 30 06 02 01 07 80 01 05 00 00 | 8 fields( 7 - - )
SEQUENCE{ INTEGER BOOLEAN? [0]INTEGER=5 } | 30 06 02 01 07 80 01 06 00 00 | 8 fields( 7 - 6 )
SET{ INTEGER BOOLEAN? [0]INTEGER=5 } | 31 06 01 01 FF 02 01 07 00 00 | 8 fields( 7 TRUE - )
SET{ INTEGER BOOLEAN? [0]INTEGER=5 } | 31 80 80 01 05 02 01 07 00 00 00 00 | 10 fields( 7 - - )
SET{ INTEGER BOOLEAN? [0]INTEGER=5 } | 31 09 80 01 06 01 01 00 02 01 07 00 00 | 11 fields( 7 FALSE 6 )
SEQUENCE-OF{ INTEGER } | 30 06 02 01 01 02 01 02 00 00 | 8 items( 1 2 )
SEQUENCE-OF{ INTEGER } | 30 80 00 00 00 00 | 4 items( )
SEQUENCE-OF{ INTEGER } | 30 00 00 00 | 2 items( )
SEQUENCE{ OCTETS BOOLEAN? } | 30 80 24 80 04 01 41 00 00 01 01 FF 00 00 00 00 | 14 fields( octets:41 TRUE )
SEQUENCE-OF{ OCTETS } | 30 80 24 03 04 01 41 04 01 42 00 00 00 00 | 12 items( octets:41 octets:42 )
SET-OF{ INTEGER } | 31 80 02 01 02 02 01 01 00 00 00 00 | 10 items( 2 1 )
SET{ [31]INTEGER OCTETS? } | 31 0A 24 03 04 01 41 9F 1F 81 01 05 00 00 | 12 fields( 5 octets:41 )
CHOICE{ [31]INTEGER OCTETS } | 9F 1F 81 01 05 00 00 | 5 0( 5 )
CHOICE{ [31]INTEGER OCTETS } | 24 03 04 01 41 00 00 | 5 1( octets:41 )
SEQUENCE-OF{ CHOICE{ [31]INTEGER OCTETS } } | 30 80 9F 1F 01 05 04 01 41 24 03 04 01 42 9F 1F 01 06 00 00 00 00 | 20 items( 0( 5 ) 1( octets:41 ) 1( octets:42 ) 0( 6 ) )
CHOICE{ INTEGER CHOICE{ BOOLEAN SEQUENCE-OF{ INTEGER } } } | 02 01 03 00 00 | 3 0( 3 )
CHOICE{ INTEGER CHOICE{ BOOLEAN SEQUENCE-OF{ INTEGER } } } | 01 01 FF 00 00 | 3 1( 0( TRUE ) )
CHOICE{ INTEGER CHOICE{ BOOLEAN SEQUENCE-OF{ INTEGER } } } | 30 03 02 01 09 00 00 | 5 1( 1( items( 9 ) ) )
CHOICE{ INTEGER CHOICE{ BOOLEAN SEQUENCE-OF{ INTEGER } } } | 30 80 02 01 09 00 00 00 00 | 7 1( 1( items( 9 ) ) )
// what is not read at once
BOOLEAN | 02 01 2A | none: another tag
BOOLEAN | 21 01 2A | none: another form
[1]{ INTEGER } | 81 01 05 | none: another form
[31]INTEGER | 9F 20 01 05 | none: another tag
CHOICE{ INTEGER CHOICE{ BOOLEAN SEQUENCE-OF{ INTEGER } } } | 04 00 | none: another tag
OCTETS | 24 04 04 01 41 00 | none: octets that are no segment
OCTETS | 24 80 04 01 41 00 01 | none: octets that are no end
OCTETS | 24 80 24 80 04 01 41 00 00 00 | none: an end is missing
INTEGER | 22 03 02 01 05 | none: a type that has no segments
BITS | 23 08 03 02 04 F0 03 02 00 41 | none: bits unused in front of the last segment
PrintableString | 33 03 04 01 2A | none: contents octets of no value
INTEGER | 02 02 00 01 | none: contents octets of no value
ENUMERATED(2,7) | 0A 01 03 | none: contents octets of no value
PrintableString | 13 01 2A | none: contents octets of no value
BITS | 03 01 08 | none: contents octets of no value
[1]{ INTEGER } | A1 00 | none: no encoding inside
[1]{ INTEGER } | A1 06 02 01 05 02 01 06 | none: two encodings inside
[1]{ [2]{ INTEGER } } | A1 80 A2 03 02 01 05 00 01 | none: octets that are no end
CHOICE{ [31]INTEGER OCTETS } | 9F 1F 02 05 | none: octets are missing
CHOICE{ [31]INTEGER OCTETS } | BF 1F 03 02 01 05 | none: a type that has no segments
SET{ [31]INTEGER OCTETS? } | 31 06 BF 1F 03 02 01 05 | none: a type that has no segments
SEQUENCE{ INTEGER BOOLEAN? [0]INTEGER=5 } | 30 00 | none: a component is missing
SEQUENCE{ INTEGER BOOLEAN? [0]INTEGER=5 } | 30 80 00 00 | none: a component is missing
SEQUENCE{ INTEGER BOOLEAN? [0]INTEGER=5 } | 30 06 02 01 07 02 01 07 | none: a component stands where none may
SEQUENCE{ INTEGER BOOLEAN? [0]INTEGER=5 } | 30 06 01 01 FF 02 01 07 | none: a component stands where none may
SEQUENCE{ INTEGER BOOLEAN? [0]INTEGER=5 } | 30 80 02 01 07 00 01 | none: octets that are no end
SET{ INTEGER BOOLEAN? [0]INTEGER=5 } | 31 03 01 01 FF | none: a component is missing
SET{ INTEGER BOOLEAN? [0]INTEGER=5 } | 31 06 02 01 07 02 01 07 | none: a component stands where none may
SET{ INTEGER BOOLEAN? [0]INTEGER=5 } | 31 06 02 01 07 04 01 41 | none: a component stands where none may
SEQUENCE-OF{ INTEGER } | 30 80 02 01 07 01 00 | none: octets that are no end
SEQUENCE-OF{ INTEGER } | 30 05 02 01 07 00 00 | none: octets that are no end
// the limit
OCTETS | 04 83 0F FF FB, 41*1048571, 00 00 | 1048576 octets:41*1048571
OCTETS | 04 83 0F FF FC, 41*1048572 | none: longer than any that is read at once";

#[test]
fn values(rt: HostRuntime) -> Result<(), Fail> {
    check(rt.alloc(), &OfOctets(AtOnce), VALUES)
}
