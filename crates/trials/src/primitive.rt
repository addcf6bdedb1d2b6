//! Contents octets of the types without parts, as BER reads them.

use crate::value_notation::is_value;
use primitives::{
    Bits, Fault, put_bits, put_boolean, put_integer, put_null, put_oid, put_relative_oid,
    read_bits, read_boolean, read_integer, read_null, read_oid, read_relative_oid,
};
use std::alloc::Global;
use std::test::Fail;
use test_tables::{Table, check, four, octets_of};
use types::Value;

// Reads contents octets of a type whose values take no memory, and writes the value; none where they have none.
fn plain(name: &str, contents: &[u8], out: &mut Vec<u8>) -> Result<Option<Value>, Fail> {
    match name {
        "BOOLEAN" => {
            let Some(truth) = read_boolean(contents) else {
                return Ok(None);
            };
            put_boolean(out, truth)?;
            Ok(Some(Value::Boolean(truth)))
        }
        "NULL" => {
            let Some(()) = read_null(contents) else {
                return Ok(None);
            };
            put_null(out)?;
            Ok(Some(Value::Null))
        }
        _ => {
            let Some(number) = read_integer(contents) else {
                return Ok(None);
            };
            put_integer(out, number)?;
            Ok(Some(Value::Integer(number)))
        }
    }
}

// None where contents octets have no value.
fn no_value(fault: Fault) -> Result<Option<Value>, Fail> {
    match fault {
        Fault::Contents => Ok(None),
        Fault::NoMemory => Err("no memory".into()),
    }
}

// Reads contents octets of a type whose values take memory, and writes the value; none where they have none.
fn held(
    alloc: Global,
    name: &str,
    contents: &[u8],
    out: &mut Vec<u8>,
) -> Result<Option<Value>, Fail> {
    match name {
        "OID" => match read_oid(alloc, contents) {
            Ok(arcs) => {
                put_oid(out, &arcs)?;
                Ok(Some(Value::Oid(arcs)))
            }
            Err(fault) => no_value(fault),
        },
        "RELATIVE-OID" => match read_relative_oid(alloc, contents) {
            Ok(arcs) => {
                put_relative_oid(out, &arcs)?;
                Ok(Some(Value::RelativeOid(arcs)))
            }
            Err(fault) => no_value(fault),
        },
        "BITS" => match read_bits(alloc, contents) {
            Ok(bits) => {
                put_bits(out, &bits)?;
                Ok(Some(Value::Bits(bits)))
            }
            Err(fault) => no_value(fault),
        },
        _ => Err("a type without a name".into()),
    }
}

// Whether this was read, and written behind the one octet that was there.
fn is_done(
    alloc: Global,
    found: &Value,
    out: &[u8],
    value: &str,
    written: &str,
) -> Result<bool, Fail> {
    let mut want = Vec::from_slice(alloc, &[0x07])?;
    want.extend_from_slice(&octets_of(alloc, written)?)?;
    Ok(out == want.as_slice() && is_value(alloc, found, value)?)
}

struct Contents;

impl Table for Contents {
    fn holds(&self, alloc: Global, row: &str) -> Result<bool, Fail> {
        let (name, contents, value, written) = four(row)?;
        let contents = octets_of(alloc, contents)?;
        let mut out = Vec::from_slice(alloc, &[0x07])?;
        let read = match name {
            "BOOLEAN" | "NULL" | "INTEGER" => plain(name, &contents, &mut out)?,
            _ => held(alloc, name, &contents, &mut out)?,
        };
        match read {
            Some(found) => is_done(alloc, &found, &out, value, written),
            None => Ok(value == "none" && written == "-"),
        }
    }
}

// type | contents octets | the value, or `none` | the contents octets that are written of it
const CONTENTS: &str = "\
BOOLEAN | '' | none | -
BOOLEAN | 00 | FALSE | 00
BOOLEAN | 2A | TRUE | FF
BOOLEAN | FF | TRUE | FF
BOOLEAN | FF 00 | none | -
NULL | '' | NULL | ''
NULL | 00 | none | -
INTEGER | '' | none | -
INTEGER | 00 | 0 | 00
INTEGER | FF | -1 | FF
INTEGER | 80 | -128 | 80
INTEGER | 7F | 127 | 7F
INTEGER | 00 80 | 128 | 00 80
INTEGER | FF 7F | -129 | FF 7F
INTEGER | 01 00 | 256 | 01 00
INTEGER | 00 7F | none | -
INTEGER | 00 01 | none | -
INTEGER | FF 80 | none | -
INTEGER | FF FF | none | -
INTEGER | 80, 00*15 | -170141183460469231731687303715884105728 | 80, 00*15
INTEGER | 7F, FF*15 | 170141183460469231731687303715884105727 | 7F, FF*15
INTEGER | 00 80, 00*15 | none | -
INTEGER | FF 7F, FF*15 | none | -
OID | 2A | oid:1.2 | 2A
OID | 81 34 03 | oid:2.100.3 | 81 34 03
OID | 88 37 03 | oid:2.999.3 | 88 37 03
OID | 00 | oid:0.0 | 00
OID | 27 | oid:0.39 | 27
OID | 4F | oid:1.39 | 4F
OID | 50 | oid:2.0 | 50
OID | 78 | oid:2.40 | 78
OID | 2A 86 48 86 F7 0D | oid:1.2.840.113549 | 2A 86 48 86 F7 0D
OID | 7F 81 00 | oid:2.47.128 | 7F 81 00
OID | 01*128 | oid:0.1*128 | 01*128
OID | 83, FF*17, 7F | oid:2.340282366920938463463374607431768211375 | 83, FF*17, 7F
OID | '' | none | -
OID | 81 | none | -
OID | 80 | none | -
OID | 80 01 | none | -
OID | 2A 81 | none | -
OID | 80 81 34 03 | none | -
OID | 84, 80*17, 00 | none | -
OID | 01*129 | none | -
RELATIVE-OID | 2A | relative:42 | 2A
RELATIVE-OID | 81 34 03 | relative:180.3 | 81 34 03
RELATIVE-OID | 88 37 03 | relative:1079.3 | 88 37 03
RELATIVE-OID | 00 | relative:0 | 00
RELATIVE-OID | 27 | relative:39 | 27
RELATIVE-OID | 4F | relative:79 | 4F
RELATIVE-OID | 50 | relative:80 | 50
RELATIVE-OID | 78 | relative:120 | 78
RELATIVE-OID | 2A 86 48 86 F7 0D | relative:42.840.113549 | 2A 86 48 86 F7 0D
RELATIVE-OID | 7F 81 00 | relative:127.128 | 7F 81 00
RELATIVE-OID | 01*128 | relative:1*128 | 01*128
RELATIVE-OID | 83, FF*17, 7F | relative:340282366920938463463374607431768211455 | 83, FF*17, 7F
RELATIVE-OID | '' | none | -
RELATIVE-OID | 81 | none | -
RELATIVE-OID | 80 | none | -
RELATIVE-OID | 80 01 | none | -
RELATIVE-OID | 2A 81 | none | -
RELATIVE-OID | 80 81 34 03 | none | -
RELATIVE-OID | 84, 80*17, 00 | none | -
RELATIVE-OID | 01*129 | none | -
BITS | 00 | bits:''/0 | 00
BITS | 00 00 | bits:00/0 | 00 00
BITS | 04 F0 | bits:F0/4 | 04 F0
BITS | 04 FF | bits:F0/4 | 04 F0
BITS | 07 FF 80 | bits:FF80/7 | 07 FF 80
BITS | 07 FF FF | bits:FF80/7 | 07 FF 80
BITS | 01 FF FF | bits:FFFE/1 | 01 FF FE
BITS | 00 FF FF | bits:FFFF/0 | 00 FF FF
BITS | '' | none | -
BITS | 01 | none | -
BITS | 07 | none | -
BITS | 08 00 | none | -
BITS | 08 00 00 | none | -
BITS | 80 | none | -
BITS | FF 00 | none | -";

#[test]
fn contents_octets(rt: HostRuntime) -> Result<(), Fail> {
    check(rt.alloc(), &Contents, CONTENTS)?;
    assert!(rt; Bits::new(Vec::new(rt.alloc()), 1).is_none());
    Ok(())
}
