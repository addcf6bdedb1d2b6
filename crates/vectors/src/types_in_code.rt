//! Types made in code, held against those that their notation in X.680 means, and those that they are printed as.

use convert::{
    Alternative, Class, Field, Item, NamedBit, Tag, TextKind, TimeKind, Ty, Value, type_from,
};
use std::alloc::{AllocError, Global};
use std::test::Fail;
use test_tables::{Table, check};

fn context(number: u32) -> Tag {
    let class = Class::Context;
    Tag { class, number }
}

// The type of one word or two.
fn of_words(notation: &str) -> Option<Ty> {
    Some(match notation {
        "BOOLEAN" => Ty::boolean(),
        "INTEGER" => Ty::integer(),
        "NULL" => Ty::null(),
        "OBJECT IDENTIFIER" => Ty::oid(),
        "RELATIVE-OID" => Ty::relative_oid(),
        "BIT STRING" => Ty::bits(),
        "OCTET STRING" => Ty::octets(),
        _ => return of_characters(notation),
    })
}

fn of_characters(notation: &str) -> Option<Ty> {
    Some(match notation {
        "UTF8String" => Ty::text(TextKind::Utf8),
        "NumericString" => Ty::text(TextKind::Numeric),
        "PrintableString" => Ty::text(TextKind::Printable),
        "IA5String" => Ty::text(TextKind::Ia5),
        "VisibleString" => Ty::text(TextKind::Visible),
        "BMPString" => Ty::text(TextKind::Bmp),
        "UTCTime" => Ty::time(TimeKind::Utc),
        "GeneralizedTime" => Ty::time(TimeKind::Generalized),
        _ => return None,
    })
}

// The type of one word or two, or one that has parts.
fn of_notation(alloc: Global, notation: &str) -> Result<Ty, Fail> {
    Ok(match notation {
        "ENUMERATED { x(1) }" => one_item(alloc)?,
        "BIT STRING { y(1) }" => one_bit(alloc)?,
        "SEQUENCE { }" => Ty::sequence(Vec::new(alloc)),
        "SET { }" => Ty::set(Vec::new(alloc)),
        "SEQUENCE OF NULL" => Ty::sequence_of(alloc, Ty::null())?,
        "SET OF NULL" => Ty::set_of(alloc, Ty::null())?,
        _ => of_words(notation).ok_or("no type has this notation")?,
    })
}

fn one_item(alloc: Global) -> Result<Ty, AllocError> {
    let x = Item::new(alloc, "x", 1)?;
    Ok(Ty::enumerated(vec![in alloc; x]?))
}

fn one_bit(alloc: Global) -> Result<Ty, AllocError> {
    let y = NamedBit::new(alloc, "y", 1)?;
    Ok(Ty::named_bits(vec![in alloc; y]?))
}

// The notation of a type.
const TYPES: &str = "\
BOOLEAN
INTEGER
NULL
OBJECT IDENTIFIER
RELATIVE-OID
BIT STRING
OCTET STRING
UTF8String
NumericString
PrintableString
IA5String
VisibleString
BMPString
UTCTime
GeneralizedTime
ENUMERATED { x(1) }
BIT STRING { y(1) }
SEQUENCE { }
SET { }
SEQUENCE OF NULL
SET OF NULL
";

struct Types;

impl Table for Types {
    fn holds(&self, alloc: Global, row: &str) -> Result<bool, Fail> {
        check_meant(alloc, of_notation(alloc, row)?, "EXPLICIT", row)?;
        // under IMPLICIT TAGS, where each tag is in place of the type's own
        let notation = format!(in alloc; "[30] {row}")?;
        let tagged = of_notation(alloc, row)?.implicit(alloc, context(30))?;
        check_meant(alloc, tagged, "IMPLICIT", notation.as_str())?;
        Ok(true)
    }
}

#[test]
fn as_in_the_notation(rt: HostRuntime) -> Result<(), Fail> {
    check(rt.alloc(), &Types, TYPES)
}

const WITH_PARTS: &str = "
    SET {
        colour ENUMERATED { red(0), green(-5) } OPTIONAL,
        flags BIT STRING { first(0), last(9) },
        count [0] IMPLICIT INTEGER DEFAULT 5,
        names [1] EXPLICIT SEQUENCE OF UTF8String,
        marks [2] IMPLICIT SET OF NULL,
        either [3] CHOICE { yes BOOLEAN, no [APPLICATION 7] IMPLICIT SEQUENCE { } },
        tagged [4] EXPLICIT NULL
    }";

fn with_parts(alloc: Global) -> Result<Ty, Fail> {
    let mut fields = Vec::new(alloc);
    for name in "colour flags count names marks either tagged".split(' ') {
        fields.push(part_named(alloc, name)?)?;
    }
    Ok(Ty::set(fields))
}

fn part_named(alloc: Global, name: &str) -> Result<Field, Fail> {
    let ty = type_of_part(alloc, name)?;
    Ok(match name {
        "colour" => Field::optional(alloc, name, ty)?,
        "count" => Field::default(alloc, name, ty, Value::Integer(5))?,
        _ => Field::required(alloc, name, ty)?,
    })
}

fn type_of_part(alloc: Global, name: &str) -> Result<Ty, Fail> {
    Ok(match name {
        "colour" => colour(alloc)?,
        "flags" => flags(alloc)?,
        "count" => Ty::integer().implicit(alloc, context(0))?,
        "names" => names(alloc)?,
        "marks" => marks(alloc)?,
        "either" => either(alloc)?,
        "tagged" => Ty::null()
            .explicit(alloc, context(99))?
            .implicit(alloc, context(4))?,
        _ => return Err("no such component".into()),
    })
}

fn colour(alloc: Global) -> Result<Ty, AllocError> {
    let red = Item::new(alloc, "red", 0)?;
    let green = Item::new(alloc, "green", -5)?;
    Ok(Ty::enumerated(vec![in alloc; red, green]?))
}

fn flags(alloc: Global) -> Result<Ty, AllocError> {
    let first = NamedBit::new(alloc, "first", 0)?;
    let last = NamedBit::new(alloc, "last", 9)?;
    Ok(Ty::named_bits(vec![in alloc; first, last]?))
}

fn names(alloc: Global) -> Result<Ty, AllocError> {
    Ty::sequence_of(alloc, Ty::text(TextKind::Utf8))?.explicit(alloc, context(1))
}

fn marks(alloc: Global) -> Result<Ty, AllocError> {
    Ty::set_of(alloc, Ty::null())?.implicit(alloc, context(2))
}

fn either(alloc: Global) -> Result<Ty, AllocError> {
    let yes = Alternative::new(alloc, "yes", Ty::boolean())?;
    let no = Alternative::new(alloc, "no", no(alloc)?)?;
    Ty::choice(vec![in alloc; yes, no]?).implicit(alloc, context(3))
}

fn no(alloc: Global) -> Result<Ty, AllocError> {
    let class = Class::Application;
    Ty::sequence(Vec::new(alloc)).implicit(alloc, Tag { class, number: 7 })
}

// Checks that a type is what a notation means, and what is meant by the one that it is printed in.
fn check_meant(alloc: Global, ty: Ty, tags: &str, notation: &str) -> Result<(), Fail> {
    check_printed(alloc, &ty, tags, notation)
}

fn check_printed(alloc: Global, ty: &Ty, tags: &str, notation: &str) -> Result<(), Fail> {
    let printed = format!(in alloc; "{ty}")?;
    if means(alloc, "EXPLICIT", printed.as_str(), ty)? && means(alloc, tags, notation, ty)? {
        return Ok(());
    }
    Err(Fail::new(format_args!("not {notation}: {printed}")))
}

// Whether a notation means a type.
fn means(alloc: Global, tags: &str, notation: &str, ty: &Ty) -> Result<bool, Fail> {
    let module = format!(in alloc; "M DEFINITIONS {tags} TAGS ::= BEGIN T ::= {notation} END")?;
    let named = type_from(alloc, module.as_bytes(), "T")?;
    Ok(ty == named.as_type())
}

#[test]
fn with_parts_as_in_the_notation(rt: HostRuntime) -> Result<(), Fail> {
    check_meant(rt.alloc(), with_parts(rt.alloc())?, "EXPLICIT", WITH_PARTS)
}
