//! The names that a module assigns.

use notation::{Assignment, Expr, Group, Simple, TagClass, TagMode, TagPrefix};
use octets::NoMemory;
use std::alloc::Global;
use std::string::String;
use strsim::levenshtein;

/// Appends a line for each assigned name: where it stands, and what it is assigned.
pub fn put_names(assignments: &[Assignment], out: &mut String) -> Result<(), NoMemory> {
    for assignment in assignments {
        let line = assignment.line;
        let name = assignment.name.as_str();
        write!(out, "{line:5}: {name} ::= ")?;
        put_kind(&assignment.body, out)?;
        out.push('\n')?;
    }
    Ok(())
}

// Appends what an expression begins with, up to the first brace or name.
fn put_kind(expr: &Expr, out: &mut String) -> Result<(), NoMemory> {
    match expr {
        Expr::Tagged(prefix, inner) => {
            put_prefix(prefix, out)?;
            put_kind(inner, out)
        }
        Expr::Of(group, inner) => {
            out.push_str(word_of_group(*group))?;
            out.push_str(" OF ")?;
            put_kind(inner, out)
        }
        Expr::List(group, parts) => put_counted(
            word_of_group(*group),
            parts.len(),
            "components",
            out,
        ),
        Expr::Choice(parts) => put_counted("CHOICE", parts.len(), "alternatives", out),
        Expr::Enumerated(parts) => put_counted("ENUMERATED", parts.len(), "items", out),
        Expr::NamedBits(parts) => put_counted("BIT STRING", parts.len(), "named bits", out),
        Expr::Simple(simple) => {
            out.push_str(word_of_simple(*simple))?;
            Ok(())
        }
        Expr::Reference(name) => {
            out.push_str(name.as_str())?;
            Ok(())
        }
    }
}

fn put_prefix(prefix: &TagPrefix, out: &mut String) -> Result<(), NoMemory> {
    let class = match prefix.class {
        TagClass::ContextSpecific => "",
        TagClass::Application => "APPLICATION ",
        TagClass::Private => "PRIVATE ",
    };
    let mode = match prefix.mode {
        TagMode::Unmarked => "",
        TagMode::Implicit => "IMPLICIT ",
        TagMode::Explicit => "EXPLICIT ",
    };
    let number = prefix.number;
    write!(out, "[{class}{number}] {mode}")?;
    Ok(())
}

fn put_counted(word: &str, count: usize, what: &str, out: &mut String) -> Result<(), NoMemory> {
    write!(out, "{word}, {what}: {count}")?;
    Ok(())
}

fn word_of_group(group: Group) -> &'static str {
    match group {
        Group::Sequence => "SEQUENCE",
        Group::Set => "SET",
    }
}

fn word_of_simple(simple: Simple) -> &'static str {
    match simple {
        Simple::Boolean => "BOOLEAN",
        Simple::Integer => "INTEGER",
        Simple::Null => "NULL",
        Simple::BitString => "BIT STRING",
        Simple::OctetString => "OCTET STRING",
        Simple::ObjectIdentifier => "OBJECT IDENTIFIER",
        Simple::RelativeOid => "RELATIVE-OID",
        Simple::Utf8String => "UTF8String",
        Simple::NumericString => "NumericString",
        Simple::PrintableString => "PrintableString",
        Simple::Ia5String => "IA5String",
        Simple::VisibleString => "VisibleString",
        Simple::BmpString => "BMPString",
        Simple::UtcTime => "UTCTime",
        Simple::GeneralizedTime => "GeneralizedTime",
    }
}

// The longest name that near ones are looked for.
const MAX_NAME: usize = 256;

/// The assigned names that are nearest to a name which is not: of those with the fewest edits at most three, unless
/// these are more than half of the name. To a name of more than 256 octets none is.
pub fn nearest(
    alloc: Global,
    assignments: &[Assignment],
    name: &str,
) -> Result<Vec<String>, NoMemory> {
    let mut found = Vec::new(alloc);
    if name.len() > MAX_NAME {
        return Ok(found);
    }
    let mut least = name.len() / 2;
    for assignment in assignments {
        if assignment.name.as_str().len().abs_diff(name.len()) > least {
            continue;
        }
        let edits = levenshtein(alloc, assignment.name.as_str(), name)?;
        if edits < least {
            found.clear();
        }
        if edits <= least && found.len() < 3 {
            least = edits;
            found.push(String::from_str(alloc, assignment.name.as_str())?)?;
        }
    }
    Ok(found)
}
