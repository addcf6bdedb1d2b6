//! Names of types and tags, as X.680 spells them.

use octets::{Class, Tag};
use std::fmt;
use strings::{TextKind, TimeKind};
use types::Ty;

/// The words that name a type. An explicit tag is left out: the type within is named.
pub fn name_of(ty: &Ty) -> &'static str {
    match ty {
        Ty::Boolean(_) => "BOOLEAN",
        Ty::Integer(_) => "INTEGER",
        Ty::Enumerated(_, _) => "ENUMERATED",
        Ty::Null(_) => "NULL",
        Ty::Oid(_) => "OBJECT IDENTIFIER",
        Ty::RelativeOid(_) => "RELATIVE-OID",
        Ty::Bits(_) | Ty::NamedBits(_, _) => "BIT STRING",
        Ty::Octets(_) => "OCTET STRING",
        Ty::Text(_, kind) => name_of_text(*kind),
        Ty::Time(_, TimeKind::Utc) => "UTCTime",
        Ty::Time(_, TimeKind::Generalized) => "GeneralizedTime",
        Ty::Sequence(_, _) => "SEQUENCE",
        Ty::Set(_, _) => "SET",
        Ty::SequenceOf(_, _) => "SEQUENCE OF",
        Ty::SetOf(_, _) => "SET OF",
        Ty::Choice(_) => "CHOICE",
        Ty::Explicit(_, inner) => name_of(inner),
    }
}

fn name_of_text(kind: TextKind) -> &'static str {
    match kind {
        TextKind::Utf8 => "UTF8String",
        TextKind::Numeric => "NumericString",
        TextKind::Printable => "PrintableString",
        TextKind::Ia5 => "IA5String",
        TextKind::Visible => "VisibleString",
        TextKind::Bmp => "BMPString",
    }
}

/// A tag, as `[APPLICATION 1]` or `[0]`; a universal one as `[UNIVERSAL 2]`.
#[derive(Clone, Copy, Debug)]
pub struct PrintedTag(pub Tag);

impl PrintedTag {
    /// What stands before the number.
    pub fn word(&self) -> &'static str {
        match self.0.class {
            Class::Universal => "[UNIVERSAL ",
            Class::Application => "[APPLICATION ",
            Class::Context => "[",
            Class::Private => "[PRIVATE ",
        }
    }
}

impl fmt::Display for PrintedTag {
    fn fmt<W: fmt::Write>(&self, f: &mut fmt::Formatter<W>) -> fmt::Result {
        let word = self.word();
        let number = self.0.number;
        write!(f, "{word}{number}]")
    }
}
