//! Modules as trees (X.680 clauses 13, 17 and 31, in this project's profile).

use names::Name;

/// A module.
#[derive(Debug, PartialEq, Eq, Drop)]
pub struct Module {
    /// Its name.
    pub name: String,
    /// What a tag without a keyword means in it.
    pub tagging: Tagging,
    /// Its assignments, in order of text.
    pub assignments: Vec<Assignment>,
}

/// The tag default of a module.
#[derive(Clone, Copy, Debug, PartialEq, Eq)]
pub enum Tagging {
    /// `EXPLICIT TAGS`, or no tag default.
    Explicit,
    /// `IMPLICIT TAGS`.
    Implicit,
    /// `AUTOMATIC TAGS`.
    Automatic,
}

/// A name and the type that it is assigned.
#[derive(Debug, PartialEq, Eq, Drop)]
pub struct Assignment {
    /// The name at its left.
    pub name: String,
    /// The line where the name stands, counted from 1.
    pub line: u32,
    /// The octet of the line where the name begins, counted from 1.
    pub column: u32,
    /// The type at its right.
    pub body: Expr,
}

/// A type expression.
#[derive(Debug, PartialEq, Eq, Drop)]
#[cycle(tree)]
pub enum Expr {
    /// A tag, and the type behind it.
    Tagged(TagPrefix, Box<Expr>),
    /// `SEQUENCE` or `SET`, and components in braces.
    List(Group, Vec<Component>),
    /// `SEQUENCE OF` or `SET OF`, and a type.
    Of(Group, Box<Expr>),
    /// `CHOICE`, and alternatives in braces.
    Choice(Vec<Alternative>),
    /// `ENUMERATED`, and items in braces.
    Enumerated(Vec<Item>),
    /// `BIT STRING`, and named bits in braces.
    NamedBits(Vec<NamedBit>),
    /// A type that is named by reserved words alone.
    Simple(Simple),
    /// The name of a type.
    Reference(String),
}

/// What stands in front of a tagged type.
#[derive(Clone, Copy, Debug, PartialEq, Eq)]
pub struct TagPrefix {
    /// The class word.
    pub class: TagClass,
    /// The tag number.
    pub number: u32,
    /// The keyword behind the tag.
    pub mode: TagMode,
}

/// The class word of a tag.
#[derive(Clone, Copy, Debug, PartialEq, Eq)]
pub enum TagClass {
    /// No word: context-specific.
    ContextSpecific,
    /// `APPLICATION`.
    Application,
    /// `PRIVATE`.
    Private,
}

/// The keyword behind a tag.
#[derive(Clone, Copy, Debug, PartialEq, Eq)]
pub enum TagMode {
    /// No keyword.
    Unmarked,
    /// `IMPLICIT`.
    Implicit,
    /// `EXPLICIT`.
    Explicit,
}

/// The word that a list or an OF type begins with.
#[derive(Clone, Copy, Debug, PartialEq, Eq)]
pub enum Group {
    /// `SEQUENCE`.
    Sequence,
    /// `SET`.
    Set,
}

/// A component of a SEQUENCE or SET.
#[derive(Debug, PartialEq, Eq, Drop)]
#[cycle(tree)]
pub struct Component {
    /// Its name.
    pub name: Name,
    /// Its type.
    pub body: Expr,
    /// What stands behind the type.
    pub presence: Presence,
}

/// What stands behind a component's type.
#[derive(Debug, PartialEq, Eq, Drop)]
pub enum Presence {
    /// Nothing.
    Required,
    /// `OPTIONAL`.
    Optional,
    /// `DEFAULT` and a value.
    Default(DefaultValue),
}

/// A value behind `DEFAULT`. Strings are kept as they are spelled, quotes included.
#[derive(Debug, PartialEq, Eq, Drop)]
pub enum DefaultValue {
    /// `TRUE`.
    True,
    /// `FALSE`.
    False,
    /// A number.
    Number(SignedNumber),
    /// The name of an item.
    Name(String),
    /// A binary string.
    Binary(String),
    /// A hexadecimal string.
    Hex(String),
    /// A character string.
    Chars(String),
}

/// A number, and whether `-` stands before it.
#[derive(Clone, Copy, Debug, PartialEq, Eq)]
pub struct SignedNumber {
    /// Whether `-` stands before it.
    pub negative: bool,
    /// The number without `-`.
    pub magnitude: u128,
}

/// An alternative of a CHOICE.
#[derive(Debug, PartialEq, Eq, Drop)]
#[cycle(tree)]
pub struct Alternative {
    /// Its name.
    pub name: Name,
    /// Its type.
    pub body: Expr,
}

/// An item of an ENUMERATED.
#[derive(Debug, PartialEq, Eq, Drop)]
pub struct Item {
    /// Its name.
    pub name: Name,
    /// The number in parentheses behind it.
    pub number: Option<SignedNumber>,
}

/// A named bit of a BIT STRING.
#[derive(Debug, PartialEq, Eq, Drop)]
pub struct NamedBit {
    /// Its name.
    pub name: Name,
    /// The number of its bit.
    pub number: u32,
}

/// A type that is named by reserved words alone.
#[derive(Clone, Copy, Debug, PartialEq, Eq)]
pub enum Simple {
    /// `BOOLEAN`.
    Boolean,
    /// `INTEGER`.
    Integer,
    /// `NULL`.
    Null,
    /// `BIT STRING`, and no list of named bits.
    BitString,
    /// `OCTET STRING`.
    OctetString,
    /// `OBJECT IDENTIFIER`.
    ObjectIdentifier,
    /// `RELATIVE-OID`.
    RelativeOid,
    /// `UTF8String`.
    Utf8String,
    /// `NumericString`.
    NumericString,
    /// `PrintableString`.
    PrintableString,
    /// `IA5String`.
    Ia5String,
    /// `VisibleString`.
    VisibleString,
    /// `BMPString`.
    BmpString,
    /// `UTCTime`.
    UtcTime,
    /// `GeneralizedTime`.
    GeneralizedTime,
}
