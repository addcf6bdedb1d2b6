//! Modules as trees: what is understood of all of X.680, and where the rest stands.

use crate::simple::Simple;
use crate::value::{Number, Value};
use names::Name;
use published_tokens::{Place, TagClass, Word};
use syntax::{Group, TagMode, Tagging};

/// A module.
#[derive(Drop)]
pub struct Module {
    /// Its name.
    pub name: Word,
    /// What a tag without a keyword means in it.
    pub tagging: Tagging,
    /// Whether its head has `EXTENSIBILITY IMPLIED`.
    pub is_extensible: bool,
    /// What it imports, in order of text.
    pub imports: Vec<Import>,
    /// Its assignments, in order of text. Parts that are refused leave none.
    pub assignments: Vec<Assignment>,
}

/// Names imported from one module.
#[derive(Drop)]
pub struct Import {
    /// The module.
    pub module: Word,
    /// The names, of types, values, classes and the like.
    pub names: Vec<Word>,
}

/// An assignment.
#[derive(Drop)]
pub struct Assignment {
    /// The name at its left.
    pub name: Word,
    /// What stands at its right.
    pub body: Body,
}

/// What is assigned.
#[derive(Drop)]
pub enum Body {
    /// A type.
    Type(Type),
    /// A value, with its type in front.
    Value(Type, Value),
    /// A class of information objects, with its fields.
    Class(Vec<Field>),
    /// What is recognised and left out. Its contents were skipped.
    LeftOut(LeftOut),
}

/// What is recognised and left out of the tree.
#[derive(Clone, Copy)]
pub enum LeftOut {
    /// A set of information objects or of values.
    Set,
    /// An assignment with parameters.
    Parameterised,
    /// A macro, or a type in the notation of one.
    Macro,
    /// An object in the notation of a macro.
    Object,
}

/// A field of a class.
#[derive(Drop)]
pub struct Field {
    /// Its name, with `&`.
    pub name: Word,
    /// Whether a type that is written by its name is open: the field has a type, or a value whose type another
    /// field has.
    pub is_open: bool,
    /// What is written as its type, where that is a field of a class in turn.
    pub other: Option<FieldOf>,
}

/// A field of a class, as it is written in place of a type.
#[derive(Drop)]
pub struct FieldOf {
    /// The class's name.
    pub class: Reference,
    /// The name of the field. None: several fields stand there.
    pub field: Option<Word>,
}

/// A type.
#[derive(Drop)]
#[cycle(tree)]
pub struct Type {
    /// Where it begins.
    pub place: Place,
    /// What it is.
    pub form: Form,
    /// Where the first constraint behind it begins, or in an OF type the one before `OF`. Constraints
    /// are skipped.
    pub constraint: Option<Place>,
}

/// What a type is.
#[derive(Drop)]
#[cycle(tree)]
pub enum Form {
    /// A type that is named by reserved words alone.
    Simple(Simple),
    /// The name of a type.
    Reference(Reference),
    /// The name of a type with parameters, and parameters in braces, which are skipped.
    Parameterised(Reference),
    /// A tag, and the type behind it.
    Tagged(Tag, Box<Type>),
    /// `SEQUENCE` or `SET`, and components in braces.
    List(Group, Components),
    /// `SEQUENCE OF` or `SET OF`, the name of the items if there is one, and their type.
    Of(Group, Option<Word>, Box<Type>),
    /// `CHOICE`, and alternatives in braces.
    Choice(Alternatives),
    /// `ENUMERATED`, and items in braces.
    Enumerated(Items),
    /// `INTEGER`, and named numbers in braces.
    NamedNumbers(Vec<NamedNumber>),
    /// `BIT STRING`, and named bits in braces. None may be there.
    NamedBits(Vec<NamedNumber>),
    /// The type of an alternative of a CHOICE: `a < T`.
    Selection(Word, Box<Type>),
    /// A field of a class, as `CLASS.&Type`: the class's name, and that of the field. None: several fields
    /// stand there, each of the class that the one before it names.
    Field(Reference, Option<Word>),
    /// `ANY`, with the component that defines it if there is one.
    Any(Option<Word>),
    /// `INSTANCE OF`, with the class's name.
    InstanceOf(Reference),
}

/// A name that is used, perhaps with its module.
#[derive(Drop)]
pub struct Reference {
    /// The module in front of it.
    pub module: Option<Name>,
    /// The name itself.
    pub name: Name,
    /// Where it begins, with its module.
    pub place: Place,
}

/// What stands in front of a tagged type.
#[derive(Drop)]
pub struct Tag {
    /// The class word.
    pub class: TagClass,
    /// The tag number.
    pub number: Number,
    /// The keyword behind the tag.
    pub mode: TagMode,
}

/// The components of a SEQUENCE or SET.
#[derive(Drop)]
#[cycle(tree)]
pub struct Components {
    /// Those of the root that stand before the first `...`, or all.
    pub root: Vec<Component>,
    /// Where the first `...` stands.
    pub marker: Option<Place>,
    /// The additions, in order of text. Those of `[[ ]]` are among them.
    pub additions: Vec<Component>,
    /// Those of the root that stand behind the second `...`.
    pub tail: Vec<Component>,
}

/// A component of a SEQUENCE or SET.
#[derive(Drop)]
#[cycle(tree)]
pub struct Component {
    /// Its name, which is `unnamed-` and a number where none is written. None: `COMPONENTS OF` stands there.
    pub name: Option<Word>,
    /// Its type, or that behind `COMPONENTS OF`.
    pub body: Type,
    /// What stands behind the type.
    pub presence: Presence,
    /// Of an addition in `[[ ]]` where its `[[` stands.
    pub group: Option<Place>,
}

/// What stands behind a component's type.
#[derive(Drop)]
pub enum Presence {
    /// Nothing.
    Required,
    /// `OPTIONAL`.
    Optional,
    /// `DEFAULT` and a value.
    Default(Value),
}

/// The alternatives of a CHOICE.
#[derive(Drop)]
#[cycle(tree)]
pub struct Alternatives {
    /// Those of the root.
    pub root: Vec<Alternative>,
    /// Where the first `...` stands.
    pub marker: Option<Place>,
    /// The additions, in order of text. Those of `[[ ]]` are among them.
    pub additions: Vec<Alternative>,
}

/// An alternative of a CHOICE.
#[derive(Drop)]
#[cycle(tree)]
pub struct Alternative {
    /// Its name, which is `unnamed-` and a number where none is written.
    pub name: Word,
    /// Its type.
    pub body: Type,
}

/// The items of an ENUMERATED.
#[derive(Drop)]
pub struct Items {
    /// Those of the root.
    pub root: Vec<Item>,
    /// Where the `...` stands.
    pub marker: Option<Place>,
    /// The additions, in order of text.
    pub additions: Vec<Item>,
}

/// An item of an ENUMERATED.
#[derive(Drop)]
pub struct Item {
    /// Its name.
    pub name: Word,
    /// The number in parentheses behind it.
    pub number: Option<Number>,
}

/// A named number of an INTEGER, or a named bit of a BIT STRING.
#[derive(Drop)]
pub struct NamedNumber {
    /// Its name.
    pub name: Word,
    /// The number in parentheses behind it.
    pub number: Number,
}
