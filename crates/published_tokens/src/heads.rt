//! The heads of modules (X.680 clause 13), among prose.

ghost use Rattle.std.specs.Prelude.{◌≡◌, true, false};
ghost use Rattle.published_tokens.specs.Heads.{stage_anew, stage_behind};

use crate::MAX_FILE;
use crate::scanner::Scanner;
use crate::symbol::Symbol;
use crate::token::{Kind, Token};
use lexis::Word as Reserved;
use syntax::Tagging;

/// The head of a module.
#[derive(Clone, Copy)]
pub struct Head {
    /// The module's name.
    pub name: Token,
    /// Its tag default.
    pub tagging: Tagging,
    /// Whether extensibility is implied.
    pub is_extensible: bool,
}

/// What was read of a head.
#[derive(Clone, Copy)]
enum Stage {
    /// Nothing.
    Prose,
    /// A name.
    Name(Token),
    /// A name, and a part of the braces that identify the module.
    Braces(Token),
    /// A name and all of the braces.
    Identified(Token),
    /// All up to DEFINITIONS, or also what may stand behind it.
    Definitions(Head),
    /// All up to a word before TAGS.
    Tags(Head),
    /// All up to EXTENSIBILITY.
    Extensibility(Head),
    /// All up to `::=`.
    Assigned(Head),
    /// All of it.
    Begun(Head),
}

/// The head of the next module of the text, which the scanner passes.
pub fn next_head(scanner: &mut Scanner) -> Option<Head> {
    let mut stage = Stage::Prose;
    for _turn in 0..=MAX_FILE {
        let in_head = !matches!(stage, Stage::Prose);
        let token = scanner.next_in_prose(in_head);
        if token.kind == Kind::End {
            return None;
        }
        stage = behind(stage, token);
        if let Stage::Begun(head) = stage {
            return Some(head);
        }
    }
    None
}

// What was read behind the token.
fn behind(stage: Stage, token: Token) -> Stage {
    match stage {
        Stage::Prose | Stage::Begun(_) => anew(token),
        Stage::Name(name) | Stage::Identified(name) => behind_name(stage, name, token),
        Stage::Braces(name) => behind_arc(name, token),
        Stage::Definitions(head) => behind_definitions(head, token),
        Stage::Tags(head) => match token.kind {
            Kind::Reserved(Reserved::Tags) => Stage::Definitions(head),
            _ => anew(token),
        },
        Stage::Extensibility(head) => match token.kind {
            Kind::Reserved(Reserved::Implied) => Stage::Definitions(extensible(head)),
            _ => anew(token),
        },
        Stage::Assigned(head) => match token.kind {
            Kind::Reserved(Reserved::Begin) => Stage::Begun(head),
            _ => anew(token),
        },
    }
}

// What was read where the token goes on with nothing before it.
fn anew(token: Token) -> Stage
    ensures { result ≡ stage_anew token token.kind }
{
    match token.kind {
        Kind::Upper => Stage::Name(token),
        _ => Stage::Prose,
    }
}

// What was read behind a name, or behind its braces.
fn behind_name(stage: Stage, name: Token, token: Token) -> Stage {
    match token.kind {
        Kind::Reserved(Reserved::Definitions) => Stage::Definitions(plain_head(name)),
        Kind::Symbol(Symbol::OpenBrace) => match stage {
            Stage::Name(_) => Stage::Braces(name),
            _ => Stage::Prose,
        },
        Kind::Chars => Stage::Identified(name),
        _ => anew(token),
    }
}

// What was read in the braces behind a name.
fn behind_arc(name: Token, token: Token) -> Stage {
    match token.kind {
        Kind::Symbol(Symbol::CloseBrace) => Stage::Identified(name),
        Kind::Symbol(Symbol::OpenParenthesis | Symbol::CloseParenthesis) => Stage::Braces(name),
        Kind::Lower | Kind::Number(_) | Kind::Symbol(Symbol::FullStop) => Stage::Braces(name),
        _ => anew(token),
    }
}

// What was read behind DEFINITIONS, or behind a tag default.
fn behind_definitions(head: Head, token: Token) -> Stage
    ensures { result ≡ stage_behind head token token.kind }
{
    match token.kind {
        Kind::Reserved(Reserved::Explicit) => Stage::Tags(with_tags(head, Tagging::Explicit)),
        Kind::Reserved(Reserved::Implicit) => Stage::Tags(with_tags(head, Tagging::Implicit)),
        Kind::Reserved(Reserved::Automatic) => Stage::Tags(with_tags(head, Tagging::Automatic)),
        Kind::Reserved(Reserved::Extensibility) => Stage::Extensibility(head),
        Kind::Symbol(Symbol::Assignment) => Stage::Assigned(head),
        _ => anew(token),
    }
}

// The head of the module with this name, which no more words tell of (X.680 clause 13).
fn plain_head(name: Token) -> Head
    ensures name { result.name ≡ name }
    ensures tagging { result.tagging ≡ Tagging.Explicit }
    ensures extensible { result.is_extensible ≡ false }
{
    Head {
        name,
        tagging: Tagging::Explicit,
        is_extensible: false,
    }
}

// The head with another tag default.
fn with_tags(head: Head, tagging: Tagging) -> Head
    ensures name { result.name ≡ head.name }
    ensures tagging { result.tagging ≡ tagging }
    ensures same { result.is_extensible ≡ head.is_extensible }
{
    Head {
        name: head.name,
        tagging,
        is_extensible: head.is_extensible,
    }
}

// The head with extensibility implied.
fn extensible(head: Head) -> Head
    ensures name { result.name ≡ head.name }
    ensures tagging { result.tagging ≡ head.tagging }
    ensures implied { result.is_extensible ≡ true }
{
    Head {
        name: head.name,
        tagging: head.tagging,
        is_extensible: true,
    }
}
