//! Which reserved word is spelled so. The words are looked for among those with the same first letter.

ghost use Rattle.std.specs.Prelude.{◌≡◌, ◌≢◌, ◌≤◌, IfSome, IfNone, All, Contains, slice_index};
ghost use Rattle.lexis.specs.declared.word.Word.{Word};
ghost use Rattle.lexis.specs.Words.{word_text};
ghost use Rattle.lexis.specs.WordTable.{words_range};
ghost use Rattle.lexis.specs.AllWords.{all_words};

use crate::Word;

// The table.
const WORDS: [Word; 85] = [
    Word::Absent,
    Word::All,
    Word::Any,
    Word::Application,
    Word::Automatic,
    Word::Begin,
    Word::Bit,
    Word::BmpString,
    Word::Boolean,
    Word::Character,
    Word::Choice,
    Word::Class,
    Word::Component,
    Word::Components,
    Word::Constrained,
    Word::Containing,
    Word::Date,
    Word::DateTime,
    Word::Default,
    Word::Definitions,
    Word::Duration,
    Word::Embedded,
    Word::Encoded,
    Word::End,
    Word::Enumerated,
    Word::Except,
    Word::Explicit,
    Word::Exports,
    Word::Extensibility,
    Word::External,
    Word::False,
    Word::From,
    Word::GeneralString,
    Word::GeneralizedTime,
    Word::GraphicString,
    Word::Ia5String,
    Word::Identifier,
    Word::Implicit,
    Word::Implied,
    Word::Imports,
    Word::Includes,
    Word::Instance,
    Word::Integer,
    Word::Intersection,
    Word::Iso646String,
    Word::Max,
    Word::Min,
    Word::MinusInfinity,
    Word::Null,
    Word::NumericString,
    Word::Object,
    Word::Octet,
    Word::Of,
    Word::OidIri,
    Word::Optional,
    Word::ObjectDescriptor,
    Word::Pattern,
    Word::Pdv,
    Word::PlusInfinity,
    Word::Present,
    Word::Private,
    Word::PrintableString,
    Word::Real,
    Word::RelativeOid,
    Word::RelativeOidIri,
    Word::Sequence,
    Word::Set,
    Word::Size,
    Word::String,
    Word::Syntax,
    Word::T61String,
    Word::Tags,
    Word::Time,
    Word::TimeOfDay,
    Word::True,
    Word::TeletexString,
    Word::Union,
    Word::Unique,
    Word::Universal,
    Word::UtcTime,
    Word::Utf8String,
    Word::UniversalString,
    Word::VideotexString,
    Word::VisibleString,
    Word::With,
];

/// The reserved word that is spelled so. Takes no memory.
pub fn word_of(spelling: &[u8]) -> Option<Word>
    ensures found { IfSome result (λ word. spelling.now ≡ word_text word) }
    ensures none { IfNone result ((word : Word) → spelling.now ≢ word_text word) }
{
    match spelling {
        [initial, ..] => find_among(words_from(*initial), spelling),
        [] => None,
    }
}

// The word among these that is spelled so.
fn find_among(words: &[Word], spelling: &[u8]) -> Option<Word>
    ensures found { IfSome result (λ word. spelling.now ≡ word_text word) }
    ensures none { IfNone result (All (λ word. spelling.now ≢ word_text word) words.now) }
{
    words
        .iter()
        .find(|word| word.text().as_bytes() == spelling)
        .copied()
}

// The words with this first letter.
fn words_from(initial: u8) -> &'static [Word]
    ensures { (word : Word) → slice_index (word_text word) 0 ≡ initial → Contains result.now word }
{
    let (from, to) = words_range(initial);
    &all_words()[from..to]
}

// All reserved words, in the order of their octets.
fn all_words() -> &'static [Word]
    ensures { result.now ≡ all_words }
{
    &WORDS
}

// Where in the table the words with this first letter begin and end.
fn words_range(initial: u8) -> (usize, usize)
    ensures from { result.0 ≡ (words_range initial).0 }
    ensures to { result.1 ≡ (words_range initial).1 }
    ensures order { result.0 ≤ result.1 }
    ensures within { result.1 ≤ 85 }
{
    match initial {
        b'A' => (0, 5),
        b'B' => (5, 9),
        b'C' => (9, 16),
        b'D' => (16, 21),
        b'E' => (21, 30),
        b'F' => (30, 32),
        b'G' => (32, 35),
        b'I' => (35, 45),
        b'M' => (45, 48),
        b'N' => (48, 50),
        b'O' => (50, 56),
        b'P' => (56, 62),
        b'R' => (62, 65),
        b'S' => (65, 70),
        b'T' => (70, 76),
        b'U' => (76, 82),
        b'V' => (82, 84),
        b'W' => (84, 85),
        _ => (0, 0),
    }
}
