//! Types whose names X.680 reserved after modules had assigned them.

use crate::cause::Cause;
use crate::simple::{in_profile, name_of_left_out, words_of};
use crate::sources::{Sources, Spot};
use published::{Form, Number, Simple, Tag, TagClass, TagMode, Tagging, Type};

impl<'a> Sources<'a> {
    /// Where the type is assigned that the word for this one means in the module, which assigns or imports
    /// it. None: neither, or it has the same encodings.
    pub fn assigned_for(&self, module: usize, simple: Simple) -> Result<Option<Spot>, Cause<'a>> {
        let word = word_of_simple(simple);
        let Some(other) = other_word_of(simple) else {
            return self.assigned_for_word(module, word);
        };
        // Which of two words is written is not known here.
        for word in [word, other] {
            if self.assigned_for_word(module, word)?.is_some() {
                return Err(Cause::Assigned(word));
            }
        }
        Ok(None)
    }

    /// Where the type is assigned that this reserved word means in the module, as `assigned_for` has it.
    pub fn assigned_for_word(
        &self,
        module: usize,
        word: &'a str,
    ) -> Result<Option<Spot>, Cause<'a>> {
        if !self.has_name(module, word) {
            return Ok(None);
        }
        let spot = self.find_from(module, word)?;
        if self.is_itself(spot, word) {
            Ok(None)
        } else {
            Ok(Some(spot))
        }
    }

    // Whether what is assigned there to the reserved word has the encodings of the type that it names: it is
    // that type, or octets with an implicit tag in front that is the type's own.
    fn is_itself(&self, spot: Spot, word: &str) -> bool {
        let Some(ty) = self.type_at(spot) else {
            return false;
        };
        match &ty.form {
            Form::Simple(simple) => is_word_of(word, *simple),
            Form::Tagged(tag, inner) => {
                is_own_tag(tag, word)
                    && self.is_implicit(spot.module, tag)
                    && self.is_octets(spot.module, inner)
            }
            _ => false,
        }
    }

    // Whether the type in the module has the encodings of OCTET STRING but for the tag: it is one, or a character
    // string type by which X.680 defines others.
    fn is_octets(&self, module: usize, ty: &Type) -> bool {
        match &ty.form {
            Form::Simple(Simple::OctetString) => true,
            Form::Simple(simple) => match simple {
                Simple::VisibleString | Simple::GraphicString => {
                    !self.has_name(module, word_of_simple(*simple))
                }
                _ => false,
            },
            _ => false,
        }
    }

    // Whether the tag in the module is implicit in front of a type that is neither a CHOICE nor open.
    fn is_implicit(&self, module: usize, tag: &Tag) -> bool {
        match tag.mode {
            TagMode::Implicit => true,
            TagMode::Explicit => false,
            TagMode::Unmarked => match self.module_at(module) {
                Some(module) => module.tagging != Tagging::Explicit,
                None => false,
            },
        }
    }
}

// The word that names the type.
fn word_of_simple(simple: Simple) -> &'static str {
    match in_profile(simple) {
        Some(simple) => words_of(simple),
        None => name_of_left_out(simple),
    }
}

// The other word that names the type (X.680 clause 41).
fn other_word_of(simple: Simple) -> Option<&'static str> {
    match simple {
        Simple::TeletexString => Some("T61String"),
        Simple::VisibleString => Some("ISO646String"),
        _ => None,
    }
}

// Whether the word names the type.
fn is_word_of(word: &str, simple: Simple) -> bool {
    word_of_simple(simple) == word || other_word_of(simple) == Some(word)
}

// Whether the tag is the one of the string type that the word names.
fn is_own_tag(tag: &Tag, word: &str) -> bool {
    match (tag.class, &tag.number) {
        (TagClass::Universal, Number::Literal(number)) => match TAGS
            .iter()
            .find(|row| row.0 == word)
        {
            Some((_, own)) => !number.negative && *own == number.magnitude,
            None => false,
        },
        _ => false,
    }
}

// The tags of types whose encodings are those of OCTET STRING but for the tag (X.680 table 1).
static TAGS: [(&str, u128); 16] = [
    ("ObjectDescriptor", 7),
    ("UTF8String", 12),
    ("NumericString", 18),
    ("PrintableString", 19),
    ("TeletexString", 20),
    ("T61String", 20),
    ("VideotexString", 21),
    ("IA5String", 22),
    ("UTCTime", 23),
    ("GeneralizedTime", 24),
    ("GraphicString", 25),
    ("VisibleString", 26),
    ("ISO646String", 26),
    ("GeneralString", 27),
    ("UniversalString", 28),
    ("BMPString", 30),
];
