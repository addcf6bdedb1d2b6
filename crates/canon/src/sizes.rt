//! How many octets the parts of an encoding have. Sizes of whole encodings are counted up to one past
//! the limit.

ghost use Rattle.std.specs.Prelude.{◌≡◌, ◌≤◌, ◌<◌, ◌+◌, ◌^◌, ℕ, List, length, Bool, min};
ghost use Rattle.octets.specs.declared.TheConstants.{MAX_ENCODING, MAX_TAG_NUMBER};
ghost use Rattle.octets.specs.Identifier.{IsIdentifier};
ghost use Rattle.octets.specs.Length.{IsShortestLength};
ghost use Rattle.octets.specs.Rule.{der, rule_of};
ghost use Rattle.types.specs.Form.{IsConstructed, IsDefinite};

use octets::{Canonical, MAX_ENCODING, Tag};

// How many octets the constructed encoding around so many contents octets has.
pub(crate) fn size_of_constructed(rule: Canonical, tag: Tag, contents: usize) -> usize
    requires tag { tag.number ≤ MAX_TAG_NUMBER }
    requires at_most { contents ≤ MAX_ENCODING + 1 }
    ensures at_most { result ≤ MAX_ENCODING + 1 }
    ensures more { contents ≤ result }
    ensures size { (inside octets : List ℕ) → contents ≡ min (length inside) (MAX_ENCODING + 1) →
        IsConstructed (rule_of rule) tag inside octets → result ≡ min (length octets) (MAX_ENCODING + 1) }
{
    match rule {
        Canonical::Cer => (size_of_identifier(tag) + 3 + contents).min(MAX_ENCODING + 1),
        Canonical::Der => size_of_definite(tag, contents),
    }
}

// How many octets an encoding of the definite form with the shortest length has.
pub(crate) fn size_of_definite(tag: Tag, contents: usize) -> usize
    requires tag { tag.number ≤ MAX_TAG_NUMBER }
    requires at_most { contents ≤ MAX_ENCODING + 1 }
    ensures at_most { result ≤ MAX_ENCODING + 1 }
    ensures more { contents ≤ result }
    ensures size { (constructed : Bool) (inside octets : List ℕ) →
        contents ≡ min (length inside) (MAX_ENCODING + 1) → IsDefinite der tag constructed inside octets →
        result ≡ min (length octets) (MAX_ENCODING + 1) }
{
    if contents > MAX_ENCODING {
        return contents;
    }
    let size = size_of_identifier(tag) + size_of_length(contents) + contents;
    size.min(MAX_ENCODING + 1)
}

// How many octets the identifier of a tag has.
pub(crate) fn size_of_identifier(tag: Tag) -> usize
    requires { tag.number ≤ MAX_TAG_NUMBER }
    ensures size { (constructed : Bool) (b : List ℕ) → IsIdentifier tag constructed b → length b ≡ result }
    ensures at_most { result ≤ 5 }
{
    match tag.number {
        0..=30 => 1,
        31..=0x7F => 2,
        0x80..=0x3FFF => 3,
        0x4000..=0x1F_FFFF => 4,
        _ => 5,
    }
}

// How many octets the shortest length has.
pub(crate) fn size_of_length(octets: usize) -> usize
    requires { octets < 2 ^ 24 }
    ensures size { (b : List ℕ) → IsShortestLength octets b → length b ≡ result }
    ensures at_most { result ≤ 4 }
{
    match octets {
        0..=0x7F => 1,
        0x80..=0xFF => 2,
        0x100..=0xFFFF => 3,
        _ => 4,
    }
}
