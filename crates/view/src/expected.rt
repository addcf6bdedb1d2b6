//! What can stand in a module, and what to do where another thing does.

/// What can stand behind a token of a module.
pub fn expected_behind(spelling: &str) -> &'static str {
    match spelling {
        "" => "the module's name",
        "BEGIN" => "a type's name and ::=, or END",
        "DEFINITIONS" => "EXPLICIT, IMPLICIT or AUTOMATIC TAGS, or ::=",
        "TAGS" => "::=",
        "EXPLICIT" | "IMPLICIT" => "TAGS in a header, or a type behind a tag",
        "AUTOMATIC" => "TAGS",
        "::=" => "a type, or BEGIN behind a header",
        "{" => "a name with a small letter, or } of an empty list",
        "," => "a name with a small letter",
        "}" => "OPTIONAL, DEFAULT, a comma, }, or the next assignment",
        "[" => "APPLICATION, PRIVATE or a number",
        "APPLICATION" | "PRIVATE" => "a number",
        "]" => "IMPLICIT, EXPLICIT or a type",
        "OF" => "a type",
        "DEFAULT" => "TRUE, FALSE, a number, a name or a string",
        "SEQUENCE" | "SET" => "{ or OF",
        "CHOICE" | "ENUMERATED" => "{",
        "BIT" | "OCTET" => "STRING",
        "OBJECT" => "IDENTIFIER",
        "(" | "-" => "a number",
        ")" => "a comma or }",
        "OPTIONAL" => "a comma or }",
        "END" => "nothing",
        _ => expected_behind_word(spelling),
    }
}

// What can stand behind a name or a type.
fn expected_behind_word(spelling: &str) -> &'static str {
    match spelling.as_bytes().first() {
        Some(b'a'..=b'z') => "a type, or behind an item a comma, } or a number in ( )",
        Some(b'0'..=b'9') => "] behind a tag's number, or ) behind an item's",
        Some(b'A'..=b'Z') => {
            "OPTIONAL, DEFAULT, a comma or } behind a type, the next assignment, or ::= behind a name"
        }
        _ => "a comma or }",
    }
}

/// What to do where a token stands that the profile does not have.
pub fn what_to_do(number: u32, spelling: &str) -> &'static str {
    match (number, spelling) {
        (32, "(") => "; constraints are not in the profile: leave it out, as asn1x-trim does",
        (32, "{") =>
            "; named numbers and parameters are not in the profile: leave them out, as asn1x-trim does",
        (32, "...") =>
            "; extension markers are not in the profile: leave it out, as asn1x-trim does",
        (32, "IMPORTS" | "EXPORTS") =>
            "; write the types that are named there into the module, as asn1x-trim does",
        (32, "ANY") => "; ANY is not in the profile: write the type that stands there",
        (32, _) =>
            "; it is not in the profile: leave it out, or write a type of the profile for it",
        (23, _) => "; the word is reserved: take another name",
        _ => "",
    }
}
