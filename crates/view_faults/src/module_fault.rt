//! Faults of modules in words.

/// What a module's fault says.
pub fn words_of_fault(number: u32) -> &'static str {
    match number {
        21 => "what stands here is no token, or a comment is not closed",
        22 => "the token cannot stand here, or more is needed",
        23 => "a reserved word stands where a name must",
        24 => "the name, or one that it reaches, is not assigned",
        25 => "the type reaches itself",
        26 => "two names are equal",
        27 => "two items or two named bits have one number",
        28 => "tags that must differ are equal",
        29 => "IMPLICIT is written around an untagged CHOICE",
        30 => "the type does not take this DEFAULT",
        31 => "a limit of asn1x is passed",
        32 => "what stands here is not in the profile",
        _ => "out of memory",
    }
}
