//! Feet and heads of pages, as the texts of RFCs have them between the lines of a module.

ghost use Rattle.std.specs.Prelude.{◌≡◌, ◌≤◌, length, IfSome};
ghost use Rattle.published_tokens.specs.Gap.{IsOneLine};

// How many octets the line in front has, its line feed counted.
fn line_octets(octets: &[u8]) -> usize
    ensures within { result ≤ length octets.now }
    ensures line { IsOneLine octets.now result }
{
    match octets.iter().position(|octet| *octet == b'\n') {
        Some(before) => before + 1,
        None => octets.len(),
    }
}

/// How many octets the foot or head of a page has that is the line in front.
pub(crate) fn page_line(octets: &[u8]) -> Option<usize>
    ensures within { IfSome result (λ n. (1 ≤ n) × (n ≤ length octets.now)) }
    ensures line { IfSome result (λ n. IsOneLine octets.now n) }
{
    let count = line_octets(octets);
    if count >= 1 && is_page_line(octets[..count].trim_ascii()) {
        Some(count)
    } else {
        None
    }
}

// Whether the line, without white space around it, is a foot or a head.
fn is_page_line(line: &[u8]) -> bool {
    is_foot(line) || (names_series(line) && ends_in_year(line))
}

// Whether the line ends as `[Page 12]`, and not in a comment or a string of the module.
fn is_foot(line: &[u8]) -> bool {
    match line.strip_suffix(b"]") {
        Some(front) => ends_in_page(front) && !has_comment_or_string(line),
        None => false,
    }
}

// Whether a comment or a string begins in the line, as in no foot.
fn has_comment_or_string(line: &[u8]) -> bool {
    for at in 0..line.len() {
        let rest = &line[at..];
        if rest.starts_with(b"--") || rest.starts_with(b"/*") || rest.starts_with(b"\"") {
            return true;
        }
    }
    false
}

// Whether the line ends as `[Page 12`.
fn ends_in_page(line: &[u8]) -> bool {
    match line.iter().rposition(|octet| !octet.is_ascii_digit()) {
        Some(last) => last + 1 < line.len() && line[..last + 1].ends_with(b"[Page "),
        None => false,
    }
}

// Whether the line begins as the head of an RFC or of a draft.
fn names_series(line: &[u8]) -> bool {
    match line {
        [b'R', b'F', b'C', b' ', digit, ..] => digit.is_ascii_digit(),
        _ => line.starts_with(b"Internet-Draft ") || line.starts_with(b"INTERNET-DRAFT "),
    }
}

// Whether the line ends in four digits behind a space.
fn ends_in_year(line: &[u8]) -> bool {
    match line {
        [.., b' ', first, second, third, last] => {
            first.is_ascii_digit()
                && second.is_ascii_digit()
                && third.is_ascii_digit()
                && last.is_ascii_digit()
        }
        _ => false,
    }
}
