//! The columns of a row, and what they say.

use std::alloc::{AllocError, Global};
use std::fmt::Debug;
use std::test::Fail;

/// The column in front, and those behind it.
pub fn two(row: &str) -> Result<(&str, &str), Fail> {
    match row.split_once('|') {
        Some((first, others)) => Ok((first.trim(), others.trim())),
        None => Err(unread("too few columns", row)),
    }
}

// Why a part of a row cannot be read, and which: a failure can be told nothing more where it passes the loop over rows.
fn unread(why: &str, part: &str) -> Fail {
    Fail::new(format_args!("{why}: {part}"))
}

/// The two columns in front, and those behind them.
pub fn three(row: &str) -> Result<(&str, &str, &str), Fail> {
    let (first, others) = two(row)?;
    let (second, others) = two(others)?;
    Ok((first, second, others))
}

/// The three columns in front, and those behind them.
pub fn four(row: &str) -> Result<(&str, &str, &str, &str), Fail> {
    let (first, second, others) = three(row)?;
    let (third, others) = two(others)?;
    Ok((first, second, third, others))
}

/// The two numbers of a column.
pub fn pair_of(column: &str) -> Result<(usize, usize), Fail> {
    let Some((first, second)) = column.split_once(' ') else {
        return Err(unread("one number", column));
    };
    Ok((first.parse::<usize>()?, second.parse::<usize>()?))
}

/// The numbers of a column, with spaces between them. Two with `..` between them are those from the first to the one
/// before the second.
pub fn numbers_of(alloc: Global, column: &str) -> Result<Vec<usize>, Fail> {
    let mut numbers = Vec::new(alloc);
    for word in column.split_whitespace() {
        put_numbers(&mut numbers, word)?;
    }
    Ok(numbers)
}

// Appends the number of a word, or those from one to another.
fn put_numbers(numbers: &mut Vec<usize>, word: &str) -> Result<(), Fail> {
    let Some((first, end)) = word.split_once("..") else {
        return Ok(numbers.push(word.parse::<usize>()?)?);
    };
    for number in first.parse::<usize>()?..end.parse::<usize>()? {
        numbers.push(number)?;
    }
    Ok(())
}

/// The lines of a column, in which a semicolon stands for a line feed.
pub fn lines_of(alloc: Global, column: &str) -> Result<Vec<u8>, AllocError> {
    let mut lines = Vec::new(alloc);
    for octet in column.bytes() {
        lines.push(if octet == b';' { b'\n' } else { octet })?;
    }
    Ok(lines)
}

/// Whether a column says yes; it says yes or no.
pub fn is_yes(column: &str) -> Result<bool, Fail> {
    match column {
        "yes" => Ok(true),
        "no" => Ok(false),
        _ => Err(unread("neither yes nor no", column)),
    }
}

/// Whether a column says `refused` and this number.
pub fn is_refused(number: u8, column: &str) -> Result<bool, Fail> {
    match column.strip_prefix("refused ") {
        Some(want) => Ok(number == want.parse::<u8>()?),
        None => Err(unread("no refusal", column)),
    }
}

/// Whether `Debug` prints what was found as this text, as Rust spells it.
pub fn prints<T: Debug>(alloc: Global, found: &T, text: &str) -> Result<bool, Fail> {
    let printed = format!(in alloc; "{found:?}")?;
    Ok(printed.as_str() == text)
}
