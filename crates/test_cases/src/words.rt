//! The value that a word means: a named value, a character or a number.

use case_files::{Fault, Result, text};
use std::alloc::Global;

/// Returns the value that `names` has for a name. If it has none, returns `NotRead` with `reason`.
pub fn named<T: Copy>(names: &[(&str, T)], name: &str, reason: &'static str) -> Result<T> {
    for (known, value) in names {
        if *known == name {
            return Ok(*value);
        }
    }
    Err(Fault::NotRead(reason))
}

/// Returns the character that a word means, after its escapes are replaced. Returns `NotRead` if it
/// isn't exactly one character.
pub fn character(alloc: Global, word: &str) -> Result<char> {
    let text = text(alloc, word)?;
    let mut characters = text.as_str().chars();
    match (characters.next(), characters.next()) {
        (Some(character), None) => Ok(character),
        _ => Err(Fault::NotRead("one character is wanted")),
    }
}

/// Returns the character that a word means, or `None` for an underscore.
pub fn optional_character(alloc: Global, word: &str) -> Result<Option<char>> {
    if word == "_" {
        return Ok(None);
    }
    Ok(Some(character(alloc, word)?))
}

/// Returns the value of a decimal number, or `NotRead` if the word is no number.
pub fn number(word: &str) -> Result<usize> {
    match word.parse::<usize>() {
        Ok(number) => Ok(number),
        Err(_) => Err(Fault::NotRead("a number is wanted")),
    }
}

/// Returns the value of a decimal number of terminal columns. Returns `NotRead` if the word is no
/// number, or the number is above 65535.
pub fn width(word: &str) -> Result<u16> {
    match word.parse::<u16>() {
        Ok(width) => Ok(width),
        Err(_) => Err(Fault::NotRead("a number up to 65535 is wanted")),
    }
}

/// Adds a number to a line of numbers. If the line isn't empty, a space is before the number.
pub fn push_number(line: &mut String, number: u16) -> Result<()> {
    if !line.is_empty() {
        line.push(' ')?;
    }
    Ok(write!(line, "{number}")?)
}
