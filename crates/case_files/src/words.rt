//! The words of a line, and the texts that words mean.

use crate::fault::{Fault, Result};
use std::alloc::Global;

/// Returns the text that a word means: escapes such as `\n` are replaced by their characters.
/// Returns `NotRead` if an escape isn't known or is cut off.
pub fn text(alloc: Global, word: &str) -> Result<String> {
    let mut text = String::new(alloc);
    let mut is_as_written = true;
    for part in word.split('\\') {
        if is_as_written {
            text.push_str(part)?;
        } else {
            push_escaped(&mut text, part)?;
        }
        // an empty part is between two backslashes, which mean one; the part after them has no
        // escape at its front
        is_as_written = !is_as_written && part.is_empty();
    }
    Ok(text)
}

/// Returns the parts of a text between separators. A text without a separator is a single part.
pub fn parts<'a>(alloc: Global, text: &'a str, separator: char) -> Result<Vec<&'a str>> {
    let mut parts = Vec::new(alloc);
    for part in text.split(separator) {
        parts.push(part)?;
    }
    Ok(parts)
}

/// Returns the first word, or an empty word if there is none. A missing word at the end of a line
/// is empty too.
pub fn first_or_empty<'a>(words: &[&'a str]) -> &'a str {
    match words {
        [word, ..] => *word,
        [] => "",
    }
}

/// Adds each line of a text to `lines`. Lines are separated by line feeds.
pub fn push_lines(alloc: Global, lines: &mut Vec<String>, text: &str) -> Result<()> {
    for line in text.split('\n') {
        lines.push(String::from_str(alloc, line)?)?;
    }
    Ok(())
}

// adds the part after a backslash
fn push_escaped(text: &mut String, part: &str) -> Result<()> {
    let mut after = part.chars();
    let meant = match after.next() {
        None => '\\',
        Some('n') => '\n',
        Some('t') => '\t',
        Some('r') => '\r',
        Some('e') => '\u{1b}',
        Some('u') => return push_numbered(text, after.as_str()),
        Some(_) => return Err(Fault::NotRead("an escape isn't known")),
    };
    text.push(meant)?;
    Ok(text.push_str(after.as_str())?)
}

// adds the character whose code point is in braces, in hexadecimal, and the text after the braces
fn push_numbered(text: &mut String, part: &str) -> Result<()> {
    let Some((digits, after)) = part.split_once('}') else {
        return Err(Fault::NotRead("an escape is cut off"));
    };
    let Some(character) = numbered(digits) else {
        return Err(Fault::NotRead("no character has this number"));
    };
    text.push(character)?;
    Ok(text.push_str(after)?)
}

fn numbered(digits: &str) -> Option<char> {
    let digits = digits.strip_prefix('{')?;
    char::from_u32(u32::from_str_radix(digits, 16).ok()?)
}
