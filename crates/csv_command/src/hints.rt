//! Hints in messages about words that choose no column.

ghost use Rattle.std.specs.Prelude.{◌≡◌, ◌<◌, IfOk, string_bytes};
ghost use Rattle.csv_command.specs.Hints.{column_count, hint_for, is_alike, listed_names, listed_part, name_or_number, position_alike, separator_before, there_are};

use csv_records::Record;
use std::alloc::{AllocError, Global};

// The greatest number of names that a message lists. Further names are only counted.
const MOST_LISTED: usize = 8;

/// The hint for a word that chooses no column: the first similar name, or else a list of the
/// columns. A similar name differs from the word only in the case of ASCII letters and in white
/// space at its ends. The only error is that memory runs out.
pub(crate) fn hint_of(
    alloc: Global,
    names: &Record<'_>,
    count: usize,
    word: &str,
) -> Result<String, AllocError>
    ensures { IfOk result (λ hint. string_bytes hint ≡ hint_for names.now count word.now) }
{
    match position_alike(names, word) {
        Some(position) => {
            let name = name_or_number(alloc, names, position)?;
            format!(in alloc; "did you mean {name}?")
        }
        None => there_are(alloc, names, count),
    }
}

// The position of the first name that is similar to this word.
fn position_alike(names: &Record<'_>, word: &str) -> Option<usize>
    ensures { result ≡ position_alike word.now names.now }
{
    names.iter().position(|name| is_alike(word, name))
}

// Returns true if two names are equal in letters of either case, without white space at the ends.
fn is_alike(word: &str, name: &str) -> bool
    ensures { result ≡ is_alike word.now name.now }
{
    name.trim_ascii().eq_ignore_ascii_case(word.trim_ascii())
}

// The columns that exist: their names, or their number if there is no header.
fn there_are(alloc: Global, names: &Record<'_>, count: usize) -> Result<String, AllocError>
    ensures { IfOk result (λ text. string_bytes text ≡ there_are names.now count) }
{
    let columns = if names.len() == 0 {
        column_count(alloc, count)?
    } else {
        listed_names(alloc, names, count)?
    };
    if count == 1 {
        format!(in alloc; "there is {columns}")
    } else {
        format!(in alloc; "there are {columns}")
    }
}

fn column_count(alloc: Global, count: usize) -> Result<String, AllocError>
    ensures { IfOk result (λ text. string_bytes text ≡ column_count count) }
{
    if count == 1 {
        String::from_str(alloc, "1 column")
    } else {
        format!(in alloc; "{count} columns")
    }
}

// The names of the first columns, and the number of the others.
fn listed_names(alloc: Global, names: &Record<'_>, count: usize) -> Result<String, AllocError>
    ensures { IfOk result (λ text. string_bytes text ≡ listed_names names.now count) }
{
    let mut text = String::new(alloc);
    let parts = count.min(MOST_LISTED + 1);
    for place in 0..parts {
        text.push_str(separator_before(parts, place))?;
        let part = listed_part(alloc, names, count, place)?;
        text.push_str(part.as_str())?;
    }
    Ok(text)
}

// The text before a part of a list with this many parts.
fn separator_before(parts: usize, place: usize) -> &'static str
    requires { place < parts }
    ensures { result.now ≡ separator_before parts place }
{
    if place == 0 {
        ""
    } else if place + 1 < parts {
        ", "
    } else {
        " and "
    }
}

// A part of the list: a name, or the number of the names that aren't listed.
fn listed_part(
    alloc: Global,
    names: &Record<'_>,
    count: usize,
    place: usize,
) -> Result<String, AllocError>
    ensures { IfOk result (λ text. string_bytes text ≡ listed_part names.now count place) }
{
    if place < MOST_LISTED {
        name_or_number(alloc, names, place)
    } else {
        format!(in alloc; "{} more", count.saturating_sub(MOST_LISTED))
    }
}

// The name of a column in quotes, or its number if it has none.
fn name_or_number(alloc: Global, names: &Record<'_>, position: usize) -> Result<String, AllocError>
    ensures { IfOk result (λ text. string_bytes text ≡ name_or_number names.now position) }
{
    match names.get(position) {
        Some(name) if !name.is_empty() => format!(in alloc; "'{name}'"),
        _ => format!(in alloc; "{}", position as u128 + 1),
    }
}
