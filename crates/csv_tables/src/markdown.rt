//! Tables for Markdown: the escaped texts of cells, and the line below the header.

ghost use Rattle.std.specs.Prelude.{◌≡◌, ◌++◌, ◌==◌, [], ◌∷◌, IfOk, OnOk, chars, slice_get, string_bytes};
ghost use Rattle.std.specs.List.{list_any};
ghost use Rattle.std.specs.Str.{encode_utf8_all};
ghost use Rattle.csv_tables.specs.Markdown.{begins_markup, ends_word, escaped, escaped_character, is_in_address, is_in_word, is_mark, is_marked_at, is_paired, is_right, is_space, is_special, is_word_marked, may_be_escaped, rule_line, rule_part};

use crate::references::begins_reference;
use comfy_parts::style::CellAlignment;
use csv_records::split_first;
use std::alloc::{AllocError, Global};

/// Returns `text` as it is written in a cell of a Markdown table, so that a reader of the drawn
/// table sees the text's characters. The only error is that memory runs out.
///
/// A backslash is added before each character that could begin or end markup:
///
/// - `|`, `\`, `<`, `[` and `]`;
/// - the `&` of a character reference;
/// - `*`, `` ` ``, `~` and `_`, if the same character follows later in the text. A `_` directly
///   after a letter or a digit gets no backslash.
///
/// A word with one of these backslashes gets more: one before a `:` that `/` follows, and one
/// before a point after `w`. Without these two backslashes, a program that makes links of web
/// addresses would take the others into the link. A line feed becomes `<br>`.
pub fn escaped(alloc: Global, text: &str) -> Result<String, AllocError>
    ensures { IfOk result (λ t. string_bytes t ≡ encode_utf8_all (escaped (chars text.now))) }
{
    let mut cell = String::new(alloc);
    let mut is_marked = false;
    let mut before = None;
    let mut rest = text;
    while let Some((c, after)) = split_first(rest) {
        is_marked = is_marked_at(is_marked, before, rest);
        push_escaped(&mut cell, c, is_special(is_marked, before, c, after))?;
        before = Some(c);
        rest = after;
    }
    Ok(cell)
}

/// Returns true if `text` has a character that `escaped` may write in another way.
pub(crate) fn may_be_escaped(text: &str) -> bool
    ensures { result ≡ list_any may_be_escaped (chars text.now) }
{
    text.chars().any(|c| c == '\n' || is_mark(c) || matches!(c, '*' | '`' | '~' | '_' | '&'))
}

/// Appends the line below the header of a Markdown table, and a line feed. The line begins with a
/// bar. For each column it then has dashes, two more than the column's content width, and a bar. In
/// a right-aligned column a colon replaces the last dash. `sides` has the alignment of each column,
/// and `widths` has the content width of each column, in terminal columns. The only error is that
/// memory runs out; `text` may then have a part of the line.
pub fn push_rule(
    text: &mut String,
    sides: &[Option<CellAlignment>],
    widths: &[u16],
) -> Result<(), AllocError>
    ensures { OnOk result (string_bytes text.new
        ≡ string_bytes text.old ++ (rule_line sides.now widths.now ++ 0x0A ∷ [])) }
{
    text.push('|')?;
    for (side, width) in sides.iter().zip(widths) {
        push_rule_segment(text, *side, *width)?;
    }
    text.push('\n')
}

// Appends the part of the line below the header for a column of this alignment and content width.
fn push_rule_segment(
    text: &mut String,
    side: Option<CellAlignment>,
    width: u16,
) -> Result<(), AllocError>
    ensures { OnOk result (string_bytes text.new
        ≡ string_bytes text.old ++ rule_part (side, width)) }
{
    for _ in 0..usize::from(width) + 1 {
        text.push('-')?;
    }
    text.push_str(if is_right(side) { ":|" } else { "-|" })
}

/// Returns true if cells of this alignment are right-aligned.
pub(crate) fn is_right(alignment: Option<CellAlignment>) -> bool
    ensures { result ≡ is_right alignment }
{
    matches!(alignment, Some(CellAlignment::Right))
}

fn first(text: &str) -> Option<char>
    ensures { result ≡ slice_get (chars text.now) 0 }
{
    text.chars().next()
}

// Appends a character, after a backslash if it is special.
fn push_escaped(cell: &mut String, c: char, is_special: bool) -> Result<(), AllocError>
    ensures { OnOk result (string_bytes cell.new
        ≡ string_bytes cell.old ++ encode_utf8_all (escaped_character is_special c)) }
{
    if c == '\n' {
        return cell.push_str("<br>");
    }
    if is_special {
        cell.push('\\')?;
    }
    cell.push(c)
}

// Returns true if a character needs a backslash: it could begin or end markup, or begin a web
// address in a word that has such a character.
fn is_special(is_marked: bool, before: Option<char>, c: char, after: &str) -> bool
    ensures { result ≡ is_special is_marked before c (chars after.now) }
{
    begins_markup(before, c, after) || is_marked && is_in_address(before, c, first(after))
}

// Returns true if the word around the first character of `text` is marked: a character of it could
// begin or end markup. `is_marked` is the result for the character before, if that is in the same
// word.
fn is_marked_at(is_marked: bool, before: Option<char>, text: &str) -> bool
    ensures { result ≡ is_marked_at is_marked before (chars text.now) }
{
    if ends_word(before) {
        is_word_marked(before, text)
    } else {
        is_marked
    }
}

// Returns true if a character of the first word of `text` could begin or end markup. `before` is
// the character before `text`.
fn is_word_marked(before: Option<char>, text: &str) -> bool
    ensures { result ≡ is_word_marked before (chars text.now) }
{
    let mut before = before;
    let mut rest = text;
    while let Some((c, after)) = split_first(rest) {
        if is_space(c) {
            return false;
        }
        if begins_markup(before, c, after) {
            return true;
        }
        before = Some(c);
        rest = after;
    }
    false
}

fn ends_word(c: Option<char>) -> bool
    ensures { result ≡ ends_word c }
{
    match c {
        Some(c) => is_space(c),
        None => true,
    }
}

fn is_space(c: char) -> bool
    ensures { result ≡ is_space c }
{
    c == ' ' || c == '\n'
}

// Returns true if a character could be the colon of `://` or a point of `www.`, by the characters
// next to it.
fn is_in_address(before: Option<char>, c: char, after: Option<char>) -> bool
    ensures { result ≡ is_in_address before c after }
{
    match c {
        ':' => matches!(after, Some('/')),
        '.' => matches!(before, Some('w')),
        _ => false,
    }
}

// Returns true if a character could begin or end markup, by the character before it and the text
// after it.
fn begins_markup(before: Option<char>, c: char, after: &str) -> bool
    ensures { result ≡ begins_markup before c (chars after.now) }
{
    is_mark(c) || is_paired(before, c) && holds(after, c) || c == '&' && begins_reference(after)
}

fn is_mark(c: char) -> bool
    ensures { result ≡ is_mark c }
{
    matches!(c, '|' | '\\' | '<' | '[' | ']')
}

// Returns true if a character is markup when the same character follows later in the text. An
// underscore after a letter or a digit isn't.
fn is_paired(before: Option<char>, c: char) -> bool
    ensures { result ≡ is_paired before c }
{
    matches!(c, '*' | '`' | '~') || c == '_' && !is_in_word(before)
}

fn holds(text: &str, c: char) -> bool
    ensures { result ≡ list_any (λ d. d == c) (chars text.now) }
{
    text.chars().any(|d| d == c)
}

// Returns true if there is a character, and it is a letter or a digit.
fn is_in_word(c: Option<char>) -> bool
    ensures { result ≡ is_in_word c }
{
    match c {
        Some(c) => c.is_alphanumeric(),
        None => false,
    }
}
