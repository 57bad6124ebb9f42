//! The positions at which the lines of a wrapped text begin and end. An end is a number of bytes
//! from the front of a text.

ghost use Rattle.std.specs.Prelude.{◌≡◌, IfSome, ℕ, ◌+◌, ◌*◌, ◌==◌, ◌≤◌, List, length, take, drop, true, false};
ghost use Rattle.std.specs.List.{list_any};
ghost use Rattle.std.specs.Str.{IsCharBoundary};
ghost use Rattle.comfy_parts.specs.Columns.{AddsOneColumn};
ghost use Rattle.comfy_parts.specs.Following.{AreColumnsUpTo, EndsElement, EndsWith, FillsTo, Follow, IsFirstElement, IsMeasured, IsSummed};
ghost use Rattle.comfy_parts.specs.Text.{Text, begins_with, is_printable_ascii, measure};
ghost use Rattle.comfy_parts.specs.Wrapping.{bytes_taken, head_or_first, line_end, part_taken, wrapped};

use crate::content_split::joining::adds_one_column;
use crate::content_split::own_width::{WIDE_LEN, begins_wide, own_width};
use crate::content_split::prefix::split_long_word;
use crate::content_split::width::{char_width, joined_columns};

/// The rest of the text from the first character that isn't a delimiter on; empty if there is no
/// such character.
pub fn line_start(text: &str, delimiter: char) -> &str
    ensures begins { begins_with delimiter result.now ≡ false }
    ensures bound { length result.now ≤ length text.now }
    ensures ends { EndsWith text.now result.now }
    ensures printable { is_printable_ascii text.now ≡ true → is_printable_ascii result.now ≡ true }
    ensures lines { (w : ℕ) → wrapped w delimiter result.now ≡ wrapped w delimiter text.now }
{
    let mut rest = text;
    while let Some(after) = rest.strip_prefix(delimiter) {
        rest = after;
    }
    rest
}

// The text before the first delimiter, and the rest of the text, which begins with this delimiter.
// Without a delimiter, the first text is the whole text, and the rest is empty.
pub fn first_element(text: &str, delimiter: char) -> (&str, &str)
    ensures { IsFirstElement delimiter text.now result.0.now result.1.now }
{
    match text.find(delimiter) {
        Some(at) => text.split_at(at),
        None => (text, ""),
    }
}

/// Returns the first element of a text, the rest of the text, and the width of the element in
/// terminal columns. The element is the text before the first delimiter, and the rest begins with
/// this delimiter. Without a delimiter the element is the whole text, and the rest is empty.
pub fn measured_element(text: &str, delimiter: char) -> (&str, &str, usize)
    ensures element { IsFirstElement delimiter text.now result.0.now result.1.now }
    ensures columns { result.2 ≡ measure result.0.now }
    ensures bound { result.2 ≤ 2 * length result.0.now }
{
    // If the text is printable ASCII up to a delimiter or to its end, one pass over these bytes
    // finds the element and its width.
    let (word, after) = text.split_at(printable_run(text.as_bytes(), delimiter));
    if ends_element(after, delimiter) {
        return (word, after, word.len());
    }
    if let Some((after, columns)) = summed_element(text, delimiter) {
        let (word, _) = text.split_at(text.len() - after.len());
        return (word, after, columns);
    }
    let (word, after) = first_element(text, delimiter);
    (word, after, joined_columns(word))
}

// The text after the first element, and the width of the element in terminal columns. One pass
// counts the columns and finds the delimiter. `None` if a character of the element may join others,
// or if the delimiter is from U+4E00 to U+CFFF.
fn summed_element(text: &str, delimiter: char) -> Option<(&str, usize)>
    ensures { IfSome result (λ r. IsSummed delimiter text.now r.0.now r.1) }
{
    // `begins_wide` would skip such a delimiter
    if ('\u{4e00}'..='\u{cfff}').contains(&delimiter) {
        return None;
    }
    let mut columns = 0;
    let mut rest = text;
    while !rest.is_empty() {
        if begins_wide(rest.as_bytes()) {
            columns += 2;
            (_, rest) = rest.split_at(WIDE_LEN);
        } else {
            let mut characters = rest.chars();
            let character = characters.next()?;
            if character == delimiter {
                return Some((rest, columns));
            }
            columns += own_width(character)?;
            rest = characters.as_str();
        }
    }
    Some((rest, columns))
}

// Returns true only if the text after an element is empty or begins with a delimiter.
fn ends_element(after: &str, delimiter: char) -> bool
    ensures { result ≡ true → EndsElement delimiter after.now }
{
    if after.is_empty() {
        return true;
    }
    after.starts_with(delimiter)
}

// The number of printable ASCII bytes at the front of a text, before the first delimiter.
fn printable_run(bytes: &[u8], delimiter: char) -> usize
    ensures bound { result ≤ length bytes.now }
    ensures printable { is_printable_ascii (take result bytes.now) ≡ true }
    ensures no_delimiter { list_any (λ b. b == delimiter) (take result bytes.now) ≡ false }
{
    let mut run = 0;
    while run < bytes.len()
        && bytes[run] >= 0x20
        && bytes[run] <= 0x7e
        && u32::from(bytes[run]) != u32::from(delimiter)
    {
        run += 1;
    }
    run
}

/// The position and the width of an element (a part of a text between delimiters) that had no room
/// in a line.
#[derive(Clone, Copy, Drop)]
pub struct Measured {
    // the bytes from the first character of the element to the end of the text
    pub left: usize,
    // the bytes of the element
    pub first: usize,
    // the width of the element in terminal columns
    pub columns: usize,
}

/// The line at the front of a text: the length in bytes, the width if it is known, and the element
/// after the line if that element was measured.
#[derive(Clone, Copy, Drop)]
pub struct Taken {
    // the bytes of the line
    pub bytes: usize,
    // the width of the line in terminal columns; `None` if the line ends inside an element, or if
    // `adds_one_column` is false for the delimiter
    pub columns: Option<usize>,
    // the element that had no room, if one was measured
    pub measured: Option<Measured>,
}

/// The line at the front of a text that is wrapped at `width` terminal columns. The first element
/// of the text has `first` bytes and takes `columns` terminal columns. If the element is wider than
/// a line, `columns` can be any number above the width of the line.
pub(crate) fn line_end(
    text: &str,
    first: usize,
    columns: usize,
    width: usize,
    delimiter: char,
) -> Taken
    requires boundary { IsCharBoundary text.now first }
    requires element { IsFirstElement delimiter text.now (take first text.now)
        (drop first text.now) }
    requires columns { AreColumnsUpTo width columns (take first text.now) }
    requires narrow { width ≤ 65535 }
    ensures end { result.bytes ≡ line_end width delimiter text.now }
    ensures columns { IfSome result.columns (λ n. n ≡ measure (take result.bytes text.now)) }
    ensures measured { IfSome result.measured
        (λ m. IsMeasured delimiter text.now m.left m.first m.columns) }
{
    let (word, after) = text.split_at(first);
    if columns > width {
        return Taken {
            bytes: end_within(word, width),
            columns: None,
            measured: None,
        };
    }
    let taken = taken_after(columns, after, width, delimiter);
    let columns = if adds_one_column(delimiter) {
        taken.columns
    } else {
        None
    };
    Taken {
        bytes: first + taken.bytes,
        columns,
        measured: taken.measured,
    }
}

// The bytes that a line takes of a word that is wider than the line: the head of the word, or its
// first character if the head is empty.
fn end_within(word: &str, width: usize) -> usize
    ensures { result ≡ length (head_or_first width word.now) }
{
    let (front, _) = split_long_word(width, word);
    if !front.is_empty() {
        return front.len();
    }
    match word.chars().next() {
        Some(first) => first.len_utf8(),
        None => 0,
    }
}

// The part that a line takes after its first element, which is `first` terminal columns wide. The
// columns of the result are right if the delimiter adds one terminal column between any texts.
fn taken_after(first: usize, after: &str, width: usize, delimiter: char) -> Taken
    requires narrow { width ≤ 65535 }
    ensures value { (es : List Text) → Follow delimiter es after.now
        → result.bytes ≡ bytes_taken width delimiter first es }
    ensures bound { result.bytes ≤ length after.now + 4 }
    ensures columns { IfSome result.columns
        (λ n. AddsOneColumn delimiter → FillsTo first n (take result.bytes after.now)) }
    ensures measured { IfSome result.measured
        (λ m. IsMeasured delimiter after.now m.left m.first m.columns) }
{
    let mut filled = first;
    let mut rest = after;
    while filled <= width.saturating_sub(2) {
        let Some(others) = rest.strip_prefix(delimiter) else {
            break;
        };
        let (next, following, columns) = measured_element(others, delimiter);
        if columns >= width.saturating_sub(filled) {
            let part = part_of_next(next, columns, filled, width, delimiter);
            let measured = Measured {
                left: others.len(),
                first: next.len(),
                columns,
            };
            return Taken {
                bytes: after.len() - rest.len() + part,
                columns: (part == 0).then_some(filled),
                measured: Some(measured),
            };
        }
        filled += columns + char_width(delimiter);
        rest = following;
    }
    Taken {
        bytes: after.len() - rest.len(),
        columns: Some(filled),
        measured: None,
    }
}

// The bytes that a line takes of the delimiter and of the next element, which has no room as a
// whole. `columns` is the width of this element in terminal columns, `filled` that of the line
// before it.
fn part_of_next(next: &str, columns: usize, filled: usize, width: usize, delimiter: char) -> usize
    requires columns { columns ≡ measure next.now }
    requires narrow { filled ≤ 65535 }
    ensures value { result ≡ part_taken width delimiter filled next.now }
    ensures bound { result ≤ length next.now + 4 }
{
    if filled + 4 <= width && columns > width {
        let (front, _) = split_long_word(width - filled - 1, next);
        delimiter.len_utf8() + front.len()
    } else {
        0
    }
}
