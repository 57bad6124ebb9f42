//! The widths of texts and characters in terminal columns.

ghost use Rattle.std.specs.Prelude.{◌≡◌, ◌+◌, ◌*◌, ◌≤◌, IfSome, length, nat_lt, encode_utf8};
ghost use Rattle.comfy_parts.specs.Following.{IsWideFrom};
ghost use Rattle.comfy_parts.specs.Text.{measure};
ghost use Rattle.comfy_parts.specs.TextLines.{IsClearLine};

use crate::content_split::bytes::is_printable;
use crate::content_split::own_width::{WIDE_LEN, begins_wide, own_width};
use unicode_width::UnicodeWidthStr;

// The search for the shortest wide suffix stops within this many bytes.
const CLOSE: usize = 8;

/// The width of a text in terminal columns, by the rules of the crate `unicode_width`. The width is
/// at most two for each byte of the text.
pub fn measure_text_width(text: &str) -> usize
    ensures value { result ≡ measure text.now }
    ensures bound { result ≤ 2 * length text.now }
{
    if is_printable(text.as_bytes()) {
        return text.len();
    }
    if let Some(columns) = summed_columns(text) {
        return columns;
    }
    joined_columns(text)
}

/// The width in terminal columns of a text whose characters don't join others. It is the sum of the
/// widths of the characters, counted in one pass. The result is `None` if a character may join
/// others or is a control character. So a text for which the result is a width is one text line
/// without ESC.
pub fn summed_columns(text: &str) -> Option<usize>
    ensures clear { IfSome result (IsClearLine text.now) }
    ensures bound { IfSome result (λ columns. columns ≤ 2 * length text.now) }
{
    let mut columns = 0;
    let mut rest = text;
    while !rest.is_empty() {
        if begins_wide(rest.as_bytes()) {
            columns += 2;
            (_, rest) = rest.split_at(WIDE_LEN);
        } else {
            let mut characters = rest.chars();
            columns += own_width(characters.next()?)?;
            rest = characters.as_str();
        }
    }
    Some(columns)
}

/// The width of any text in terminal columns, even if its characters join each other, as in an
/// emoji sequence. This is the width that `measure_text_width` returns, but without the faster ways
/// that `measure_text_width` tries first.
pub fn joined_columns(text: &str) -> usize
    ensures value { result ≡ measure text.now }
    ensures bound { result ≤ 2 * length text.now }
{
    text.width()
}

/// Returns a number of bytes for `word`: each suffix of `word` with at least this many bytes is
/// wider than `columns` terminal columns. If no such number is found, the result is greater than
/// the length of `word` in bytes.
pub fn wide_end(word: &str, columns: usize) -> usize
    ensures { IsWideFrom columns result word.now }
{
    let mut wide = first_wide_end(word, columns);
    let mut narrow = wide / 2;
    while wide <= word.len() && wide - narrow > CLOSE {
        let middle = narrow + (wide - narrow) / 2;
        let (_, end) = word.split_at(word.floor_char_boundary(word.len() - middle));
        if end.len() < wide && shows_wide(end, columns) {
            wide = end.len();
        } else {
            narrow = middle;
        }
    }
    wide
}

// Tries suffixes of the word, each twice as long as the one before it. Returns the length of the
// first suffix that shows that the word is wide. If none shows it, the result is the length of the
// word plus 1.
fn first_wide_end(word: &str, columns: usize) -> usize
    ensures { IsWideFrom columns result word.now }
{
    let mut size = CLOSE;
    while size < word.len() {
        let (_, end) = word.split_at(word.floor_char_boundary(word.len() - size));
        if shows_wide(end, columns) {
            return end.len();
        }
        size *= 2;
    }
    if shows_wide(word, columns) {
        word.len()
    } else {
        word.len() + 1
    }
}

// Returns true if a suffix is at least two terminal columns too wide. Text before a suffix reduces
// its width by at most one, so then each longer suffix is too wide as well.
fn shows_wide(end: &str, columns: usize) -> bool
    ensures { result ≡ nat_lt (columns + 1) (measure end.now) }
{
    measure_text_width(end) > columns.saturating_add(1)
}

/// The width in terminal columns of a text that consists of this character alone.
pub fn char_width(character: char) -> usize
    ensures value { result ≡ measure (encode_utf8 character) }
    ensures bound { result ≤ 8 }
{
    if let Some(columns) = own_width(character) {
        return columns;
    }
    let mut bytes = [0; 4];
    character.encode_utf8(&mut bytes).width()
}
