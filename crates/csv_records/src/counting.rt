//! Counts the fields of the first records of a text.

ghost use Rattle.std.specs.Prelude.{◌≡◌, IfOk, option_map, true};
ghost use Rattle.csv.specs.Machine.{ends_with, in_field, start_field};
ghost use Rattle.csv.specs.declared.parser.State.TheVariants as st;
ghost use Rattle.csv.specs.declared.parser.Terminator.TheVariants as term;
ghost use Rattle.csv_records.specs.Counting.{count_from, state_at, step, after_step};
ghost use Rattle.csv_records.specs.Delimiter.{field_counts};
ghost use Rattle.csv_records.specs.Input.{config_for};

use crate::text::without_utf8_mark;
use std::alloc::{AllocError, Global};

// The states of the reader of the crate `csv` that occur while fields are counted.
#[derive(Clone, Copy)]
enum State {
    StartRecord,
    StartField,
    InField,
    InQuoted,
    AfterQuote,
}

/// The number of fields of each of the first `most` records of a text, in the order of the records.
///
/// Fields are counted as the reader of the crate `csv` would count them. That reader isn't used,
/// because it fills tables first, which for a few records takes longer than everything else. The
/// only error is that memory runs out.
pub(crate) fn field_counts(
    alloc: Global,
    text: &str,
    has_quotes: bool,
    delimiter: u8,
    most: usize,
) -> Result<Vec<usize>, AllocError>
    ensures { IfOk result (λ counts. counts.items
        ≡ field_counts has_quotes text.now delimiter most) }
{
    let mut counts = Vec::with_capacity(alloc, most)?;
    let mut rest = without_utf8_mark(text).as_bytes();
    for _ in 0..most {
        let Some((count, after)) = first_count(rest, delimiter, has_quotes) else {
            break;
        };
        counts.push(count)?;
        rest = after;
    }
    Ok(counts)
}

/// The number of fields of the first record in `bytes`, and the bytes after this record. `None` if
/// there is no record.
pub(crate) fn first_count(bytes: &[u8], delimiter: u8, has_quotes: bool) -> Option<(usize, &[u8])>
    ensures { option_map (λ found. (found.0, found.1.now)) result
        ≡ count_from (config_for delimiter has_quotes) st.StartRecord 1 bytes.now }
{
    let mut state = State::StartRecord;
    let mut count = 1;
    let mut rest = bytes;
    'bytes: while let Some((byte, after)) = rest.split_first() {
        let Some((next, ends_field)) = step(state, *byte, delimiter, has_quotes) else {
            return Some((count, after));
        };
        rest = after;
        state = next;
        count += usize::from(ends_field);
    }
    match state {
        State::StartRecord => None,
        _ => Some((count, rest)),
    }
}

// The state after a byte, and true if the byte ends a field. `None` if the byte ends the record.
fn step(state: State, byte: u8, delimiter: u8, has_quotes: bool) -> Option<(State, bool)>
    ensures { option_map (λ next. (state_at next.0, next.1)) result
        ≡ step (config_for delimiter has_quotes) (state_at state) byte }
{
    match state {
        State::StartRecord => {
            if ends_line(byte) {
                Some((State::StartRecord, false))
            } else {
                start_field(byte, delimiter, has_quotes)
            }
        }
        State::StartField => start_field(byte, delimiter, has_quotes),
        State::InField => in_field(byte, delimiter),
        State::InQuoted => {
            if has_quotes && byte == b'"' {
                Some((State::AfterQuote, false))
            } else {
                Some((State::InQuoted, false))
            }
        }
        State::AfterQuote => {
            if has_quotes && byte == b'"' {
                Some((State::InQuoted, false))
            } else {
                in_field(byte, delimiter)
            }
        }
    }
}

// The state after a byte at the beginning of a field, and true if the byte ends this field, which
// is then empty. `None` if the byte ends the record.
fn start_field(byte: u8, delimiter: u8, has_quotes: bool) -> Option<(State, bool)>
    ensures { option_map (λ next. (state_at next.0, next.1)) result
        ≡ after_step (start_field (config_for delimiter has_quotes) byte) }
{
    if has_quotes && byte == b'"' {
        Some((State::InQuoted, false))
    } else {
        in_field(byte, delimiter)
    }
}

// The state after a byte in an unquoted field, and true if the byte ends this field. `None` if the
// byte ends the record. A quote is an ordinary byte here.
fn in_field(byte: u8, delimiter: u8) -> Option<(State, bool)>
    ensures { option_map (λ next. (state_at next.0, next.1)) result
        ≡ after_step (in_field (config_for delimiter true) byte) }
{
    if byte == delimiter {
        Some((State::StartField, true))
    } else if ends_line(byte) {
        None
    } else {
        Some((State::InField, false))
    }
}

// True for a line feed and for a carriage return.
pub(crate) fn ends_line(byte: u8) -> bool
    ensures { result ≡ ends_with term.CRLF byte }
{
    byte == b'\r' || byte == b'\n'
}
