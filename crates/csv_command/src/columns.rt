//! Finds the columns that the words in arguments choose.

ghost use Rattle.std.specs.Prelude.{◌≡◌, ◌<◌, ◌≤◌, ◌-◌, ◌^◌, IfOk, IfErr, IfSome, Ok, length, string_bytes};
ghost use Rattle.std.specs.List.{range_with_len};
ghost use Rattle.csv_command.specs.Columns.{IsColumnsRefusal, at_two_sides, chosen_columns, column_of, columns_by, columns_chosen, end_of, kept_columns, column_numbered, position_named, positions_of, positions_of_each, positions_of_word, range_at, range_of, whole_name, without};

use crate::error::ColumnsError;
use crate::hints::hint_of;
use csv_records::{Record, parse_digits};
use csv_tables::{Columns, name_at};
use std::alloc::{AllocError, Global};

/// Lists of words that choose columns: the values of the options `-c`, `--drop`, `-r` and `--left`.
///
/// If a list has several words, and a column's name is all of these words joined by commas, the
/// list chooses the first such column. In any other case, each word is tried as the number of a
/// column, counted from 1. Then the word is tried as a name, and last as a range with a hyphen.
/// Each end of a range is a number or a name. If nothing follows the hyphen, the range ends with
/// the last column. In a word with several hyphens, the first hyphen counts that has existing
/// columns on both sides, and whose left column isn't after the right column.
#[derive(Debug)]
pub struct ColumnWords {
    /// The words that choose the columns to draw. Columns are drawn in the order in which the words
    /// choose them. If the list is empty, all columns are drawn up to the last column that has a
    /// name or a field that isn't empty.
    pub chosen: Vec<String>,
    /// The words that choose the columns that aren't drawn, even if `chosen` chooses them too. An
    /// empty list drops no column.
    pub dropped: Vec<String>,
    /// The words that choose the columns that are right-aligned, whatever fields these columns
    /// have.
    pub right: Vec<String>,
    /// The words that choose the columns that are left-aligned, whatever fields these columns have.
    /// A column that both `right` and `left` choose is an error.
    pub left: Vec<String>,
}

impl Drop for ColumnWords {
    fn drop(self) {
        let ColumnWords {
            chosen: _,
            dropped: _,
            right: _,
            left: _,
        } = self;
    }
}

/// Two counts of the columns of a header and rows.
#[derive(Clone, Copy)]
pub(crate) struct Counts {
    /// The number of all columns, also of empty ones at the end.
    pub(crate) all: usize,
    /// The number of columns up to the last one that has a name or a field that isn't empty. These
    /// columns are drawn if no column is chosen.
    pub(crate) filled: usize,
}

/// Returns the positions of the drawn, the right-aligned and the left-aligned columns that words
/// choose. There are `counts.all` columns, and `names` has their names.
///
/// # Errors
///
/// `NoColumn` has the first word that chooses no existing column. The lists are tried in the order
/// `chosen`, `dropped`, `right`, `left`. `NoneLeft` is returned before the errors of the last two
/// lists. `TwoSides` has the first right-aligned column that is left-aligned too. `OutOfMemory` is
/// the only other error.
pub(crate) fn columns_of(
    alloc: Global,
    names: &Record<'_>,
    counts: Counts,
    words: &ColumnWords,
) -> Result<Columns, ColumnsError>
    ensures ok { IfOk result (λ columns. columns_by words.now names.now counts ≡ Ok columns) }
    ensures refused { IfErr result (λ e.
        IsColumnsRefusal e (columns_by words.now names.now counts)) }
{
    let drawn = kept_columns(alloc, words, names, counts)?;
    let right = positions_of(alloc, words.right.as_slice(), names, counts.all)?;
    let left = positions_of(alloc, words.left.as_slice(), names, counts.all)?;
    if let Some(position) = at_two_sides(right.as_slice(), left.as_slice()) {
        let name = name_at(alloc, names, position)?;
        return Err(ColumnsError::TwoSides(String::from_str(alloc, name.as_str())?));
    }
    Ok(Columns::new(drawn, right, left))
}

// The first right-aligned column that is left-aligned too.
fn at_two_sides(right: &[usize], left: &[usize]) -> Option<usize>
    ensures { result ≡ at_two_sides right.now left.now }
{
    right
        .iter()
        .copied()
        .find(|position| left.contains(position))
}

// The positions of the chosen columns without the dropped ones. At least one must be left.
fn kept_columns(
    alloc: Global,
    words: &ColumnWords,
    names: &Record<'_>,
    counts: Counts,
) -> Result<Vec<usize>, ColumnsError>
    ensures ok { IfOk result (λ positions. kept_columns names.now counts
        words.now.chosen.items words.now.dropped.items ≡ Ok positions.items) }
    ensures refused { IfErr result (λ e. IsColumnsRefusal e (kept_columns names.now counts
        words.now.chosen.items words.now.dropped.items)) }
{
    let chosen = chosen_columns(alloc, words.chosen.as_slice(), names, counts)?;
    let dropped = positions_of(alloc, words.dropped.as_slice(), names, counts.all)?;
    let kept = without(alloc, chosen.as_slice(), dropped.as_slice())?;
    if kept.is_empty() {
        return Err(ColumnsError::NoneLeft);
    }
    Ok(kept)
}

// The positions in `positions` that aren't in `dropped`.
fn without(alloc: Global, positions: &[usize], dropped: &[usize]) -> Result<Vec<usize>, AllocError>
    ensures { IfOk result (λ kept. kept.items ≡ without positions.now dropped.now) }
{
    let positions = positions.iter().copied();
    positions
        .filter(|position| !dropped.contains(position))
        .collect(alloc)
}

// The positions of the chosen columns. If none is chosen, a last column without name and field, as
// a delimiter at the end of each line makes it, isn't drawn.
fn chosen_columns(
    alloc: Global,
    words: &[String],
    names: &Record<'_>,
    counts: Counts,
) -> Result<Vec<usize>, ColumnsError>
    ensures ok { IfOk result (λ positions. chosen_columns names.now counts words.now
        ≡ Ok positions.items) }
    ensures refused { IfErr result (λ e.
        IsColumnsRefusal e (chosen_columns names.now counts words.now)) }
{
    if words.is_empty() {
        Ok(positions_between(alloc, 0, counts.filled)?)
    } else {
        positions_of(alloc, words, names, counts.all)
    }
}

// The positions that words choose. If the words joined by commas are the name of a column, it is
// the position of that column. Otherwise each word chooses positions.
fn positions_of(
    alloc: Global,
    words: &[String],
    names: &Record<'_>,
    count: usize,
) -> Result<Vec<usize>, ColumnsError>
    ensures ok { IfOk result (λ positions. positions_of names.now count words.now
        ≡ Ok positions.items) }
    ensures refused { IfErr result (λ e.
        IsColumnsRefusal e (positions_of names.now count words.now)) }
{
    match whole_name(alloc, words, names)? {
        Some(position) => Ok(positions_between(alloc, position, position + 1)?),
        None => positions_of_each(alloc, words, names, count),
    }
}

// The position of the first name that is equal to the words joined by commas, if there are several
// words.
fn whole_name(
    alloc: Global,
    words: &[String],
    names: &Record<'_>,
) -> Result<Option<usize>, AllocError>
    ensures value { IfOk result (λ found. found ≡ whole_name names.now words.now) }
    ensures below { IfOk result (λ found. IfSome found (λ position. position < 2 ^ 64 - 1)) }
{
    if words.len() < 2 {
        return Ok(None);
    }
    let name = words.join(alloc, ",")?;
    Ok(position_named(names, name.as_str()))
}

// The positions that each word chooses, in the order of the words.
fn positions_of_each(
    alloc: Global,
    words: &[String],
    names: &Record<'_>,
    count: usize,
) -> Result<Vec<usize>, ColumnsError>
    ensures ok { IfOk result (λ positions. positions_of_each names.now count words.now
        ≡ Ok positions.items) }
    ensures refused { IfErr result (λ e.
        IsColumnsRefusal e (positions_of_each names.now count words.now)) }
{
    let mut positions = Vec::new(alloc);
    for word in words {
        let more = positions_of_word(alloc, word.as_str(), names, count)?;
        positions.extend_from_slice(more.as_slice())?;
    }
    Ok(positions)
}

// The positions that a word chooses.
fn positions_of_word(
    alloc: Global,
    word: &str,
    names: &Record<'_>,
    count: usize,
) -> Result<Vec<usize>, ColumnsError>
    ensures ok { IfOk result (λ positions. positions_of_word names.now count word.now
        ≡ Ok positions.items) }
    ensures refused { IfErr result (λ e.
        IsColumnsRefusal e (positions_of_word names.now count word.now)) }
{
    match columns_chosen(names, count, word) {
        Some((start, end)) => Ok(positions_between(alloc, start, end)?),
        None => {
            let hint = hint_of(alloc, names, count, word)?;
            Err(ColumnsError::NoColumn(String::from_str(alloc, word)?, hint))
        }
    }
}

// The columns that a word chooses: a single column, or else a range. The result is the position of
// the first column, and the position after the last one.
fn columns_chosen(names: &Record<'_>, count: usize, word: &str) -> Option<(usize, usize)>
    ensures value { result ≡ columns_chosen names.now count word.now }
    ensures ordered { IfSome result (λ ends. ends.0 ≤ ends.1) }
{
    match column_of(names, count, word) {
        Some(position) => Some((position, position + 1)),
        None => range_of(names, count, word),
    }
}

// The position of the column with this number, if it exists. Otherwise it is that of the first
// column with this name.
fn column_of(names: &Record<'_>, count: usize, word: &str) -> Option<usize>
    ensures value { result ≡ column_of names.now count word.now }
    ensures below { IfSome result (λ position. position < 2 ^ 64 - 1) }
{
    if let Some(number) = parse_digits(word) {
        if let Some(position) = column_numbered(count, number) {
            return Some(position);
        }
    }
    position_named(names, word)
}

// The position of the column with this number, if it exists.
fn column_numbered(count: usize, number: usize) -> Option<usize>
    ensures value { result ≡ column_numbered count number }
    ensures below { IfSome result (λ position. position < 2 ^ 64 - 1) }
{
    number.checked_sub(1).filter(|position| *position < count)
}

// The range at the first hyphen that has existing columns on both sides, the first of them not
// after the second.
fn range_of(names: &Record<'_>, count: usize, word: &str) -> Option<(usize, usize)>
    ensures value { result ≡ range_of names.now count word.now }
    ensures ordered { IfSome result (λ ends. ends.0 ≤ ends.1) }
{
    for at in 0..word.len() {
        if let Some(ends) = range_at(names, count, word, at) {
            return Some(ends);
        }
    }
    None
}

// The range at a hyphen at byte `at` of a word. `None` if there is no hyphen, or the columns beside
// it don't exist or aren't in order.
fn range_at(names: &Record<'_>, count: usize, word: &str, at: usize) -> Option<(usize, usize)>
    requires { at < length word.now }
    ensures value { result ≡ range_at names.now count word.now at }
    ensures ordered { IfSome result (λ ends. ends.0 ≤ ends.1) }
{
    if word.as_bytes()[at] != b'-' {
        return None;
    }
    let start = column_of(names, count, &word[..at])?;
    let end = end_of(names, count, &word[at + 1..])?;
    if start < end {
        Some((start, end))
    } else {
        None
    }
}

// The position after the last column of a range, given the text after its hyphen.
fn end_of(names: &Record<'_>, count: usize, word: &str) -> Option<usize>
    ensures { result ≡ end_of names.now count word.now }
{
    if word.is_empty() {
        Some(count)
    } else {
        Some(column_of(names, count, word)? + 1)
    }
}

// The positions from `start` on, before `end`.
fn positions_between(alloc: Global, start: usize, end: usize) -> Result<Vec<usize>, AllocError>
    requires { start ≤ end }
    ensures { IfOk result (λ positions. positions.items ≡ range_with_len start (end - start)) }
{
    let mut positions = Vec::with_capacity(alloc, end - start)?;
    for position in start..end {
        positions.push(position)?;
    }
    Ok(positions)
}

// The position of the first field that is this text.
fn position_named(names: &Record<'_>, name: &str) -> Option<usize>
    ensures value { result ≡ position_named name.now names.now }
    ensures below { IfSome result (λ position. position < 2 ^ 64 - 1) }
{
    names.iter().position(|field| field == name)
}
