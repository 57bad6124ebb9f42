//! The widths that columns need for their fields: for whole fields, or for the widest word. The
//! only error of the functions is that memory runs out.

ghost use Rattle.std.specs.Prelude.{◌≡◌, IfOk, false, min};
ghost use Rattle.comfy_table.specs.RowCells.{cell_of};
ghost use Rattle.comfy_table.specs.TableValue.{TableValue, measured_cell};
ghost use Rattle.csv_tables.specs.Drawn.{least_words};
ghost use Rattle.csv_tables.specs.NoWrap.{cell_need, cell_word_width, fields_need, kept_of_fields, kept_of_name, kept_word, name_in, wide_word};

use crate::lazy_table::LazyTable;
use crate::nowrap::{LEAST_LEVEL, LONGEST_WORD, name_in, wide_word, word_width};
use comfy_parts::for_tables::measured_lines;
use comfy_table::for_records::{LinesCell, RowCell, TextCell};
use comfy_table::{Cell, Result, Table};
use std::alloc::Global;

// The most terminal columns of a word of a field that is kept whole. Of a wider word a column keeps
// `LONGEST_WORD` terminal columns.
const LONGEST_WHOLE: u16 = 40;

/// A choice of the words that columns of text don't break over lines, if the width has room for the
/// words.
#[derive(Clone, Copy, Debug, PartialEq, Eq)]
pub(crate) enum Words {
    /// No words: each word may be broken.
    Broken,
    /// The words of the columns' names.
    OfNames,
    /// The words of the columns' names and of their fields.
    OfFields,
}

/// The words that mustn't be broken if a row has at most `max_height` lines. A width without room
/// for them has no room for the table of rows.
pub(crate) fn least_words(max_height: Option<usize>) -> Words
    ensures { result ≡ least_words max_height }
{
    match max_height {
        Some(height) if height <= 1 => Words::Broken,
        _ => Words::OfNames,
    }
}

/// The content width that the column at the place `at` needs for the widest word of its name, in
/// terminal columns. 0 if each word of the name may be broken over lines, as `words` decides, or if
/// no word takes more than `LEAST_LEVEL` terminal columns.
pub(crate) fn kept_of_name(table: &Table, words: Words, at: usize) -> u16
    ensures { result ≡ kept_of_name words (wide_word table.now (name_in table.now at)) }
{
    match words {
        Words::Broken => 0,
        Words::OfNames | Words::OfFields => wide_word(table, name_in(table, at)),
    }
}

/// The content width that the column at the place `at` needs for its fields, in terminal columns.
/// `content` is the width of the column's whole content. If `is_nowrap` is true, no field is to be
/// broken over lines, and otherwise `words` decides.
pub(crate) fn kept_of_fields(
    contents: &LazyTable,
    words: Words,
    is_nowrap: bool,
    at: usize,
    content: u16,
) -> Result<u16>
    requires { contents.now.rows.is_expanded ≡ false }
    ensures { IfOk result (λ kept. kept ≡ kept_of_fields words is_nowrap
        (min content (fields_need is_nowrap contents.now.table at))) }
{
    if is_nowrap {
        return Ok(fields_need(contents, true, at, content)?.max(LEAST_LEVEL));
    }
    if words == Words::OfFields {
        return Ok(kept_word(fields_need(contents, false, at, content)?));
    }
    Ok(0)
}

fn kept_word(width: u16) -> u16
    ensures { result ≡ kept_word width }
{
    if width <= LEAST_LEVEL {
        0
    } else if width > LONGEST_WHOLE {
        LONGEST_WORD
    } else {
        width
    }
}

// The width of the widest field of the column at a position if `is_nowrap`, else of the widest word
// of its fields, in terminal columns. The result is at most `content`. The search stops at the
// first field that needs as much.
fn fields_need(contents: &LazyTable, is_nowrap: bool, at: usize, content: u16) -> Result<u16>
    requires { contents.now.rows.is_expanded ≡ false }
    ensures { IfOk result (λ need.
        need ≡ min content (fields_need is_nowrap contents.now.table at)) }
{
    let rows = &contents.rows;
    let mut need = 0;
    for (place, fields) in rows.selected.rows().enumerate() {
        need = rows
            .cell_need(&contents.table, place, &fields, at, is_nowrap)?
            .max(need);
        if need >= usize::from(content) {
            return Ok(content);
        }
    }
    Ok(need.min(usize::from(content)) as u16)
}

/// The width of `cell` if `is_nowrap` is true, and otherwise the width of its widest word, in
/// terminal columns.
pub(crate) fn cell_need(
    alloc: Global,
    table: &Table,
    cell: &RowCell<'_>,
    is_nowrap: bool,
) -> Result<usize>
    ensures { IfOk result (λ need.
        need ≡ cell_need is_nowrap (measured_cell table.now (cell_of cell.now))) }
{
    if is_nowrap {
        Ok(usize::from(cell.content_width(table)))
    } else {
        cell_word_width(alloc, table, cell)
    }
}

fn cell_word_width(alloc: Global, table: &Table, cell: &RowCell<'_>) -> Result<usize>
    ensures { IfOk result (λ width.
        width ≡ cell_word_width (measured_cell table.now (cell_of cell.now))) }
{
    match cell {
        RowCell::Lent(cell) => text_word_width(alloc, cell),
        RowCell::Several(cell) => Ok(lent_word_width(cell)),
        RowCell::Made(cell) => Ok(lines_word_width(table, cell)),
    }
}

// The width of the widest word of a lent text of one line, in terminal columns.
fn text_word_width(alloc: Global, cell: &TextCell<'_>) -> Result<usize>
    ensures { (table : TableValue) → IfOk result (λ width. width
        ≡ cell_word_width (measured_cell table cell.now)) }
{
    let (text, after) = cell.line();
    if after == 0 {
        return Ok(word_width(text));
    }
    let spaced = cell.spaced(alloc)?;
    Ok(word_width(spaced.as_str()))
}

// The width of the widest word of a lent text of several lines, in terminal columns.
fn lent_word_width(cell: &LinesCell<'_>) -> usize
    ensures { (table : TableValue)
        → result ≡ cell_word_width (measured_cell table cell.now) }
{
    let mut widest = 0;
    for line in cell.text().split('\n') {
        widest = word_width(line).max(widest);
    }
    widest
}

/// The width of the widest word of a `Cell`, in terminal columns.
pub(crate) fn lines_word_width(table: &Table, cell: &Cell) -> usize
    ensures { result ≡ cell_word_width (measured_cell table.now cell.now) }
{
    let (lines, _) = measured_lines(cell, table.has_custom_styling());
    let mut widest = 0;
    for line in lines {
        widest = word_width(line.as_str()).max(widest);
    }
    widest
}
