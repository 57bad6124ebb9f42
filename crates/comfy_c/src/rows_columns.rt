//! The columns of a table of rows, as numbers.

ghost use Rattle.std.specs.Prelude.{◌≡◌, ◌==◌, IfOk, map};
ghost use Rattle.comfy_c.specs.RowColumns.{are_there, are_unset, column_settings, columns_by, columns_for, have_sides, is_unset, positions_where, settings_for, side_at, width_unless_zero};

use csv_records::Rows;
use csv_tables::{ColumnSettings, Columns, Selection};
use std::alloc::{AllocError, Global};

// The values of a column's side.

const BY_CONTENTS: u32 = 0;

const AT_LEFT: u32 = 1;

const AT_RIGHT: u32 = 2;

const HIDDEN: u32 = 3;

const IN_THE_MIDDLE: u32 = 4;

/// The settings of a column of a table that `comfy_rows_draw` draws. Widths are in terminal
/// columns.
#[derive(Clone, Copy, Debug)]
#[repr(C)]
pub struct RowsColumn {
    /// The number of terminal columns that stay free at the left of the column's texts.
    pub left_padding: u16,
    /// The number of terminal columns that stay free at the right of the column's texts.
    pub right_padding: u16,
    /// The alignment: 0 for right in a column of numbers and left in any other, 1 for left, 2 for
    /// right, and 4 for centred. 3 leaves the column out.
    pub side: u32,
    /// The least width of the column, without its paddings. 0 sets no least width.
    pub least: u16,
    /// The greatest width of the column, without its paddings. 0 sets no greatest width, and a
    /// width below `least` counts as `least`. Wider texts are wrapped.
    pub greatest: u16,
}

/// Returns true if the number `side` of each column has a meaning.
pub(crate) fn have_sides(columns: &[RowsColumn]) -> bool
    ensures { result ≡ have_sides columns.now }
{
    columns.iter().all(|column| column.side <= IN_THE_MIDDLE)
}

/// Returns true if no column is centred, or has a width or paddings other than 1.
pub(crate) fn are_unset(columns: &[RowsColumn]) -> bool
    ensures { result ≡ are_unset columns.now }
{
    columns.iter().all(is_unset)
}

fn is_unset(column: &RowsColumn) -> bool
    ensures { result ≡ is_unset column.now }
{
    column.left_padding == 1
        && column.right_padding == 1
        && column.least == 0
        && column.greatest == 0
        && column.side != IN_THE_MIDDLE
}

/// The settings of each column, as `csv_tables` takes them. The only error is that memory ran out.
/// The list is empty if no column is centred, or has a width or paddings other than 1.
pub(crate) fn settings_for(
    alloc: Global,
    columns: &[RowsColumn],
) -> Result<Vec<ColumnSettings>, AllocError>
    ensures { IfOk result (λ settings. settings.items ≡ settings_for columns.now) }
{
    if are_unset(columns) {
        return Ok(Vec::new(alloc));
    }
    each_settings(alloc, columns)
}

fn each_settings(alloc: Global, columns: &[RowsColumn]) -> Result<Vec<ColumnSettings>, AllocError>
    ensures { IfOk result (λ settings. settings.items ≡ map column_settings columns.now) }
{
    columns.iter().map(column_settings).collect(alloc)
}

fn column_settings(column: &RowsColumn) -> ColumnSettings
    ensures { result ≡ column_settings column.now }
{
    ColumnSettings {
        padding: (column.left_padding, column.right_padding),
        least: width_unless_zero(column.least),
        greatest: width_unless_zero(column.greatest),
        is_centered: column.side == IN_THE_MIDDLE,
    }
}

fn width_unless_zero(width: u16) -> Option<u16>
    ensures { result ≡ width_unless_zero width }
{
    (width != 0).then_some(width)
}

/// The columns of `rows` that are drawn, with the alignments that `chosen` sets. `None` if `chosen`
/// has settings for a column that no row has, or if no column is left to draw. The result is never
/// `None` if there are no rows. The only error is that memory ran out.
pub(crate) fn columns_of(
    alloc: Global,
    chosen: &[RowsColumn],
    selection: Selection,
    rows: &Rows<'_>,
) -> Result<Option<Columns>, AllocError>
    ensures { IfOk result (λ columns. columns ≡ columns_for selection chosen.now rows.now) }
{
    let count = selection.column_count(rows);
    let columns = columns_by(alloc, chosen, count)?;
    if rows.is_empty() {
        return Ok(Some(columns));
    }
    let all = Selection {
        limit: None,
        ..selection
    };
    if !are_there(chosen, all.column_count(rows)) || columns.is_empty() {
        return Ok(None);
    }
    Ok(Some(columns))
}

// Returns true if no column after the first `count` has settings.
fn are_there(columns: &[RowsColumn], count: usize) -> bool
    ensures { result ≡ are_there columns.now count }
{
    columns
        .iter()
        .skip(count)
        .all(|column| column.side == BY_CONTENTS && is_unset(column))
}

// The first `count` columns, with their sides.
fn columns_by(alloc: Global, columns: &[RowsColumn], count: usize) -> Result<Columns, AllocError>
    ensures { IfOk result (λ made. made ≡ columns_by columns.now count) }
{
    let drawn = drawn_by(alloc, columns, count)?;
    let right = columns_with(alloc, columns, count, AT_RIGHT)?;
    let left = columns_with(alloc, columns, count, AT_LEFT)?;
    Ok(Columns::new(drawn, right, left))
}

// The positions below `count` of columns that aren't hidden.
fn drawn_by(alloc: Global, columns: &[RowsColumn], count: usize) -> Result<Vec<usize>, AllocError>
    ensures { IfOk result (λ drawn. drawn.items ≡ (columns_by columns.now count).drawn) }
{
    (0..count)
        .filter(|position| side_at(columns, *position) != HIDDEN)
        .collect(alloc)
}

// The positions below `count` of columns that have this side.
fn columns_with(
    alloc: Global,
    columns: &[RowsColumn],
    count: usize,
    side: u32,
) -> Result<Vec<usize>, AllocError>
    ensures { IfOk result (λ found. found.items
        ≡ positions_where (λ own. own == side) columns.now count) }
{
    (0..count)
        .filter(|position| side_at(columns, *position) == side)
        .collect(alloc)
}

// The side of the column at a position; `BY_CONTENTS` after the last one.
fn side_at(columns: &[RowsColumn], position: usize) -> u32
    ensures { result ≡ side_at columns.now position }
{
    match columns.get(position) {
        Some(column) => column.side,
        None => BY_CONTENTS,
    }
}
