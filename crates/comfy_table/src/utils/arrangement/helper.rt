//! Small helpers for finding widths.

ghost use Rattle.std.specs.Prelude.{◌≡◌};
ghost use Rattle.comfy_parts.specs.CellValue.{column_padding, shown_among};
ghost use Rattle.comfy_table.specs.Frame.{saturated_border_count};
ghost use Rattle.comfy_table.specs.Lines.{cell_delimiter};
ghost use Rattle.comfy_table.specs.Widths.{without_padding};

use crate::table::Table;
use comfy_parts::{Cell, Column};

/// The width of a column without its paddings, in terminal columns: `width` less the paddings, but
/// at least 1.
pub fn absolute_width_with_padding(column: &Column, width: u16) -> u16
    ensures { result ≡ without_padding (column_padding column.now) width }
{
    let (left, right) = column.padding();
    width.saturating_sub(left).saturating_sub(right).max(1)
}

/// The number of columns that aren't hidden.
pub fn count_visible_columns(columns: &[Column]) -> usize
    ensures { result ≡ shown_among columns.now }
{
    let mut visible = 0;
    for column in columns {
        if !column.is_hidden() {
            visible += 1;
        }
    }
    visible
}

/// The number of border characters in a line over `shown_columns` columns, or `usize::MAX` if the
/// number is greater.
pub fn count_border_columns(table: &Table, shown_columns: usize) -> usize
    ensures { result ≡ saturated_border_count table.now.style shown_columns }
{
    let left = usize::from(table.style.draws_left_border());
    let right = usize::from(table.style.draws_right_border());
    let between = if table.style.draws_vertical_lines() {
        shown_columns.saturating_sub(1)
    } else {
        0
    };
    (left + right).saturating_add(between)
}

/// The character at which the texts of a cell may break: its own delimiter, else its column's, else
/// the table's, else a space.
pub fn delimiter(table: &Table, column: &Column, cell: &Cell) -> char
    ensures { result ≡ cell_delimiter table.now column.now.delimiter cell.now }
{
    table.delimiter_of(cell, column.column_delimiter())
}
