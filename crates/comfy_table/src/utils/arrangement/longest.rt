//! Widths of the lines of a column after its cells are wrapped.

ghost use Rattle.std.specs.Prelude.{◌≡◌, ◌≤◌, IfOk, IsOk, map};
ghost use Rattle.comfy_parts.specs.Text.{greatest, measure};
ghost use Rattle.comfy_parts.specs.Wrapping.{wrapped};
ghost use Rattle.comfy_table.specs.Lines.{longest_line, longest_line_at};
ghost use Rattle.comfy_table.specs.LongestLine.{cell_longest_line, text_longest_line};
ghost use Rattle.comfy_table.specs.RowCells.{cell_of};
ghost use Rattle.comfy_table.specs.TableValue.{measured_cell};

use crate::table::Table;
use crate::utils::formatting::row_cell::{LinesCell, RowCell, TextCell};
use comfy_parts::content_split::{ColumnDisplayInfo, measure_text_width, wrapped_lines};
use comfy_parts::{Cell, Result};

/// The width of the widest line in the column at position `position`, in terminal columns, if the
/// header's cell and all other cells are wrapped at `content_width`. Greatest heights of rows
/// aren't applied. A width of 0 counts as 1, and a position without a column gives 0. The call
/// takes no memory and always succeeds.
pub fn longest_line(table: &Table, position: usize, content_width: u16) -> Result<usize>
    ensures value { IfOk result (λ columns. columns
        ≡ longest_line_at table.now position content_width) }
    ensures succeeds { IsOk result }
{
    match table.columns.get(position) {
        Some(column) => {
            let info = ColumnDisplayInfo::new(column, content_width);
            Ok(column_longest_line(table, position, &info, usize::MAX))
        }
        None => Ok(0),
    }
}

/// The width of the widest line in the column at position `position`, in terminal columns, if its
/// cells and its header are wrapped for the content width of `info`. The delimiter of a cell is its
/// own, or else that of `info`, or else that of the table. Greatest heights of rows aren't applied.
/// The function stops at the first cell with a line wider than `limit`, so a result above `limit`
/// may be less than the width of the widest line. The result is 0 if the column has no cells.
pub fn column_longest_line(
    table: &Table,
    position: usize,
    info: &ColumnDisplayInfo,
    limit: usize,
) -> usize
    ensures at_most { result ≤ longest_line table.now position info.now.delimiter
        info.now.content_width }
    ensures exact { result ≤ limit
        → result ≡ longest_line table.now position info.now.delimiter info.now.content_width }
{
    let mut longest = 0;
    for cell in table.column_cells_with_header_iter(position) {
        if let Some(cell) = cell {
            longest = table.cell_longest_line(cell, info).max(longest);
            if longest > limit {
                return longest;
            }
        }
    }
    longest
}

impl Table {
    /// The width of a cell's widest line, in terminal columns, if the cell is wrapped in a column
    /// with the delimiter and the content width of `info`.
    pub fn cell_longest_line(&self, cell: &Cell, info: &ColumnDisplayInfo) -> usize
        ensures { result ≡ cell_longest_line self.now info.now (measured_cell self.now cell.now) }
    {
        let delimiter = self.delimiter_of(cell, info.delimiter);
        let (texts, widths) = self.measured_lines(cell);
        let mut longest = 0;
        for (line, text) in texts.iter().enumerate() {
            let of_text = text_longest_line(text.as_str(), widths[line], info, delimiter);
            longest = of_text.max(longest);
        }
        longest
    }
}

impl<'a> RowCell<'a> {
    /// The width of the cell's widest line, in terminal columns, if the cell is wrapped in a column
    /// with the delimiter and the content width of `info`. The call takes memory only for a
    /// `TextCell` with spaces after its text, if the cell is wider than the column. The only error
    /// is `OutOfMemory`.
    pub fn longest_line(&self, table: &Table, info: &ColumnDisplayInfo) -> Result<usize>
        ensures { IfOk result (λ longest. longest ≡ cell_longest_line table.now info.now
            (measured_cell table.now (cell_of self.now))) }
    {
        match self {
            RowCell::Lent(cell) => cell_text_longest_line(cell, table, info),
            RowCell::Several(cell) => Ok(cell_lines_longest_line(cell, table, info)),
            RowCell::Made(cell) => Ok(table.cell_longest_line(cell, info)),
        }
    }
}

// The width of the widest line of a cell with one text line, in terminal columns.
fn cell_text_longest_line(
    cell: &TextCell<'_>,
    table: &Table,
    info: &ColumnDisplayInfo,
) -> Result<usize>
    ensures { IfOk result (λ longest. longest
        ≡ cell_longest_line table.now info.now (measured_cell table.now cell.now)) }
{
    let columns = cell.columns();
    let width = usize::from(info.content_width);
    if columns <= width {
        return Ok(columns);
    }
    let delimiter = table.delimiter_in(info.delimiter);
    let (text, after) = cell.line();
    if after == 0 {
        return Ok(text_longest_line(text, columns, info, delimiter));
    }
    let spaced = cell.spaced(*table.columns.allocator())?;
    Ok(text_longest_line(spaced.as_str(), columns, info, delimiter))
}

// The width of the widest line of a cell with several text lines, in terminal columns.
fn cell_lines_longest_line(cell: &LinesCell<'_>, table: &Table, info: &ColumnDisplayInfo) -> usize
    ensures { result ≡ cell_longest_line table.now info.now (measured_cell table.now cell.now) }
{
    let delimiter = table.delimiter_in(info.delimiter);
    let mut longest = 0;
    for line in cell.text().split('\n') {
        let of_line = text_longest_line(line, measure_text_width(line), info, delimiter);
        longest = of_line.max(longest);
    }
    longest
}

// The width of the widest line of a text line that takes `columns` terminal columns, after it is
// wrapped.
fn text_longest_line(text: &str, columns: usize, info: &ColumnDisplayInfo, delimiter: char) -> usize
    requires { columns ≡ measure text.now }
    ensures { result ≡ text_longest_line info.now.content_width delimiter text.now }
{
    if columns <= usize::from(info.content_width) {
        return columns;
    }
    wrapped_lines(text, info, delimiter).longest()
}
