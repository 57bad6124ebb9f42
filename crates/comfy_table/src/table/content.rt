//! The content widths of cells and columns: the widths of their widest text lines.

ghost use Rattle.std.specs.Prelude.{◌≡◌, IfOk, length, map, max, replicate, slice_index_or, slice_set, string_bytes};
ghost use Rattle.comfy_parts.specs.Text.{measure};
ghost use Rattle.comfy_table.specs.TableValue.{cell_content_width, column_content_width, max_content_widths, measured_cell, widened};

use crate::table::Table;
use comfy_parts::for_tables::measured_lines;
use comfy_parts::{Cell, Result, Row};

/// The content width of the column at a position: the width of the widest text line in its cells
/// and header, in terminal columns. Each cell counts at least 1 and at most 65535, and a column
/// without cells gives 0.
pub(crate) fn column_content_width(table: &Table, position: usize) -> u16
    ensures { result ≡ column_content_width table.now position }
{
    let mut widest = 0;
    for cell in table.column_cells_with_header_iter(position) {
        if let Some(cell) = cell {
            widest = table.cell_content_width(cell).max(widest);
        }
    }
    widest
}

impl Table {
    // The text lines of a cell as they are measured, and the width of each in terminal columns.
    // With `custom_styling`, text lines are measured without their SGR sequences.
    pub(crate) fn measured_lines<'a>(&self, cell: &'a Cell) -> (&'a [String], &'a [usize])
        ensures texts { map string_bytes result.0.now
            ≡ (measured_cell self.now cell.now).text_lines }
        ensures widths { result.1.now ≡ map measure (measured_cell self.now cell.now).text_lines }
    {
        measured_lines(cell, self.custom_styling)
    }

    /// The width of a cell's widest text line, in terminal columns, at least 1 and at most 65535.
    /// With `custom_styling`, the SGR sequences of the text aren't counted.
    pub fn cell_content_width(&self, cell: &Cell) -> u16
        ensures { result ≡ cell_content_width (measured_cell self.now cell.now) }
    {
        let (_, widths) = self.measured_lines(cell);
        let mut widest = 1;
        for width in widths {
            widest = widest.max(*width);
        }
        widest.min(65535) as u16
    }

    /// The content width of each column, in the order of the table's columns: the width of the
    /// widest text line in its cells and header, in terminal columns. Each cell counts at least 1
    /// and at most 65535, and a column without cells gives 0. Cells after the last column are
    /// ignored. The only error is `OutOfMemory`.
    pub fn column_max_content_widths(&self) -> Result<Vec<u16>>
        ensures { IfOk result (λ widths. widths.items ≡ max_content_widths self.now) }
    {
        let mut widths = self.no_widths()?;
        if let Some(header) = &self.header {
            widen(self, header, &mut widths);
        }
        for row in &self.rows {
            widen(self, row, &mut widths);
        }
        Ok(widths)
    }

    // A list with a 0 for each column.
    fn no_widths(&self) -> Result<Vec<u16>>
        ensures { IfOk result (λ widths. widths.items ≡ replicate (length self.now.columns) 0) }
    {
        let count = self.columns.len();
        let mut widths = Vec::new(*self.columns.allocator());
        for _ in 0..count {
            widths.push(0)?;
        }
        Ok(widths)
    }
}

// Raises the width of each column to the content width of its cell in a row, if that is greater.
// Rows may have fewer cells than there are columns. Going through a table row by row takes time for
// its cells only.
fn widen(table: &Table, row: &Row, widths: &mut Vec<u16>)
    ensures { widths.new.items ≡ widened table.now row.now.cells widths.old.items }
{
    for (position, cell) in row.cell_iter().as_slice().iter().enumerate() {
        widen_at(widths, position, table.cell_content_width(cell));
    }
}

// Raises the width at a position to `least`, if it is less. Does nothing after the last column.
fn widen_at(widths: &mut Vec<u16>, position: usize, least: u16)
    ensures { widths.new.items ≡ slice_set widths.old.items position
        (max (slice_index_or widths.old.items position 0) least) }
{
    if let Some(width) = widths.get_mut(position) {
        *width = (*width).max(least);
    }
}
