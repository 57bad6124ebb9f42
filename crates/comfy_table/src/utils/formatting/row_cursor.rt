//! Drawing a row line by line.

ghost use Rattle.std.specs.Prelude.{◌≡◌, ◌++◌, ◌<◌, ◌≤◌, [], IfOk, OnOk, length, map, string_bytes};
ghost use Rattle.comfy_table.specs.DrawnCells.{AreFurther, drawn_cell, filled, greatest_height, piece_at};
ghost use Rattle.comfy_table.specs.Gaps.{gap_line};
ghost use Rattle.comfy_table.specs.RowCells.{row_in};

use crate::table::Table;
use crate::utils::formatting::cell_lines::Line;
use crate::utils::formatting::drawn_cell::{DrawnCell, drawn_cell, only_piece, take_list};
use crate::utils::formatting::piece::{Piece, Styles};
use crate::utils::formatting::row_cell::RowSource;
use crate::utils::formatting::row_gaps::RowGaps;
use crate::utils::formatting::shown_column::ShownColumn;
use comfy_parts::Result;
use std::alloc::Global;
use std::marker::Model;

/// A cursor at the row that is being drawn. The row's first line is drawn while its cells are
/// measured. Then only the cells that may have further lines are stored: most rows have no such
/// cell. One cursor draws many rows, and reuses its memory.
#[derive(Drop)]
pub struct RowCursor<'a, 'r> {
    // the cells from the first cell on that may have more than one line
    further: Vec<DrawnCell<'a, 'r>>,
    // the lists that held the lines of earlier rows
    spare: Vec<Vec<Line<'r>>>,
}

impl<'a, 'r> Model for RowCursor<'a, 'r> {
    ghost use Rattle.std.specs.Prelude.{List};
    ghost use Rattle.comfy_table.specs.DrawnCells.{DrawnCell};

    ghost Value = { List DrawnCell };

    ghost view = { λ r. r.further.items };
}

impl<'a, 'r> RowCursor<'a, 'r> {
    /// A cursor that isn't at a row yet. The call takes no memory.
    pub fn new(alloc: Global) -> RowCursor<'a, 'r>
        ensures { result ≡ [] }
    {
        RowCursor {
            further: Vec::new(alloc),
            spare: Vec::new(alloc),
        }
    }

    /// Moves to `row`, appends the row's first line to `text`, and returns the row's height in
    /// lines. `gaps` are the gaps in the lines of this row. Without columns the height is 0, and
    /// the appended text isn't a line of the row. The only error is `OutOfMemory`; `text` may then
    /// have a part of the line.
    #[inline(always)]
    pub fn push_first_line(
        &mut self,
        text: &mut String,
        gaps: &RowGaps,
        row: RowSource<'r>,
        columns: &[ShownColumn<'a>],
        table: &'r Table,
    ) -> Result<usize>
        ensures further { OnOk result
            (AreFurther self.new (map (drawn_cell table.now (row_in row.entry)) columns.now)) }
        ensures line { 0 < length columns.now → OnOk result (string_bytes text.new
            ≡ string_bytes text.old ++ gap_line gaps.now
            (map (piece_at 0) (map (drawn_cell table.now (row_in row.entry)) columns.now))) }
        ensures height { IfOk result (λ height. height
            ≡ greatest_height (map (drawn_cell table.now (row_in row.entry)) columns.now)) }
    {
        self.clear()?;
        let styles = Styles::of(table);
        let mut gap = gaps.left();
        let mut free = 0;
        let mut height = 0;
        for column in columns {
            if self.further.is_empty()
                && let Some(piece) = only_piece(row, column, table, styles)
            {
                free = piece.push(text, gap, free)?;
                height = height.max(1);
            } else {
                make_room(&mut self.further, columns.len())?;
                let cell = drawn_cell(row, column, table, styles, &mut self.spare)?;
                height = cell.height().max(height);
                self.further.push(cell)?;
                free = self.further[self.further.len() - 1]
                    .piece_at(0)
                    .push(text, gap, free)?;
            }
            gap = gaps.junction();
        }
        gaps.push_end(text, free)?;
        Ok(height)
    }

    // Removes the cells of the previous row, and moves their lists to `spare`.
    fn clear(&mut self) -> Result<()>
        ensures { OnOk result (self.new ≡ []) }
    {
        while let Some(cell) = self.further.pop() {
            take_list(cell, &mut self.spare)?;
        }
        Ok(())
    }

    /// Appends the line number `line` of the row to `text`. The row's first line has number 0, so
    /// `line` is at least 1 and less than the row's height. `gaps` and `columns` are those with
    /// which `push_first_line` was called. The only error is `OutOfMemory`; `text` may then have a
    /// part of the line.
    #[inline(never)]
    pub fn push_further_line(
        &self,
        text: &mut String,
        gaps: &RowGaps,
        columns: &[ShownColumn<'a>],
        line: usize,
    ) -> Result<()>
        requires some { 0 < length columns.now }
        requires columns { length self.now ≤ length columns.now }
        ensures { OnOk result (string_bytes text.new ≡ string_bytes text.old
            ++ gap_line gaps.now (map (piece_at line) (filled columns.now self.now))) }
    {
        let first = columns.len() - self.further.as_slice().len();
        let mut gap = gaps.left();
        let mut free = 0;
        for (position, column) in columns.iter().enumerate() {
            let piece = if position < first {
                Piece::blank(column.info)
            } else {
                self.further[position - first].piece_at(line)
            };
            free = piece.push(text, gap, free)?;
            gap = gaps.junction();
        }
        gaps.push_end(text, free)
    }
}

// Reserves room for a cell in each column, if the list is empty.
fn make_room(cells: &mut Vec<DrawnCell<'_, '_>>, columns: usize) -> Result<()>
    ensures { OnOk result (cells.new.items ≡ cells.old.items) }
{
    if cells.is_empty() {
        cells.reserve(columns)?;
    }
    Ok(())
}
