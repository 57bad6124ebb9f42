//! The cells of one column, row by row.

ghost use Rattle.std.specs.Prelude.{◌≡◌, option_copied, slice_get};
ghost use Rattle.std.specs.Iterator.{YieldsFirstBy, item_count};
ghost use Rattle.comfy_table.specs.TableValue.{cells_by_row, cells_with_header};

use crate::table::Table;
use comfy_parts::{Cell, Row};
use std::marker::Model;

/// An iterator over the cells of one column, with an item for each row. The item is `None` if the
/// row has no cell in this column. `Table::column_cells_iter` makes the iterator without the
/// header, and `Table::column_cells_with_header_iter` with an item for the header before the
/// others.
///
/// ```
/// if let Some(Some(cell)) = table.column_cells_iter(1).next() {
///     let first = cell.content()?;
/// }
/// ```
#[derive(Drop)]
pub struct ColumnCellIter<'a> {
    // the item of the header, if it is still to come
    first: Option<Option<&'a Cell>>,
    rows: &'a [Row],
    position: usize,
}

impl<'a> Model for ColumnCellIter<'a> {
    ghost use Rattle.std.specs.Prelude.{List, Option, ◌++◌, option_copied, option_map, option_to_list};
    ghost use Rattle.comfy_parts.specs.CellValue.{CellValue};
    ghost use Rattle.comfy_table.specs.TableValue.{cells_at};

    ghost Value = { List (Option CellValue) };

    ghost view = { λ s. option_to_list (option_map option_copied s.first)
        ++ cells_at s.rows.now s.position };
}

impl Table {
    /// The cells of the column at position `position`, counted from 0, with an item for each row.
    /// The item is `None` if the row has no cell at this position. The header is left out.
    pub fn column_cells_iter(&self, position: usize) -> ColumnCellIter<'_>
        ensures { result ≡ cells_by_row self.now position }
    {
        ColumnCellIter {
            first: None,
            rows: self.rows.as_slice(),
            position,
        }
    }

    /// The cells of the column at position `position`, counted from 0: first an item for the
    /// header, and then one for each row. An item is `None` if there is no header, or if the header
    /// or the row has no cell at this position.
    pub fn column_cells_with_header_iter(&self, position: usize) -> ColumnCellIter<'_>
        ensures { result ≡ cells_with_header self.now position }
    {
        let first = match &self.header {
            Some(header) => cell_at(header, position),
            None => None,
        };
        ColumnCellIter {
            first: Some(first),
            rows: self.rows.as_slice(),
            position,
        }
    }
}

impl<'a> Iterator for ColumnCellIter<'a> {
    type Item = Option<&'a Cell>;

    ghost next_gives = { YieldsFirstBy option_copied (λ cells. cells) };

    ghost remaining = { item_count (λ cells. cells) };

    fn next(&mut self) -> Option<Option<&'a Cell>> {
        if let Some(first) = self.first.take() {
            return Some(first);
        }
        let (row, others) = self.rows.split_first()?;
        self.rows = others;
        Some(cell_at(row, self.position))
    }
}

/// The cell of a row at a position, or `None` if the row has fewer cells.
pub(crate) fn cell_at(row: &Row, position: usize) -> Option<&Cell>
    ensures { option_copied result ≡ slice_get row.now.cells position }
{
    row.cell_iter().as_slice().get(position)
}
