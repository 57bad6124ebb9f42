//! The values that cells, lists of cells, and rows can be made of.

ghost use Rattle.std.specs.Prelude.{◌≡◌, [], ◌∷◌, ◌++◌, IfOk, List, map, string_bytes};
ghost use Rattle.comfy_parts.specs.CellValue.{CellValue, RowValue, bool_cell, char_cell, plain_cell, plain_row};

mod borrowed;
mod items;
mod numbers;
mod tuples;

use crate::cell::Cell;
use crate::error::Result;
use crate::row::Row;
pub use items::Items;
use std::alloc::Global;

/// A value that a cell can be made of: a text, a whole number, a truth value, a character, or a
/// cell.
///
/// ```
/// let cell = "dock 3".into_cell(alloc)?.fg(Color::Green);
/// ```
pub trait IntoCell: Drop {
    // the cell that the value represents
    ghost cell_of: { Self → CellValue };

    /// Makes a cell of the value. A cell is returned unchanged. A text, a number, a truth value or
    /// a character becomes a cell without settings, with the text that `Display` writes. After
    /// `OutOfMemory` the value is dropped.
    fn into_cell(self, alloc: Global) -> Result<Cell>
        ensures { IfOk result (λ cell. cell ≡ cell_of self) };
}

/// A list that cells can be made of: `Cells`, or a `Vec`, an array, or a tuple of two to eight
/// values that a cell can be made of. A borrowed `Vec`, array or slice is such a list if its items
/// are `Copy`, as `&str` and numbers are.
///
/// ```
/// let open = Cell::new(alloc, "open")?.fg(Color::Green);
/// let cells = [open, Cell::new(alloc, "dock 3")?].into_cells(alloc)?;
/// ```
pub trait IntoCells: Drop {
    // the cells that the value represents
    ghost cells_of: { Self → List CellValue };

    /// Makes one cell of each item, in the order of the list. After `OutOfMemory` the list is
    /// dropped.
    fn into_cells(self, alloc: Global) -> Result<Cells>
        ensures { IfOk result (λ cells. cells.0.items ≡ cells_of self) };
}

/// A value that a row can be made of: a row, or a list that cells can be made of (`IntoCells`).
///
/// ```
/// let row = ("width", 80u16, true).into_row(alloc)?;
/// ```
pub trait IntoRow: Drop {
    // the row that the value represents
    ghost row_of: { Self → RowValue };

    /// Makes a row of the value. A row is returned unchanged. A list becomes a row with one cell
    /// for each item, and without a greatest number of lines (`Row::max_height`). After
    /// `OutOfMemory` the value is dropped.
    fn into_row(self, alloc: Global) -> Result<Row>
        ensures { IfOk result (λ row. row ≡ row_of self) };
}

/// A list of cells in order, of which a row can be made.
#[derive(Debug, Drop)]
pub struct Cells(pub Vec<Cell>);

impl Cells {
    // Appends the cell of one more value. After `OutOfMemory` all cells are dropped.
    fn with<T: IntoCell>(self, alloc: Global, last: T) -> Result<Cells>
        ensures { IfOk result (λ cells. cells.0.items ≡ self.0.items ++ T.cell_of last ∷ []) }
    {
        let Cells(mut cells) = self;
        cells.push(last.into_cell(alloc)?)?;
        Ok(Cells(cells))
    }
}

impl IntoCell for Cell {
    ghost cell_of = { λ cell. cell };

    fn into_cell(self, _alloc: Global) -> Result<Cell> {
        Ok(self)
    }
}

impl IntoCell for String {
    ghost cell_of = { λ text. plain_cell (string_bytes text) };

    fn into_cell(self, alloc: Global) -> Result<Cell> {
        Cell::new_owned(alloc, self)
    }
}

impl IntoCell for &str {
    ghost cell_of = { λ text. plain_cell text.now };

    fn into_cell(self, alloc: Global) -> Result<Cell> {
        Cell::new_owned(alloc, String::from_str(alloc, self)?)
    }
}

impl IntoCell for bool {
    ghost cell_of = { bool_cell };

    fn into_cell(self, alloc: Global) -> Result<Cell> {
        Cell::new(alloc, self)
    }
}

impl IntoCell for char {
    ghost cell_of = { char_cell };

    fn into_cell(self, alloc: Global) -> Result<Cell> {
        Cell::new(alloc, self)
    }
}

impl IntoCells for Cells {
    ghost cells_of = { λ cells. cells.0.items };

    fn into_cells(self, _alloc: Global) -> Result<Cells> {
        Ok(self)
    }
}

impl<T: IntoCell> IntoCells for Vec<T> {
    ghost cells_of = { λ values. map T.cell_of values.items };

    fn into_cells(self, alloc: Global) -> Result<Cells> {
        let mut cells = Vec::new(alloc);
        for value in self {
            cells.push(value.into_cell(alloc)?)?;
        }
        Ok(Cells(cells))
    }
}

impl<T: IntoCell, const N: usize> IntoCells for [T; N] {
    ghost cells_of = { λ values. map T.cell_of values };

    fn into_cells(self, alloc: Global) -> Result<Cells> {
        Vec::from_array(alloc, self)?.into_cells(alloc)
    }
}

impl IntoRow for Row {
    ghost row_of = { λ row. row };

    fn into_row(self, _alloc: Global) -> Result<Row> {
        Ok(self)
    }
}

impl<T: IntoCells> IntoRow for T {
    ghost row_of = { λ values. plain_row (T.cells_of values) };

    fn into_row(self, alloc: Global) -> Result<Row> {
        Ok(Row::from_cells(self.into_cells(alloc)?))
    }
}
