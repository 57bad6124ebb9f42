//! A row: its cells, and the greatest number of lines that are drawn of each cell.

ghost use Rattle.std.specs.Prelude.{◌≡◌, ◌≤◌, IfOk, IfSome, OnOk, OnErr, length, []};
ghost use Rattle.std.specs.Borrow.{sem};
ghost use Rattle.std.specs.List.{All};
ghost use Rattle.std.specs.Iterator.Adapters.{IterYieldsInOrder};
ghost use Rattle.std.specs.Slice.Iter.{iter_rest};
ghost use Rattle.comfy_parts.specs.CellValue.{CellValue, IsCell, IsRow, plain_row, with_cell, with_max_height};
ghost use Rattle.comfy_parts.specs.RowReference.{reference_of};
ghost use Rattle.comfy_parts.specs.RowLoans.{RowStaysIfErr};

use crate::cell::Cell;
use crate::convert::Cells;
use crate::error::Result;
use std::alloc::{AllocError, Global};
use std::marker::Model;
use std::slice;

/// One row of a table: its cells, and the greatest number of lines that are drawn of each cell.
///
/// ```
/// let mut row = Row::new(alloc);
/// row.add_cell(Cell::new(alloc, "dock 3")?)?
///     .add_cell(Cell::new(alloc, 17)?)?
///     .max_height(2);
/// ```
#[derive(Debug)]
pub struct Row {
    cells: Vec<Cell>,
    max_height: Option<usize>,
}

impl Drop for Row {
    fn drop(self) {
        let Row {
            cells: _,
            max_height: _,
        } = self;
    }
}

impl Model for Row {
    ghost use Rattle.comfy_parts.specs.CellValue.{IsRow, RowValue};

    ghost Value = { RowValue };

    ghost invariant = { λ r. IsRow (record { cells = r.cells.items; max_height = r.max_height }) };

    ghost view = { λ r. record { cells = r.cells.items; max_height = r.max_height } };
}

impl Row {
    /// A row without cells. The call takes no memory.
    pub fn new(alloc: Global) -> Row
        ensures { result ≡ plain_row [] }
    {
        Row::from_cells(Cells(Vec::new(alloc)))
    }

    // A row with these cells and no greatest height.
    pub(crate) fn from_cells(cells: Cells) -> Row
        ensures { result ≡ plain_row cells.0.items }
    {
        let Cells(cells) = cells;
        look_at(cells.as_slice());
        Row {
            cells,
            max_height: None,
        }
    }

    /// Appends a cell, and returns the row for further calls. After `OutOfMemory` the row is
    /// unchanged and the cell is dropped. If a proof of your own needs that the row is unchanged,
    /// call `try_add_cell` instead.
    pub fn add_cell(&mut self, cell: Cell) -> Result<&mut Self>
        ensures* err { sem 𝓛 (RowStaysIfErr self.entry result) }
        ensures same_reference { IfOk result (λ row. row.ghost_name ≡ self.entry.ghost_name) }
        ensures added { IfOk result (λ row. row.now ≡ with_cell cell self.old) }
    {
        into_reference(self.with_cell_added(cell))
    }

    // Does the same as `add_cell`, but returns the reference in a struct. The clause `err` can be
    // proved only with the struct.
    fn with_cell_added(&mut self, cell: Cell) -> Result<RowReference<'_>>
        ensures* err { sem 𝓛 (RowStaysIfErr self.entry (reference_of result)) }
        ensures same_reference { IfOk (reference_of result)
            (λ row. row.ghost_name ≡ self.entry.ghost_name) }
        ensures added { IfOk (reference_of result) (λ row. row.now ≡ with_cell cell self.old) }
    {
        self.try_add_cell(cell)?;
        Ok(RowReference { row: self })
    }

    /// Appends a cell as `add_cell` does, but doesn't return the row. The only error is
    /// `OutOfMemory`. After it the row is unchanged and the cell is dropped. If a proof of your own
    /// needs that the row is unchanged, call `try_add_cell` and not `add_cell`.
    pub fn try_add_cell(&mut self, cell: Cell) -> Result<()>
        ensures ok { OnOk result (self.new ≡ with_cell cell self.old) }
        ensures err { OnErr result (self.new ≡ self.old) }
    {
        // Proof only: the clause `is_cell` of `text_lines` shows that the cell keeps its invariant.
        let _ = cell.text_lines();
        self.cells.push(cell)?;
        Ok(())
    }

    /// Sets the greatest number of lines that are drawn of each cell; 0 counts as 1. If a cell has
    /// more lines, only the first `lines` lines are drawn. The last line that is drawn ends with
    /// the table's truncation indicator, unless the indicator is wider than the column.
    ///
    /// ```
    /// let mut row = ["17", "rented\nreturned\nrented"].into_row(alloc)?;
    /// row.max_height(2);
    /// let mut table = Table::new(alloc);
    /// table.add_row(row)?;
    /// let text = table.to_text()?;
    /// // +----+----------+
    /// // | 17 | rented   |
    /// // |    | returne… |
    /// // +----+----------+
    /// ```
    pub fn max_height(&mut self, lines: usize) -> &mut Self
        ensures same_reference { result.ghost_name ≡ self.entry.ghost_name }
        ensures value { result.now ≡ with_max_height lines self.old }
    {
        self.max_height = Some(lines.max(1));
        self
    }

    /// The number of cells in the row, including cells in hidden columns.
    pub fn cell_count(&self) -> usize
        ensures value { result ≡ length self.now.cells }
        ensures is_row { IsRow self.now }
    {
        self.cells.len()
    }

    /// The greatest number of lines that are drawn of each cell, at least 1. `None` if all lines
    /// are drawn.
    pub fn height_limit(&self) -> Option<usize>
        ensures value { result ≡ self.now.max_height }
        ensures at_least_one { IfSome result (λ lines. 1 ≤ lines) }
    {
        self.max_height
    }

    /// Iterates over the cells of the row in order.
    pub fn cell_iter(&self) -> slice::Iter<'_, Cell>
        ensures rest { iter_rest result ≡ self.now.cells }
        ensures runs { IterYieldsInOrder CellValue }
    {
        self.cells.iter()
    }
}

// A copy has the same value, in its own memory.
impl Clone for Row {
    ghost is_clone = { λ source copy. copy ≡ source };

    fn clone(&self) -> std::result::Result<Row, AllocError> {
        Ok(Row {
            cells: self.cells.clone()?,
            max_height: self.max_height,
        })
    }
}

// Proof only: shows that the invariant of a cell holds for each of these cells.
fn look_at(cells: &[Cell])
    ensures { All IsCell cells.now }
{
    cells.iter().for_each(|cell| {
        let _ = cell.text_lines();
    });
}

// A reference to a row, in a struct.
struct RowReference<'a> {
    row: &'a mut Row,
}

// Takes the reference out of its struct.
fn into_reference<'a>(reference: Result<RowReference<'a>>) -> Result<&'a mut Row>
    ensures { result ≡ reference_of reference.entry }
{
    match reference {
        Ok(reference) => {
            let RowReference { row } = reference;
            Ok(row)
        }
        Err(error) => Err(error),
    }
}
