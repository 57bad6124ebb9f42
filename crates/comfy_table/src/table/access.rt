//! Reading and changing the rows and columns of a table.

ghost use Rattle.std.specs.Prelude.{◌≡◌, ◌<◌, ◌==◌, ◌↔◌, IfSome, IsSome, length, option_copied, slice_get, slice_index_or};
ghost use Rattle.std.specs.Borrow.{sem};
ghost use Rattle.std.specs.Iterator.Adapters.{IterMutYieldsInOrder, IterYieldsInOrder};
ghost use Rattle.std.specs.Slice.Iter.{iter_mut_rest, iter_rest};
ghost use Rattle.comfy_parts.specs.CellValue.{ColumnValue, RowValue};
ghost use Rattle.comfy_table.specs.TableLoans.{LendsColumn, LendsColumns, LendsRow, LendsRows};

use crate::table::Table;
use comfy_parts::{Column, Row};
use std::slice;

impl Table {
    /// The number of rows, not counting the header.
    pub fn row_count(&self) -> usize
        ensures { result ≡ length self.now.rows }
    {
        self.rows.len()
    }

    /// Returns true if there are no rows. A header doesn't count.
    pub fn is_empty(&self) -> bool
        ensures { result ≡ (length self.now.rows == 0) }
    {
        self.rows.is_empty()
    }

    /// The header, which is drawn above the rows; `None` if the table has no header.
    pub fn header(&self) -> Option<&Row>
        ensures { option_copied result ≡ self.now.header }
    {
        self.header.as_ref()
    }

    /// The column at position `index`, counted from 0; `None` after the last column.
    pub fn column(&self, index: usize) -> Option<&Column>
        ensures { option_copied result ≡ slice_get self.now.columns index }
    {
        self.columns.get(index)
    }

    /// A mutable reference to the column at position `index`, counted from 0; `None` after the last
    /// column. Writing through the reference changes this column, and nothing else of the table.
    ///
    /// ```
    /// if let Some(column) = table.column_mut(1) {
    ///     column.set_constraint(ColumnConstraint::Hidden);
    /// }
    /// ```
    pub fn column_mut(&mut self, index: usize) -> Option<&mut Column>
        ensures* lent { sem 𝓛 (LendsColumn self.entry index result) }
        ensures found { IsSome result ↔ (index < length self.old.columns) }
        ensures value { IfSome result
            (λ column. column.now ≡ slice_index_or self.old.columns index column.now) }
    {
        self.columns.get_mut(index)
    }

    /// The columns from left to right, including hidden columns.
    pub fn column_iter(&self) -> slice::Iter<'_, Column>
        ensures rest { iter_rest result ≡ self.now.columns }
        ensures runs { IterYieldsInOrder ColumnValue }
    {
        self.columns.iter()
    }

    /// Mutable references to the columns, from left to right, including hidden columns. Writing
    /// through them changes the columns, and nothing else of the table.
    pub fn column_iter_mut(&mut self) -> slice::IterMut<'_, Column>
        ensures* lent { sem 𝓛 (LendsColumns self.entry result) }
        ensures rest { iter_mut_rest result ≡ self.old.columns }
        ensures runs { IterMutYieldsInOrder ColumnValue }
    {
        self.columns.iter_mut()
    }

    /// The row at position `index`, counted from 0 without the header; `None` after the last row.
    pub fn row(&self, index: usize) -> Option<&Row>
        ensures { option_copied result ≡ slice_get self.now.rows index }
    {
        self.rows.get(index)
    }

    /// A mutable reference to the row at position `index`, counted from 0 without the header;
    /// `None` after the last row. Writing through the reference changes this row, and nothing else
    /// of the table. No columns are added for new cells: a cell after the last column isn't drawn.
    pub fn row_mut(&mut self, index: usize) -> Option<&mut Row>
        ensures* lent { sem 𝓛 (LendsRow self.entry index result) }
        ensures found { IsSome result ↔ (index < length self.old.rows) }
        ensures value { IfSome result
            (λ row. row.now ≡ slice_index_or self.old.rows index row.now) }
    {
        self.rows.get_mut(index)
    }

    /// The rows from the top, without the header.
    pub fn row_iter(&self) -> slice::Iter<'_, Row>
        ensures rest { iter_rest result ≡ self.now.rows }
        ensures runs { IterYieldsInOrder RowValue }
    {
        self.rows.iter()
    }

    /// Mutable references to the rows, from the top and without the header. Writing through them
    /// changes the rows, and nothing else of the table. No columns are added for new cells: a cell
    /// after the last column isn't drawn.
    pub fn row_iter_mut(&mut self) -> slice::IterMut<'_, Row>
        ensures* lent { sem 𝓛 (LendsRows self.entry result) }
        ensures rest { iter_mut_rest result ≡ self.old.rows }
        ensures runs { IterMutYieldsInOrder RowValue }
    {
        self.rows.iter_mut()
    }
}
