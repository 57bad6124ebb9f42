//! The columns of a table: their number and their constraints.

ghost use Rattle.std.specs.Prelude.{◌≡◌, ◌<◌, ◌≤◌, IfOk, IsOk, OnOk, OnErr, Some, length, slice_index_or, slice_set};
ghost use Rattle.comfy_parts.specs.CellValue.{ColumnValue};
ghost use Rattle.comfy_table.specs.TableValue.{AllCellsHaveColumns, constrained, discovered, greatest_cell_count};

use crate::table::{Table, grow_columns};
use comfy_parts::style::ColumnConstraint;
use comfy_parts::{Column, Items, Result, Row};
use std::mem;

impl Table {
    /// Sets the constraints of the columns: the first item of `constraints` is for the first
    /// column, and so on. Items after the last column are ignored, so add the header and the rows
    /// first. Columns after the last item keep their constraints.
    pub fn set_constraints<I>(&mut self, constraints: I) -> &mut Self
    where
        I: Items<Item = ColumnConstraint>,
        I::IntoIter: Drop,
        ensures same_reference { result.ghost_name ≡ self.entry.ghost_name }
        ensures value { result.now ≡ record self.old {
          columns = constrained (I.items_of constraints) self.old.columns;
        } }
    {
        set_each(self.columns.as_mut_slice(), constraints);
        self
    }

    /// Appends columns with default settings until each cell of every row has a column. The
    /// functions that add rows do this themselves. A call is needed only after cells were added to
    /// a row through `row_mut` or `row_iter_mut`. After `OutOfMemory` the table is unchanged. If
    /// each cell has a column already, the call takes no memory and succeeds.
    pub fn discover_columns(&mut self) -> Result<()>
        ensures ok { OnOk result (self.new ≡ discovered self.old) }
        ensures every_cell { OnOk result (AllCellsHaveColumns (discovered self.old)) }
        ensures err { OnErr result (self.new ≡ self.old) }
        ensures succeeds { greatest_cell_count self.old.rows ≤ length self.old.columns
            → IsOk result }
    {
        let count = greatest_cell_count(self.rows.as_slice());
        grow_columns(&mut self.columns, count)
    }

    /// Calls `discover_columns`, and then returns the number of columns, including hidden columns.
    /// After `OutOfMemory` the table is unchanged. If each cell of every row has a column already,
    /// the call takes no memory and succeeds.
    pub fn column_count(&mut self) -> Result<usize>
        ensures value { IfOk result (λ count. count ≡ length (discovered self.old).columns) }
        ensures ok { OnOk result (self.new ≡ discovered self.old) }
        ensures err { OnErr result (self.new ≡ self.old) }
        ensures succeeds { greatest_cell_count self.old.rows ≤ length self.old.columns
            → IsOk result }
    {
        self.discover_columns()?;
        Ok(self.columns.len())
    }
}

// Sets the constraints of columns from the first column on, until the constraints or the columns
// end.
fn set_each<I>(columns: &mut [Column], constraints: I)
where
    I: Items<Item = ColumnConstraint>,
    I::IntoIter: Drop,
    ensures { columns.new ≡ constrained (I.items_of constraints) columns.old }
{
    let mut position = 0;
    for constraint in constraints {
        if position < columns.len() {
            set_at(columns, position, constraint);
            position += 1;
        }
    }
}

// Sets the constraint of the column at a position. The column is taken out of the list meanwhile,
// because nothing can be proved of a list after a builder's call on one of its elements.
fn set_at(columns: &mut [Column], position: usize, constraint: ColumnConstraint)
    requires { position < length columns.old }
    ensures { (d : ColumnValue)
        → columns.new ≡ slice_set columns.old position
        (record (slice_index_or columns.old position d) { constraint = Some constraint }) }
{
    let column = mem::replace(&mut columns[position], Column::new(position));
    columns[position] = with_constraint(column, constraint);
}

fn with_constraint(mut column: Column, constraint: ColumnConstraint) -> Column
    ensures { result ≡ record column { constraint = Some constraint } }
{
    column.set_constraint(constraint);
    column
}

// The greatest number of cells in a row; 0 if there are no rows.
fn greatest_cell_count(rows: &[Row]) -> usize
    ensures { result ≡ greatest_cell_count rows.now }
{
    let mut greatest = 0;
    for row in rows {
        greatest = row.cell_count().max(greatest);
    }
    greatest
}
