//! Promises on two drawings: hidden columns change nothing, and adding a row leaves the other lines
//! unchanged.

ghost use Rattle.std.specs.Prelude.{IfOk};
ghost use Rattle.promises.specs.Added.{AreSameButForHidden, StayWithRow};

use comfy_table::laws::{hidden_columns_change_nothing, shown_lines_stay};
use comfy_table::{Lines, Result, Row, Table};

/// The drawn lines of `table` and those of `other`, in this order. If the tables differ only in
/// hidden columns and the cells in these columns, both have the same lines. The only error is
/// `OutOfMemory`.
pub fn lines_of_both(table: &Table, other: &Table) -> Result<(Lines, Lines)>
    ensures { IfOk result (λ drawn. AreSameButForHidden table.now other.now drawn.0 drawn.1) }
{
    hidden_columns_change_nothing();
    let lines = table.lines()?;
    let others = other.lines()?;
    Ok((lines, others))
}

/// Draws a table, appends `row` to the table, and draws the table again. Returns the lines of both
/// drawings in this order. The only error is `OutOfMemory`, after which the table is unchanged or
/// has the new row.
///
/// The second drawing has all lines of the first one, and the new lines are directly above the
/// bottom border, under these conditions:
///
/// - The arrangement is `Disabled`, and `custom_styling` is off.
/// - The row has at most as many cells as there are columns. Each of its cells is in the same
///   column as a cell of the table that is at least as wide.
pub fn lines_before_and_after(table: &mut Table, row: Row) -> Result<(Lines, Lines)>
    ensures { IfOk result (λ drawn. StayWithRow table.old row drawn.0 drawn.1) }
{
    shown_lines_stay();
    let lines = table.lines()?;
    table.try_add_row(row)?;
    let others = table.lines()?;
    Ok((lines, others))
}
