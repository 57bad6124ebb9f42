//! Hidden columns show nothing of their cells.

use comfy_table::{Cell, Column, Result, Row, Table};
use std::alloc::Global;

// higher and wider than a random text
const OTHER: &str = "another text\nof\nfour\nlines";

/// Returns true if a copy of the table has the same drawing. The copy has other cells in hidden
/// columns, and in positions at which the table has no column.
pub fn hidden_columns_change_nothing(alloc: Global, table: &Table) -> Result<bool> {
    let other = with_others(alloc, table)?;
    let lines = table.to_text()?;
    Ok(lines.as_str() == other.to_text()?.as_str())
}

fn with_others(alloc: Global, table: &Table) -> Result<Table> {
    let columns = table.column_iter().as_slice();
    let mut other = table.clone()?;
    if let Some(header) = table.header() {
        other.try_set_header(row_with_others(alloc, columns, header)?)?;
    }
    for row in other.row_iter_mut() {
        *row = row_with_others(alloc, columns, row)?;
    }
    Ok(other)
}

fn row_with_others(alloc: Global, columns: &[Column], row: &Row) -> Result<Row> {
    let mut other = Row::new(alloc);
    for (position, cell) in row.cell_iter().enumerate() {
        other.try_add_cell(cell_or_other(alloc, columns.get(position), cell)?)?;
    }
    if let Some(lines) = row.height_limit() {
        other.max_height(lines);
    }
    Ok(other)
}

// the cell if its column is shown, or a cell with the text `OTHER`
fn cell_or_other(alloc: Global, column: Option<&Column>, cell: &Cell) -> Result<Cell> {
    match column {
        Some(column) if !column.is_hidden() => Ok(cell.clone()?),
        _ => Cell::new(alloc, OTHER),
    }
}
