//! Differences between two tables.

use comfy_table::{Column, Result, Row, Table};

/// Returns the name of the first part in which two tables differ, or `None` if they are the same.
/// The drawings are compared last. The only error is `OutOfMemory`.
pub fn difference(table: &Table, other: &Table) -> Result<Option<&'static str>> {
    let difference = if !is_same_header(table, other) {
        Some("the header")
    } else if !are_same_rows(table, other) {
        Some("the rows")
    } else if !are_same_columns(table, other) {
        Some("the columns")
    } else if !are_same_settings(table, other) {
        Some("the settings")
    } else if !is_drawn_alike(table, other)? {
        Some("the drawing")
    } else {
        None
    };
    Ok(difference)
}

fn is_drawn_alike(table: &Table, other: &Table) -> Result<bool> {
    let text = table.to_text()?;
    Ok(text == other.to_text()?)
}

/// Returns true if two rows have the same cells and the same greatest height.
pub fn is_same_row(row: &Row, other: &Row) -> bool {
    row.cell_iter().as_slice() == other.cell_iter().as_slice()
        && row.height_limit() == other.height_limit()
}

fn is_same_header(table: &Table, other: &Table) -> bool {
    match (table.header(), other.header()) {
        (Some(header), Some(wanted)) => is_same_row(header, wanted),
        (None, None) => true,
        _ => false,
    }
}

fn are_same_rows(table: &Table, other: &Table) -> bool {
    let mut others = other.row_iter();
    for row in table.row_iter() {
        match others.next() {
            Some(wanted) if is_same_row(row, wanted) => {}
            _ => return false,
        }
    }
    others.next().is_none()
}

fn are_same_columns(table: &Table, other: &Table) -> bool {
    let mut others = other.column_iter();
    for column in table.column_iter() {
        match others.next() {
            Some(wanted) if is_same_column(column, wanted) => {}
            _ => return false,
        }
    }
    others.next().is_none()
}

fn is_same_column(column: &Column, other: &Column) -> bool {
    column.index == other.index
        && column.padding() == other.padding()
        && column.column_delimiter() == other.column_delimiter()
        && column.column_alignment() == other.column_alignment()
        && column.constraint() == other.constraint()
}

fn are_same_settings(table: &Table, other: &Table) -> bool {
    table.style() == other.style()
        && table.content_arrangement() == other.content_arrangement()
        && table.width() == other.width()
        && table.is_tty() == other.is_tty()
        && table.should_style() == other.should_style()
        && table.has_custom_styling() == other.has_custom_styling()
}
