//! Control characters in drawings.

use crate::scan::Scan;
use comfy_table::{Result, Row, Table};
use std::alloc::Global;

/// Returns true if a drawn line has a control character outside its SGR sequences, although no cell
/// has a control character.
pub fn has_stray_control(alloc: Global, table: &Table) -> Result<bool> {
    Ok(has_control_in_lines(alloc, table)? && !has_control_in_rows(alloc, table)?)
}

fn has_control_in_lines(alloc: Global, table: &Table) -> Result<bool> {
    for line in table.lines()? {
        if has_control(alloc, true, line.as_str())? {
            return Ok(true);
        }
    }
    Ok(false)
}

fn has_control_in_rows(alloc: Global, table: &Table) -> Result<bool> {
    let knows_sequences = table.has_custom_styling();
    let rows = table.row_iter().as_slice();
    for row in table.header().into_iter().chain(rows.iter()) {
        if has_control_in_row(alloc, knows_sequences, row)? {
            return Ok(true);
        }
    }
    Ok(false)
}

fn has_control_in_row(alloc: Global, knows_sequences: bool, row: &Row) -> Result<bool> {
    for cell in row.cell_iter() {
        let content = cell.content()?;
        if has_control(alloc, knows_sequences, content.as_str())? {
            return Ok(true);
        }
    }
    Ok(false)
}

// returns true if a text has a control character other than a line feed; if `knows_sequences` is
// true, only outside its SGR sequences
fn has_control(alloc: Global, knows_sequences: bool, text: &str) -> Result<bool> {
    let mut scan = Scan::new(alloc, knows_sequences);
    scan.read(text)?;
    Ok(
        scan.visible
            .as_str()
            .chars()
            .any(|character| character.is_control() && character != '\n'),
    )
}
