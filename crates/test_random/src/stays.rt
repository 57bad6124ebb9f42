//! The lines of a table don't change if a further row widens no column.

use comfy_table::{ContentArrangement, Result, Table};

/// Returns true if the lines above the bottom border don't change when the first row is added
/// again. This is promised if the table doesn't use its width, and each cell of the row has a
/// column. If nothing is promised, true is returned.
pub fn shown_lines_stay(table: &Table) -> Result<bool> {
    let Some(row) = table.row(0) else {
        return Ok(true);
    };
    if keeps_width(table) || row.cell_count() > table.column_iter().as_slice().len() {
        return Ok(true);
    }
    let mut longer = table.clone()?;
    longer.try_add_row(row.clone()?)?;
    has_lines_above_bottom(table, &longer)
}

fn keeps_width(table: &Table) -> bool {
    table.width().is_some() && !matches!(table.content_arrangement(), ContentArrangement::Disabled)
}

// Returns true if the drawing of `longer` begins with the lines of `table` above its bottom border.
fn has_lines_above_bottom(table: &Table, longer: &Table) -> Result<bool> {
    let bottom = table.style().bottom_border;
    let has_bottom = bottom.left.is_some()
        || bottom.fill.is_some()
        || bottom.junction.is_some()
        || bottom.right.is_some();
    let above = table
        .lines()?
        .count()
        .saturating_sub(usize::from(has_bottom));
    let mut after = longer.lines()?;
    for line in table.lines()?.take(above) {
        let other = after.next();
        if !other.is_some_and(|other| other == line) {
            return Ok(false);
        }
    }
    Ok(true)
}
