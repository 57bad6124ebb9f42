//! Calls that draw a table in parts.

use crate::fixtures::fill_worked;
use crate::outcome::{Outcome, succeeded};
use comfy_table::for_records::{LinesCell, RowCell, TextCell};
use comfy_table::{ArrangedTable, Cell, PartEnds, Result, Table};
use std::alloc::Global;

/// Makes the call with this name on a new table, after `fill_worked` filled it, and returns the
/// outcome.
pub fn outcome_of(alloc: Global, table: &mut Table, call: &str) -> Result<Outcome> {
    fill_worked(alloc, table)?;
    outcome_on(alloc, &table.arranged()?, call)
}

fn outcome_on(alloc: Global, arranged: &ArrangedTable<&Table>, call: &str) -> Result<Outcome> {
    match call {
        "push_rows" => outcome_of_pushing(alloc, arranged),
        "push_cells" => outcome_of_pushing_cells(alloc, arranged),
        "height_of_cells" => outcome_of_height(alloc, arranged),
        _ => Ok(Outcome::Unknown),
    }
}

const BEFORE: &str = "before\n";

// If memory is refused, the text must be unchanged.
fn outcome_of_pushing(alloc: Global, arranged: &ArrangedTable<&Table>) -> Result<Outcome> {
    let mut text = String::from_str(alloc, BEFORE)?;
    if arranged.push_rows(&mut text, 0, 2).is_ok() {
        return Ok(Outcome::Succeeded);
    }
    let differs = text.as_str() != BEFORE;
    Ok(Outcome::refused(differs.then_some("the text")))
}

// A row of cells of which none fits its column: a text of two lines, a `Cell`, and a number before
// spaces.
fn cells(alloc: Global) -> Result<Vec<RowCell<'static>>> {
    let mut cells = Vec::new(alloc);
    if let Some(text) = LinesCell::of_lines("a long text\nthat is wrapped", None, None) {
        cells.push(RowCell::Several(text))?;
    }
    let made = Cell::new(alloc, "a text\nof two lines")?;
    cells.push(RowCell::Made(Box::new(alloc, made)?))?;
    if let Some(number) = TextCell::of_printable("1234.5", 40, None, None) {
        cells.push(RowCell::Lent(number))?;
    }
    Ok(cells)
}

// Draws a row below other rows. If memory is refused, the text must be unchanged.
fn outcome_of_pushing_cells(alloc: Global, arranged: &ArrangedTable<&Table>) -> Result<Outcome> {
    let cells = cells(alloc)?;
    let mut text = String::from_str(alloc, BEFORE)?;
    let mut writer = arranged.row_writer()?;
    let extent = PartEnds {
        is_first: false,
        is_last: true,
    };
    if writer
        .push_cells(&mut text, cells.as_slice(), Some(2), extent)
        .is_ok()
    {
        return Ok(Outcome::Succeeded);
    }
    let differs = text.as_str() != BEFORE;
    Ok(Outcome::refused(differs.then_some("the text")))
}

fn outcome_of_height(alloc: Global, arranged: &ArrangedTable<&Table>) -> Result<Outcome> {
    let cells = cells(alloc)?;
    let height = arranged
        .row_writer()?
        .height_of_cells(cells.as_slice(), None);
    Ok(Outcome::of(succeeded(height)))
}
