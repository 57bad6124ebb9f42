//! Calls of a row.

use crate::comparison::is_same_row;
use crate::outcome::{Outcome, succeeded};
use comfy_table::{Cell, IntoRow, Result, Row};
use std::alloc::Global;

/// Makes the call with this name on a row, and returns the outcome. If the call was refused memory,
/// the row must be unchanged.
pub fn outcome_of(alloc: Global, call: &str) -> Result<Outcome> {
    let mut source = ["17", "on the road,\nback at noon"].into_row(alloc)?;
    source.max_height(2);
    // A copy has no room to spare, so that one more cell takes memory.
    let mut row = source.clone()?;
    outcome_on(alloc, &mut row, &source, call)
}

fn outcome_on(alloc: Global, row: &mut Row, source: &Row, call: &str) -> Result<Outcome> {
    let is_done = match call {
        "add_cell" => row.add_cell(Cell::new(alloc, "dock 3")?).is_ok(),
        "try_add_cell" => row.try_add_cell(Cell::new(alloc, "dock 3")?).is_ok(),
        "clone" => succeeded(row.clone()),
        _ => return Ok(Outcome::Unknown),
    };
    if is_done {
        return Ok(Outcome::Succeeded);
    }
    let differs = !is_same_row(row, source);
    Ok(Outcome::refused(differs.then_some("the row")))
}
