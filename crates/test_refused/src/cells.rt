//! Calls of a cell. A call that owns the cell leaves nothing to check if it is refused memory.

use crate::outcome::{Outcome, succeeded};
use comfy_table::{Attribute, Cell, Result};
use std::alloc::Global;

const TEXT: &str = "Now\nadd some\nmulti line stuff";

/// Makes the call with this name on a new cell, and returns the outcome.
pub fn outcome_of(alloc: Global, call: &str) -> Result<Outcome> {
    let result = match call {
        "new" => succeeded(Cell::new(alloc, TEXT)),
        "new_owned" => succeeded(Cell::new_owned(alloc, String::from_str(alloc, TEXT)?)),
        "add_attributes" => add_attributes(alloc)?,
        "add_attribute" => succeeded(Cell::new(alloc, TEXT)?.add_attribute(Attribute::Bold)),
        _ => return outcome_on(&Cell::new(alloc, TEXT)?, call),
    };
    Ok(Outcome::of(result))
}

// The outcome of a call that only reads a cell: after a refusal the cell is unchanged.
fn outcome_on(cell: &Cell, call: &str) -> Result<Outcome> {
    let copy = cell.clone()?;
    let is_done = match call {
        "content" => succeeded(cell.content()),
        "clone" => succeeded(cell.clone()),
        _ => return Ok(Outcome::Unknown),
    };
    if is_done {
        return Ok(Outcome::Succeeded);
    }
    let differs = *cell != copy;
    Ok(Outcome::refused(differs.then_some("the cell")))
}

fn add_attributes(alloc: Global) -> Result<bool> {
    let attributes = vec![in alloc; Attribute::Bold, Attribute::SlowBlink]?;
    let cell = Cell::new(alloc, TEXT)?;
    Ok(succeeded(cell.add_attributes(attributes)))
}
