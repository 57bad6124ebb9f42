//! Calls that change a table. If they are refused memory, they leave the table unchanged, except
//! those that add several rows.

use crate::comparison::difference;
use crate::fixtures::fill_full;
use crate::outcome::Outcome;
use crate::several_rows::{self, always};
use comfy_table::{Result, Table};
use std::alloc::Global;

// More cells than the table has columns.
const WIDER: [&str; 5] = ["one", "two", "three", "four", "five"];

/// Makes the call with this name on a copy of `source`, after `fill_full` filled it, and returns
/// the outcome. If the call was refused memory, the copy is compared with `source`.
pub fn outcome_of(alloc: Global, source: &mut Table, call: &str) -> Result<Outcome> {
    fill_full(alloc, source)?;
    // A copy has no room to spare, so that a further row or column takes memory.
    let mut table = source.clone()?;
    outcome_on(alloc, &mut table, source, call)
}

fn outcome_on(alloc: Global, table: &mut Table, source: &mut Table, call: &str) -> Result<Outcome> {
    match change(table, call) {
        Some(true) => Ok(Outcome::Succeeded),
        Some(false) => Ok(Outcome::refused(difference(table, source)?)),
        None => several_rows::outcome_on(alloc, table, source, call),
    }
}

// Returns true if the call with this name succeeds, or `None` if there is no such call.
fn change(table: &mut Table, call: &str) -> Option<bool> {
    let succeeded = match call {
        "discover_columns" => table.discover_columns().is_ok(),
        "column_count" => table.column_count().is_ok(),
        "set_truncation_indicator" => table.set_truncation_indicator("..").is_ok(),
        "try_set_truncation_indicator" => table.try_set_truncation_indicator("..").is_ok(),
        _ => return put_row(table, call),
    };
    Some(succeeded)
}

// Returns true if the call with this name, which sets the header or adds a row, succeeds. `None` if
// there is no such call.
fn put_row(table: &mut Table, call: &str) -> Option<bool> {
    let row = WIDER;
    let succeeded = match call {
        "set_header" => table.set_header(row).is_ok(),
        "try_set_header" => table.try_set_header(row).is_ok(),
        "add_row" => table.add_row(row).is_ok(),
        "try_add_row" => table.try_add_row(row).is_ok(),
        "add_row_if" => table.add_row_if(always, row).is_ok(),
        "try_add_row_if" => table.try_add_row_if(always, row).is_ok(),
        _ => return None,
    };
    Some(succeeded)
}
