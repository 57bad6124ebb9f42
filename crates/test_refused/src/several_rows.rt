//! Calls that add several rows. If memory is refused for a row, the rows before it are in the
//! table.

use crate::comparison::difference;
use crate::outcome::Outcome;
use comfy_table::{Result, Table};
use std::alloc::Global;

// Three rows, each of which needs one more column.
const ROWS: [&[&str]; 3] = [
    &["one", "two", "three", "four"],
    &["one", "two", "three", "four", "five"],
    &["one", "two", "three", "four", "five", "six"],
];

/// Makes the call with this name on `table`, which is equal to `source`, and returns the outcome.
/// If the call was refused memory, the rows that it added are added to `source` too.
pub fn outcome_on(
    alloc: Global,
    table: &mut Table,
    source: &mut Table,
    call: &str,
) -> Result<Outcome> {
    match add(table, Vec::from_array(alloc, ROWS)?, call) {
        Some(true) => Ok(Outcome::Succeeded),
        Some(false) => outcome_after(table, source),
        None => Ok(Outcome::Unknown),
    }
}

// Returns true if the call with this name succeeds, or `None` if there is no such call.
fn add(table: &mut Table, rows: Vec<&[&str]>, call: &str) -> Option<bool> {
    let succeeded = match call {
        "add_rows" => table.add_rows(rows).is_ok(),
        "try_add_rows" => table.try_add_rows(&mut rows.into_iter()).is_ok(),
        "add_rows_if" => table.add_rows_if(always, rows).is_ok(),
        _ => return None,
    };
    Some(succeeded)
}

/// A predicate for calls such as `add_row_if`, which always returns true, so that each row is
/// added.
pub fn always<T>(_count: usize, _added: &T) -> bool {
    true
}

// Adds the first of the three rows, one by one.
fn add_first(table: &mut Table, count: usize) -> Result<()> {
    for row in ROWS.iter().take(count) {
        table.try_add_row(*row)?;
    }
    Ok(())
}

// The outcome of the call, given its table, which was equal to `source` before.
fn outcome_after(table: &Table, source: &mut Table) -> Result<Outcome> {
    let kept = table.row_count().saturating_sub(source.row_count());
    if kept >= ROWS.len() {
        return Ok(Outcome::Broken("the number of rows"));
    }
    add_first(source, kept)?;
    match difference(table, source)? {
        Some(part) => Ok(Outcome::Broken(part)),
        None => Ok(Outcome::Kept(kept)),
    }
}
