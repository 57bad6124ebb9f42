//! Calls that allocate memory and only read the table.

use crate::comparison::difference;
use crate::fixtures::{WORKED, fill_worked};
use crate::outcome::{Outcome, succeeded};
use comfy_table::{Lines, Result, Table};
use std::alloc::Global;

/// Makes the call with this name on a new table, after `fill_worked` filled it, and returns the
/// outcome.
pub fn outcome_of(alloc: Global, table: &mut Table, call: &str) -> Result<Outcome> {
    fill_worked(alloc, table)?;
    outcome_on(table, WORKED, call)
}

/// Makes the call with this name, and returns the outcome. If the call was refused memory, the
/// table must be unchanged, and its drawing must have the lines of `wanted`.
pub fn outcome_on(table: &Table, wanted: &str, call: &str) -> Result<Outcome> {
    let copy = table.clone()?;
    match read(table, call) {
        Some(true) => Ok(Outcome::Succeeded),
        Some(false) if !are_lines(table.lines()?, wanted) => Ok(Outcome::Broken("the next lines")),
        Some(false) => Ok(Outcome::refused(difference(table, &copy)?)),
        None => Ok(Outcome::Unknown),
    }
}

// Returns true if the call with this name succeeds, or `None` if there is no such call.
fn read(table: &Table, call: &str) -> Option<bool> {
    let is_read = match call {
        "clone" => succeeded(table.clone()),
        "column_max_content_widths" => succeeded(table.column_max_content_widths()),
        "lines" => succeeded(table.lines()),
        "to_text" => succeeded(table.to_text()),
        "trim_fmt" => succeeded(table.trim_fmt()),
        "to_terminated_text" => succeeded(table.to_terminated_text()),
        "arranged" => succeeded(table.arranged()),
        _ => return None,
    };
    Some(is_read)
}

// Returns true if `lines` are the lines of `wanted`, which are separated by line feeds.
fn are_lines(lines: Lines, wanted: &str) -> bool {
    let mut wanted = wanted.split('\n');
    for line in lines {
        match wanted.next() {
            Some(text) if line.as_str() == text => {}
            _ => return false,
        }
    }
    wanted.next().is_none()
}
