//! Makes each call that standard input names, one on each line, and prints its outcome. If the call
//! was refused memory, the state after it is checked. For a call that adds several rows, standard
//! error gets the number of rows that are kept.
//!
//! The status is 1 if something isn't as promised, or if a name is that of no call. It is 3 if
//! memory was refused outside of the calls. Such a run shows nothing about the calls.
#![tactic(auto)]

mod borrowing;
mod cells;
mod changes;
mod comparison;
mod conversions;
mod counted;
mod fixtures;
mod outcome;
mod parts;
mod rows;
mod runs;
mod sequences;
mod several_rows;

use comfy_table::{Result, Table};
use outcome::Outcome;
use std::alloc::Global;
use std::io;
use std::process::ExitCode;

const NOT_TRIED: u8 = 3;

// All of standard input is read before the first call, so that no read follows a call.
fn main(rt: HostRuntime) -> io::Result<ExitCode> {
    let Ok(names) = io::read_to_string(rt.alloc(), rt.reader()) else {
        return Ok(ExitCode::from(NOT_TRIED));
    };
    let mut status = ExitCode::SUCCESS;
    for name in names.as_str().lines() {
        let Ok(outcome) = outcome_of(rt.alloc(), name) else {
            return Ok(ExitCode::from(NOT_TRIED));
        };
        print(&rt, name, outcome)?;
        if !outcome.is_good() {
            status = ExitCode::FAILURE;
        }
    }
    Ok(status)
}

fn print(rt: &HostRuntime, name: &str, outcome: Outcome) -> io::Result<()> {
    if let Some(rows) = outcome.kept() {
        eprintln!(rt; "rows kept: {rows}")?;
    }
    println!(rt; "{name}: {outcome}")
}

// The outcome of the call with a name. An error means that memory was refused outside of the call.
fn outcome_of(alloc: Global, name: &str) -> Result<Outcome> {
    outcome_with(alloc, &mut Table::new(alloc), name)
}

// The outcome of the call with a name; `table` is a new table for the calls that need one.
fn outcome_with(alloc: Global, table: &mut Table, name: &str) -> Result<Outcome> {
    let Some((kind, call)) = name.split_once("::") else {
        return runs::outcome_of(alloc, name);
    };
    match kind {
        "Cell" => cells::outcome_of(alloc, call),
        "Row" => rows::outcome_of(alloc, call),
        "Table" => outcome_on_table(alloc, table, call),
        "ArrangedTable" => parts::outcome_of(alloc, table, call),
        "utils" => counted::outcome_of(alloc, table, call),
        "sequences" => sequences::outcome_of(alloc, table, call),
        _ => conversions::outcome_of(alloc, name),
    }
}

fn outcome_on_table(alloc: Global, table: &mut Table, call: &str) -> Result<Outcome> {
    match call {
        "clone"
        | "column_max_content_widths"
        | "lines"
        | "to_text"
        | "trim_fmt"
        | "to_terminated_text"
        | "arranged" => borrowing::outcome_of(alloc, table, call),
        _ => changes::outcome_of(alloc, table, call),
    }
}
