//! Calls that allocate memory for cells with SGR sequences, which take no terminal columns.

use crate::borrowing::outcome_on;
use crate::outcome::{Outcome, succeeded};
use comfy_table::utils::formatting::content_split::visible_text;
use comfy_table::{Cell, ContentArrangement, Result, Table};
use std::alloc::Global;

const TEXT: &str = "\u{1b}[1mabcdef\u{1b}[0m";

// The drawing of a table of this text, in a width that takes three of its characters.
const BOLD: &str = "\
+-----+
| \u{1b}[1mabc\u{1b}[0m |
| \u{1b}[1mdef\u{1b}[0m |
+-----+";

/// Makes the call with this name, on a new table if it needs one, and returns the outcome.
pub fn outcome_of(alloc: Global, table: &mut Table, name: &str) -> Result<Outcome> {
    match name {
        "Cell::new" => Ok(Outcome::of(succeeded(Cell::new(alloc, TEXT)))),
        "visible_text" => Ok(Outcome::of(succeeded(visible_text(alloc, TEXT)))),
        _ => match name.strip_prefix("Table::") {
            Some(call) => outcome_on_bold(table, call),
            None => Ok(Outcome::Unknown),
        },
    }
}

fn outcome_on_bold(table: &mut Table, call: &str) -> Result<Outcome> {
    table.custom_styling();
    table.set_content_arrangement(ContentArrangement::Dynamic);
    table.set_width(7);
    table.try_add_row([TEXT])?;
    outcome_on(table, BOLD, call)
}
