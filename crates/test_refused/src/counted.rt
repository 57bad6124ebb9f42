//! Calls whose requests for memory `tools/try/refused_requests.sh` counts. The calls only read the
//! table.

use crate::outcome::{Outcome, succeeded};
use comfy_table::utils::arrangement::arrange_content;
use comfy_table::utils::formatting::content_format::format_row;
use comfy_table::utils::formatting::content_split::ColumnDisplayInfo;
use comfy_table::{Cell, Color, Column, ContentArrangement, IntoRow, Result, Table};
use std::alloc::Global;

// Texts that are wider than the room for them.
const WRAPPED: [&str; 2] = ["Now add some lines", "multi line stuff"];

/// Makes the call with this name on a new table, and returns the outcome.
pub fn outcome_of(alloc: Global, table: &mut Table, call: &str) -> Result<Outcome> {
    match call {
        "format_row" => outcome_of_formatting(alloc, table, "a", 40),
        "format_row of wide texts" => outcome_of_formatting(alloc, table, "年", 20),
        "format_row of styled cells" => {
            table.enforce_styling();
            outcome_of_formatting(alloc, table, "a", 40)
        }
        "format_row of cut cells" => outcome_of_cutting(alloc, table),
        "arrange_content of 1 row" => outcome_of_arranging(table, 1),
        "arrange_content of 1000 rows" => outcome_of_arranging(table, 1000),
        _ => Ok(Outcome::Unknown),
    }
}

// Formats a red cell of 100 words. Each word has `count` times the character, and fills the column.
fn outcome_of_formatting(
    alloc: Global,
    table: &Table,
    character: &str,
    count: usize,
) -> Result<Outcome> {
    let word = character.repeat(alloc, count)?;
    let text = vec![in alloc; word.as_str(); 100]?.join(alloc, " ")?;
    let cell = Cell::new(alloc, text.as_str())?.fg(Color::Red);
    let row = [cell].into_row(alloc)?;
    let infos = [ColumnDisplayInfo::new(&Column::new(0), 40)];
    let is_formatted = succeeded(format_row(&row, &infos, table));
    Ok(Outcome::of(is_formatted))
}

// Formats a row of one line, of 100 cells that are cut.
fn outcome_of_cutting(alloc: Global, table: &Table) -> Result<Outcome> {
    let mut row = vec![in alloc; "two lines"; 100]?.into_row(alloc)?;
    row.max_height(1);
    let column = Column::new(0);
    let mut infos = Vec::new(alloc);
    for _ in 0..100 {
        infos.push(ColumnDisplayInfo::new(&column, 5))?;
    }
    let is_formatted = succeeded(format_row(&row, infos.as_slice(), table));
    Ok(Outcome::of(is_formatted))
}

// Arranges this many rows in 27 terminal columns. Three borders and four spaces leave 20 of them.
fn outcome_of_arranging(table: &mut Table, rows: usize) -> Result<Outcome> {
    table.set_content_arrangement(ContentArrangement::Dynamic);
    table.set_width(27);
    for _ in 0..rows {
        table.try_add_row(WRAPPED)?;
    }
    Ok(Outcome::of(succeeded(arrange_content(table))))
}
