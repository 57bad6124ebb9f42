//! The table of a report: a row for each test, and one for all of them.

use comfy_table::presets::UTF8_FULL_CONDENSED;
use comfy_table::{
    Attribute, Cell, CellAlignment, Color, ContentArrangement, IntoRow, Result, Row, Table,
};
use std::alloc::Global;

pub struct Test {
    pub name: &'static str,
    pub millis: u64,
    pub failure: Option<&'static str>,
}

/// Fills a new table with a header, a row for each test, and a last row with the sums. The only
/// error is `OutOfMemory`.
pub fn fill(report: &mut Table, alloc: Global, tests: &[Test]) -> Result<()> {
    report
        .load_style(UTF8_FULL_CONDENSED)
        .set_content_arrangement(ContentArrangement::Dynamic)
        .set_header(["Test", "Result", "Time", "Message"])?;
    for test in tests {
        let message = test.failure.unwrap_or("");
        let is_pass = test.failure.is_none();
        report.add_row(row(alloc, test.name, is_pass, test.millis, message)?)?;
    }
    report.add_row(sums(alloc, tests)?)?;
    if let Some(times) = report.column_mut(2) {
        times.set_cell_alignment(CellAlignment::Right);
    }
    Ok(())
}

// the last row: the number of tests, PASS if all tests passed, the total time, and the number of
// failures
fn sums(alloc: Global, tests: &[Test]) -> Result<Row> {
    let mut millis: u64 = 0;
    let mut failed: usize = 0;
    for test in tests {
        millis = millis.saturating_add(test.millis);
        if test.failure.is_some() {
            failed = failed.saturating_add(1);
        }
    }
    let name = format!(in alloc; "{} tests", tests.len())?;
    let message = format!(in alloc; "{failed} failed")?;
    row(alloc, &name, failed == 0, millis, &message)
}

// a row of the report, which has at most three lines
fn row(alloc: Global, name: &str, is_pass: bool, millis: u64, message: &str) -> Result<Row> {
    let time = format!(in alloc; "{}.{:03} s", millis / 1000, millis % 1000)?;
    let mut row = (name, result(alloc, is_pass)?, time, message).into_row(alloc)?;
    row.max_height(3);
    Ok(row)
}

fn result(alloc: Global, is_pass: bool) -> Result<Cell> {
    if is_pass {
        return Ok(Cell::new(alloc, "PASS")?.fg(Color::Green));
    }
    let cell = Cell::new(alloc, "FAIL")?.fg(Color::Red);
    cell.add_attribute(Attribute::Bold)
}
