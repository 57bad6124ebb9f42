//! The summary, and the facts that are proved about it.

ghost use Rattle.std.specs.Prelude.{◌≡◌, ◌∷◌, [], IfOk, string_bytes};
ghost use Rattle.comfy_parts.specs.CellValue.{number_cell, plain_cell};
ghost use Rattle.example_proved.specs.Summary.{IsSummary, summary_table};

use comfy_table::presets::UTF8_FULL;
use comfy_table::{Cells, ContentArrangement, IntoCells, Lines, Result, Table};
use promises::laws::{
    frame_characters_make_plain_styles, numbers_are_printable, printable_texts_are_narrow,
    tables_of_rows_keep_the_promises,
};
use std::alloc::Global;

/// A measurement of a benchmark: its name, the duration of a run in nanoseconds, and the number of
/// runs.
#[derive(Drop)]
pub struct Measurement {
    pub name: String,
    pub nanos: u64,
    pub runs: u64,
}

// with this implementation, `add_rows` makes a row of each measurement
impl IntoCells for Measurement {
    ghost cells_of = { λ one.
        plain_cell (string_bytes one.name) ∷ number_cell one.nanos ∷ number_cell one.runs ∷ [] };

    fn into_cells(self, alloc: Global) -> Result<Cells> {
        (self.name, self.nanos, self.runs).into_cells(alloc)
    }
}

/// Returns the lines of a table of measurements, within a width in terminal columns. The contract
/// says when the lines keep to the width. The only error is `OutOfMemory`.
pub fn summary(alloc: Global, measurements: Vec<Measurement>, width: u16) -> Result<Lines>
    ensures { IfOk result (λ lines. IsSummary measurements.items width lines) }
{
    frame_characters_make_plain_styles();
    tables_of_rows_keep_the_promises();
    printable_texts_are_narrow();
    numbers_are_printable();
    let table = table_for(alloc, measurements, width)?;
    table.lines()
}

// a separate function, because its clause names the table
fn table_for(alloc: Global, measurements: Vec<Measurement>, width: u16) -> Result<Table>
    ensures { IfOk result (λ table. table ≡ summary_table width measurements.items) }
{
    let mut table = Table::new(alloc);
    table
        .load_style(UTF8_FULL)
        .set_content_arrangement(ContentArrangement::Dynamic)
        .set_width(width)
        .set_header(["Benchmark", "ns", "Runs"])?
        .add_rows(measurements)?;
    Ok(table)
}
