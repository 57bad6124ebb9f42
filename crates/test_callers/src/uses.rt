//! Short functions as a caller would write them, each with a claim that the contracts of the
//! libraries prove.

ghost use Rattle.std.specs.Prelude.{◌≡◌, ◌<◌, [], ◌∷◌, IfOk, None, OnErr, OnOk, Some, false, if◌then◌else◌, max, string_bytes};
ghost use Rattle.comfy_parts.specs.CellValue.{number_cell, plain_cell, plain_row, with_cell};
ghost use Rattle.comfy_parts.specs.Presets.{ascii_full};
ghost use Rattle.comfy_run.specs.Input.{RendersInput};
ghost use Rattle.comfy_table.specs.Arrangement.{IsDrawingOf};
ghost use Rattle.comfy_table.specs.Laws.{NoConstraints, least_total};
ghost use Rattle.comfy_table.specs.TableValue.{new_table, should_style, with_header, with_row};
ghost use Rattle.comfy_table.specs.Widths.{shown_count};
ghost use Rattle.test_callers.specs.Uses.{HasFrameOf, IsUnstyledDrawing};

pub mod changes;
pub mod drawing;
pub mod items;
pub mod parts;
pub mod running;
pub mod sequences;
pub mod texts;

use comfy_run::run::{MemorySink, MemorySource, RunError, Settings, run};
use comfy_table::presets::ASCII_FULL;
use comfy_table::{Cell, ContentArrangement, IntoRow, Lines, Row, Table};
use std::alloc::Global;

/// Makes a row of two cells with these texts.
pub fn pair(alloc: Global, first: &str, second: &str) -> comfy_table::Result<Row>
    ensures { IfOk result (λ row. row
        ≡ plain_row (plain_cell first.now ∷ plain_cell second.now ∷ [])) }
{
    [first, second].into_row(alloc)
}

/// Makes a row of two cells: a name, and a number in decimal.
pub fn counted(alloc: Global, name: String, count: u64) -> comfy_table::Result<Row>
    ensures { IfOk result (λ row. row
        ≡ plain_row (plain_cell (string_bytes name) ∷ number_cell count ∷ [])) }
{
    let mut row = Row::new(alloc);
    row.add_cell(Cell::new_owned(alloc, name)?)?
        .add_cell(Cell::new(alloc, count)?)?;
    Ok(row)
}

/// Adds a row of two texts. After `OutOfMemory` the table is unchanged.
pub fn add_pair(table: &mut Table, first: &str, second: &str) -> comfy_table::Result<()>
    ensures added { OnOk result (table.new
        ≡ with_row (plain_row (plain_cell first.now ∷ plain_cell second.now ∷ [])) table.old) }
    ensures unchanged { OnErr result (table.new ≡ table.old) }
{
    table.try_add_row([first, second])
}

/// Appends a cell with this text to a row, and returns true. If memory runs out, the row is
/// unchanged and false is returned.
pub fn appended(alloc: Global, row: &mut Row, text: &str) -> bool
    ensures { row.new ≡ (if result then with_cell (plain_cell text.now) row.old else row.old) }
{
    match Cell::new(alloc, text) {
        Ok(cell) => row.try_add_cell(cell).is_ok(),
        Err(_) => false,
    }
}

/// Draws a new table of a header and one row, and returns its lines.
pub fn drawn(alloc: Global, header: Row, row: Row) -> comfy_table::Result<Lines>
    ensures { IfOk result (λ lines.
        IsDrawingOf (with_row row (with_header header (new_table ascii_full))) lines) }
{
    let mut table = Table::new(alloc);
    table.set_header(header)?.add_row(row)?;
    table.lines()
}

/// Draws a table that fills a width. If a column is shown and no shown column has a constraint,
/// each frame line has as many characters as the greater of two numbers. One is the width. The
/// other is the number of characters of borders and paddings, plus one for each shown column.
pub fn drawn_over_width(table: &mut Table, width: u16) -> comfy_table::Result<Lines>
    ensures set { table.new ≡ record table.old {
      set_width = Some width;
      arrangement = ContentArrangement.DynamicFullWidth;
    } }
    ensures frame { IfOk result (λ lines. 0 < shown_count table.old → NoConstraints table.old
        → HasFrameOf (max width (least_total table.old)) table.new lines) }
{
    table
        .set_width(width)
        .set_content_arrangement(ContentArrangement::DynamicFullWidth);
    table.lines()
}

/// Draws a table. If no colours and attributes are written, and `custom_styling` is off, the
/// drawing is that of the table without colours and attributes.
pub fn drawn_unstyled(table: &Table) -> comfy_table::Result<Lines>
    ensures { IfOk result (λ lines. should_style table.now ≡ false
        → table.now.custom_styling ≡ false
        → IsUnstyledDrawing table.now lines) }
{
    table.lines()
}

/// Returns a sink in memory that holds the drawing of an input, without a width and in the style
/// `ASCII_FULL`. The error is `RunError::Write` if the drawing has more than `room` bytes.
pub fn output_for(alloc: Global, input: &[u8], room: usize) -> Result<MemorySink, RunError>
    ensures { IfOk result (λ sink. RendersInput None ContentArrangement.Disabled ascii_full
        input.now
        sink.bytes) }
{
    let mut source = MemorySource::new(input, 0);
    let mut sink = MemorySink::new(alloc, room, 0)?;
    let settings = Settings {
        width: None,
        arrangement: ContentArrangement::Disabled,
        style: ASCII_FULL,
    };
    run(alloc, &mut source, &mut sink, settings)?;
    Ok(sink)
}
