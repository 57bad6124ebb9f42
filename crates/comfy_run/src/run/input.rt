//! The table of a text: the first line is the header, and the other lines are rows.

ghost use Rattle.std.specs.Prelude.{◌≡◌, IfOk};
ghost use Rattle.comfy_run.specs.Input.{input_table};
ghost use Rattle.comfy_table.specs.TableValue.{new_table};

use crate::rows::row_of;
use crate::settings::Settings;
use comfy_table::{Result, Table};
use std::alloc::Global;

/// Makes the table of `text`, with the settings in `settings`. The first line is the header, the
/// other lines are rows, and TABs separate cells. U+000B inside a cell means a line feed. A
/// carriage return before a line feed isn't part of a line. After a line feed at the end of the
/// text there is no further line, so the table of an empty text has no header and no rows. The only
/// error is `OutOfMemory`.
pub fn table_of(alloc: Global, text: &str, settings: Settings) -> Result<Table>
    ensures { IfOk result (λ table. table
        ≡ input_table settings.width settings.arrangement settings.style text.now) }
{
    let mut table = empty_table(alloc, settings);
    let mut lines = text.lines();
    let Some(first) = lines.next() else {
        return Ok(table);
    };
    let header = row_of(alloc, first, 0)?;
    let mut count = header.cell_count();
    table.try_set_header(header)?;
    for line in lines {
        let row = row_of(alloc, line, count)?;
        count = row.cell_count();
        table.try_add_row(row)?;
    }
    Ok(table)
}

// A table without header, rows and columns, with these settings.
fn empty_table(alloc: Global, settings: Settings) -> Table
    ensures { result ≡ record (new_table settings.style)
        { set_width = settings.width; arrangement = settings.arrangement } }
{
    let mut table = Table::new(alloc);
    table
        .load_style(settings.style)
        .set_content_arrangement(settings.arrangement);
    if let Some(width) = settings.width {
        table.set_width(width);
    }
    table
}
