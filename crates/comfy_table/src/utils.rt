//! Turns a table into drawn lines.

ghost use Rattle.std.specs.Prelude.{All, IsUtf8, ◌≡◌, List, IfOk, OnOk};
ghost use Rattle.comfy_table.specs.Arrangement.{IsDrawingOf};
ghost use Rattle.comfy_table.specs.Headline.{IsTableDrawing};
ghost use Rattle.comfy_parts.specs.Text.{Text};
ghost use Rattle.comfy_table.specs.Output.{with_lines};

pub mod arrangement;
pub mod formatting;

use crate::table::Table;
use crate::table::output::Lines;
use comfy_parts::Result;
pub use comfy_parts::content_split::ColumnDisplayInfo;
use formatting::{Output, PartEnds};

/// The drawn lines of a table, from the top: frame lines, and rows of aligned texts between
/// borders. `Table::lines` calls this function. The only error is `OutOfMemory`.
pub fn build_table(table: &Table) -> Result<Lines>
    ensures drawing { IfOk result (λ lines. IsDrawingOf table.now lines) }
    ensures headline { IfOk result (λ lines. IsTableDrawing table.now lines) }
    ensures characters { IfOk result (λ lines. All IsUtf8 lines) }
{
    let mut lines: Vec<String> = Vec::new(*table.columns.allocator());
    draw(table, &mut lines)?;
    Ok(Lines::new(lines))
}

// Appends all lines of a table to an output.
pub(crate) fn draw<O: Output>(table: &Table, output: &mut O) -> Result<()>
    ensures { OnOk result ((lines : List Text) × IsTableDrawing table.now lines
        × (O.kept output.new ≡ with_lines O.kept_of lines (O.kept output.old))) }
{
    let arranged = table.arranged()?;
    arranged.draw(table.rows.as_slice(), PartEnds::WHOLE, output)
}
