//! A drawing sends no commands to the terminal.

ghost use Rattle.std.specs.Prelude.{IfOk, string_bytes};
ghost use Rattle.promises.specs.Shown.{HasNoControls, IsHarmless};

use comfy_table::{Result, Table};

/// The drawing of a table as a text. If the shown texts, the truncation indicator and the style
/// have no control character, the drawing sends a terminal nothing but characters, line feeds,
/// colours and attributes. The only error is `OutOfMemory`.
pub fn harmless_text(table: &Table) -> Result<String>
    ensures { IfOk result (λ text. HasNoControls table.now → IsHarmless (string_bytes text)) }
{
    table.to_text()
}
