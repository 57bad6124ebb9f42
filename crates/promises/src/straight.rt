//! Straight edges: all lines of a drawing are equally wide in terminal columns. The conditions name
//! a *plain* frame (`HasPlainFrame`). Each character of its style and each delimiter adds one
//! terminal column, the truncation indicator adds its own width, and each shown column has a
//! padding on its left. A new table has a plain frame, with any preset.

ghost use Rattle.std.specs.Prelude.{IfOk};
ghost use Rattle.promises.specs.Straight.{AreShownStraight, AreStraight, AreStraightWhereCharactersFit, AreStraightWhole};

use comfy_table::{ArrangedTable, Lines, Result, Table};

/// The drawn lines of a table. The only error is `OutOfMemory`.
///
/// All lines take the same number of terminal columns, for every arrangement, width, constraint and
/// height, under these conditions:
///
/// - Each character of each text takes at most one terminal column, as `characters_fit(line, 1)`
///   tests.
/// - The frame is plain (`HasPlainFrame`), as that of a new table in any preset.
/// - No colours and attributes are written, and `custom_styling` is off.
pub fn straight_lines(table: &Table) -> Result<Lines>
    ensures { IfOk result (λ lines. AreStraight table.now lines) }
{
    table.lines()
}

/// The drawn lines of a table. The only error is `OutOfMemory`.
///
/// All lines take the same number of terminal columns, for texts of every script, under these
/// conditions:
///
/// - The arrangement is `Disabled`, no shown column has a constraint, no row has a `max_height`,
///   and no text line takes more than 65535 terminal columns.
/// - The frame is plain (`HasPlainFrame`), as that of a new table in any preset.
/// - No colours and attributes are written, and `custom_styling` is off.
pub fn straight_whole_lines(table: &Table) -> Result<Lines>
    ensures { IfOk result (λ lines. AreStraightWhole table.now lines) }
{
    table.lines()
}

/// The drawn lines of a table. The `ArrangedTable` that is returned with the lines has the widths
/// of the columns. The only error is `OutOfMemory`.
///
/// All lines take the same number of terminal columns, for texts of every script and for every
/// width, under these conditions:
///
/// - Each character of a shown text has room in its column, as `characters_fit` tests for a text
///   line and the column's content width.
/// - The frame is plain (`HasPlainFrame`), as that of a new table in any preset.
/// - No colours and attributes are written, and `custom_styling` is off.
pub fn straight_fitting_lines(table: &Table) -> Result<(ArrangedTable<&Table>, Lines)>
    ensures { IfOk result (λ drawn. AreStraightWhereCharactersFit table.now drawn.0.infos drawn.1) }
{
    let arranged = table.arranged()?;
    let lines = table.lines()?;
    Ok((arranged, lines))
}

/// The drawn lines of a table. The only error is `OutOfMemory`.
///
/// All lines show the same number of terminal columns on a terminal, even with colours and
/// attributes, under these conditions:
///
/// - Each character of each text takes at most one terminal column, as `characters_fit(line, 1)`
///   tests.
/// - The frame is plain (`HasPlainFrame`), as that of a new table in any preset.
/// - Shown texts, truncation indicator and style have no control character.
pub fn straight_styled_lines(table: &Table) -> Result<Lines>
    ensures { IfOk result (λ lines. AreShownStraight table.now lines) }
{
    table.lines()
}
