//! Lines are at most as wide as the width that was set, or exactly as wide.

ghost use Rattle.std.specs.Prelude.{IfOk};
ghost use Rattle.promises.specs.Widths.{FillWidth, KeepToWidth, KeepToWidthWhereCharactersFit};

use comfy_table::{ArrangedTable, ContentArrangement, Lines, Result, Table};

/// Sets the width and the arrangement `Dynamic` of a table, and draws it. The only error is
/// `OutOfMemory`, after which the width and the arrangement are set too.
///
/// No line takes more terminal columns than the greater of two numbers: `width`, and 1 + s. Here s
/// is the sum of left padding + right padding + 2 over all shown columns. The 2 is one border and
/// one terminal column for texts. This bound holds under these conditions:
///
/// - Each character of each text takes at most one terminal column, as `characters_fit(line, 1)`
///   tests.
/// - A column is shown, and no shown column has a constraint.
/// - The frame is plain (`HasPlainFrame`), as that of a new table in any preset.
/// - No colours and attributes are written, and `custom_styling` is off.
pub fn lines_within(table: &mut Table, width: u16) -> Result<Lines>
    ensures { IfOk result (λ lines. KeepToWidth table.old width lines) }
{
    table
        .set_width(width)
        .set_content_arrangement(ContentArrangement::Dynamic);
    table.lines()
}

/// Sets the width and the arrangement `DynamicFullWidth` of a table, and draws it. The only error
/// is `OutOfMemory`, after which the width and the arrangement are set too.
///
/// Each line takes exactly `width` terminal columns, under the conditions of `lines_within` and one
/// more: `width` is at least 1 + s, for the sum s of `lines_within`.
pub fn lines_over(table: &mut Table, width: u16) -> Result<Lines>
    ensures { IfOk result (λ lines. FillWidth table.old width lines) }
{
    table
        .set_width(width)
        .set_content_arrangement(ContentArrangement::DynamicFullWidth);
    table.lines()
}

/// Draws a table. The `ArrangedTable` that is returned with the lines has the widths of the
/// columns. The only error is `OutOfMemory`.
///
/// No line takes more terminal columns than the greater of two numbers: the width that `set_width`
/// has set, and 1 + s. Here s is the sum of left padding + right padding + 2 over all shown
/// columns. This bound holds for texts of every script under these conditions:
///
/// - A width is set, and the arrangement is `Dynamic`. This function sets neither.
/// - A column is shown, and no shown column has a constraint.
/// - Each character of a shown text has room in its column, as `characters_fit` tests for a text
///   line and the column's content width.
/// - The frame is plain (`HasPlainFrame`), as that of a new table in any preset.
/// - No colours and attributes are written, and `custom_styling` is off.
pub fn fitting_lines_within(table: &Table) -> Result<(ArrangedTable<&Table>, Lines)>
    ensures { IfOk result (λ drawn. KeepToWidthWhereCharactersFit table.now drawn.0.infos drawn.1) }
{
    let arranged = table.arranged()?;
    let lines = table.lines()?;
    Ok((arranged, lines))
}
