//! Finds the setting that a drawing function refuses.

ghost use Rattle.std.specs.Prelude.{◌≡◌, ◌≢◌, List, None};
ghost use Rattle.comfy_parts.specs.Text.{Text};
ghost use Rattle.comfy_c.specs.CellCalls.{IsUnknown};
ghost use Rattle.comfy_c.specs.Refused.{refused_of_cells, refused_of_rows};
ghost use Rattle.comfy_c.specs.RowCalls.{layout_for};

use crate::cells_draw::CONTENT_WIDTHS;
use crate::cells_numbers::LookNumbers;
use crate::cells_settings::CellsSettings;
use crate::frame::style_for;
use crate::rows_columns::{RowsColumn, have_sides};
use crate::rows_settings::{RowsSettings, expansion_at, separators_at};

/// Returns a number for the setting that `comfy_rows_draw` refuses with any texts, or 0 if there is
/// no such setting.
///
/// | Returned | Meaning |
/// |---|---|
/// | 0 | none; `comfy_rows_draw` may still refuse columns that don't fit the rows |
/// | 1 | `style` has no meaning |
/// | 2 | `row_lines` has no meaning |
/// | 3 | `expansion` has no meaning |
/// | 4 | a column's `side` has no meaning |
/// | 5 | looks, heights or settings of columns can't be combined with Markdown or expanded rows |
///
/// A table for Markdown can't have looks, heights, centred columns, or columns with a width or with
/// paddings other than 1. Nor can a table whose rows are expanded (each row is a table of its own),
/// or may be expanded. For such settings 5 is returned. If several settings are refused, the
/// smallest of the numbers is returned. Texts, lengths and counts have no influence on the result.
#[unsafe(no_mangle)]
pub extern "C" fn comfy_rows_refused(
    looks: &[LookNumbers],
    heights: &[usize],
    columns: &[RowsColumn],
    settings: &RowsSettings,
) -> u32
    ensures which { result ≡ refused_of_rows settings.now looks.now heights.now columns.now }
    ensures refused { result ≢ 0 → (rows : List (List Text))
        → layout_for settings.now looks.now heights.now columns.now rows ≡ None }
{
    if style_for(settings.style, &settings.frame).is_none() {
        return 1;
    }
    if separators_at(settings.row_lines).is_none() {
        return 2;
    }
    if expansion_at(settings.expansion).is_none() {
        return 3;
    }
    if !have_sides(columns) {
        return 4;
    }
    if !settings.can_have(looks, heights, columns) {
        return 5;
    }
    0
}

/// Returns a number for the setting that `comfy_cells_draw` refuses, or 0 if there is no such
/// setting.
///
/// | Returned | Meaning |
/// |---|---|
/// | 0 | none |
/// | 1 | `style` has no meaning |
/// | 6 | `form` has no meaning |
/// | 7 | `arrangement` has no meaning |
///
/// If several settings have no meaning, the number of the first is returned, in the order `form`,
/// `style`, `arrangement`.
#[unsafe(no_mangle)]
pub extern "C" fn comfy_cells_refused(settings: &CellsSettings) -> u32
    ensures which { result ≡ refused_of_cells settings.now }
    ensures refused { result ≢ 0 → IsUnknown settings.now }
{
    if settings.form > CONTENT_WIDTHS {
        return 6;
    }
    if style_for(settings.style, &settings.frame).is_none() {
        return 1;
    }
    if settings.content_arrangement().is_none() {
        return 7;
    }
    0
}
